// What the program reads and where it writes.
use std::fmt::Display;
use std::fs;
use std::io::{Read, Write};

// The whole input: a file, or standard input where there is none or it is called -.
pub fn read_input(rt: &HostRuntime, file: Option<&str>) -> anyhow::Result<Vec<u8>> {
    match file {
        Some(path) if path != "-" => Ok(fs::read(rt, path)?),
        _ => {
            let mut input = Vec::new(rt.alloc());
            rt.stdin().read_to_end(&mut input)?;
            Ok(input)
        }
    }
}

// Writes events to a file and the summary to standard output, or without a file events to standard output and the summary to standard error.
pub fn write_output(
    rt: &HostRuntime,
    out: Option<&str>,
    events: &[u8],
    summary: impl Display + Drop,
) -> anyhow::Result<()> {
    match out {
        Some(path) => {
            fs::write(rt, path, events)?;
            rt.print(summary)?;
        }
        None => {
            rt.stdout().write_all(events)?;
            rt.eprint(summary)?;
        }
    }
    Ok(())
}
