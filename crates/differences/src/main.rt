// The differences from the Rust original and from YAML 1.1 that docs/DIFFERENCES.md names: each line of the file `stdin` beside this folder has a name and
// an input, and what this library answers must be what the file `stdout` says.
#![tactic(auto)]

use transcript::run_lists;

fn main(rt: HostRuntime) -> anyhow::Result<()> {
    Ok(run_lists(&rt)?)
}
