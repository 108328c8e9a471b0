// The program: reads the command line, does what it asks for, and tells what it did.
#![tactic(auto)]

mod checking;
mod command;
mod converting;
mod files;
mod form;
mod loading;
mod outline;
mod redumping;
mod refusing;
mod showing;

use checking::run_check;
use command::{Command, USAGE, Writing, parse};
use converting::run_convert;
use redumping::run_redump;
use showing::run_show;
use std::env;
use std::process::ExitCode;

// Work that was refused, or a command line that is none, ends the program with status 1; what there is to say has been said. A failed read or
// write, or a want of memory, is an error, which the runtime prints.
fn main(rt: HostRuntime) -> anyhow::Result<ExitCode> {
    let arguments: Vec<String> = env::args(&rt)?.collect(rt.alloc())?;
    let command = match parse(arguments.as_slice()) {
        Ok(command) => command,
        Err(why) => {
            eprint!(rt; "kelfhoam: {why}\n{USAGE}")?;
            return Ok(ExitCode::FAILURE);
        }
    };
    match command {
        Command::Help => {
            print!(rt; "{USAGE}")?;
            Ok(ExitCode::SUCCESS)
        }
        Command::Convert { to, out, file } => run_convert(&rt, to, out, file),
        Command::Redump(Writing { to, out, file }) => run_redump(&rt, to, out, file),
        Command::Check { file } => run_check(&rt, file),
        Command::Show { file } => run_show(&rt, file),
    }
}
