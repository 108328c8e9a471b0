// The whole of a program that tells lists, for a `main` that answers anyhow's error: want of memory is told in the allocator's words, which an error of io does not keep.
use crate::listing::tell_lists;
use std::io::{Read, Write};

// Reads lists from standard input, and tells on standard output what they come to.
pub fn run_lists(rt: &HostRuntime) -> anyhow::Result<()> {
    let mut input = Vec::new(rt.alloc());
    rt.stdin().read_to_end(&mut input)?;
    let told = tell_lists(rt.alloc(), input.as_slice())?;
    rt.stdout().write_all(told.as_slice())?;
    Ok(())
}
