// The whole of a program that tells lists.
use crate::listing::tell_lists;
use std::io::{self, Read, Write};

// Reads lists from standard input, and tells on standard output what they come to.
pub fn answer(rt: &HostRuntime) -> io::Result<()> {
    let mut input = Vec::new(rt.alloc());
    rt.stdin().read_to_end(&mut input)?;
    let told = tell_lists(rt.alloc(), input.as_slice())?;
    rt.stdout().write_all(told.as_slice())
}
