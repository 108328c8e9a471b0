// Many lists, one a line: each is told under its number, or under the name that stands before it on the line.
use crate::hex::bytes_of;
use crate::telling::Desk;
use std::alloc::{AllocError, Global};
use std::io::Write;

// The name before a colon, and what follows it. A line without a colon has no name, and one of no bytes is none, so that it is a slice and no option.
fn named(line: &[u8]) -> (&[u8], &[u8]) {
    match line.iter().position(|b| *b == b':') {
        Some(end) => line.split_at(end),
        None => (&[], line),
    }
}

// The line in front of what a list comes to. A write into a Vec fails only for want of memory.
fn put_title(out: &mut Vec<u8>, name: &[u8], number: usize) -> Result<(), AllocError> {
    if name.is_empty() {
        return writeln!(out, "list {number}").map_err(|_| AllocError);
    }
    out.extend_from_slice(b"list ")?;
    out.extend_from_slice(name)?;
    out.push(b'\n')?;
    Ok(())
}

// What every line of the input comes to; bytes past the last line's end are no line.
pub fn tell_lists(heap: Global, input: &[u8]) -> Result<Vec<u8>, AllocError> {
    let mut out = Vec::new(heap);
    let mut desk = Desk::new(heap)?;
    let lines = input.split_inclusive(|b| *b == b'\n');
    for (i, line) in lines.enumerate() {
        let Some(line) = line.strip_suffix(b"\n") else {
            break;
        };
        let (name, digits) = named(line);
        put_title(&mut out, name, i.saturating_add(1))?;
        let list = bytes_of(heap, digits)?;
        desk.tell_list(&mut out, list.as_slice())?;
    }
    Ok(out)
}
