// The open collections, at most 256 of them.
ghost use Rattle.std.specs.Prelude.{◌≤◌};

mod opens;

use document::limits::MAX_OPEN;

// An open collection: its node's number, how many children it has so far, and whether it is a mapping.
#[derive(Clone, Copy, PartialEq, Eq, Debug, Default)]
pub struct Frame {
    pub node: u32,
    pub children: u32,
    pub mapping: bool,
}

// The outermost stands first; those from `count` on are not open.
// A form this project keeps: a table of a fixed size in a plain inner struct, since a library uses no heap.
#[derive(Drop)]
pub struct Frames {
    all: [Frame; MAX_OPEN],
    count: usize,
    ghost few: { count ≤ 256 },
}
