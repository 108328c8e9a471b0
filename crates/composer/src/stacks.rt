// The five tables of a document that is being composed, each as a stack, and the open collections.
ghost use Rattle.std.specs.Prelude.{◌≡◌, ◌+◌, ◌≤◌, length, min};
ghost use Rattle.tables.specs.Stacks.{contents, room_of};
ghost use Rattle.composer.specs.Opens.{opens, children_of};

mod anchors;
mod children;
mod ends;
mod making;
mod nodes;
mod steps;

use crate::anchor::Anchor;
use crate::frames::Frames;
use document::Node;
use tables::Stack;

// Nodes and text are within their limits, and so are the links even once the waiting children are placed;
// the children of the open collections are those that wait.
#[derive(Drop)]
pub struct Tables<'a> {
    nodes: Stack<'a, Node>,
    links: Stack<'a, u32>,
    text: Stack<'a, u8>,
    anchors: Stack<'a, Anchor>,
    // children whose collection has not ended, in order
    waiting: Stack<'a, u32>,
    frames: Frames,
    ghost few_nodes: { length (contents nodes) ≤ 4096 },
    ghost few_bytes: { length (contents text) ≤ 65536 },
    ghost few_links: { length (contents links) + length (contents waiting) ≤ min (room_of links) 16384 },
    ghost all_wait: { children_of (opens frames) ≡ length (contents waiting) },
}

// How much of each table is used: the smaller of its length and its limit.
#[derive(Clone, Copy, PartialEq, Eq, Debug)]
pub struct Spaces {
    pub nodes: usize,
    pub links: usize,
    pub text: usize,
    pub anchors: usize,
    pub waiting: usize,
}
