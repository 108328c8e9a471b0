// What a document is loaded into.
ghost use Rattle.std.specs.Prelude.{◌≡◌, IfOk};
ghost use Rattle.composer.specs.Holding.{lengths_of, state_of};
ghost use Rattle.composer.specs.State.{blank};
ghost use Rattle.room.specs.Rooms.{lengths_in, FitsEveryLoad};

use composer::{Anchor, Tables};
use document::Node;
use document::limits::{MAX_ANCHORS, MAX_LINKS, MAX_NODES, MAX_TEXT, MAX_WAITING};
use std::alloc::{AllocError, Global};
use tables::Empty;

#[derive(Drop)]
pub struct LoadRoom {
    nodes: Vec<Node>,
    links: Vec<u32>,
    text: Vec<u8>,
    anchors: Vec<Anchor>,
    waiting: Vec<u32>,
}

impl LoadRoom {
    // Memory for the largest document within the limits.
    pub fn new(heap: Global) -> Result<LoadRoom, AllocError>
        ensures { IfOk result FitsEveryLoad }
    {
        Ok(LoadRoom {
            nodes: vec![in heap; Node::none(); MAX_NODES]?,
            links: vec![in heap; 0u32; MAX_LINKS]?,
            text: vec![in heap; 0u8; MAX_TEXT]?,
            anchors: vec![in heap; Anchor::none(); MAX_ANCHORS]?,
            waiting: vec![in heap; 0u32; MAX_WAITING]?,
        })
    }

    // Tables on all of it, in which nothing is held or open yet.
    pub fn tables(&mut self) -> Tables<'_>
        ensures full { lengths_of result ≡ lengths_in self.old }
        ensures unused { state_of result ≡ blank }
    {
        Tables::new(
            self.nodes.as_mut_slice(),
            self.links.as_mut_slice(),
            self.text.as_mut_slice(),
            self.anchors.as_mut_slice(),
            self.waiting.as_mut_slice(),
        )
    }
}
