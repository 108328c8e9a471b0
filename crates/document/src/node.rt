// The record of a node, as it stands in a table. Its bytes are all told, so that an empty table is all zero.
// A form this project keeps: integers alone, as C hands the record in; `kind` is read as a NodeKind.
ghost use Rattle.std.specs.Prelude.{◌≡◌};
ghost use Rattle.document.specs.Empty.{empty_node};

use model::{Mark, NodeKind};
use tables::Empty;

// Links and texts are given by where they begin in their table, from 0, and by how many entries they have.
// Fields foreign to the kind are 0: a scalar's links, a collection's value.
#[repr(C)]
#[derive(Clone, Copy, PartialEq, Eq, Debug, Default)]
pub struct Node {
    // 1 scalar, 2 sequence, 3 mapping; 0 only in an empty entry
    pub kind: u8,
    pub style: u8,
    pub tag_length: u16,
    pub value_length: u16,
    // fills the record up, and means nothing
    pub filler: u16,
    pub tag_start: u32,
    pub value_start: u32,
    // a mapping's links are key, value, key, value
    pub first_link: u32,
    pub link_count: u32,
    pub start: Mark,
    pub end: Mark,
}

impl Node {
    ghost use Rattle.std.specs.Prelude.{◌==◌};
    ghost use Rattle.model.specs.Graph.{node_number};

    // Whether it is of that kind.
    pub(crate) fn is(&self, kind: NodeKind) -> bool
        ensures { result ≡ (self.now.kind == node_number kind) }
    {
        self.kind == u8::from(kind)
    }
}

impl Empty for Node {
    ghost empty = { empty_node };

    fn none() -> Node {
        Node::default()
    }
}
