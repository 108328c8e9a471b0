// Nodes: one more, with its texts.
ghost use Rattle.std.specs.Prelude.{◌≡◌, ◌≤◌, length};
ghost use Rattle.model.specs.Graph.{numbered};
ghost use Rattle.tables.specs.Stacks.{contents};
ghost use Rattle.composer.specs.Holding.{Does, state_of, spaces_of, Relinked};
ghost use Rattle.composer.specs.Steps.{noding_with, value_place, value_for};

use super::Tables;
use crate::refusal::Refusal;
use document::Node;
use model::{Mark, NodeKind};
use tables::Stack;

// Where the value begins; a collection has none. Apart from `value_for`, as the value is asked before its place is known.
fn value_place(kind: NodeKind, place: u32) -> u32
    ensures { result ≡ value_place kind place }
{
    match kind {
        NodeKind::Scalar => place,
        NodeKind::Sequence | NodeKind::Mapping => 0,
    }
}

// The value of a node; a collection has none.
pub fn value_for<'b>(kind: NodeKind, value: &'b [u8]) -> &'b [u8]
    ensures { result.now ≡ value_for kind value.now }
{
    match kind {
        NodeKind::Scalar => value,
        NodeKind::Sequence | NodeKind::Mapping => &[],
    }
}

// The node of a number, if there is one. The numbers stand in packed records, where 0 names none.
pub fn node_at(nodes: &Stack<'_, Node>, number: u32) -> Option<Node>
    ensures { result ≡ numbered (contents nodes.now) number }
{
    let place = number.checked_sub(1)?;
    nodes.get(place as usize)
}

// The node of a number gets its links and its end.
pub fn link_node(nodes: &mut Stack<'_, Node>, number: u32, first: u32, count: u32, end: Mark)
    ensures { Relinked nodes.old number first count end nodes.new }
{
    if let Some(node) = node_at(nodes, number) {
        let linked = Node {
            first_link: first,
            link_count: count,
            end,
            ..node
        };
        nodes.replace(number as usize - 1, linked).unwrap();
    }
}

impl<'a> Tables<'a> {
    // 25 and 26: a node with this tag and this value. Seven words, each a field of the node that is made; a struct for them would be that node again.
    pub fn load_node(
        &mut self,
        kind: NodeKind,
        style: u8,
        tag: &[u8],
        value: &[u8],
        start: Mark,
        end: Mark,
    ) -> Result<(), Refusal>
        requires tag { length tag.now ≤ 256 }
        requires value { length value.now ≤ 4096 }
        ensures { Does (noding_with (spaces_of self.old) kind style tag.now value.now start end (state_of self.old)) self.old result self.new }
    {
        let spaces = self.spaces();
        if self.nodes.len() >= spaces.nodes {
            return Err(Refusal::NodesFull { at: start });
        }
        let place = self.text.len();
        let value_start = place + tag.len();
        if value_start + value.len() > spaces.text {
            return Err(Refusal::TextFull { at: start });
        }
        let node = Node {
            kind: u8::from(kind),
            style,
            tag_length: tag.len() as u16,
            value_length: value.len() as u16,
            filler: 0,
            tag_start: place as u32,
            value_start: value_place(kind, value_start as u32),
            first_link: 0,
            link_count: 0,
            start,
            end,
        };
        self.text.extend(tag).unwrap();
        self.text.extend(value).unwrap();
        self.nodes.push(node).unwrap();
        Ok(())
    }
}
