// Reading a Document. Nodes have numbers from 1, and their links places from 1; what isn't there is absent.
ghost use Rattle.std.specs.Prelude.{◌≡◌, ◌+◌, ◌≤◌, length};
ghost use Rattle.model.specs.Graph.{root as root_of};
ghost use Rattle.document.specs.Books.{book_of};
ghost use Rattle.document.specs.Questions.{part as part_of};
ghost use Rattle.document.specs.Reads.{seen, NodeRead, kind_at, style_at, tag_at, value_at, links_at, count_at, child_at, start_at, end_at};
ghost use Rattle.document.specs.Sound.{SoundBook};

use super::Document;
use crate::node::Node;
use model::{Mark, NodeKind};

// The part of a table that begins at a place and has so many entries.
fn part<T>(table: &[T], start: usize, count: usize) -> &[T]
    requires { start + count ≤ length table.now }
    ensures { result.now ≡ part_of table.now start count }
{
    &table[start..start + count]
}

impl<'a> Document<'a> {
    // How many nodes it has.
    pub fn len(&self) -> usize
        ensures { result ≡ length (book_of self.now).nodes }
    {
        self.nodes.len()
    }

    // Whether its start is implicit.
    pub fn start_implicit(&self) -> bool
        ensures { result ≡ (book_of self.now).start_implicit }
    {
        self.start_implicit
    }

    // Whether its end is implicit.
    pub fn end_implicit(&self) -> bool
        ensures { result ≡ (book_of self.now).end_implicit }
    {
        self.end_implicit
    }

    // The number of its root.
    pub fn root(&self) -> Option<u32>
        ensures { result ≡ root_of (book_of self.now).nodes }
    {
        self.nodes.first().map(|_| 1)
    }

    // The record of a node.
    pub fn node(&self, number: u32) -> Option<&'a Node>
        ensures { NodeRead self.now number result }
    {
        let place = (number as usize).checked_sub(1)?;
        self.nodes.get(place)
    }

    // What a node is.
    pub fn kind(&self, number: u32) -> Option<NodeKind>
        ensures { result ≡ kind_at self.now number }
    {
        NodeKind::try_from(self.node(number)?.kind).ok()
    }

    // The style of a node.
    pub fn style(&self, number: u32) -> Option<u8>
        ensures { result ≡ style_at self.now number }
    {
        self.node(number).map(|node| node.style)
    }

    // The bytes of a node's tag.
    pub fn tag(&self, number: u32) -> Option<&'a [u8]>
        ensures { seen result ≡ tag_at self.now number }
    {
        let node = self.node(number)?;
        Some(part(self.text, node.tag_start as usize, node.tag_length as usize))
    }

    // The bytes of a node's value.
    pub fn value(&self, number: u32) -> Option<&'a [u8]>
        ensures { seen result ≡ value_at self.now number }
    {
        let node = self.node(number)?;
        Some(part(
            self.text,
            node.value_start as usize,
            node.value_length as usize,
        ))
    }

    // The numbers of the nodes that a node's links name.
    pub fn links(&self, number: u32) -> Option<&'a [u32]>
        ensures { seen result ≡ links_at self.now number }
    {
        let node = self.node(number)?;
        Some(part(
            self.links,
            node.first_link as usize,
            node.link_count as usize,
        ))
    }

    // How many links a node has.
    pub fn child_count(&self, number: u32) -> Option<u32>
        ensures { result ≡ count_at self.now number }
    {
        self.node(number).map(|node| node.link_count)
    }

    // The number of the node that a link names.
    pub fn child(&self, number: u32, place: u32) -> Option<u32>
        ensures { result ≡ child_at self.now number place }
    {
        let i = (place as usize).checked_sub(1)?;
        self.links(number)?.get(i).copied()
    }

    // Where a node begins in the input.
    pub fn start(&self, number: u32) -> Option<Mark>
        ensures { result ≡ start_at self.now number }
    {
        self.node(number).map(|node| node.start)
    }

    // Where a node ends in the input.
    pub fn end(&self, number: u32) -> Option<Mark>
        ensures { result ≡ end_at self.now number }
    {
        self.node(number).map(|node| node.end)
    }

    // What holds of every Document, for those who prove things about one: it does nothing.
    pub fn sound(&self)
        ensures { SoundBook (book_of self.now) }
    {}
}
