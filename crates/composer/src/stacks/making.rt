// Making the tables, emptying them, and reading them.
ghost use Rattle.std.specs.Prelude.{◌≡◌, length};
ghost use Rattle.tables.specs.Stacks.{contents};
ghost use Rattle.composer.specs.Holding.{Standing, spaces_of, Emptied, Forgot};

use super::{Spaces, Tables};
use crate::anchor::Anchor;
use crate::frames::Frames;
use document::Node;
use document::limits::{MAX_ANCHORS, MAX_LINKS, MAX_NODES, MAX_TEXT, MAX_WAITING, space};
use tables::Stack;

impl<'a> Tables<'a> {
    // Stands over the five tables, which stay as they are.
    pub fn new(
        nodes: &'a mut [Node],
        links: &'a mut [u32],
        text: &'a mut [u8],
        anchors: &'a mut [Anchor],
        waiting: &'a mut [u32],
    ) -> Tables<'a>
        ensures { Standing nodes.entry links.entry text.entry anchors.entry waiting.entry result }
    {
        Tables {
            nodes: Stack::new(nodes),
            links: Stack::new(links),
            text: Stack::new(text),
            anchors: Stack::new(anchors),
            waiting: Stack::new(waiting),
            frames: Frames::new(),
        }
    }

    // How much of each table is used: a line for each, as each has a limit of its own.
    pub fn spaces(&self) -> Spaces
        ensures { result ≡ spaces_of self.now }
    {
        Spaces {
            nodes: space(self.nodes.space(), MAX_NODES),
            links: space(self.links.space(), MAX_LINKS),
            text: space(self.text.space(), MAX_TEXT),
            anchors: space(self.anchors.space(), MAX_ANCHORS),
            waiting: space(self.waiting.space(), MAX_WAITING),
        }
    }

    // Empties all five tables, whole.
    pub fn wipe(&mut self)
        ensures { Emptied self.old self.new }
    {
        self.nodes.wipe();
        self.links.wipe();
        self.text.wipe();
        self.anchors.wipe();
        self.waiting.wipe();
        self.frames.clear();
    }

    // Forgets the anchors and whatever waits or is open; the document itself stays.
    pub fn forget(&mut self)
        ensures { Forgot self.old self.new }
    {
        self.anchors.shorten(0);
        self.waiting.shorten(0);
        self.frames.clear();
    }

    // How many nodes there are.
    pub fn node_count(&self) -> usize
        ensures { result ≡ length (contents self.now.nodes) }
    {
        self.nodes.len()
    }

    // How many links are placed.
    pub fn link_count(&self) -> usize
        ensures { result ≡ length (contents self.now.links) }
    {
        self.links.len()
    }

    // How many bytes of text there are.
    pub fn text_count(&self) -> usize
        ensures { result ≡ length (contents self.now.text) }
    {
        self.text.len()
    }

    // How many anchors there are.
    pub fn anchor_count(&self) -> usize
        ensures { result ≡ length (contents self.now.anchors) }
    {
        self.anchors.len()
    }

    // The table of nodes.
    pub fn nodes(&self) -> &[Node]
        ensures { result.now ≡ self.now.nodes.items.now }
    {
        self.nodes.table()
    }

    // The table of links.
    pub fn links(&self) -> &[u32]
        ensures { result.now ≡ self.now.links.items.now }
    {
        self.links.table()
    }

    // The table of text.
    pub fn text(&self) -> &[u8]
        ensures { result.now ≡ self.now.text.items.now }
    {
        self.text.table()
    }
}
