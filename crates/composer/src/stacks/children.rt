// Children: they wait until their collection ends.
ghost use Rattle.composer.specs.Holding.{Does, state_of, spaces_of};
ghost use Rattle.composer.specs.Steps.{adding, adding_newest, opening};

use super::Tables;
use crate::frames::Frame;
use crate::refusal::Refusal;
use model::{Mark, NodeKind};

impl<'a> Tables<'a> {
    // 29: the node of that number becomes a child of the innermost open collection; the root is no child.
    pub fn load_node_add(&mut self, number: u32, start: Mark) -> Result<(), Refusal>
        ensures { Does (adding (spaces_of self.old) start number (state_of self.old)) self.old result self.new }
    {
        if self.frames.len() == 0 {
            return Ok(());
        }
        let spaces = self.spaces();
        let waiting = self.waiting.len();
        let placed = self.links.len();
        if waiting >= spaces.waiting || placed + waiting >= spaces.links {
            return Err(Refusal::ChildrenFull { at: start });
        }
        self.waiting.push(number).unwrap();
        self.frames.count_child();
        Ok(())
    }

    // The same for the newest node.
    pub fn add_newest(&mut self, start: Mark) -> Result<(), Refusal>
        ensures { Does (adding_newest (spaces_of self.old) start (state_of self.old)) self.old result self.new }
    {
        let newest = self.nodes.len() as u32;
        self.load_node_add(newest, start)
    }

    // 30: the newest node is open.
    pub fn begin(&mut self, kind: NodeKind, start: Mark) -> Result<(), Refusal>
        ensures { Does (opening kind start (state_of self.old)) self.old result self.new }
    {
        let frame = Frame {
            node: self.nodes.len() as u32,
            children: 0,
            mapping: matches!(kind, NodeKind::Mapping),
        };
        self.frames
            .push(frame)
            .map_err(|_| Refusal::TooDeep { at: start })
    }
}
