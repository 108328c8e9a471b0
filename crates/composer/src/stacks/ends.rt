// The end of a collection.
ghost use Rattle.composer.specs.Holding.{Does, state_of};
ghost use Rattle.composer.specs.Steps.{closing};

use super::Tables;
use super::nodes::link_node;
use crate::refusal::Refusal;
use model::Mark;

impl<'a> Tables<'a> {
    // The innermost open collection ends: its children are placed after the links already placed.
    pub fn load_collection_end(&mut self, end: Mark) -> Result<(), Refusal>
        ensures { Does (closing (state_of self.old).frames end (state_of self.old)) self.old result self.new }
    {
        let Some(frame) = self.frames.top() else {
            return Ok(());
        };
        let first = self.links.len() as u32;
        let waiting = self.waiting.entries();
        let from = waiting.len() - frame.children as usize;
        self.links.extend(&waiting[from..]).unwrap();
        self.waiting.shorten(from);
        link_node(&mut self.nodes, frame.node, first, frame.children, end);
        self.frames.pop();
        Ok(())
    }
}
