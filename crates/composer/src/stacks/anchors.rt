// Anchors: each names one node of the document.
ghost use Rattle.std.specs.Prelude.{◌≡◌};
ghost use Rattle.model.specs.Graph.{numbered};
ghost use Rattle.tables.specs.Stacks.{contents};
ghost use Rattle.composer.specs.Holding.{Does, state_of, spaces_of};
ghost use Rattle.composer.specs.Steps.{registering, start_of};

use super::Tables;
use super::nodes::node_at;
use crate::names::{anchor_entry, find};
use crate::placed::Placed;
use crate::refusal::Refusal;
use model::Mark;

impl<'a> Tables<'a> {
    // Where the node of a number begins.
    fn start_of(&self, number: u32) -> Mark
        ensures { result ≡ start_of (numbered (contents self.now.nodes) number) }
    {
        node_at(&self.nodes, number).map_or(Mark::default(), |node| node.start)
    }

    // 27 and 28: an anchor that is given names the newest node.
    pub fn register_anchor(&mut self, placed: &Placed<'_>) -> Result<(), Refusal>
        ensures { Does (registering placed.now.event.anchor.now (spaces_of self.old) placed.now.start (state_of self.old)) self.old result self.new }
    {
        let anchor = placed.event.anchor;
        let at = placed.start;
        if anchor.is_empty() {
            return Ok(());
        }
        if let Some(number) = find(self.anchors.entries(), anchor) {
            let first = self.start_of(number);
            return Err(Refusal::AnchorAgain { at, first });
        }
        let spaces = self.spaces();
        if self.anchors.len() >= spaces.anchors {
            return Err(Refusal::AnchorsFull { at });
        }
        let newest = self.nodes.len() as u32;
        self.anchors.push(anchor_entry(anchor, newest)).unwrap();
        Ok(())
    }
}
