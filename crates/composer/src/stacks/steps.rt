// What each event does.
ghost use Rattle.std.specs.Prelude.{◌≡◌};
ghost use Rattle.composer.specs.Holding.{Does, state_of, spaces_of, marked};
ghost use Rattle.composer.specs.Steps.{taking, aliasing, naming_adding, node_step, start_step, in_turn};

use super::Tables;
use super::nodes::value_for;
use crate::names::find;
use crate::placed::Placed;
use crate::refusal::Refusal;
use crate::tags::resolve;
use model::{EventKind, NodeKind};

impl<'a> Tables<'a> {
    // The newest node gets its anchor and its place as a child.
    fn name_and_add(&mut self, placed: &Placed<'_>) -> Result<(), Refusal>
        ensures { Does (naming_adding (spaces_of self.old) (marked placed.now) (state_of self.old)) self.old result self.new }
    {
        self.register_anchor(placed)?;
        self.add_newest(placed.start)
    }

    // A node of any kind: 25 to 29.
    fn load_any(&mut self, kind: NodeKind, placed: &Placed<'_>) -> Result<(), Refusal>
        ensures { Does (node_step (spaces_of self.old) kind (marked placed.now) (state_of self.old)) self.old result self.new }
    {
        let event = &placed.event;
        let tag = resolve(kind, event.tag);
        let value = value_for(kind, event.value);
        self.load_node(kind, event.style, tag, value, placed.start, placed.end)?;
        self.name_and_add(placed)
    }

    // The start of a collection: 25 to 30.
    fn load_start(&mut self, kind: NodeKind, placed: &Placed<'_>) -> Result<(), Refusal>
        ensures { Does (start_step (spaces_of self.old) kind (marked placed.now) (state_of self.old)) self.old result self.new }
    {
        self.load_any(kind, placed)?;
        self.begin(kind, placed.start)
    }

    // 24 and 29: an alias is the node that its anchor names.
    fn load_alias(&mut self, placed: &Placed<'_>) -> Result<(), Refusal>
        ensures { Does (aliasing (spaces_of self.old) (marked placed.now) (state_of self.old)) self.old result self.new }
    {
        let Some(number) = find(self.anchors.entries(), placed.event.anchor) else {
            return Err(Refusal::UnknownAlias { at: placed.start });
        };
        self.load_node_add(number, placed.start)
    }

    // 23
    fn in_turn(&self, kind: EventKind) -> bool
        ensures { result ≡ in_turn kind (state_of self.now) }
    {
        match kind {
            EventKind::Alias
            | EventKind::Scalar
            | EventKind::SequenceStart
            | EventKind::MappingStart => { self.frames.len() > 0 || self.nodes.len() == 0 }
            EventKind::SequenceEnd => self.frames.top().is_some_and(|frame| !frame.mapping),
            EventKind::MappingEnd => self
                .frames
                .top()
                .is_some_and(|frame| frame.mapping && frame.children % 2 == 0),
            EventKind::DocumentEnd => self.frames.len() == 0 && self.nodes.len() > 0,
            EventKind::StreamStart | EventKind::StreamEnd | EventKind::DocumentStart => false,
        }
    }

    // One event of a document: 23 to 30.
    pub fn take(&mut self, placed: &Placed<'_>) -> Result<(), Refusal>
        ensures { Does (taking (spaces_of self.old) (marked placed.now) (state_of self.old)) self.old result self.new }
    {
        if !self.in_turn(placed.event.kind) {
            return Err(Refusal::NotInTurn { at: placed.start });
        }
        match placed.event.kind {
            EventKind::Alias => self.load_alias(placed),
            EventKind::Scalar => self.load_any(NodeKind::Scalar, placed),
            EventKind::SequenceStart => self.load_start(NodeKind::Sequence, placed),
            EventKind::MappingStart => self.load_start(NodeKind::Mapping, placed),
            EventKind::SequenceEnd | EventKind::MappingEnd => {
                self.load_collection_end(placed.end)
            }
            EventKind::StreamStart
            | EventKind::StreamEnd
            | EventKind::DocumentStart
            | EventKind::DocumentEnd => Ok(()),
        }
    }
}
