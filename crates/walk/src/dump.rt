// The walk: three routines that call one another, a form this project keeps, so sequences and mappings have one each.
// They write steps while the table has room, and go on counting.
ghost use Rattle.std.specs.Prelude.{◌<◌};
ghost use Rattle.model.specs.declared.NodeKind.TheVariants.{Sequence as SequenceKind, Mapping as MappingKind};
ghost use Rattle.document.specs.Books.{book_of};

use crate::entry::{Counted, Step, StepKind};
use crate::look::{kind_at, links_at};
use document::limits::MAX_OPEN;
use document::{Document, NodeKind};

// More collections would be open at once than may be.
#[derive(Clone, Copy, PartialEq, Eq, Debug)]
pub struct TooDeep;

// How far a walk came.
#[derive(Drop)]
pub struct Walk<'c, 's> {
    // which nodes were met
    pub counting: &'c mut [Counted],
    // the steps, as far as the table has room for them
    pub steps: &'s mut [Step],
    // how many steps there are
    pub count: usize,
}

impl Walk<'_, '_> {
    ghost use Rattle.walk.specs.Going.{Stepped, SameTables, state_of, CanVisit, Visited, CanOpen, Opened};

    // Writes a step where the table has room for it, and counts it in any case.
    fn step(&mut self, kind: StepKind, node: u32)
        requires { self.old.count < 100000 }
        ensures stepped { Stepped kind node (state_of self.old) (state_of self.new) }
        ensures tables { SameTables self.old self.new }
    {
        // by index: tried with `get_mut`, of which no contract says what the table holds once the entry is written
        let place = self.count;
        if place < self.steps.len() {
            self.steps[place] = Step::new(kind, node);
        }
        self.count = place + 1;
    }

    // Any node, while `depth` collections are open.
    #[cycle(dump_mapping_dump_node_dump_sequence)]
    pub fn dump_node(&mut self, d: &Document<'_>, node: u32, depth: usize) -> Result<(), TooDeep>
        requires { CanVisit (book_of d.now).nodes depth node (state_of self.old) }
        ensures visited { Visited (book_of d.now).nodes depth node (state_of self.old) result (state_of self.new) }
        ensures tables { SameTables self.old self.new }
    {
        d.sound();
        let place = node as usize - 1;
        if self.counting[place].serialized != 0 {
            self.step(StepKind::Again, node);
            return Ok(());
        }
        self.counting[place].serialized = 1;
        match kind_at(d, node) {
            NodeKind::Scalar => {
                self.step(StepKind::First, node);
                Ok(())
            }
            NodeKind::Sequence => self.dump_sequence(d, node, depth),
            NodeKind::Mapping => self.dump_mapping(d, node, depth),
        }
    }

    // A sequence met first: its items, in order.
    #[cycle(dump_mapping_dump_node_dump_sequence)]
    fn dump_sequence(&mut self, d: &Document<'_>, node: u32, depth: usize) -> Result<(), TooDeep>
        requires { CanOpen (book_of d.now).nodes SequenceKind depth node (state_of self.old) }
        ensures opened { Opened (book_of d.now).nodes depth node (state_of self.old) result (state_of self.new) }
        ensures tables { SameTables self.old self.new }
    {
        d.sound();
        if depth >= MAX_OPEN {
            return Err(TooDeep);
        }
        self.step(StepKind::First, node);
        for item in links_at(d, node) {
            self.dump_node(d, *item, depth + 1)?;
        }
        self.step(StepKind::Leave, node);
        Ok(())
    }

    // A mapping met first: its keys, each with its value after it.
    #[cycle(dump_mapping_dump_node_dump_sequence)]
    fn dump_mapping(&mut self, d: &Document<'_>, node: u32, depth: usize) -> Result<(), TooDeep>
        requires { CanOpen (book_of d.now).nodes MappingKind depth node (state_of self.old) }
        ensures opened { Opened (book_of d.now).nodes depth node (state_of self.old) result (state_of self.new) }
        ensures tables { SameTables self.old self.new }
    {
        d.sound();
        if depth >= MAX_OPEN {
            return Err(TooDeep);
        }
        self.step(StepKind::First, node);
        let (pairs, _) = links_at(d, node).as_chunks::<2>();
        for [key, value] in pairs {
            self.dump_node(d, *key, depth + 1)?;
            self.dump_node(d, *value, depth + 1)?;
        }
        self.step(StepKind::Leave, node);
        Ok(())
    }
}
