// Writing a document, step by step of its walk.
ghost use Rattle.std.specs.Prelude.{◌≡◌, true};
ghost use Rattle.model.specs.Events.{all_allowed};
ghost use Rattle.serial.specs.Numbering.{anchor_of};
ghost use Rattle.serial.specs.Serialize.{token_events};
ghost use Rattle.document.specs.Books.{book_of};
ghost use Rattle.runs.specs.Writer.{token_dues, walk_dues, book_dues};
ghost use Rattle.dumper.specs.Handing.{Countable, Handed};
ghost use Rattle.dumper.specs.Steps.{token_of, tokens_of};

use super::Outlet;
use crate::answer::Refused;
use crate::event::{event_of, name_of, plain};
use crate::planned::Planned;
use walk::{Step, anchor_of};
use yaml::{EventKind, Sink};

impl<S: Sink> Outlet<S> {
    // One step of the walk.
    fn dump_step(&mut self, planned: &Planned<'_, '_>, step: Step) -> Result<(), Refused>
        requires allowed { all_allowed (token_events (anchor_of (book_of planned.now.d.now).nodes) (book_of planned.now.d.now).nodes (token_of step)) ≡ true }
        requires few { Countable self.old.events (S.Sink.view self.old.sink) }
        ensures { Handed S.Sink.weight S.Sink.view self.old (token_dues (anchor_of (book_of planned.now.d.now).nodes) (book_of planned.now.d.now).nodes (token_of step)) result self.new }
    {
        let name = name_of(anchor_of(planned.counting, step.node));
        match event_of(planned.d, step, name.as_bytes()) {
            Some(event) => self.hand(step.node, &event),
            None => Ok(()),
        }
    }

    // All steps, in order.
    fn dump_steps(&mut self, planned: &Planned<'_, '_>) -> Result<(), Refused>
        requires { Countable self.old.events (S.Sink.view self.old.sink) }
        ensures { Handed S.Sink.weight S.Sink.view self.old (walk_dues (anchor_of (book_of planned.now.d.now).nodes) (book_of planned.now.d.now).nodes (tokens_of planned.now.steps.now)) result self.new }
    {
        for step in planned.steps {
            self.dump_step(planned, *step)?;
        }
        Ok(())
    }

    // The whole document: its start, its nodes and its end.
    pub(crate) fn dump_document(&mut self, planned: &Planned<'_, '_>) -> Result<(), Refused>
        requires { Countable self.old.events (S.Sink.view self.old.sink) }
        ensures { Handed S.Sink.weight S.Sink.view self.old (book_dues (book_of planned.now.d.now) (tokens_of planned.now.steps.now)) result self.new }
    {
        let start = plain(
            EventKind::DocumentStart,
            u8::from(planned.d.start_implicit()),
        );
        self.hand(0, &start)?;
        self.dump_steps(planned)?;
        let end = plain(EventKind::DocumentEnd, u8::from(planned.d.end_implicit()));
        self.hand(0, &end)
    }
}
