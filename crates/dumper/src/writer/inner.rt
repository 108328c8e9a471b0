// What a call hands on once its questions are passed.
ghost use Rattle.std.specs.Prelude.{◌≡◌, false, ◌++◌};
ghost use Rattle.document.specs.Books.{book_of};
ghost use Rattle.runs.specs.Writer.{start_due, end_due, book_dues};
ghost use Rattle.dumper.specs.Handing.{Countable};
ghost use Rattle.dumper.specs.Steps.{tokens_of};
ghost use Rattle.dumper.specs.States.{Wrote};

use super::Writer;
use crate::answer::Refused;
use crate::planned::Planned;
use yaml::{EventKind, Sink};

impl<S: Sink> Writer<S> {
    // Starts the stream where it is not opened.
    pub(crate) fn start(&mut self) -> Result<(), Refused>
        requires { Countable self.old.outlet.events (S.Sink.view self.old.outlet.sink) }
        ensures wrote { Wrote S.Sink.weight S.Sink.view self.old (start_due self.old.opened) result self.new }
        ensures few { Countable self.new.outlet.events (S.Sink.view self.new.outlet.sink) }
    {
        self.outlet
            .hand_once(EventKind::StreamStart, &mut self.opened)
    }

    // Ends the stream where it is not closed.
    pub(crate) fn finish(&mut self) -> Result<(), Refused>
        requires { Countable self.old.outlet.events (S.Sink.view self.old.outlet.sink) }
        ensures wrote { Wrote S.Sink.weight S.Sink.view self.old (end_due self.old.closed) result self.new }
        ensures few { Countable self.new.outlet.events (S.Sink.view self.new.outlet.sink) }
    {
        self.outlet
            .hand_once(EventKind::StreamEnd, &mut self.closed)
    }

    // Starts and ends the stream, as far as need be.
    pub(crate) fn write_nothing(&mut self) -> Result<(), Refused>
        requires { Countable self.old.outlet.events (S.Sink.view self.old.outlet.sink) }
        ensures wrote { Wrote S.Sink.weight S.Sink.view self.old (start_due self.old.opened ++ end_due self.old.closed) result self.new }
        ensures few { Countable self.new.outlet.events (S.Sink.view self.new.outlet.sink) }
    {
        self.start()?;
        self.finish()
    }

    // Starts the stream if need be, and hands on the planned Document. Where it breaks off after its start the writer is spoilt.
    pub(crate) fn write(&mut self, planned: &Planned<'_, '_>) -> Result<(), Refused>
        requires unspoilt { self.old.spoilt ≡ false }
        requires few { Countable self.old.outlet.events (S.Sink.view self.old.outlet.sink) }
        ensures wrote { Wrote S.Sink.weight S.Sink.view self.old (start_due self.old.opened ++ book_dues (book_of planned.now.d.now) (tokens_of planned.now.steps.now)) result self.new }
        ensures few { Countable self.new.outlet.events (S.Sink.view self.new.outlet.sink) }
    {
        self.start()?;
        let begun = self.outlet.events();
        let written = self.outlet.dump_document(planned);
        if written.is_err() {
            self.spoilt = begun < self.outlet.events();
        }
        written
    }
}
