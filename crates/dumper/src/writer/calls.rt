// The calls of a writer.
ghost use Rattle.std.specs.Prelude.{◌≡◌, length, replicate};
ghost use Rattle.walk.specs.Entries.{empty_counted, empty_step};
ghost use Rattle.document.specs.Books.{book_of};
ghost use Rattle.runs.specs.Writer.{opening, closing, dumping, Called};
ghost use Rattle.dumper.specs.Answers.{answer_of};
ghost use Rattle.dumper.specs.States.{state_of};
ghost use Rattle.dumper.specs.Handing.{Countable};
ghost use Rattle.dumper.specs.Calls.{Made, LawFrom, handed, Told, Rests, StaysCountable};

use super::Writer;
use crate::answer::{Refused, Why};
use crate::outlet::Outlet;
use crate::planned::Planned;
use document::Document;
use walk::{Counted, Step, Unplanned, clear_plan, make_plan};
use yaml::Sink;

impl<S: Sink> Writer<S> {
    // A writer over a sink. Where the sink took nothing yet, every run of calls keeps the law.
    pub fn new(sink: S) -> Writer<S>
        ensures made { Made (S.Sink.view sink) (state_of S.Sink.view result) }
        ensures rests { result.last_anchor_id ≡ 0 }
        ensures countable { Countable result.outlet.events (S.Sink.view result.outlet.sink) }
        ensures law { LawFrom S.Sink.weight (state_of S.Sink.view result) }
    {
        Writer {
            outlet: Outlet::new(sink),
            opened: false,
            closed: false,
            spoilt: false,
            last_anchor_id: 0,
        }
    }

    // The space left in the sink; nothing alters.
    pub fn space(&self) -> usize
        ensures { result ≡ (state_of S.Sink.view self.now).room }
    {
        self.outlet.space()
    }

    // Starts the stream; answers with the number of events taken.
    pub fn open(&mut self) -> Result<usize, Refused>
        ensures called { Called S.Sink.weight opening (state_of S.Sink.view self.old) (answer_of result) (state_of S.Sink.view self.new) }
        ensures rests { Rests self.old.last_anchor_id self.new.last_anchor_id }
        ensures countable { StaysCountable S.Sink.view self.old result self.new }
    {
        if self.opened {
            return Err(Why::AlreadyOpened.into());
        }
        self.outlet.count_anew();
        self.start()?;
        Ok(self.outlet.events())
    }

    // Ends the stream; again and again is fine.
    pub fn close(&mut self) -> Result<usize, Refused>
        ensures called { Called S.Sink.weight closing (state_of S.Sink.view self.old) (answer_of result) (state_of S.Sink.view self.new) }
        ensures rests { Rests self.old.last_anchor_id self.new.last_anchor_id }
        ensures countable { StaysCountable S.Sink.view self.old result self.new }
    {
        if !self.opened {
            return Err(Why::NotOpened.into());
        }
        if self.spoilt {
            return Err(Why::Spoilt.into());
        }
        self.outlet.count_anew();
        self.finish()?;
        Ok(self.outlet.events())
    }

    // Writes a Document, which is used up. One without nodes starts and ends the stream. Both tables are empty afterwards.
    // They are two parameters, as C lends them apart and each has a promise of its own.
    pub fn dump(
        &mut self,
        d: Document<'_>,
        counting: &mut [Counted],
        steps: &mut [Step],
    ) -> Result<usize, Refused>
        ensures called { Called S.Sink.weight (dumping (handed (book_of d.entry) (length counting.old) (length steps.old))) (state_of S.Sink.view self.old) (answer_of result) (state_of S.Sink.view self.new) }
        ensures told { Told (book_of d.entry) result }
        ensures counting { counting.new ≡ replicate (length counting.old) empty_counted }
        ensures steps { steps.new ≡ replicate (length steps.old) empty_step }
        ensures rests { Rests self.old.last_anchor_id self.new.last_anchor_id }
        ensures countable { StaysCountable S.Sink.view self.old result self.new }
    {
        let answer = self.dump_planned(&d, counting, steps);
        clear_plan(counting, steps);
        answer
    }

    // The same, but for what it leaves in the tables.
    fn dump_planned(
        &mut self,
        d: &Document<'_>,
        counting: &mut [Counted],
        steps: &mut [Step],
    ) -> Result<usize, Refused>
        ensures called { Called S.Sink.weight (dumping (handed (book_of d.now) (length counting.old) (length steps.old))) (state_of S.Sink.view self.old) (answer_of result) (state_of S.Sink.view self.new) }
        ensures told { Told (book_of d.now) result }
        ensures countable { StaysCountable S.Sink.view self.old result self.new }
    {
        if self.spoilt {
            return Err(Why::Spoilt.into());
        }
        if self.closed && d.len() > 0 {
            return Err(Why::Closed.into());
        }
        d.sound();
        self.outlet.count_anew();
        match make_plan(d, counting, steps, &mut self.last_anchor_id) {
            Ok(count) => {
                let planned = Planned {
                    d,
                    counting,
                    steps: &steps[..count],
                };
                self.write(&planned)?
            }
            Err(Unplanned::NoNodes) => self.write_nothing()?,
            Err(Unplanned::TooFewCounts) => return Err(Why::TooFewCounts.into()),
            Err(Unplanned::TooDeep) => return Err(Why::TooDeep.into()),
            Err(Unplanned::TooFewSteps) => return Err(Why::TooFewSteps.into()),
            Err(Unplanned::NoAnchor(node)) => return Err(Why::NoAnchor(node).into()),
        }
        Ok(self.outlet.events())
    }
}
