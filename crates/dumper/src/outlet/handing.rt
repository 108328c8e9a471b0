// Handing one event to a sink.
ghost use Rattle.std.specs.Prelude.{◌≡◌, true, ◌||◌, [], ◌∷◌, is_ok};
ghost use Rattle.model.specs.Events.{allowed};
ghost use Rattle.serial.specs.Serialize.{plain as plain_event};
ghost use Rattle.yaml.specs.Shapes.{ev_of};
ghost use Rattle.runs.specs.Writer.{due_of};
ghost use Rattle.dumper.specs.Handing.{once_due, Countable, Handed};

use super::Outlet;
use crate::answer::{Refused, Why};
use crate::event::plain;
use yaml::{Event, EventKind, Sink};

impl<S: Sink> Outlet<S> {
    // An outlet to the sink, which was handed nothing yet.
    pub(crate) fn new(sink: S) -> Outlet<S>
        ensures sink { result.sink ≡ sink }
        ensures few { Countable result.events (S.Sink.view result.sink) }
    {
        // the space is a number of the machine's, so the events that fill it can be counted
        let _space = sink.space();
        Outlet { sink, events: 0 }
    }

    // The space left in the sink.
    pub(crate) fn space(&self) -> usize
        ensures { result ≡ (S.Sink.view self.now.sink).room }
    {
        self.sink.space()
    }

    // How many events were taken since counting began.
    pub(crate) fn events(&self) -> usize
        ensures { result ≡ self.now.events }
    {
        self.events
    }

    // Begins to count anew.
    pub(crate) fn count_anew(&mut self)
        ensures none { self.new.events ≡ 0 }
        ensures sink { self.new.sink ≡ self.old.sink }
        ensures few { Countable self.new.events (S.Sink.view self.new.sink) }
    {
        // the space is a number of the machine's, so the events that fill it can be counted
        let _space = self.sink.space();
        self.events = 0;
    }

    // Hands on an event of the stream, where it was not before.
    pub(crate) fn hand_once(&mut self, kind: EventKind, done: &mut bool) -> Result<(), Refused>
        requires allowed { allowed (plain_event kind 0) ≡ true }
        requires few { Countable self.old.events (S.Sink.view self.old.sink) }
        ensures handed { Handed S.Sink.weight S.Sink.view self.old (once_due kind done.old) result self.new }
        ensures done { done.new ≡ (done.old || is_ok result) }
    {
        if !*done {
            self.hand(0, &plain(kind, 0))?;
            *done = true;
        }
        Ok(())
    }

    // Hands on an event of a node, and counts it where it is taken.
    pub(crate) fn hand(&mut self, node: u32, e: &Event<'_>) -> Result<(), Refused>
        requires allowed { allowed (ev_of e.now) ≡ true }
        requires few { Countable self.old.events (S.Sink.view self.old.sink) }
        ensures { Handed S.Sink.weight S.Sink.view self.old (due_of node (ev_of e.now) ∷ []) result self.new }
    {
        match self.sink.take(e) {
            Ok(()) => {
                self.events += 1;
                Ok(())
            }
            Err(refusal) => Err(Refused {
                events: self.events,
                why: Why::Sink { node, refusal },
            }),
        }
    }
}
