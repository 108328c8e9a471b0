// Converting: every event that a source gives is handed to a sink.
ghost use Rattle.std.specs.Prelude.{◌≡◌};
ghost use Rattle.convert.specs.declared.convert.Unconverted.TheVariants.{Faulty, Refused};
ghost use Rattle.convert.specs.Handing.{Conversion};

use crate::texts::Texts;
use yaml::{Fault, Refusal, Sink, Source};

// Why not every event was handed on.
#[derive(Clone, Copy, PartialEq, Eq, Debug)]
pub enum Unconverted {
    // the source gave a fault
    Faulty(Fault),
    // the sink refused an event
    Refused(Refusal),
}

impl From<Fault> for Unconverted {
    ghost from_gives = { λ fault e. e ≡ Faulty fault };

    fn from(fault: Fault) -> Unconverted {
        Unconverted::Faulty(fault)
    }
}

impl From<Refusal> for Unconverted {
    ghost from_gives = { λ refusal e. e ≡ Refused refusal };

    fn from(refusal: Refusal) -> Unconverted {
        Unconverted::Refused(refusal)
    }
}

// How many events were handed on, and whether these were all: the count is told either way, so it is no part of the Result.
#[derive(Clone, Copy, PartialEq, Eq, Debug)]
pub struct Converted {
    pub events: usize,
    pub end: Result<(), Unconverted>,
}

// Hands on every event to come, and counts them from 0. In line, as Texts::next_of tells.
#[inline(always)]
fn hand_each<S: Source, K: Sink>(
    source: &mut S,
    sink: &mut K,
    events: &mut usize,
) -> Result<(), Unconverted>
    requires none_yet { events.old ≡ 0 }
    ensures { Conversion K.Sink.weight (S.Source.flow source.old) (K.Sink.view sink.old) (record { events = events.new; end = result }) (S.Source.flow source.new) (K.Sink.view sink.new) }
{
    let mut texts = Texts::new();
    let _space = sink.space();
    while let Some(whole) = texts.next_of(source)? {
        sink.take(&whole.event)?;
        *events += 1;
    }
    Ok(())
}

// Hands on every event to come, up to the source's end or fault, or to the first event that does not fit.
#[inline(always)]
pub fn hand_all<S: Source, K: Sink>(source: &mut S, sink: &mut K) -> Converted
    ensures { Conversion K.Sink.weight (S.Source.flow source.old) (K.Sink.view sink.old) result (S.Source.flow source.new) (K.Sink.view sink.new) }
{
    let mut events: usize = 0;
    let end = hand_each(source, sink, &mut events);
    Converted { events, end }
}
