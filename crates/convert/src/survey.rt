// Surveying a source: how many events of which kind are to come, and how many bytes a sink would need for them. Nothing is handed on.
ghost use Rattle.convert.specs.Surveys.{Untouched, Surveyed, Bounded};

use crate::tally::Tally;
pub use crate::tally::{Survey, Unsurveyed};
use crate::texts::Texts;
use yaml::{Sink, Source};

// Counts every event to come, up to the source's end or fault. What was counted before an error stands. In line, as Texts::next_of tells.
#[inline(always)]
fn survey_each<S: Source, K: Sink>(
    source: &mut S,
    sink: &K,
    tally: &mut Tally,
) -> Result<(), Unsurveyed>
    requires none_yet { Untouched tally.old.survey }
    ensures { Surveyed K.Sink.weight (S.Source.flow source.old) (record tally.new.survey { stop = result }) (S.Source.flow source.new) }
{
    let mut texts = Texts::new();
    while let Some(whole) = texts.next_of(source)? {
        let size = sink.size(&whole.event).unwrap();
        tally.add(&whole.event, usize::from(size))?;
    }
    Ok(())
}

// Surveys every event to come, up to the source's end or fault; the source is then at that end.
#[inline(always)]
pub fn look_over<S: Source, K: Sink>(source: &mut S, sink: &K) -> Survey
    ensures surveyed { Surveyed K.Sink.weight (S.Source.flow source.old) result (S.Source.flow source.new) }
    ensures bounded { Bounded result }
{
    let mut tally = Tally::new();
    let stop = survey_each(source, sink, &mut tally);
    Survey {
        stop,
        ..tally.survey
    }
}
