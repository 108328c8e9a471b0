// A stream: its start, its documents, its end.
ghost use Rattle.std.specs.Prelude.{◌≡◌};
ghost use Rattle.composer.specs.State.{blank};
ghost use Rattle.composer.specs.Holding.{state_of, spaces_of};
ghost use Rattle.loader.specs.Loads.{Ends, Runs, running_on, between_on, fresh_on, loading_on, start_marked};

use crate::answer::{Loaded, Phase};
use crate::events::given;
use composer::{Placed, Refusal, Tables};
use convert::Texts;
use model::EventKind;
use yaml::{Head, Source};

// The events within a document that began with `begin`, up to its end.
fn load_nodes<S: Source>(
    source: &mut S,
    begin: &Head,
    tables: &mut Tables<'_>,
) -> Result<Loaded, Refusal>
    ensures { Runs (running_on (spaces_of tables.old) (start_marked begin.now) (S.Source.flow source.old) (state_of tables.old)) tables.old result tables.new (S.Source.flow source.new) }
{
    let mut texts = Texts::new();
    loop {
        let whole = given(texts.next_of(source))?;
        let placed = Placed {
            event: whole.event,
            start: whole.start,
            end: whole.end,
        };
        tables.take(&placed)?;
        if whole.event.kind == EventKind::DocumentEnd {
            return Ok(Loaded {
                nodes: tables.node_count(),
                links: tables.link_count(),
                text: tables.text_count(),
                anchors: tables.anchor_count(),
                start_implicit: begin.flags == 1,
                end_implicit: whole.event.flags == 1,
                start: begin.start,
                end: whole.end,
            });
        }
    }
}

// Between documents: a whole document, or the stream's end.
fn load_document<S: Source>(
    source: &mut S,
    tables: &mut Tables<'_>,
) -> Result<Option<Loaded>, Refusal>
    requires blank { state_of tables.old ≡ blank }
    ensures { Ends (between_on (spaces_of tables.old) (S.Source.flow source.old)) tables.old result tables.new (S.Source.flow source.new) }
{
    let head = given(source.next_event())?;
    match head.kind {
        EventKind::DocumentStart => {
            let loaded = load_nodes(source, &head, tables)?;
            Ok(Some(loaded))
        }
        EventKind::StreamEnd => Ok(None),
        _ => Err(Refusal::NotInTurn { at: head.start }),
    }
}

// Before the stream's start.
fn load_stream<S: Source>(
    source: &mut S,
    tables: &mut Tables<'_>,
) -> Result<Option<Loaded>, Refusal>
    requires blank { state_of tables.old ≡ blank }
    ensures { Ends (fresh_on (spaces_of tables.old) (S.Source.flow source.old)) tables.old result tables.new (S.Source.flow source.new) }
{
    let head = given(source.next_event())?;
    match head.kind {
        EventKind::StreamStart => load_document(source, tables),
        _ => Err(Refusal::NotInTurn { at: head.start }),
    }
}

// By where the loader is: 20 to 30.
pub fn load_from<S: Source>(
    phase: Phase,
    source: &mut S,
    tables: &mut Tables<'_>,
) -> Result<Option<Loaded>, Refusal>
    requires blank { state_of tables.old ≡ blank }
    ensures { Ends (loading_on (spaces_of tables.old) phase (S.Source.flow source.old)) tables.old result tables.new (S.Source.flow source.new) }
{
    match phase {
        Phase::Fresh => load_stream(source, tables),
        Phase::Between => load_document(source, tables),
        Phase::Ended => Ok(None),
        Phase::Spoilt => Err(Refusal::EarlierRefused),
    }
}
