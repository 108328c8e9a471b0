// The events of the steps of a walk.
ghost use Rattle.std.specs.Prelude.{◌≡◌, ◌<◌, if◌then◌else◌, IfSome};
ghost use Rattle.serial.specs.Serialize.{same_bytes, default_tag, all_flags, start_kind, end_kind, plain as plain_event, token_events};
ghost use Rattle.serial.specs.Numbering.{anchor_of};
ghost use Rattle.document.specs.Books.{book_of};
ghost use Rattle.yaml.specs.Shapes.{ev_of};
ghost use Rattle.walk.specs.Names.{name_in};
ghost use Rattle.dumper.specs.Names.{name_of};
ghost use Rattle.dumper.specs.Steps.{token_of, listed};

use composer::tags::default_tag;
use document::{Document, NodeKind};
use walk::{AnchorName, Step, StepKind, generate_anchor};
use yaml::{Event, EventKind};

// An event without style and texts.
pub(crate) fn plain(kind: EventKind, flags: u8) -> Event<'static>
    ensures { ev_of result ≡ plain_event kind flags }
{
    Event {
        kind,
        style: 0,
        flags,
        anchor: &[],
        tag: &[],
        value: &[],
    }
}

// The kinds of the events that give a node and that end it.
fn kinds_of(kind: NodeKind) -> (EventKind, EventKind)
    ensures start { result.0 ≡ start_kind kind }
    ensures end { result.1 ≡ end_kind kind }
{
    match kind {
        NodeKind::Scalar => (EventKind::Scalar, EventKind::Scalar),
        NodeKind::Sequence => (EventKind::SequenceStart, EventKind::SequenceEnd),
        NodeKind::Mapping => (EventKind::MappingStart, EventKind::MappingEnd),
    }
}

// The flags of a node: all are set where its tag is its kind's default.
fn flags_of(kind: NodeKind, tag: &[u8]) -> u8
    ensures { result ≡ (if same_bytes tag.now (default_tag kind) then all_flags kind else 0) }
{
    if tag == default_tag(kind) {
        match kind {
            NodeKind::Scalar => 3,
            NodeKind::Sequence | NodeKind::Mapping => 1,
        }
    } else {
        0
    }
}

// The anchor of that number, if there is one; else one without bytes.
pub(crate) fn name_of(number: Option<u32>) -> AnchorName
    requires { IfSome number (λ n. n < 10000) }
    ensures { name_in result ≡ name_of number }
{
    match number {
        Some(number) => generate_anchor(number),
        None => AnchorName::none(),
    }
}

// The event of a step, with the anchor of its node. There is none only where there is no such node.
pub(crate) fn event_of<'e, 'd: 'e>(
    d: &'e Document<'d>,
    step: Step,
    anchor: &'e [u8],
) -> Option<Event<'e>>
    requires { anchor.now ≡ anchor_of (book_of d.now).nodes step.node }
    ensures { listed result ≡ token_events (anchor_of (book_of d.now).nodes) (book_of d.now).nodes (token_of step) }
{
    match step.kind() {
        Some(StepKind::First) => {
            let kind = d.kind(step.node)?;
            let (start, _) = kinds_of(kind);
            let tag = d.tag(step.node)?;
            Some(Event {
                kind: start,
                style: d.style(step.node)?,
                flags: flags_of(kind, tag),
                anchor,
                tag,
                value: d.value(step.node)?,
            })
        }
        // the anchor alone
        Some(StepKind::Again) => Some(Event {
            anchor,
            ..plain(EventKind::Alias, 0)
        }),
        Some(StepKind::Leave) | None => {
            let (_, end) = kinds_of(d.kind(step.node)?);
            Some(plain(end, 0))
        }
    }
}
