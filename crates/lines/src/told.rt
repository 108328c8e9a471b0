// The event that a line tells, with its texts in buffers of its own.
ghost use Rattle.std.specs.Prelude.{◌≡◌};
ghost use Rattle.yaml.specs.Shapes.{ev_of};
ghost use Rattle.lines.specs.Line.{seeming_kind};

use crate::buffer::Buffer;
use crate::part::read_part;
use model::EventKind;
use yaml::event::{MAX_ANCHOR, MAX_TAG, MAX_VALUE};
use yaml::{Cause, Event};

// An event that owns its texts.
#[derive(Drop)]
pub struct Told {
    kind: EventKind,
    style: u8,
    flags: u8,
    anchor: Buffer<MAX_ANCHOR>,
    tag: Buffer<MAX_TAG>,
    value: Buffer<MAX_VALUE>,
}

// The kind that the first and the fourth byte of a line seem to tell.
fn seeming_kind(sign: u8, letter: u8) -> EventKind
    ensures { result ≡ seeming_kind sign letter }
{
    match (letter, sign) {
        (b'R', b'+') => EventKind::StreamStart,
        (b'R', _) => EventKind::StreamEnd,
        (b'C', b'+') => EventKind::DocumentStart,
        (b'C', _) => EventKind::DocumentEnd,
        (b'I', _) => EventKind::Alias,
        (b'L', _) => EventKind::Scalar,
        (b'Q', b'+') => EventKind::SequenceStart,
        (b'Q', _) => EventKind::SequenceEnd,
        (_, b'+') => EventKind::MappingStart,
        _ => EventKind::MappingEnd,
    }
}

impl Told {
    ghost use Rattle.lines.specs.Telling.{ev_told, Guessed};

    // Reads the event that the bytes seem to tell; they are no line where there are too few of them, or a text is longer than any event's.
    pub fn read(&mut self, bytes: &[u8]) -> Result<(), Cause>
        ensures { Guessed bytes.now self.new result }
    {
        let [sign, _, _, letter, _, style, _, flags, parts @ ..] = bytes else {
            return Err(Cause::NotALine);
        };
        self.kind = seeming_kind(*sign, *letter);
        self.style = style.saturating_sub(b'0');
        self.flags = flags.saturating_sub(b'0');
        let parts = read_part(parts, b'&', &mut self.anchor)?;
        let parts = read_part(parts, b'<', &mut self.tag)?;
        read_part(parts, b':', &mut self.value)?;
        Ok(())
    }

    // The event, with its texts lent.
    pub fn event(&self) -> Event<'_>
        ensures { ev_of result ≡ ev_told self.now }
    {
        Event {
            kind: self.kind,
            style: self.style,
            flags: self.flags,
            anchor: self.anchor.as_slice(),
            tag: self.tag.as_slice(),
            value: self.value.as_slice(),
        }
    }

    // Becomes the copy of another; of the buffers, only what its texts take up is copied, where a `Clone` would make them whole.
    pub fn copy_from(&mut self, other: &Told)
        ensures { self.new ≡ other.now }
    {
        self.kind = other.kind;
        self.style = other.style;
        self.flags = other.flags;
        self.anchor.copy_from(&other.anchor);
        self.tag.copy_from(&other.tag);
        self.value.copy_from(&other.value);
    }
}

// Before any event was told.
impl Default for Told {
    fn default() -> Self {
        Told {
            kind: EventKind::StreamStart,
            style: 0,
            flags: 0,
            anchor: Buffer::new(),
            tag: Buffer::new(),
            value: Buffer::new(),
        }
    }
}
