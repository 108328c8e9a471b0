// Events as they are handed on, and which of them are allowed (docs/EVENTS.md has the table).
ghost use Rattle.std.specs.Prelude.{◌≡◌};
ghost use Rattle.model.specs.Events.{table, zero_free, allowed as allowed_event};
ghost use Rattle.yaml.specs.Shapes.{ev_of, shape_of, shape_allowed, head_with, text_of, row_of};

use model::{EventKind, Mark};

// The longest anchor, tag and value, in bytes.
pub const MAX_ANCHOR: usize = 64;

pub const MAX_TAG: usize = 256;

pub const MAX_VALUE: usize = 4096;

// An event with its texts, as sinks take it: without marks. An anchor or a tag of no bytes is absent.
#[derive(Clone, Copy)]
pub struct Event<'a> {
    pub kind: EventKind,
    pub style: u8,
    pub flags: u8,
    pub anchor: &'a [u8],
    pub tag: &'a [u8],
    pub value: &'a [u8],
}

// An event as sources give it: with the marks of its two ends, and its texts by their lengths, to be read byte by byte. It lists what a Shape
// lists and has no Shape inside: who reads a head names a field at a time, and head.kind is plainer than head.shape.kind.
#[derive(Clone, Copy)]
pub struct Head {
    pub kind: EventKind,
    pub style: u8,
    pub flags: u8,
    pub anchor: usize,
    pub tag: usize,
    pub value: usize,
    pub start: Mark,
    pub end: Mark,
}

// What the packed head of an event tells: all of the event but its texts, of which it tells the lengths.
#[derive(Clone, Copy)]
pub struct Shape {
    pub kind: EventKind,
    pub style: u8,
    pub flags: u8,
    pub anchor: usize,
    pub tag: usize,
    pub value: usize,
}

// Which of an event's texts.
#[derive(Clone, Copy)]
pub enum Text {
    Anchor,
    Tag,
    Value,
}

// What a kind of event may carry.
#[derive(Clone, Copy)]
pub struct Limits {
    pub style: u8,
    pub flags: u8,
    pub least_anchor: usize,
    pub anchor: usize,
    pub tag: usize,
    pub value: usize,
}

// The row of the table of allowed events for a kind.
pub fn limits_of(kind: EventKind) -> Limits
    ensures { row_of result ≡ table kind }
{
    let none = Limits {
        style: 0,
        flags: 0,
        least_anchor: 0,
        anchor: 0,
        tag: 0,
        value: 0,
    };
    let collection = Limits {
        style: 2,
        flags: 1,
        least_anchor: 0,
        anchor: MAX_ANCHOR,
        tag: MAX_TAG,
        value: 0,
    };
    match kind {
        EventKind::StreamStart => Limits { style: 3, ..none },
        EventKind::DocumentStart => Limits { flags: 1, ..none },
        EventKind::DocumentEnd => Limits { flags: 1, ..none },
        EventKind::Alias => Limits {
            least_anchor: 1,
            anchor: MAX_ANCHOR,
            ..none
        },
        EventKind::Scalar => Limits {
            style: 5,
            flags: 3,
            value: MAX_VALUE,
            ..collection
        },
        EventKind::SequenceStart => collection,
        EventKind::MappingStart => collection,
        EventKind::StreamEnd => none,
        EventKind::SequenceEnd => none,
        EventKind::MappingEnd => none,
    }
}

impl Shape {
    // Whether some event may have this kind, style and flags, and texts of these lengths.
    pub fn is_allowed(self) -> bool
        ensures { result ≡ shape_allowed self }
    {
        let most = limits_of(self.kind);
        self.style <= most.style
            && self.flags <= most.flags
            && most.least_anchor <= self.anchor
            && self.anchor <= most.anchor
            && self.tag <= most.tag
            && self.value <= most.value
    }
}

impl<'a> Event<'a> {
    // The event with its texts by their lengths.
    pub fn shape(&self) -> Shape
        ensures { result ≡ shape_of (ev_of self.now) }
    {
        Shape {
            kind: self.kind,
            style: self.style,
            flags: self.flags,
            anchor: self.anchor.len(),
            tag: self.tag.len(),
            value: self.value.len(),
        }
    }

    // The event as a source gives it, between these marks.
    pub fn head(&self, start: Mark, end: Mark) -> Head
        ensures { result ≡ head_with (ev_of self.now) start end }
    {
        let Shape {
            kind,
            style,
            flags,
            anchor,
            tag,
            value,
        } = self.shape();
        Head {
            kind,
            style,
            flags,
            anchor,
            tag,
            value,
            start,
            end,
        }
    }

    // One of its texts.
    pub fn text(&self, text: Text) -> &'a [u8]
        ensures { result.now ≡ text_of text (ev_of self.now) }
    {
        match text {
            Text::Anchor => self.anchor,
            Text::Tag => self.tag,
            Text::Value => self.value,
        }
    }
}

// Whether no byte is zero. A loop, which is put in line where it is called; `contains` is not, and loads of deep documents missed their aim with it.
pub fn zero_free(bytes: &[u8]) -> bool
    ensures { result ≡ zero_free bytes.now }
{
    for b in bytes {
        if *b == 0 {
            return false;
        }
    }
    true
}

// Whether the event is one that sources give and sinks take.
pub fn allowed(e: &Event<'_>) -> bool
    ensures { result ≡ allowed_event (ev_of e.now) }
{
    e.shape().is_allowed() && zero_free(e.anchor) && zero_free(e.tag)
}
