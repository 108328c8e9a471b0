// What the words of this project mean: events and their rules, what a format of events is, and the theorems about them.
// The definitions are in specs/; here stand only the plain records that the definitions and the code share.
#![tactic(auto)]

pub mod causes;
pub mod kinds;
pub mod theorems;

// What an event tells; the numbers are those of `yaml_event_type_t`.
#[derive(Clone, Copy, PartialEq, Eq, Debug)]
pub enum EventKind {
    StreamStart = 1,
    StreamEnd,
    DocumentStart,
    DocumentEnd,
    Alias,
    Scalar,
    SequenceStart,
    SequenceEnd,
    MappingStart,
    MappingEnd,
}

// What a node is; the numbers are those of `yaml_node_type_t`.
#[derive(Clone, Copy, PartialEq, Eq, Debug)]
pub enum NodeKind {
    Scalar = 1,
    Sequence,
    Mapping,
}

// A number that no kind has.
#[derive(Clone, Copy, PartialEq, Eq, Debug)]
pub struct NoSuchKind(pub u8);

// A place in the input: `index` bytes, `line` events and `column` columns stand before it.
#[repr(C)]
#[derive(Clone, Copy, PartialEq, Eq, Debug, Default)]
pub struct Mark {
    pub index: u64,
    pub line: u64,
    pub column: u64,
}

// Why a source can give no further event; the numbers are those that the programs tell.
#[derive(Clone, Copy, PartialEq, Eq, Debug)]
pub enum Cause {
    // fewer than nine bytes are left for a head
    HeadCut = 11,
    // the head is none that an allowed event has
    HeadNotAllowed,
    // the texts run past the input
    TextsCut,
    // a zero byte stands in an anchor or a tag
    ZeroByte,
    // the line is none that the line writer writes
    NotALine,
}

// What a source answers in place of an event, from then on: the cause, and the place where the event at fault begins.
#[derive(Clone, Copy, PartialEq, Eq, Debug)]
pub struct Fault {
    pub cause: Cause,
    pub place: u64,
}
