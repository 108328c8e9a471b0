// What the calls of a writer answer.
ghost use Rattle.std.specs.Prelude.{◌≡◌};
ghost use Rattle.runs.specs.Writer.{why_number};
ghost use Rattle.dumper.specs.Answers.{why_of, Unasked};

use std::error::Error;
use std::fmt;
use yaml::Refusal;

// Why a call is refused; the questions are asked in this order.
#[derive(Clone, Copy, PartialEq, Eq, Debug)]
pub enum Why {
    // 51: the writer is opened already
    AlreadyOpened,
    // 52: it was never opened
    NotOpened,
    // 53: a document that began never ended
    Spoilt,
    // 54: it is closed
    Closed,
    // 55: the counting table has fewer entries than the Document has nodes
    TooFewCounts,
    // 56: more than 256 collections would be open at once
    TooDeep,
    // 57: the step table has fewer entries than the walk has steps
    TooFewSteps,
    // 58: this node is met again and has no anchor; it is the first such
    NoAnchor(u32),
    // 59: the sink did not take an event of this node
    // 0 stands for the stream and the document: the law over whole runs and the record that C is told have that number
    Sink { node: u32, refusal: Refusal },
}

impl Why {
    // The number of the refusal.
    pub fn number(self) -> u8
        ensures { result ≡ why_number (why_of self) }
    {
        match self {
            Why::AlreadyOpened => 51,
            Why::NotOpened => 52,
            Why::Spoilt => 53,
            Why::Closed => 54,
            Why::TooFewCounts => 55,
            Why::TooDeep => 56,
            Why::TooFewSteps => 57,
            Why::NoAnchor(_) => 58,
            Why::Sink { .. } => 59,
        }
    }
}

// The refusal in words.
impl fmt::Display for Why {
    fn fmt<W: fmt::Write>(&self, f: &mut fmt::Formatter<W>) -> fmt::Result {
        f.write_str(match self {
            Why::AlreadyOpened => "the stream is open already",
            Why::NotOpened => "the stream was never opened",
            Why::Spoilt => "a document that began was not written whole",
            Why::Closed => "the stream is closed",
            Why::TooFewCounts => "the counting table has fewer entries than the document has nodes",
            Why::TooDeep => "more than 256 collections would be open at once",
            Why::TooFewSteps => "the step table has fewer entries than the walk has steps",
            Why::NoAnchor(_) => "the node is shared below the root, where nodes get no anchor",
            Why::Sink { .. } => "the output did not take an event",
        })
    }
}

impl Error for Why {}

// A refusal, with the number of events that were taken before it.
#[derive(Clone, Copy, PartialEq, Eq, Debug)]
pub struct Refused {
    pub events: usize,
    pub why: Why,
}

// A refusal before the sink is asked.
impl From<Why> for Refused {
    ghost from_gives = { Unasked };

    fn from(why: Why) -> Refused {
        Refused { events: 0, why }
    }
}
