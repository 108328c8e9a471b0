// Why a document is not loaded.
ghost use Rattle.std.specs.Prelude.{◌≡◌};
ghost use Rattle.composer.specs.Refusals.{refusal_number, refusal_mark};

use model::{Fault, Mark};
use std::error::Error;
use std::fmt;

// One variant a question, in the order in which they are asked; `at` is where the event begins.
#[derive(Clone, Copy, PartialEq, Eq, Debug)]
pub enum Refusal {
    // 20: was every earlier load accepted?
    EarlierRefused,
    // 21: is the source without fault?
    SourceFault(Fault),
    // 22: is an event there?
    NoEvent,
    // 23: is the event in turn?
    NotInTurn { at: Mark },
    // 24: is the alias's anchor registered?
    UnknownAlias { at: Mark },
    // 25: is there space for the node?
    NodesFull { at: Mark },
    // 26: is there space for its texts?
    TextFull { at: Mark },
    // 27: is its anchor new in this document? `first` is where the node begins that has it already
    AnchorAgain { at: Mark, first: Mark },
    // 28: is there space for the anchor?
    AnchorsFull { at: Mark },
    // 29: is there space for one child more?
    ChildrenFull { at: Mark },
    // 30: are fewer than 256 collections open?
    TooDeep { at: Mark },
}

impl Refusal {
    // The number of its question.
    pub fn number(self) -> u8
        ensures { result ≡ refusal_number self }
    {
        match self {
            Refusal::EarlierRefused => 20,
            Refusal::SourceFault(_) => 21,
            Refusal::NoEvent => 22,
            Refusal::NotInTurn { .. } => 23,
            Refusal::UnknownAlias { .. } => 24,
            Refusal::NodesFull { .. } => 25,
            Refusal::TextFull { .. } => 26,
            Refusal::AnchorAgain { .. } => 27,
            Refusal::AnchorsFull { .. } => 28,
            Refusal::ChildrenFull { .. } => 29,
            Refusal::TooDeep { .. } => 30,
        }
    }

    // Where the refused event begins; all zero where no event was refused, as its definition has it and C is told.
    pub fn mark(self) -> Mark
        ensures { result ≡ refusal_mark self }
    {
        match self {
            Refusal::EarlierRefused | Refusal::SourceFault(_) | Refusal::NoEvent => {
                Mark::default()
            }
            Refusal::NotInTurn { at }
            | Refusal::UnknownAlias { at }
            | Refusal::NodesFull { at }
            | Refusal::TextFull { at }
            | Refusal::AnchorAgain { at, .. }
            | Refusal::AnchorsFull { at }
            | Refusal::ChildrenFull { at }
            | Refusal::TooDeep { at } => at,
        }
    }
}

// The refusal in words.
impl fmt::Display for Refusal {
    fn fmt<W: fmt::Write>(&self, f: &mut fmt::Formatter<W>) -> fmt::Result {
        match self {
            Refusal::EarlierRefused => f.write_str("an earlier document was refused"),
            Refusal::SourceFault(fault) => fault.cause.fmt(f),
            Refusal::NoEvent => f.write_str("the events end within the stream"),
            Refusal::NotInTurn { .. } => f.write_str("the event is not in turn"),
            Refusal::UnknownAlias { .. } => f.write_str(
                "the alias names no anchor of this document",
            ),
            Refusal::NodesFull { .. } => f.write_str(
                "the document has more nodes than there is space for",
            ),
            Refusal::TextFull { .. } => f.write_str(
                "the document has more text than there is space for",
            ),
            Refusal::AnchorAgain { .. } => f.write_str(
                "the anchor is given twice in this document",
            ),
            Refusal::AnchorsFull { .. } => f.write_str(
                "the document has more anchors than there is space for",
            ),
            Refusal::ChildrenFull { .. } => f.write_str(
                "the document has more links than there is space for",
            ),
            Refusal::TooDeep { .. } => f.write_str("more than 256 collections are open"),
        }
    }
}

impl Error for Refusal {}
