// Why no Document stands on some tables.
use std::error::Error;
use std::fmt;

// The questions of the check, in the order in which they are asked, with the numbers that the programs tell.
#[derive(Clone, Copy, PartialEq, Eq, Debug)]
pub enum Question {
    // are there as many nodes?
    Count = 41,
    // are the node's kind and style allowed?
    Kind,
    // is its tag 1 to 256 bytes of the text, without a zero byte, and not `!` alone?
    Tag,
    // is its value at most 4,096 bytes of the text, and a collection's none?
    Value,
    // are its links in the table, each from 1 to the number of nodes, a mapping's an even number, a scalar's none?
    Links,
    // are there at most 16,384 links and 65,536 bytes of text in all nodes together?
    Sums,
}

impl Question {
    ghost use Rattle.std.specs.Prelude.{◌≡◌};
    ghost use Rattle.document.specs.Numbers.{question_number};

    // The number of the question.
    pub fn number(self) -> u8
        ensures { result ≡ question_number self }
    {
        self as u8
    }
}

// The first question whose answer is no, and the number of the node that it was asked of: 0 for the first and the last question, as a place that is
// not named is 0 in every refusal, in what the definitions say and in what C is told.
#[derive(Clone, Copy, PartialEq, Eq, Debug)]
pub struct Refusal {
    pub question: Question,
    pub node: u32,
}

// The refusal in words, as the programs print it after its number and its node.
impl fmt::Display for Refusal {
    fn fmt<W: fmt::Write>(&self, f: &mut fmt::Formatter<W>) -> fmt::Result {
        f.write_str("no Document stands on the loaded tables")
    }
}

impl Error for Refusal {}
