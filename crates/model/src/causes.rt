// A cause as a number and in words.
ghost use Rattle.std.specs.Prelude.{◌≡◌};
ghost use Rattle.model.specs.Events.{cause_number};

use crate::Cause;
use std::error::Error;
use std::fmt;

impl Cause {
    // The number of the cause.
    pub fn number(self) -> u8
        ensures { result ≡ cause_number self }
    {
        self as u8
    }
}

// The cause in words.
impl fmt::Display for Cause {
    fn fmt<W: fmt::Write>(&self, f: &mut fmt::Formatter<W>) -> fmt::Result {
        f.write_str(match self {
            Cause::HeadCut => "the input ends within an event's head",
            Cause::HeadNotAllowed => "the head is none that an allowed event has",
            Cause::TextsCut => "the event's texts run past the end of the input",
            Cause::ZeroByte => "a zero byte stands in an anchor or a tag",
            Cause::NotALine => "this is no line that is written for an event",
        })
    }
}

impl Error for Cause {}
