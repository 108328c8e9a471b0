// How far a reader has come in its input.
ghost use Rattle.std.specs.Prelude.{◌+◌, ◌<◌, ◌≤◌, length};

use model::{Cause, Fault, Mark};

// What is left of an input, and how many bytes and events stand before it.
#[derive(Clone, Copy)]
pub struct Cursor<'a> {
    pub rest: &'a [u8],
    pub place: u64,
    pub count: u64,
    ghost fits: { place + length rest.now < 18446744073709551616 },
    ghost counted: { count ≤ place },
}

impl<'a> Cursor<'a> {
    ghost use Rattle.std.specs.Prelude.{◌≡◌};
    ghost use Rattle.model.specs.Reading.{mark_at};
    ghost use Rattle.yaml.specs.Places.{Begins, Passed};

    // The front of an input.
    pub fn new(bytes: &'a [u8]) -> Cursor<'a>
        ensures { Begins bytes.now result }
    {
        Cursor {
            rest: bytes,
            place: 0,
            count: 0,
        }
    }

    // Steps over an event of this size, and gives the marks of its two ends.
    pub fn pass(&mut self, size: usize) -> (Mark, Mark)
        requires some { 1 ≤ size }
        requires there { size ≤ length self.old.rest.now }
        ensures { Passed self.old size result self.new }
    {
        let start = self.mark();
        self.rest = &self.rest[size..];
        self.place += size as u64;
        let end = self.mark();
        self.count += 1;
        (start, end)
    }

    // The mark of this place.
    fn mark(&self) -> Mark
        ensures { result ≡ mark_at self.now.place self.now.count }
    {
        Mark {
            index: self.place,
            line: self.count,
            column: 0,
        }
    }

    // The fault of an input that goes no further, for this cause.
    pub fn fault(&self, cause: Cause) -> Fault
        ensures { result ≡ record { cause = cause; place = self.now.place } }
    {
        Fault {
            cause,
            place: self.place,
        }
    }
}
