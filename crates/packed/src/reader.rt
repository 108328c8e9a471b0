// The packed reader: a source over packed bytes.
ghost use Rattle.std.specs.Prelude.{◌≡◌};
ghost use Rattle.packed.specs.Reads.{flow_of, sound as sound_of, Made, WrittenBack};

use crate::head::read_front;
use yaml::{Cursor, Event, Fault, Head, Source, Text};

// What is left of the input, and the latest event.
#[derive(Drop)]
pub struct PackedReader<'a> {
    input: Cursor<'a>,
    latest: Option<Event<'a>>,
}

impl<'a> PackedReader<'a> {
    // A reader of these bytes, before their first event.
    pub fn new(bytes: &'a [u8]) -> PackedReader<'a>
        ensures made { Made bytes.now result }
        ensures written_back { WrittenBack bytes.now }
    {
        PackedReader {
            input: Cursor::new(bytes),
            latest: None,
        }
    }
}

impl<'a> Source for PackedReader<'a> {
    ghost flow = { flow_of };

    ghost sound = { sound_of };

    fn next_event(&mut self) -> Result<Option<Head>, Fault> {
        match read_front(self.input.rest) {
            Ok(None) => Ok(None),
            Ok(Some(found)) => {
                let (start, end) = self.input.pass(found.size);
                self.latest = Some(found.event);
                Ok(Some(found.event.head(start, end)))
            }
            Err(cause) => Err(self.input.fault(cause)),
        }
    }

    fn byte(&self, text: Text, i: usize) -> Option<u8> {
        let latest = self.latest?;
        latest.text(text).get(i).copied()
    }
}
