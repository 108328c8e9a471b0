// The line reader: a source over lines.
ghost use Rattle.std.specs.Prelude.{◌≡◌, Some};
ghost use Rattle.lines.specs.Line.{Refuses};
ghost use Rattle.lines.specs.Reads.{flow_of, sound as sound_of, Made, WrittenBack};

use crate::front::read_front;
use crate::told::Told;
use yaml::{Cursor, Fault, Head, Source, Text};

// What is left of the input, the latest event, and where the next one is told.
#[derive(Drop)]
pub struct LineReader<'a> {
    input: Cursor<'a>,
    latest: Option<Told>,
    next: Told,
}

impl<'a> LineReader<'a> {
    // A reader of these bytes, before their first line.
    pub fn new(bytes: &'a [u8]) -> LineReader<'a>
        ensures made { Made bytes.now result }
        ensures written_back { WrittenBack bytes.now }
        ensures refuses { Refuses }
    {
        LineReader {
            input: Cursor::new(bytes),
            latest: None,
            next: Told::default(),
        }
    }
}

// Makes the event that is held the copy of another; the buffers for it are made once.
fn hold(held: &mut Option<Told>, told: &Told)
    ensures { held.new ≡ Some told.now }
{
    held.get_or_insert_with(Told::default).copy_from(told);
}

impl<'a> Source for LineReader<'a> {
    ghost flow = { flow_of };

    ghost sound = { sound_of };

    fn next_event(&mut self) -> Result<Option<Head>, Fault> {
        match read_front(self.input.rest, &mut self.next) {
            Ok(None) => Ok(None),
            Ok(Some(size)) => {
                let (start, end) = self.input.pass(size);
                hold(&mut self.latest, &self.next);
                Ok(Some(self.next.event().head(start, end)))
            }
            Err(cause) => Err(self.input.fault(cause)),
        }
    }

    fn byte(&self, text: Text, i: usize) -> Option<u8> {
        let latest = self.latest.as_ref()?;
        latest.event().text(text).get(i).copied()
    }
}
