// Whether some bytes begin with the line of an event, by writing it with a pen that compares.
ghost use Rattle.std.specs.Prelude.{◌≡◌};
ghost use Rattle.yaml.specs.Shapes.{ev_of};
ghost use Rattle.lines.specs.Pens.{Compared, unbounded, compare_nothing, compare_onward, compare_falls, LineWithin};

use crate::pen::{Pen, write_line};
use yaml::Event;
use yaml::event::allowed;

// The bytes that are still to come, as long as all that came were those to compare with.
#[derive(Drop)]
pub struct Compare<'a> {
    pub left: Option<&'a [u8]>,
}

impl<'a> Pen for Compare<'a> {
    const RUNS: bool = true;

    ghost wrote = { Compared };

    ghost room = { unbounded };

    ghost nothing = { compare_nothing };

    ghost onward = { compare_onward };

    ghost falls = { compare_falls };

    fn put(&mut self, bytes: &[u8]) {
        if let Some(left) = self.left {
            self.left = left.strip_prefix(bytes);
        }
    }
}

// The size of an event's line, if the event is allowed and the bytes begin with its line.
#[tactic(auto, using(crate::specs::Lawful::short))]
pub fn line_within(e: &Event<'_>, bytes: &[u8]) -> Option<usize>
    ensures { LineWithin (ev_of e.now) bytes.now result }
{
    if !allowed(e) {
        return None;
    }
    let mut compare = Compare { left: Some(bytes) };
    write_line(&mut compare, e);
    let left = compare.left?;
    Some(bytes.len() - left.len())
}
