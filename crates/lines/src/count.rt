// The size of a line, by writing it with a pen that only counts.
ghost use Rattle.std.specs.Prelude.{◌≡◌};
ghost use Rattle.yaml.specs.Shapes.{ev_of};
ghost use Rattle.yaml.specs.View.{size_of};
ghost use Rattle.lines.specs.Pens.{Counted, uncounted, count_nothing, count_onward, count_falls, weight_of};

use crate::pen::{Pen, write_line};
use yaml::Event;
use yaml::event::allowed;

// How many bytes came.
#[derive(Drop)]
pub struct Count {
    pub bytes: u16,
}

impl Pen for Count {
    const RUNS: bool = false;

    ghost wrote = { Counted };

    ghost room = { uncounted };

    ghost nothing = { count_nothing };

    ghost onward = { count_onward };

    ghost falls = { count_falls };

    fn put(&mut self, bytes: &[u8]) {
        let before = self.bytes;
        self.bytes = before + bytes.len() as u16;
    }
}

// The size of an event's line; none for an event that is not allowed.
#[tactic(auto, using(crate::specs::Lawful::short))]
pub fn line_size(e: &Event<'_>) -> Option<u16>
    ensures { result ≡ size_of weight_of (ev_of e.now) }
{
    if !allowed(e) {
        return None;
    }
    let mut count = Count { bytes: 0 };
    write_line(&mut count, e);
    Some(count.bytes)
}
