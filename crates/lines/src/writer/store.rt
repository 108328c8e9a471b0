// The pen that stores the bytes of a line.
ghost use Rattle.std.specs.Prelude.{◌≡◌, ◌+◌, ◌≤◌, ◌++◌, true, length, take};
ghost use Rattle.model.specs.Events.{allowed};
ghost use Rattle.yaml.specs.Puts.{puts};
ghost use Rattle.yaml.specs.Shapes.{ev_of};
ghost use Rattle.lines.specs.Line.{line_of};

use crate::pen::{Pen, write_line};
use yaml::Event;

// The slice, and the place where the next byte is stored: the bytes that stand before the line stay in sight, so no part of the slice is cut off.
#[derive(Drop)]
pub struct Store<'a> {
    pub out: &'a mut [u8],
    pub at: usize,
    ghost inside: { at ≤ length out.now },
}

impl<'a> Pen for Store<'a> {
    ghost use Rattle.lines.specs.Stores.{Stored, unwritten, store_nothing, store_onward, store_falls};

    const RUNS: bool = false;

    ghost wrote = { Stored };

    ghost room = { unwritten };

    ghost nothing = { store_nothing };

    ghost onward = { store_onward };

    ghost falls = { store_falls };

    fn put(&mut self, bytes: &[u8]) {
        let end = self.at + bytes.len();
        let out = &mut *self.out;
        out[self.at..end].copy_from_slice(bytes);
        self.at = end;
    }
}

// Stores the line of an event at a place, and gives the place behind it; nothing else alters.
pub fn store_line(out: &mut [u8], at: usize, e: &Event<'_>) -> usize
    requires allowed { allowed (ev_of e.now) ≡ true }
    requires room { at + length (line_of (ev_of e.now)) ≤ length out.old }
    ensures place { result ≡ at + length (line_of (ev_of e.now)) }
    ensures front { take result out.new ≡ take at out.old ++ line_of (ev_of e.now) }
    ensures slice { out.new ≡ puts out.old at (line_of (ev_of e.now)) }
{
    let mut store = Store { out, at };
    write_line(&mut store, e);
    store.at
}
