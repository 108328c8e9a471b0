// The packed writer: a sink over a lent slice.
ghost use Rattle.std.specs.Prelude.{◌≡◌, ◌+◌, ◌≤◌, true, length, take};
ghost use Rattle.yaml.specs.Puts.{puts};
ghost use Rattle.model.specs.Events.{allowed as allowed_event};
ghost use Rattle.model.specs.Reading.{read_all, fault_number};
ghost use Rattle.yaml.specs.Shapes.{ev_of};
ghost use Rattle.packed.specs.Packed.{packed_front, head_of, size_of as packed_size};

use crate::head::HEAD;
use yaml::event::allowed;
use yaml::sink::fitting;
use yaml::{Event, Refusal, Sink};

// Stores bytes into a slice, from a place on. A loop over the slice as a parameter: with copy_from_slice the archive for C wants `memmove` from
// outside, and each short text costs a call.
fn store(out: &mut [u8], at: usize, bytes: &[u8])
    requires { at + length bytes.now ≤ length out.old }
    ensures { out.new ≡ puts out.old at bytes.now }
{
    for (i, b) in bytes.iter().enumerate() {
        out[at + i] = *b;
    }
}

// The slice, and how many of its bytes hold events; these bytes are read to their end. Slice and count stay beside one another: the user lends
// the memory, and a library crate has no heap for a Vec.
#[derive(Drop)]
pub struct PackedWriter<'a> {
    out: &'a mut [u8],
    used: usize,
    ghost inside: { used ≤ length out.now },
    ghost whole: { fault_number (read_all packed_front (take used out.now)).after ≡ 0 },
}

impl<'a> PackedWriter<'a> {
    ghost use Rattle.std.specs.Prelude.{◌+◌, []};
    ghost use Rattle.packed.specs.Writes.{view_of, Put, Sizes, Stored, Finished};

    // A writer into this slice, which holds no event yet.
    pub fn new(out: &'a mut [u8]) -> PackedWriter<'a>
        ensures taken { (view_of result).taken ≡ [] }
        ensures room { (view_of result).room ≡ length out.old }
        ensures sizes { Sizes }
    {
        PackedWriter { out, used: 0 }
    }

    // Stores bytes at a place that no event holds, and gives the place behind them.
    fn put(&mut self, at: usize, bytes: &[u8]) -> usize
        requires behind { self.old.used ≤ at }
        requires fits { at + length bytes.now ≤ length self.old.out.now }
        ensures { Put self.old at bytes.now result self.new }
    {
        let out = &mut *self.out;
        store(out, at, bytes);
        at + bytes.len()
    }

    // Stores the bytes of an event behind those that hold events, and gives the place behind them.
    fn put_event(&mut self, e: &Event<'_>) -> usize
        requires allowed { allowed_event (ev_of e.now) ≡ true }
        requires fits { self.old.used + packed_size (ev_of e.now) ≤ length self.old.out.now }
        ensures { Stored self.old (ev_of e.now) result self.new }
    {
        let head = head_bytes(e);
        let anchor = self.put(self.used, &head);
        let tag = self.put(anchor, e.anchor);
        let value = self.put(tag, e.tag);
        self.put(value, e.value)
    }

    // The bytes that hold events.
    pub fn finish(self) -> &'a [u8]
        ensures { Finished self.entry result.now }
    {
        let PackedWriter { out, used } = self;
        &out[..used]
    }
}

// The head of an event.
fn head_bytes(e: &Event<'_>) -> [u8; HEAD]
    requires { allowed_event (ev_of e.now) ≡ true }
    ensures { result ≡ head_of (ev_of e.now) }
{
    let [a1, a0] = (e.anchor.len() as u16).to_be_bytes();
    let [t1, t0] = (e.tag.len() as u16).to_be_bytes();
    let [v1, v0] = (e.value.len() as u16).to_be_bytes();
    [u8::from(e.kind), e.style, e.flags, a1, a0, t1, t0, v1, v0]
}

impl<'a> Sink for PackedWriter<'a> {
    ghost use Rattle.packed.specs.Writes.{view_of, weighs as weighs_of};

    ghost view = { view_of };

    ghost weight = { packed_size };

    ghost weighs = { weighs_of };

    fn size(&self, e: &Event<'_>) -> Option<u16> {
        if !allowed(e) {
            return None;
        }
        Some((HEAD + e.anchor.len() + e.tag.len() + e.value.len()) as u16)
    }

    fn space(&self) -> usize {
        self.out.len() - self.used
    }

    fn take(&mut self, e: &Event<'_>) -> Result<(), Refusal> {
        fitting((*self).size(e), (*self).space())?;
        self.used = self.put_event(e);
        Ok(())
    }
}
