// Where events go.
ghost use Rattle.std.specs.Prelude.{◌≡◌, ℕ};
ghost use Rattle.model.specs.Events.{Ev};
ghost use Rattle.yaml.specs.Shapes.{ev_of};
ghost use Rattle.yaml.specs.View.{View, Weighs, size_of, Took, Fits, refusal_number};

use crate::event::Event;
use std::error::Error;
use std::fmt;

// Why a sink does not take an event.
#[derive(Clone, Copy, PartialEq, Eq, Debug)]
pub enum Refusal {
    // 31: the event is not allowed
    NotAllowed,
    // 32: the event is larger than the space left
    NoSpace { size: usize, space: usize },
}

impl Refusal {
    // The number of the refusal.
    pub fn number(self) -> u8
        ensures { result ≡ refusal_number self }
    {
        match self {
            Refusal::NotAllowed => 31,
            Refusal::NoSpace { .. } => 32,
        }
    }
}

// The refusal in words.
impl fmt::Display for Refusal {
    fn fmt<W: fmt::Write>(&self, f: &mut fmt::Formatter<W>) -> fmt::Result {
        f.write_str(match self {
            Refusal::NotAllowed => "the event is not allowed",
            Refusal::NoSpace { .. } => "the event is larger than the space left",
        })
    }
}

impl Error for Refusal {}

// A sink means the events taken, without marks, and the space left; what an event costs depends on the event alone.
pub trait Sink {
    ghost view: { Self → View };

    ghost weight: { Ev → ℕ };

    // an allowed event's size lies in 1 to 65,535
    ghost weighs: { Weighs weight };

    // The size of an event; none for one that is not allowed.
    fn size(&self, e: &Event<'_>) -> Option<u16>
        ensures { result ≡ size_of weight (ev_of e.now) };

    // The space left.
    fn space(&self) -> usize
        ensures { result ≡ (view self.now).room };

    // Takes an allowed event that fits, and nothing else: a refusal alters nothing.
    fn take(&mut self, e: &Event<'_>) -> Result<(), Refusal>
        ensures { Took weight (view self.old) (ev_of e.now) result (view self.new) };
}

// The size of an event that fits, by its size, if it is allowed, and the space left; else why a sink refuses it.
pub fn fitting(size: Option<u16>, space: usize) -> Result<usize, Refusal>
    ensures { Fits size space result }
{
    let size = size.ok_or(Refusal::NotAllowed)? as usize;
    if space < size {
        return Err(Refusal::NoSpace { size, space });
    }
    Ok(size)
}

// A lent sink is a sink.
impl<'a, S: Sink> Sink for &'a mut S {
    ghost view = { λ s. S.Sink.view s.now };

    ghost weight = { S.Sink.weight };

    ghost weighs = { S.Sink.weighs };

    fn size(&self, e: &Event<'_>) -> Option<u16> {
        (**self).size(e)
    }

    fn space(&self) -> usize {
        (**self).space()
    }

    fn take(&mut self, e: &Event<'_>) -> Result<(), Refusal> {
        (**self).take(e)
    }
}
