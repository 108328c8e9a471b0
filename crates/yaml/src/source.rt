// Where events come from.
ghost use Rattle.std.specs.Prelude.{◌≡◌, ℕ};
ghost use Rattle.yaml.specs.Flow.{Flow, Sound, Gave, byte_of};

use crate::event::{Head, Text};
use model::Fault;

// A source means its latest event, the finitely many allowed events to come with their marks, and after them nothing or a lasting fault.
pub trait Source {
    ghost flow: { Self → Flow };

    // each event to come is allowed
    ghost sound: { (s : Self) → Sound (flow s) };

    // Takes the first event to come; at the end, none or the fault, again and again, and nothing alters.
    fn next_event(&mut self) -> Result<Option<Head>, Fault>
        ensures { Gave (flow self.old) result (flow self.new) };

    // A byte of the latest event's texts; absent past the text's end, and before any event.
    // A form this project keeps: a source tells the lengths of an event's texts and gives them byte by byte, so that it may hold them in any way.
    fn byte(&self, text: Text, i: usize) -> Option<u8>
        ensures { result ≡ byte_of (flow self.now) text i };
}

// A lent source is a source.
impl<'a, S: Source> Source for &'a mut S {
    ghost flow = { λ s. S.Source.flow s.now };

    ghost sound = { λ s. S.Source.sound s.now };

    fn next_event(&mut self) -> Result<Option<Head>, Fault> {
        (**self).next_event()
    }

    fn byte(&self, text: Text, i: usize) -> Option<u8> {
        (**self).byte(text, i)
    }
}
