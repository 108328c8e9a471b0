// The records of YAML events, the two interfaces through which events come and go, and what each of them promises.
#![tactic(auto)]

pub mod event;
pub mod place;
pub mod sink;
pub mod source;

pub use event::{Event, Head, Shape, Text};
pub use model::{Cause, EventKind, Fault, Mark};
pub use place::Cursor;
pub use sink::{Refusal, Sink};
pub use source::Source;
