// The line format of events: a reader, which is a source of events, and a writer, which is a sink.
#![tactic(auto)]

mod buffer;
mod byte;
mod compare;
mod count;
mod front;
mod part;
mod pen;
pub mod reader;
mod told;
pub mod writer;

pub use byte::escape;
pub use reader::LineReader;
pub use writer::LineWriter;
