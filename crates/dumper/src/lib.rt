// Writing Documents: each is walked over and handed on to a sink, event by event.
#![tactic(auto)]

pub mod answer;
mod event;
mod outlet;
mod planned;
pub mod writer;

pub use answer::{Refused, Why};
pub use writer::Writer;
