// Composing one document: what each event does to the tables. docs/REFUSALS.md has the questions in their order.
#![tactic(auto)]

pub mod anchor;
pub mod frames;
pub mod names;
pub mod placed;
pub mod refusal;
pub mod stacks;
pub mod tags;

pub use anchor::Anchor;
pub use placed::Placed;
pub use refusal::Refusal;
pub use stacks::{Spaces, Tables};
