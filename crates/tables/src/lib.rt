// Tables that are handed in as slices: what their empty entry is, clearing one, and a stack over one.
#![tactic(auto)]

pub mod empty;
pub mod stack;

pub use empty::{Empty, clear};
pub use stack::{Full, NoEntry, Stack};
