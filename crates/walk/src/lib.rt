// Before a Document is written: which of its nodes get an anchor, how an anchor is written, and the steps of the walk over its nodes.
#![tactic(auto)]

mod anchor;
mod count;
mod dump;
pub mod entry;
pub mod limits;
mod look;
pub mod name;
pub mod planning;

pub use anchor::generate_anchor;
pub use entry::{Counted, Step, StepKind};
pub use name::AnchorName;
pub use planning::{Unplanned, anchor_of, clear_plan, make_plan};
