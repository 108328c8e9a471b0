// Loading documents: from a source's events to tables, one document a call.
#![tactic(auto)]

pub mod answer;
pub mod events;
pub mod loader;
pub mod stream;

pub use answer::{Loaded, Phase};
pub use composer::{Anchor, Refusal, Tables};
pub use loader::Loader;
