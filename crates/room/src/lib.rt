// Full-sized tables in memory of their own, for the programs: what a document is loaded into, and what it is dumped with.
#![tactic(auto)]

pub mod dumping;
pub mod loading;

pub use dumping::DumpRoom;
pub use loading::LoadRoom;
