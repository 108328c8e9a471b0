// The packed format of events: a head of nine bytes, then the texts.
#![tactic(auto)]

pub mod head;
pub mod reader;
pub mod writer;

pub use head::Found;
pub use reader::PackedReader;
pub use writer::PackedWriter;
