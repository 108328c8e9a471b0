// What a document is dumped with.
ghost use Rattle.std.specs.Prelude.{IfOk};
ghost use Rattle.room.specs.Rooms.{FitsEveryDump};

use document::limits::MAX_NODES;
use std::alloc::{AllocError, Global};
use tables::Empty;
use walk::limits::MAX_STEPS;
use walk::{Counted, Step};

#[derive(Drop)]
pub struct DumpRoom {
    pub counting: Vec<Counted>,
    pub steps: Vec<Step>,
}

impl DumpRoom {
    // Memory for the longest walk within the limits.
    pub fn new(heap: Global) -> Result<DumpRoom, AllocError>
        ensures { IfOk result FitsEveryDump }
    {
        Ok(DumpRoom {
            counting: vec![in heap; Counted::none(); MAX_NODES]?,
            steps: vec![in heap; Step::none(); MAX_STEPS]?,
        })
    }
}
