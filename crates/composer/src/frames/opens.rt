// Opening and closing collections, and counting the children of the innermost one.
ghost use Rattle.std.specs.Prelude.{◌≡◌, ◌+◌, ◌^◌, ◌<◌, []};
ghost use Rattle.composer.specs.Opens.{opens, innermost, within, outer, Opened, top_children, one_more_child};

use super::{Frame, Frames};
use document::limits::MAX_OPEN;
use tables::Full;

impl Frames {
    // No collection is open.
    pub fn new() -> Frames
        ensures { opens result ≡ [] }
    {
        Frames {
            all: [Frame::default(); MAX_OPEN],
            count: 0,
        }
    }

    // How many collections are open.
    pub fn len(&self) -> usize
        ensures { within self.now result }
    {
        self.count
    }

    // The innermost one.
    pub fn top(&self) -> Option<Frame>
        ensures { result ≡ innermost (opens self.now) }
    {
        let top = self.count.checked_sub(1)?;
        Some(self.all[top])
    }

    // Opens one more, unless 256 are open.
    pub fn push(&mut self, frame: Frame) -> Result<(), Full>
        ensures { Opened self.old frame result self.new }
    {
        let top = self.count;
        if top == MAX_OPEN {
            return Err(Full);
        }
        self.all[top] = frame;
        self.count = top + 1;
        Ok(())
    }

    // Closes the innermost one.
    pub fn pop(&mut self)
        ensures { opens self.new ≡ outer (opens self.old) }
    {
        if self.count > 0 {
            self.count -= 1;
        }
    }

    // Closes all.
    pub fn clear(&mut self)
        ensures { opens self.new ≡ [] }
    {
        self.count = 0;
    }

    // Counts one child more of the innermost one.
    pub fn count_child(&mut self)
        requires { top_children (opens self.old) + 1 < 2 ^ 32 }
        ensures { opens self.new ≡ one_more_child (opens self.old) }
    {
        if self.count > 0 {
            let top = self.count - 1;
            self.all[top].children += 1;
        }
    }
}
