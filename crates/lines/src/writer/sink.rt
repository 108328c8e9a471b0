// The line writer is a sink.
ghost use Rattle.std.specs.Prelude.{◌≡◌, [], length};
ghost use Rattle.lines.specs.Line.{Short};
ghost use Rattle.lines.specs.Pens.{weight_of};
ghost use Rattle.lines.specs.Writes.{view_of, weighs as weighs_of, Finished};

use super::LineWriter;
use super::store::store_line;
use crate::count::line_size;
use yaml::sink::fitting;
use yaml::{Event, Refusal, Sink};

impl<'a> LineWriter<'a> {
    // A writer into this slice, which holds no line yet.
    pub fn new(out: &'a mut [u8]) -> LineWriter<'a>
        ensures taken { (view_of result).taken ≡ [] }
        ensures room { (view_of result).room ≡ length out.old }
        ensures sizes { Short }
    {
        LineWriter { out, used: 0 }
    }

    // The bytes that hold lines.
    pub fn finish(self) -> &'a [u8]
        ensures { Finished self.entry result.now }
    {
        let LineWriter { out, used } = self;
        &out[..used]
    }
}

impl<'a> Sink for LineWriter<'a> {
    ghost view = { view_of };

    ghost weight = { weight_of };

    ghost weighs = { weighs_of };

    fn size(&self, e: &Event<'_>) -> Option<u16> {
        line_size(e)
    }

    fn space(&self) -> usize {
        self.out.len() - self.used
    }

    fn take(&mut self, e: &Event<'_>) -> Result<(), Refusal> {
        fitting((*self).size(e), (*self).space())?;
        let out = &mut *self.out;
        self.used = store_line(out, self.used, e);
        Ok(())
    }
}
