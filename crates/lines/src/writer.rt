// The line writer: a sink over a lent slice.
ghost use Rattle.std.specs.Prelude.{◌≡◌, ◌≤◌, length, take};
ghost use Rattle.model.specs.Reading.{read_all, fault_number};
ghost use Rattle.lines.specs.Line.{line_front};

pub mod sink;
mod store;

// The slice, and how many of its bytes hold lines; these bytes are read to their end. A form this project keeps: a sink writes into a slice that is lent
// to it, with no heap.
#[derive(Drop)]
pub struct LineWriter<'a> {
    out: &'a mut [u8],
    used: usize,
    ghost inside: { used ≤ length out.now },
    ghost whole: { fault_number (read_all line_front (take used out.now)).after ≡ 0 },
}
