// The latest event of a source, copied byte by byte into buffers.
ghost use Rattle.std.specs.Prelude.{◌≡◌, ◌≤◌, length, take};
ghost use Rattle.convert.specs.Copies.{latest_text};

use yaml::{Source, Text};

// Copies one text of the latest event, of n bytes, to the front of a buffer.
pub fn copy_text<S: Source>(source: &S, text: Text, n: usize, out: &mut [u8])
    requires n { n ≡ length (latest_text (S.Source.flow source.now) text) }
    requires fits { n ≤ length out.old }
    ensures { take n out.new ≡ latest_text (S.Source.flow source.now) text }
{
    for (i, b) in out[..n].iter_mut().enumerate() {
        *b = source.byte(text, i).unwrap();
    }
}
