// Reading the parts of a line that carry a text.
ghost use Rattle.std.specs.Prelude.{◌≡◌, ◌≤◌, drop, slice_index, []};
ghost use Rattle.lines.specs.Line.{untext, past, part_text, part_rest};
ghost use Rattle.lines.specs.Parts.{ReadPart};

use crate::buffer::Buffer;
use crate::byte::unescape;
use yaml::Cause;

// The byte at a place; past the end, 0: the definition of what an escape tells has no other answer for a digit that is missing.
fn byte_at(bytes: &[u8], i: usize) -> u8
    ensures { result ≡ slice_index bytes.now i }
{
    bytes.get(i).copied().unwrap_or_default()
}

// What follows the first n bytes.
fn skip(bytes: &[u8], n: usize) -> &[u8]
    ensures { result.now ≡ drop n bytes.now }
{
    bytes.get(n..).unwrap_or_default()
}

// Reads an escaped text, up to the first byte below 33 or the end, and answers what follows it; there is no line where it does not fit.
fn read_text<'a, const N: usize>(bytes: &'a [u8], text: &mut Buffer<N>) -> Result<&'a [u8], Cause>
    requires { text.old ≡ [] }
    ensures { ReadPart N (untext 0 bytes.now) (past 0 bytes.now) text.new result }
{
    let mut rest = bytes;
    // an escape takes three bytes and any other byte is one, which no iterator of the library steps by
    'bytes: loop {
        let (byte, after) = match byte_at(rest, 0) {
            0..=b' ' => return Ok(rest),
            b'\\' => (unescape(byte_at(rest, 1), byte_at(rest, 2)), skip(rest, 3)),
            plain => (plain, skip(rest, 1)),
        };
        if text.is_full() {
            return Err(Cause::NotALine);
        }
        text.push(byte);
        rest = after;
    }
}

// Reads the text that stands behind a space and a mark, and answers what follows it; where there is none, a text of no bytes.
pub fn read_part<'a, const N: usize>(
    bytes: &'a [u8],
    mark: u8,
    text: &mut Buffer<N>,
) -> Result<&'a [u8], Cause>
    requires { 1 ≤ mark }
    ensures { ReadPart N (part_text mark bytes.now) (part_rest mark bytes.now) text.new result }
{
    text.clear();
    match bytes {
        [b' ', first, escaped @ ..] if *first == mark => read_text(escaped, text),
        _ => Ok(bytes),
    }
}
