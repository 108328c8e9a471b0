// How a mark and a text are shown.
ghost use Rattle.std.specs.Prelude.{Some};
ghost use Rattle.lines.specs.Line.{escape as escape_text};

use lines::escape;
use model::Mark;
use std::alloc::AllocError;
use std::fmt::{self, Write};

// A mark: the byte, the event and the column where something begins or ends.
#[derive(Drop)]
pub struct Place(pub Mark);

// Three numbers.
impl fmt::Display for Place {
    fn fmt<W: fmt::Write>(&self, f: &mut fmt::Formatter<W>) -> fmt::Result {
        write!(f, "{} {} {}", self.0.index, self.0.line, self.0.column)
    }
}

// A text as the line format escapes it, wherever a Display goes.
#[derive(Drop)]
pub struct Escaped<'a>(pub &'a [u8]);

// The bytes that the line writer writes for the text.
impl<'a> fmt::Display for Escaped<'a> {
    ghost output = { λ e. Some (escape_text e.0.now) };

    fn fmt<W: fmt::Write>(&self, f: &mut fmt::Formatter<W>) -> fmt::Result {
        for b in self.0 {
            match escape(*b) {
                None => f.write_char(char::from(*b))?,
                Some(escaped) => {
                    for b in escaped {
                        f.write_char(char::from(b))?;
                    }
                }
            }
        }
        Ok(())
    }
}

// Puts a text as the line format escapes it. Byte by byte into the Vec, as by Display each byte is dearer.
pub fn put_text(out: &mut Vec<u8>, text: &[u8]) -> Result<(), AllocError> {
    for b in text {
        match escape(*b) {
            None => out.push(*b)?,
            Some(escaped) => out.extend_from_slice(&escaped)?,
        }
    }
    Ok(())
}
