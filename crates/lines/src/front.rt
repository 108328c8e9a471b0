// What stands at the front of bytes that should be lines.
ghost use Rattle.std.specs.Prelude.{◌≡◌, length};
ghost use Rattle.lines.specs.Line.{line_front};
ghost use Rattle.lines.specs.Ends.{front_of, Inside};

use crate::compare::line_within;
use crate::told::Told;
use yaml::Cause;

// Reads the line at the front, whose event is told, and answers how many bytes it has; none where there is no byte.
pub fn read_front(rest: &[u8], told: &mut Told) -> Result<Option<usize>, Cause>
    ensures front { front_of told.new result ≡ line_front rest.now }
    ensures inside { Inside result (length rest.now) }
{
    if rest.is_empty() {
        return Ok(None);
    }
    told.read(rest)?;
    // a match, since `ok_or`, `?` and `Some` again say no more plainly which answer is which
    match line_within(&told.event(), rest) {
        Some(size) => Ok(Some(size)),
        None => Err(Cause::NotALine),
    }
}
