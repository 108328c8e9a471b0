// The limits of the tables. A table's space is the smaller of its length and its limit; nothing past it is used.
ghost use Rattle.std.specs.Prelude.{◌≡◌, min};

pub const MAX_NODES: usize = 4096;

pub const MAX_LINKS: usize = 16384;
// children that wait for their collection's end
pub const MAX_WAITING: usize = 16384;

pub const MAX_TEXT: usize = 65536;

pub const MAX_ANCHORS: usize = 4096;
// collections open at once
pub const MAX_OPEN: usize = 256;

// The space of a table.
pub fn space(length: usize, limit: usize) -> usize
    ensures { result ≡ min length limit }
{
    length.min(limit)
}
