// The empty entry of a table, and clearing a table.
ghost use Rattle.std.specs.Prelude.{◌≡◌, ℕ, length, replicate};

// What can stand in a table: it names its empty entry. A form this project keeps.
pub trait Empty {
    ghost empty: { Self };

    fn none() -> Self
        ensures { result ≡ empty };
}

// Three impls that differ only in the type, since a macro that would write them is refused: it may hold no ghost item yet.
impl Empty for u8 {
    ghost empty = { 0 };

    fn none() -> u8 {
        0
    }
}

impl Empty for u32 {
    ghost empty = { 0 };

    fn none() -> u32 {
        0
    }
}

impl Empty for usize {
    ghost empty = { 0 };

    fn none() -> usize {
        0
    }
}

// Fills a table with its empty entry. A loop over the entries, which leaves open what is written into each, as an edit of it shows: `fill_with` tells
// of its closure alone.
pub fn clear<T: Empty + Copy>(table: &mut [T])
    ensures { table.new ≡ replicate (length table.old) T.Empty.empty }
{
    for entry in table.iter_mut() {
        *entry = T::none();
    }
}
