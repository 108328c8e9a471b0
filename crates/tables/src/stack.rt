// A stack over a lent table. It says no rather than run past the table, and its entries past the top are never read.
ghost use Rattle.std.specs.Prelude.{◌≡◌, ℕ, ◌+◌, ◌≤◌, length};
ghost use Rattle.std.specs.List.{slice_get};
ghost use Rattle.tables.specs.Growing.{Growing};

use crate::empty::{Empty, clear};

// Puts several entries into a table, from a place on. A loop over the table as a parameter, which compiles to a plain copy in place:
// with copy_from_slice, tried, each few links cost a call, and deep documents loaded 5 in 100 slower.
fn put<T: Copy>(table: &mut [T], at: usize, entries: &[T])
    requires { at + length entries.now ≤ length table.old }
    ensures { Growing table.old table.new entries.now at (length entries.now) }
{
    for (i, entry) in entries.iter().enumerate() {
        table[at + i] = *entry;
    }
}

// The stack has too little room for what should go on top.
#[derive(Clone, Copy, PartialEq, Eq, Debug)]
pub struct Full;

// The stack holds no entry at that place.
#[derive(Clone, Copy, PartialEq, Eq, Debug)]
pub struct NoEntry;

// A form this project keeps: one generic stack over a lent slice, which counts how much of it is held.
#[derive(Drop)]
pub struct Stack<'a, T> {
    items: &'a mut [T],
    count: usize,
    ghost within: { count ≤ length items.now },
}

impl<'a, T: Empty + Copy> Stack<'a, T> {
    ghost use Rattle.tables.specs.Stacks.{Made, Counted, Wiped, Pushed, Popped, Replaced, Extended, Shortened, contents, room_of};

    // An empty stack; the table stays as it is.
    pub fn new(items: &'a mut [T]) -> Stack<'a, T>
        ensures { Made items.entry result }
    {
        Stack { items, count: 0 }
    }

    // How many entries it holds.
    pub fn len(&self) -> usize
        ensures { Counted self.now result }
    {
        self.count
    }

    // How many entries it can hold.
    pub fn space(&self) -> usize
        ensures { result ≡ room_of self.now }
    {
        self.items.len()
    }

    // Puts an entry on top, if there is room.
    pub fn push(&mut self, entry: T) -> Result<(), Full>
        ensures { Pushed self.old entry result self.new }
    {
        let top = self.count;
        if top == self.items.len() {
            return Err(Full);
        }
        self.items[top] = entry;
        self.count = top + 1;
        Ok(())
    }

    // Takes the top entry into `place` and puts the empty entry back, or says no: it is empty.
    // A form this project keeps: it fills a lent place and answers yes or no.
    pub fn pop(&mut self, place: &mut T) -> bool
        ensures { Popped T.Empty.empty self.old place.old result self.new place.new }
    {
        if self.count == 0 {
            return false;
        }
        let top = self.count - 1;
        *place = self.items[top];
        self.count = top;
        self.items[top] = T::none();
        true
    }

    // The entry at a place from 0, counted from the bottom.
    pub fn get(&self, i: usize) -> Option<T>
        ensures { result ≡ slice_get (contents self.now) i }
    {
        self.entries().get(i).copied()
    }

    // The entries that it holds, the top one last.
    pub fn entries(&self) -> &[T]
        ensures { result.now ≡ contents self.now }
    {
        let items = &*self.items;
        &items[..self.count]
    }

    // The whole table.
    pub fn table(&self) -> &[T]
        ensures { result.now ≡ self.now.items.now }
    {
        &*self.items
    }

    // Puts another entry at a place from 0, counted from the bottom, if one is there.
    pub fn replace(&mut self, i: usize, entry: T) -> Result<(), NoEntry>
        ensures { Replaced self.old i entry result self.new }
    {
        if i >= self.count {
            return Err(NoEntry);
        }
        self.items[i] = entry;
        Ok(())
    }

    // Puts several entries on top, the last one last, if there is room for all.
    pub fn extend(&mut self, entries: &[T]) -> Result<(), Full>
        ensures { Extended self.old entries.now result self.new }
    {
        let held = self.count;
        if entries.len() > self.items.len() - held {
            return Err(Full);
        }
        let items = &mut *self.items;
        put(items, held, entries);
        self.count = held + entries.len();
        Ok(())
    }

    // Takes entries off the top until at most n are left. A loop over the places: with `clear`, the few children of each collection cost a call.
    pub fn shorten(&mut self, n: usize)
        ensures { Shortened T.Empty.empty self.old n self.new }
    {
        let held = self.count;
        if n < held {
            for place in n..held {
                self.items[place] = T::none();
            }
            self.count = n;
        }
    }

    // Empties the stack and its whole table.
    pub fn wipe(&mut self)
        ensures { Wiped T.Empty.empty self.old self.new }
    {
        let items = &mut *self.items;
        clear(items);
        self.count = 0;
    }
}
