// A text of at most N bytes, which lie in the value itself.
// The kit's arrayvec, tried in its place, writes blanks over the bytes that it gives up, and lines were read a quarter slower with it.
ghost use Rattle.std.specs.Prelude.{◌≡◌, ◌^◌, ◌<◌, ◌≤◌, ◌↔◌, [], ◌∷◌, ◌++◌, length, IsTrue};

use std::marker::Model;

// The bytes, and how many of them are the text.
#[derive(Drop)]
pub struct Buffer<const N: usize> {
    bytes: [u8; N],
    length: usize,
}

impl<const N: usize> Model for Buffer<N> {
    ghost use Rattle.std.specs.Prelude.{◌^◌, ◌<◌, ◌≤◌, ℕ, List, take};

    ghost Value = { List ℕ };

    ghost view = { λ b. take b.length b.bytes };

    ghost invariant = { λ b. (b.length ≤ N) × (N < 2 ^ 63) };
}

impl<const N: usize> Buffer<N> {
    // A text of no bytes.
    pub fn new() -> Self
        requires { N < 2 ^ 63 }
        ensures { result ≡ [] }
    {
        Buffer {
            bytes: [0; N],
            length: 0,
        }
    }

    // The text.
    pub fn as_slice(&self) -> &[u8]
        ensures value { result.now ≡ self.now }
        ensures fits { length result.now ≤ N }
    {
        &self.bytes[..self.length]
    }

    // Whether no further byte fits.
    pub fn is_full(&self) -> bool
        ensures value { IsTrue result ↔ (length self.now ≡ N) }
        ensures fits { length self.now ≤ N }
    {
        self.length == N
    }

    // Becomes a text of no bytes.
    pub fn clear(&mut self)
        ensures { self.new ≡ [] }
    {
        self.length = 0;
    }

    // Puts a byte at the end.
    pub fn push(&mut self, byte: u8)
        requires { length self.old < N }
        ensures { self.new ≡ self.old ++ byte ∷ [] }
    {
        let length = self.length;
        self.bytes[length] = byte;
        self.length = length + 1;
    }

    // Becomes the copy of another text; most have no bytes, for which no copy is called.
    pub fn copy_from(&mut self, other: &Self)
        ensures { self.new ≡ other.now }
    {
        let text = other.as_slice();
        if !text.is_empty() {
            self.bytes[..text.len()].copy_from_slice(text);
        }
        self.length = text.len();
    }
}
