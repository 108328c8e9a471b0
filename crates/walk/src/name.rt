// An anchor as it is written.
ghost use Rattle.std.specs.Prelude.{◌≡◌, ◌≤◌, []};

// How one is written.
pub use crate::anchor::generate_anchor;

#[derive(Clone, Copy, Debug)]
pub struct AnchorName {
    pub(crate) bytes: [u8; 6],
    // so many of them
    pub(crate) len: usize,
    ghost within: { len ≤ 6 },
}

impl AnchorName {
    ghost use Rattle.walk.specs.Names.{name_in};

    // Where there is no anchor.
    pub fn none() -> AnchorName
        ensures { name_in result ≡ [] }
    {
        AnchorName {
            bytes: [0; 6],
            len: 0,
        }
    }

    // Its bytes, as they are written.
    pub fn as_bytes(&self) -> &[u8]
        ensures { result.now ≡ name_in self.now }
    {
        &self.bytes[..self.len]
    }
}
