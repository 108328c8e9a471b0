// The record of an anchor, as it stands in a table. Its bytes are all told, so that an empty table is all zero.
ghost use Rattle.composer.specs.Names.{empty_anchor};

use tables::Empty;

// A form this project keeps: a packed record, as C hands it in, so the name is bytes with a size beside them.
#[repr(C)]
#[derive(Clone, Copy, PartialEq, Eq, Debug)]
pub struct Anchor {
    // the name, and zeros after it
    pub bytes: [u8; 64],
    // how many bytes the name has
    pub size: u32,
    // the number of the node that it names
    pub node: u32,
}

impl Empty for Anchor {
    ghost empty = { empty_anchor };

    // written out, as the library has no default for 64 bytes
    fn none() -> Anchor {
        Anchor {
            bytes: [0; 64],
            size: 0,
            node: 0,
        }
    }
}
