// Anchors by their names.
ghost use Rattle.std.specs.Prelude.{◌≡◌, ◌≤◌, length};
ghost use Rattle.composer.specs.Names.{entry_of, found};

use crate::anchor::Anchor;
use document::limits::space;

// The entry of an anchor: its bytes, and zeros after them.
pub fn anchor_entry(name: &[u8], node: u32) -> Anchor
    requires { length name.now ≤ 64 }
    ensures { result ≡ entry_of name.now node }
{
    let mut bytes = [0; 64];
    let size = name.len();
    bytes[..size].copy_from_slice(name);
    Anchor {
        bytes,
        size: size as u32,
        node,
    }
}

// The node of the first anchor with that name.
// A form this project keeps: nested loops over anchors and the bytes of their names, left by a label.
pub fn find(anchors: &[Anchor], name: &[u8]) -> Option<u32>
    ensures { result ≡ found anchors.now name.now }
{
    let mut node = None;
    'anchors: for anchor in anchors {
        let bytes: &[u8] = &anchor.bytes;
        let size = space(anchor.size as usize, bytes.len());
        if size != name.len() {
            continue 'anchors;
        }
        for i in 0..size {
            if bytes[i] != name[i] {
                continue 'anchors;
            }
        }
        node = Some(anchor.node);
        break 'anchors;
    }
    node
}
