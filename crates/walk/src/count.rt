// Which nodes get an anchor: the root counts one reference, and each of the root's own links one.
ghost use Rattle.document.specs.Books.{book_of};
ghost use Rattle.walk.specs.Counting.{Countable, Referred, Ready, Numbered};

use crate::entry::Counted;
use crate::look::links_at;
use document::Document;

// One more reference of a node; at its second it gets the next number.
fn anchor_node_sub(counting: &mut [Counted], last_anchor_id: &mut u32, node: u32)
    requires { Countable counting.old last_anchor_id.old node }
    ensures { Referred counting.old last_anchor_id.old node counting.new last_anchor_id.new }
{
    let counted = &mut counting[node as usize - 1];
    counted.references += 1;
    if counted.references == 2 {
        *last_anchor_id += 1;
        counted.anchor = *last_anchor_id;
    }
}

// Numbers the nodes.
pub fn anchor_node(d: &Document<'_>, counting: &mut [Counted], last_anchor_id: &mut u32)
    requires { Ready (book_of d.now).nodes counting.old last_anchor_id.old }
    ensures { Numbered (book_of d.now).nodes counting.new last_anchor_id.new }
{
    anchor_node_sub(counting, last_anchor_id, 1);
    for child in links_at(d, 1) {
        anchor_node_sub(counting, last_anchor_id, *child);
    }
}
