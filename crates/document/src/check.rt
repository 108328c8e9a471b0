// The questions that a document's tables are asked: one function each. docs/REFUSALS.md has the list.
ghost use Rattle.std.specs.Prelude.{◌≡◌};
ghost use Rattle.std.specs.List.{list_all};
ghost use Rattle.document.specs.Questions.{kind_right, tag_right, value_right, names, links_right, bang as bang_tag};

use crate::node::Node;
use model::NodeKind;
use yaml::event::{MAX_TAG, MAX_VALUE, zero_free};

pub mod cut;

// 42
fn kind_right(node: &Node) -> bool
    ensures { result ≡ kind_right node.now }
{
    match NodeKind::try_from(node.kind) {
        Ok(NodeKind::Scalar) => node.style <= 5,
        Ok(NodeKind::Sequence | NodeKind::Mapping) => node.style <= 2,
        Err(_) => false,
    }
}

// Whether a tag is `!` alone: a form this project keeps, a pattern on the tag's bytes.
fn bang(tag: &[u8]) -> bool
    ensures { result ≡ bang_tag tag.now }
{
    match tag {
        [only] => *only == b'!',
        _ => false,
    }
}

// 43
fn tag_right(text: &[u8], node: &Node) -> bool
    ensures { result ≡ tag_right text.now node.now }
{
    let start = node.tag_start as usize;
    let length = node.tag_length as usize;
    let Some(tag) = text.get(start..start + length) else {
        return false;
    };
    1 <= length && length <= MAX_TAG && zero_free(tag) && !bang(tag)
}

// 44
fn value_right(text: &[u8], node: &Node) -> bool
    ensures { result ≡ value_right text.now node.now }
{
    let start = node.value_start as usize;
    let length = node.value_length as usize;
    if node.is(NodeKind::Scalar) {
        length <= MAX_VALUE && start + length <= text.len()
    } else {
        start == 0 && length == 0
    }
}

// Whether each link is the number of one of n nodes.
fn all_name(n: usize, links: &[u32]) -> bool
    ensures { result ≡ list_all (names n) links.now }
{
    links.iter().all(|&link| 1 <= link && link as usize <= n)
}

// 45
fn links_right(n: usize, links: &[u32], node: &Node) -> bool
    ensures { result ≡ links_right n links.now node.now }
{
    let first = node.first_link as usize;
    let count = node.link_count as usize;
    if node.is(NodeKind::Scalar) {
        return first == 0 && count == 0;
    }
    let Some(own) = links.get(first..first + count) else {
        return false;
    };
    if node.is(NodeKind::Mapping) && count % 2 != 0 {
        return false;
    }
    all_name(n, own)
}
