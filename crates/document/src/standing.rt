// A Document: tables that passed the check, for as long as it stands.
ghost use Rattle.std.specs.Prelude.{◌≡◌, ◌≤◌, true, length};
ghost use Rattle.std.specs.List.{list_all};
ghost use Rattle.document.specs.Questions.{kind_right, tag_right, value_right, links_right, link_total, text_total};

use crate::node::Node;

mod making;
mod reading;

// It borrows its tables, so nothing writes them while it stands; it is neither Copy nor Clone, so it is handed on once.
#[derive(Drop)]
pub struct Document<'a> {
    // exactly the document's nodes
    nodes: &'a [Node],
    // links and text within their space
    links: &'a [u32],
    text: &'a [u8],
    start_implicit: bool,
    end_implicit: bool,
    ghost few: { length nodes.now ≤ 4096 },
    ghost kinds: { list_all kind_right nodes.now ≡ true },
    ghost tags: { list_all (tag_right text.now) nodes.now ≡ true },
    ghost values: { list_all (value_right text.now) nodes.now ≡ true },
    ghost linked: { list_all (links_right (length nodes.now) links.now) nodes.now ≡ true },
    ghost few_links: { link_total nodes.now ≤ 16384 },
    ghost few_bytes: { text_total nodes.now ≤ 65536 },
}
