// What is handed in for a Document to stand on.
use crate::node::Node;

// Tables, how many of the nodes are meant, and whether the document's start and end are implicit.
#[derive(Clone, Copy)]
pub struct Handed<'a> {
    pub nodes: &'a [Node],
    pub links: &'a [u32],
    pub text: &'a [u8],
    pub count: usize,
    pub start_implicit: bool,
    pub end_implicit: bool,
}
