// Reading the nodes of a Document by numbers that name one.
ghost use Rattle.document.specs.Books.{book_of};
ghost use Rattle.walk.specs.Looks.{Inside, IsKind, HasLinks};

use document::{Document, NodeKind};

// What the node is.
pub fn kind_at(d: &Document<'_>, node: u32) -> NodeKind
    requires { Inside (book_of d.now).nodes node }
    ensures { IsKind (book_of d.now).nodes node result }
{
    d.kind(node).unwrap()
}

// The numbers of the nodes that its links name.
pub fn links_at<'a>(d: &Document<'a>, node: u32) -> &'a [u32]
    requires { Inside (book_of d.now).nodes node }
    ensures { HasLinks (book_of d.now).nodes node result.now }
{
    d.sound();
    d.links(node).unwrap()
}
