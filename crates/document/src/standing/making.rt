// How a Document comes to stand on its tables.
ghost use Rattle.std.specs.Prelude.{◌≡◌};
ghost use Rattle.document.specs.Check.{handed_of, Determined};
ghost use Rattle.document.specs.Books.{Bare, Stood};

use super::Document;
use crate::check::cut::Cut;
use crate::handed::Handed;
use crate::limits::{MAX_LINKS, MAX_NODES, MAX_TEXT};
use crate::refusal::{Question, Refusal};

impl<'a> Document<'a> {
    // The Document without nodes, whose start and end are not implicit.
    pub fn empty() -> Document<'a>
        ensures { Bare result }
    {
        Document {
            nodes: &[],
            links: &[],
            text: &[],
            start_implicit: false,
            end_implicit: false,
        }
    }

    // The Document on the first `count` nodes, the links and the text that are handed in, if they pass the check.
    pub fn stand(handed: Handed<'a>) -> Result<Document<'a>, Refusal>
        ensures stood { Stood handed.entry result }
        ensures determined { Determined (handed_of handed.entry) }
    {
        let Handed {
            nodes,
            links,
            text,
            count,
            start_implicit,
            end_implicit,
        } = handed;
        if count > nodes.len().min(MAX_NODES) {
            return Err(Refusal {
                question: Question::Count,
                node: 0,
            });
        }
        let cut = Cut {
            nodes: &nodes[..count],
            links: &links[..links.len().min(MAX_LINKS)],
            text: &text[..text.len().min(MAX_TEXT)],
        };
        cut.check()?;
        Ok(Document {
            nodes: cut.nodes,
            links: cut.links,
            text: cut.text,
            start_implicit,
            end_implicit,
        })
    }
}
