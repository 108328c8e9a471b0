// What a load gives, and where a loader is.
ghost use Rattle.loader.specs.Loads.{StoodOn};

use composer::Tables;
use document::{Document, Handed, Refusal};
use model::Mark;

// A document stands in the tables: how many entries of each it took, its flags and its marks.
#[derive(Clone, Copy, PartialEq, Eq, Debug)]
pub struct Loaded {
    pub nodes: usize,
    pub links: usize,
    pub text: usize,
    // how many anchors its events gave
    pub anchors: usize,
    pub start_implicit: bool,
    pub end_implicit: bool,
    // where its start event begins and its end event ends
    pub start: Mark,
    pub end: Mark,
}

impl Loaded {
    // The Document on the tables that hold what was loaded, or why none stands on them.
    pub fn document<'t>(&self, tables: &'t Tables<'_>) -> Result<Document<'t>, Refusal>
        ensures { StoodOn tables.now self.now result }
    {
        Document::stand(Handed {
            nodes: tables.nodes(),
            links: tables.links(),
            text: tables.text(),
            count: self.nodes,
            start_implicit: self.start_implicit,
            end_implicit: self.end_implicit,
        })
    }
}

// Where a loader is in its stream.
#[derive(Clone, Copy, PartialEq, Eq, Debug)]
pub enum Phase {
    // before the stream's start
    Fresh,
    // between documents
    Between,
    // after the stream's end
    Ended,
    // after a refusal
    Spoilt,
}
