// Loading every document of a source and dumping it into a sink: opens, dumps each, and closes at the stream's end.
#![tactic(auto)]

ghost use Rattle.std.specs.Prelude.{◌≡◌, IfErr, IsOk, MatchResult, Err};
ghost use Rattle.redump.specs.declared.Refusal.TheVariants.{Load, Stand, Dump};
ghost use Rattle.redump.specs.Counts.{handed_on, with_events, with_document, Counts};

use composer::Tables;
use dumper::{Refused, Writer};
use loader::{Loaded, Loader};
use walk::{Counted, Step};
use yaml::{Sink, Source};

// What was loaded and dumped: whole documents, with their nodes and links, and the events taken.
#[derive(Clone, Copy, PartialEq, Eq, Debug, Default)]
pub struct Totals {
    pub documents: usize,
    pub nodes: usize,
    pub links: usize,
    pub events: usize,
}

impl Totals {
    // Counts the events that a call of the writer handed on, also where it was refused, and passes the refusal on.
    fn count_call(&mut self, called: Result<usize, Refused>) -> Result<(), Refused>
        ensures counted { self.new ≡ with_events self.old (handed_on called) }
        ensures passed { MatchResult result (λ u. IsOk called) (λ f. called ≡ Err f) }
    {
        let events = match called {
            Ok(events) => events,
            Err(refused) => refused.events,
        };
        self.events = self.events.saturating_add(events);
        called.map(|_| ())
    }

    // Counts a document that was loaded and dumped whole.
    fn count_document(&mut self, loaded: &Loaded)
        ensures { self.new ≡ with_document self.old loaded.now }
    {
        self.documents = self.documents.saturating_add(1);
        self.nodes = self.nodes.saturating_add(loaded.nodes);
        self.links = self.links.saturating_add(loaded.links);
    }
}

// Why a stream was not redumped to its end.
#[derive(Clone, Copy)]
pub enum Refusal {
    // a load was refused
    Load(loader::Refusal),
    // no Document stands on what a load gave
    Stand(document::Refusal),
    // a call of the writer was refused
    Dump(Refused),
}

// A refused load.
impl From<loader::Refusal> for Refusal {
    ghost from_gives = { λ refusal r. r ≡ Load refusal };

    fn from(refusal: loader::Refusal) -> Refusal {
        Refusal::Load(refusal)
    }
}

// Tables on which no Document stands.
impl From<document::Refusal> for Refusal {
    ghost from_gives = { λ refusal r. r ≡ Stand refusal };

    fn from(refusal: document::Refusal) -> Refusal {
        Refusal::Stand(refusal)
    }
}

// A refused call of the writer.
impl From<Refused> for Refusal {
    ghost from_gives = { λ refused r. r ≡ Dump refused };

    fn from(refused: Refused) -> Refusal {
        Refusal::Dump(refused)
    }
}

// Loads and dumps document after document, up to the stream's end.
fn redump_documents<S: Source, K: Sink>(
    loader: &mut Loader<S>,
    writer: &mut Writer<K>,
    tables: &mut Tables<'_>,
    counting: &mut [Counted],
    steps: &mut [Step],
    totals: &mut Totals,
) -> Result<(), Refusal>
    ensures { IfErr result (Counts totals.new) }
{
    // a `for`, which ends by itself; a `while let` is no plainer, since it wants a proof that the source ends
    for _ in 0..usize::MAX {
        let Some(loaded) = loader.load(tables)? else {
            return Ok(());
        };
        let d = loaded.document(tables)?;
        totals.count_call(writer.dump(d, counting, steps))?;
        totals.count_document(&loaded);
    }
    Ok(())
}

// The whole stream. What was taken before a refusal stands in the sink, and the totals tell it: so they are lent, and not answered on Ok alone.
pub fn redump<S: Source + Drop, K: Sink + Drop>(
    source: S,
    sink: K,
    tables: &mut Tables<'_>,
    counting: &mut [Counted],
    steps: &mut [Step],
    totals: &mut Totals,
) -> Result<(), Refusal>
    ensures { IfErr result (Counts totals.new) }
{
    *totals = Totals::default();
    let mut loader = Loader::new(source);
    let mut writer = Writer::new(sink);
    totals.count_call(writer.open())?;
    redump_documents(&mut loader, &mut writer, tables, counting, steps, totals)?;
    Ok(totals.count_call(writer.close())?)
}
