// Redumping, for C.
use crate::told::{CallTold, LoadTold, RedumpTold};
use composer::Tables;
use document::Node;
use loader::Anchor;
use packed::{PackedReader, PackedWriter};
use redump::{Refusal, Totals, redump};
use walk::{Counted, Step};

// What is told of the end: the refusal's number, or 0 where all was done, and what a refused load or a refused call of the writer told.
fn tell_end(end: Result<(), Refusal>) -> (u32, LoadTold, CallTold) {
    let load = LoadTold::default();
    let write = CallTold::default();
    match end {
        Ok(()) => (0, load, write),
        Err(Refusal::Load(refusal)) => (refusal.number().into(), refusal.into(), write),
        Err(Refusal::Stand(refusal)) => { (refusal.question.number().into(), load, refusal.into()) }
        Err(Refusal::Dump(refused)) => (refused.why.number().into(), load, refused.into()),
    }
}

// Loads every document of some packed events and writes it again into `out`; tells how far it came.
// The C interface sets its parameters.
#[unsafe(no_mangle)]
pub extern "C" fn kelfhoam_redump(
    input: &[u8],
    nodes: &mut [Node],
    links: &mut [u32],
    text: &mut [u8],
    anchors: &mut [Anchor],
    waiting: &mut [u32],
    counting: &mut [Counted],
    steps: &mut [Step],
    out: &mut [u8],
    told: &mut RedumpTold,
) -> u32 {
    let mut tables = Tables::new(nodes, links, text, anchors, waiting);
    let mut packed = PackedWriter::new(out);
    let mut totals = Totals::default();
    let end = redump(
        PackedReader::new(input),
        &mut packed,
        &mut tables,
        counting,
        steps,
        &mut totals,
    );
    let (number, load, write) = tell_end(end);
    *told = RedumpTold {
        documents: totals.documents as u64,
        nodes: totals.nodes as u64,
        links: totals.links as u64,
        events: totals.events as u64,
        bytes: packed.finish().len() as u64,
        load,
        write,
    };
    number
}
