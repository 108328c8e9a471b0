// One list: its loads, and what is written again.
use crate::shown::{Place, put_text};
use composer::Tables;
use document::Document;
use document::limits::MAX_NODES;
use dumper::{Refused, Why, Writer};
use lines::LineWriter;
use loader::{Loaded, Loader, Refusal};
use packed::PackedReader;
use room::{DumpRoom, LoadRoom};
use std::alloc::{AllocError, Global};
use std::io::{self, Write};
use walk::{Counted, Step};
use yaml::Sink;

// The lines that a document within the limits is written in have at most so many bytes.
const LINES: usize = 1048576;

// What lists are loaded into, dumped with and written into, one after the other.
#[derive(Drop)]
pub struct Desk {
    load: LoadRoom,
    dump: DumpRoom,
    lines: Vec<u8>,
}

impl Desk {
    // Memory for any list within the limits.
    pub fn new(heap: Global) -> Result<Desk, AllocError> {
        Ok(Desk {
            load: LoadRoom::new(heap)?,
            dump: DumpRoom::new(heap)?,
            lines: vec![in heap; 0u8; LINES]?,
        })
    }

    // One list.
    pub fn tell_list(&mut self, out: &mut Vec<u8>, list: &[u8]) -> Result<(), AllocError> {
        let mut tables = self.load.tables();
        let DumpRoom { counting, steps } = &mut self.dump;
        tell_list(
            out,
            list,
            &mut tables,
            counting.as_mut_slice(),
            steps.as_mut_slice(),
            self.lines.as_mut_slice(),
        )
    }
}

// A document was loaded.
fn tell_loaded(out: &mut Vec<u8>, loaded: &Loaded) -> io::Result<()> {
    writeln!(
        out,
        "loaded nodes {} links {} implicit {} {} from {} to {}",
        loaded.nodes,
        loaded.links,
        loaded.start_implicit as u8,
        loaded.end_implicit as u8,
        Place(loaded.start),
        Place(loaded.end)
    )
}

// Kind, style and texts of a node.
fn tell_look(out: &mut Vec<u8>, d: &Document<'_>, number: u32) -> io::Result<()> {
    if let Some(kind) = d.kind(number) {
        write!(out, " kind {}", u8::from(kind))?;
    }
    if let Some(style) = d.style(number) {
        write!(out, " style {style}")?;
    }
    if let Some(tag) = d.tag(number) {
        write!(out, " tag ")?;
        put_text(out, tag)?;
    }
    if let Some(value) = d.value(number) {
        write!(out, " value ")?;
        put_text(out, value)?;
    }
    Ok(())
}

// One node.
fn tell_node(out: &mut Vec<u8>, d: &Document<'_>, number: u32) -> io::Result<()> {
    write!(out, "node {number}")?;
    tell_look(out, d, number)?;
    write!(out, " links")?;
    for link in d.links(number).unwrap_or(&[]) {
        write!(out, " {link}")?;
    }
    if let Some(start) = d.start(number) {
        write!(out, " from {}", Place(start))?;
    }
    if let Some(end) = d.end(number) {
        write!(out, " to {}", Place(end))?;
    }
    writeln!(out)
}

// A load was refused.
fn tell_refusal(out: &mut Vec<u8>, refusal: Refusal) -> io::Result<()> {
    write!(out, "refused {}", refusal.number())?;
    match refusal {
        Refusal::EarlierRefused | Refusal::NoEvent => {}
        Refusal::SourceFault(fault) => {
            write!(out, " fault {} {}", fault.cause.number(), fault.place)?;
        }
        _ => write!(out, " at {}", Place(refusal.mark()))?,
    }
    if let Refusal::AnchorAgain { at: _, first } = refusal {
        write!(out, " first {}", Place(first))?;
    }
    writeln!(out)
}

// A call of the writer was refused.
fn tell_why(out: &mut Vec<u8>, refused: Refused) -> io::Result<()> {
    write!(out, "not dumped {}", refused.why.number())?;
    if let Why::NoAnchor(node) = refused.why {
        write!(out, " node {node}")?;
    }
    writeln!(out)
}

// The nodes of a loaded document; then it is dumped.
fn tell_document<K: Sink>(
    out: &mut Vec<u8>,
    tables: &Tables<'_>,
    loaded: &Loaded,
    writer: &mut Writer<K>,
    counting: &mut [Counted],
    steps: &mut [Step],
) -> io::Result<()> {
    tell_loaded(out, loaded)?;
    let d = loaded.document(tables).unwrap_or(Document::empty());
    let numbers = 1..MAX_NODES as u32 + 1;
    for number in numbers.take_while(|number| d.kind(*number).is_some()) {
        tell_node(out, &d, number)?;
    }
    match writer.dump(d, counting, steps) {
        Ok(_) => Ok(()),
        Err(refused) => tell_why(out, refused),
    }
}

// Every load of the list, up to the stream's end or a refusal; closes at the end.
fn tell_loads<K: Sink>(
    out: &mut Vec<u8>,
    list: &[u8],
    tables: &mut Tables<'_>,
    writer: &mut Writer<K>,
    counting: &mut [Counted],
    steps: &mut [Step],
) -> io::Result<()> {
    let mut loader = Loader::new(PackedReader::new(list));
    // a `for`, which ends by itself: no list has more documents than bytes
    for _ in 0..list.len().saturating_add(1) {
        match loader.load(tables) {
            Ok(Some(loaded)) => tell_document(out, tables, &loaded, writer, counting, steps)?,
            Ok(None) => {
                writeln!(out, "ended")?;
                if let Err(refused) = writer.close() {
                    tell_why(out, refused)?;
                }
                return Ok(());
            }
            Err(refusal) => return tell_refusal(out, refusal),
        }
    }
    Ok(())
}

// The list's loads, and what was written.
fn put_list(
    out: &mut Vec<u8>,
    list: &[u8],
    tables: &mut Tables<'_>,
    counting: &mut [Counted],
    steps: &mut [Step],
    room: &mut [u8],
) -> io::Result<()> {
    let mut sink = LineWriter::new(room);
    {
        let mut writer = Writer::new(&mut sink);
        if let Err(refused) = writer.open() {
            tell_why(out, refused)?;
        }
        tell_loads(out, list, tables, &mut writer, counting, steps)?;
    }
    let written = sink.finish();
    let lines = written.iter().filter(|b| **b == b'\n').count();
    writeln!(out, "dumped {lines}")?;
    out.write_all(written)
}

// One list, in tables that are lent, with room for what is written. A write into a Vec fails only for want of memory.
pub fn tell_list(
    out: &mut Vec<u8>,
    list: &[u8],
    tables: &mut Tables<'_>,
    counting: &mut [Counted],
    steps: &mut [Step],
    room: &mut [u8],
) -> Result<(), AllocError> {
    put_list(out, list, tables, counting, steps, room).map_err(|_| AllocError)
}
