// Streams at each limit of the loader and one past it, and streams in a wrong order.
#![tactic(auto)]

use arrayvec::ArrayVec;
use composer::{Anchor, Refusal, Tables};
use document::{Document, Handed, Node};
use loader::{Loaded, Loader};
use model::EventKind;
use packed::PackedReader;
use tables::Empty;

// A packed input, put together event by event, in fixed memory; what does not fit any more is left out.
#[derive(Drop)]
pub struct Input {
    bytes: ArrayVec<u8, 200000>,
}

impl Input {
    // No event yet.
    pub fn new() -> Input {
        Input {
            bytes: ArrayVec::new(),
        }
    }

    // Bytes of any kind.
    pub fn add(&mut self, bytes: &[u8]) {
        let _ = self.bytes.try_extend_from_slice(bytes);
    }

    // An event with texts of at most 255 bytes, but for the value: head and texts.
    pub fn event(&mut self, kind: EventKind, anchor: &[u8], tag: &[u8], value: &[u8]) {
        let style = u8::from(kind == EventKind::Scalar);
        let anchor_size = anchor.len().min(255) as u8;
        let tag_size = tag.len().min(255) as u8;
        let value_size = (value.len().min(65535) as u16).to_be_bytes();
        self.add(&[u8::from(kind), style, 0, 0, anchor_size, 0, tag_size]);
        self.add(&value_size);
        self.add(anchor);
        self.add(tag);
        self.add(value);
    }

    // Events without texts, by the letters S D X E Q q M m and V, a scalar.
    pub fn plain(&mut self, letters: &[u8]) {
        for letter in letters {
            match *letter {
                b'S' => self.event(EventKind::StreamStart, b"", b"", b""),
                b'E' => self.event(EventKind::StreamEnd, b"", b"", b""),
                b'D' => self.event(EventKind::DocumentStart, b"", b"", b""),
                b'X' => self.event(EventKind::DocumentEnd, b"", b"", b""),
                b'V' => self.event(EventKind::Scalar, b"", b"t", b"v"),
                b'Q' => self.event(EventKind::SequenceStart, b"", b"t", b""),
                b'q' => self.event(EventKind::SequenceEnd, b"", b"", b""),
                b'M' => self.event(EventKind::MappingStart, b"", b"t", b""),
                b'm' => self.event(EventKind::MappingEnd, b"", b"", b""),
                b'A' => self.event(EventKind::Scalar, b"a", b"t", b"v"),
                b'a' => self.event(EventKind::Alias, b"a", b"", b""),
                _ => {}
            }
        }
    }
}

// The lengths of the five tables.
#[derive(Clone, Copy, PartialEq, Eq, Debug)]
pub struct Sizes {
    pub nodes: usize,
    pub links: usize,
    pub text: usize,
    pub anchors: usize,
    pub waiting: usize,
}

// Longer than any document may want them.
pub fn ample() -> Sizes {
    Sizes {
        nodes: 4200,
        links: 16500,
        text: 66000,
        anchors: 4200,
        waiting: 16500,
    }
}

// What came of a load: how many nodes and links a document has, none at the stream's end, or a refusal's number, where its event begins
// and, for an anchor given twice, where the first one does.
pub type Came = Result<Option<(usize, usize)>, (u8, u64, u64)>;

pub fn summary(answer: Result<Option<Loaded>, Refusal>) -> Came {
    match answer {
        Ok(Some(loaded)) => Ok(Some((loaded.nodes, loaded.links))),
        Ok(None) => Ok(None),
        Err(refusal) => {
            let first = match refusal {
                Refusal::AnchorAgain { first, .. } => first.index,
                // the expected values tell 0 where there is no other anchor
                _ => 0,
            };
            Err((refusal.number(), refusal.mark().index, first))
        }
    }
}

// How many numbers are not 0.
fn used<T: Copy>(numbers: &[T]) -> usize
where
    u64: From<T>,
{
    numbers.iter().filter(|n| u64::from(**n) != 0).count()
}

// What the last of some loads left.
#[derive(Clone, Copy, PartialEq, Eq, Debug)]
pub struct Left {
    // what came of it, if there was one
    pub came: Option<Came>,
    // how many entries of the five tables are not empty
    pub used: usize,
    // whether a Document stands on the tables
    pub stands: bool,
}

// Whether a Document stands on the first `count` nodes of the tables.
fn passes(tables: &Tables<'_>, count: usize) -> bool {
    let handed = Handed {
        nodes: tables.nodes(),
        links: tables.links(),
        text: tables.text(),
        count,
        start_implicit: false,
        end_implicit: false,
    };
    Document::stand(handed).is_ok()
}

// Loads n times into tables of these lengths, whose links, text and waiting children are dirty before.
pub fn loads(input: &Input, sizes: Sizes, n: usize) -> Left {
    let none = <Node as Empty>::none();
    let bare = <Anchor as Empty>::none();
    let mut nodes = [none; 4200];
    let mut links = [7u32; 16500];
    let mut text = [7u8; 66000];
    let mut anchors = [bare; 4200];
    let mut waiting = [7u32; 16500];
    let nodes = &mut nodes[0..sizes.nodes.min(4200)];
    let links = &mut links[0..sizes.links.min(16500)];
    let text = &mut text[0..sizes.text.min(66000)];
    let anchors = &mut anchors[0..sizes.anchors.min(4200)];
    let waiting = &mut waiting[0..sizes.waiting.min(16500)];
    let mut reader = PackedReader::new(input.bytes.as_slice());
    // a lent source is a source
    let mut loader = Loader::new(&mut reader);
    let mut came = None;
    let mut stands = false;
    {
        let mut tables = Tables::new(
            &mut *nodes,
            &mut *links,
            &mut *text,
            &mut *anchors,
            &mut *waiting,
        );
        for _ in 0..n {
            let answer = loader.load(&mut tables);
            came = Some(summary(answer));
            stands = match answer {
                Ok(Some(loaded)) => loaded.document(&tables).is_ok(),
                // a Document without nodes
                _ => passes(&tables, 0),
            };
        }
    }
    let full_nodes = nodes.iter().filter(|node| **node != none).count();
    let full_anchors = anchors.iter().filter(|anchor| **anchor != bare).count();
    let used = [
        full_nodes,
        used(links),
        used(text),
        full_anchors,
        used(waiting),
    ]
    .iter()
    .fold(0usize, |sum, n| sum.saturating_add(*n));
    Left { came, used, stands }
}

// Whether the n-th load of an input comes to this; unless it is a document, every table must be empty then.
pub fn gives(input: &Input, sizes: Sizes, n: usize, expected: Came) -> bool {
    let left = loads(input, sizes, n);
    let is_document = matches!(expected, Ok(Some(_)));
    left.came == Some(expected) && left.stands && (is_document || left.used == 0)
}

// The same for events by their letters.
pub fn plainly(letters: &[u8], sizes: Sizes, n: usize, expected: Came) -> bool {
    let mut input = Input::new();
    input.plain(letters);
    gives(&input, sizes, n, expected)
}

// A stream of one sequence with an anchor and that many aliases of it.
pub fn aliases(n: usize) -> Input {
    let mut input = Input::new();
    input.plain(b"SD");
    input.event(EventKind::SequenceStart, b"a", b"t", b"");
    for _ in 0..n {
        input.plain(b"a");
    }
    input.plain(b"qXE");
    input
}

// A stream of one sequence of that many scalars.
pub fn scalars(n: usize) -> Input {
    let mut input = Input::new();
    input.plain(b"SDQ");
    for _ in 0..n {
        input.plain(b"V");
    }
    input.plain(b"qXE");
    input
}

// A stream of sequences one in another.
pub fn nested(n: usize) -> Input {
    let mut input = Input::new();
    input.plain(b"SD");
    for _ in 0..n {
        input.plain(b"Q");
    }
    for _ in 0..n {
        input.plain(b"q");
    }
    input.plain(b"XE");
    input
}

// A stream of one sequence whose texts are 61,441 bytes, and one scalar more with a value of that many bytes.
pub fn texts(n: usize) -> Input {
    let long = [118u8; 4096];
    let mut input = Input::new();
    input.plain(b"SDQ");
    for _ in 0..15 {
        input.event(EventKind::Scalar, b"", b"t", &long[0..4095]);
    }
    input.event(EventKind::Scalar, b"", b"t", &long[0..n.min(4096)]);
    input.plain(b"qXE");
    input
}

#[cfg(test)]
mod tests {
    use super::*;

    #[test]
    fn documents_and_the_end(rt: HostRuntime) {
        let all = ample();
        assert!(rt; plainly(b"SDQVqXE", all, 1, Ok(Some((2, 1)))));
        assert!(rt; plainly(b"SDQVqXE", all, 2, Ok(None)));
        assert!(rt; plainly(b"SDQVqXE", all, 3, Ok(None)));
        assert!(rt; plainly(b"SDVXDMAaVQqmXE", all, 2, Ok(Some((4, 4)))));
        assert!(rt; plainly(b"SE", all, 1, Ok(None)));
    }

    #[test]
    fn tables_hold_the_document_alone(rt: HostRuntime) {
        let mut input = Input::new();
        input.plain(b"SDMAaVQqmXE");
        let left = loads(&input, ample(), 1);
        assert!(rt; matches!(left.came, Some(Ok(Some(_)))) && left.stands);
        // four nodes, four links, four tags and two values
        assert!(rt; left.used == 14);
    }

    #[test]
    fn events_out_of_turn(rt: HostRuntime) {
        let all = ample();
        assert!(rt; plainly(b"D", all, 1, Err((23, 0, 0))));
        assert!(rt; plainly(b"SS", all, 1, Err((23, 9, 0))));
        assert!(rt; plainly(b"SDE", all, 1, Err((23, 18, 0))));
        assert!(rt; plainly(b"SDq", all, 1, Err((23, 18, 0))));
        assert!(rt; plainly(b"SDm", all, 1, Err((23, 18, 0))));
        assert!(rt; plainly(b"SDX", all, 1, Err((23, 18, 0))));
        assert!(rt; plainly(b"SDMq", all, 1, Err((23, 28, 0))));
        assert!(rt; plainly(b"SDQm", all, 1, Err((23, 28, 0))));
        assert!(rt; plainly(b"SDQX", all, 1, Err((23, 28, 0))));
        assert!(rt; plainly(b"SDMVm", all, 1, Err((23, 39, 0))));
        assert!(rt; plainly(b"SDVV", all, 1, Err((23, 29, 0))));
        assert!(rt; plainly(b"SDAa", all, 1, Err((23, 30, 0))));
    }

    #[test]
    fn sources_at_fault_or_at_their_end(rt: HostRuntime) {
        let all = ample();
        assert!(rt; plainly(b"", all, 1, Err((22, 0, 0))));
        assert!(rt; plainly(b"S", all, 1, Err((22, 0, 0))));
        assert!(rt; plainly(b"SDQV", all, 1, Err((22, 0, 0))));
        assert!(rt; plainly(b"SDVX", all, 2, Err((22, 0, 0))));
        assert!(rt; plainly(b"SDVX", all, 3, Err((20, 0, 0))));
        assert!(rt; plainly(b"SDqDVXE", all, 2, Err((20, 0, 0))));
        let mut input = Input::new();
        input.plain(b"SDQ");
        input.add(&[0, 0, 0]);
        assert!(rt; gives(&input, all, 1, Err((21, 0, 0))));
    }

    #[test]
    fn aliases_and_anchors(rt: HostRuntime) {
        let all = ample();
        assert!(rt; plainly(b"SDa", all, 1, Err((24, 18, 0))));
        assert!(rt; plainly(b"SDQaq", all, 1, Err((24, 28, 0))));
        assert!(rt; plainly(b"SDQAA", all, 1, Err((27, 40, 28))));
        assert!(rt; plainly(b"SDAXDaXE", all, 2, Err((24, 48, 0))));
    }

    #[test]
    fn small_tables(rt: HostRuntime) {
        let all = ample();
        assert!(rt; plainly(b"SDQVqX", Sizes { nodes: 2, ..all }, 1, Ok(Some((2, 1)))));
        assert!(rt; plainly(b"SDQVqX", Sizes { nodes: 1, ..all }, 1, Err((25, 28, 0))));
        assert!(rt; plainly(b"SDQVqX", Sizes { text: 3, ..all }, 1, Ok(Some((2, 1)))));
        assert!(rt; plainly(b"SDQVqX", Sizes { text: 2, ..all }, 1, Err((26, 28, 0))));
        assert!(rt; plainly(b"SDAX", Sizes { anchors: 1, ..all }, 1, Ok(Some((1, 0)))));
        assert!(rt; plainly(b"SDAX", Sizes { anchors: 0, ..all }, 1, Err((28, 18, 0))));
        assert!(rt; plainly(b"SDQVVqX", Sizes { waiting: 2, ..all }, 1, Ok(Some((3, 2)))));
        assert!(rt; plainly(b"SDQVVqX", Sizes { waiting: 1, ..all }, 1, Err((29, 39, 0))));
        assert!(rt; plainly(b"SDQVVqX", Sizes { links: 2, ..all }, 1, Ok(Some((3, 2)))));
        assert!(rt; plainly(b"SDQVVqX", Sizes { links: 1, ..all }, 1, Err((29, 39, 0))));
        assert!(rt; plainly(b"SDQVqX", Sizes { nodes: 0, ..all }, 1, Err((25, 18, 0))));
    }

    #[test]
    fn limits(rt: HostRuntime) {
        let all = ample();
        assert!(rt; gives(&nested(256), all, 1, Ok(Some((256, 255)))));
        assert!(rt; gives(&nested(257), all, 1, Err((30, 2578, 0))));
        assert!(rt; gives(&scalars(4095), all, 1, Ok(Some((4096, 4095)))));
        assert!(rt; gives(&scalars(4096), all, 1, Err((25, 45073, 0))));
        assert!(rt; gives(&aliases(16384), all, 1, Ok(Some((1, 16384)))));
        assert!(rt; gives(&aliases(16385), all, 1, Err((29, 163869, 0))));
        assert!(rt; gives(&texts(4094), all, 1, Ok(Some((17, 16)))));
        assert!(rt; gives(&texts(4095), all, 1, Err((26, 61603, 0))));
    }
}
