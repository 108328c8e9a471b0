// The outline of a document, for a person to read.
use document::limits::{MAX_LINKS, MAX_NODES};
use document::{Document, NodeKind};
use std::alloc::{AllocError, Global};
use std::io::Write;

// A collection whose children are being told, and the place of the next one.
#[derive(Clone, Copy)]
struct Open {
    node: u32,
    place: u32,
}

// How far an outline has come.
#[derive(Drop)]
struct Outline {
    text: Vec<u8>,
    // by the nodes' numbers
    met: Vec<Met>,
    open: Vec<Open>,
}

// How often a node is met, once as the root and once for each link that names it, and whether it was told already.
#[derive(Clone, Copy, Default)]
struct Met {
    times: u32,
    told: bool,
}

// How often each node is met; none is told yet.
fn meetings(heap: Global, d: &Document<'_>) -> Result<Vec<Met>, AllocError> {
    let mut met = vec![in heap; Met::default(); d.len().saturating_add(1)]?;
    if let Some(root) = d.root() {
        bump(&mut met, root);
    }
    // the numbers up to the last node's; to go through all of them is dear for small documents
    for node in (1..MAX_NODES as u32 + 1).take(d.len()) {
        for child in d.links(node).unwrap_or(&[]) {
            bump(&mut met, *child);
        }
    }
    Ok(met)
}

// Counts one meeting of a node.
fn bump(met: &mut Vec<Met>, node: u32) {
    if let Some(met) = met.get_mut(node as usize) {
        met.times = met.times.saturating_add(1);
    }
}

// The two digits of a byte.
fn hex(b: u8) -> [u8; 2] {
    let digits = b"0123456789ABCDEF";
    [digits[usize::from(b / 16)], digits[usize::from(b % 16)]]
}

// A text as it can be printed: what is no plain character is told by its number. Byte by byte into the Vec, as a `write!` for each such byte is dear.
fn put_text(out: &mut Vec<u8>, text: &[u8]) -> Result<(), AllocError> {
    for b in text {
        match *b {
            0..=31 | 127 | b'"' | b'\\' => {
                let [high, low] = hex(*b);
                out.extend_from_slice(&[b'\\', b'x', high, low])?;
            }
            b => out.push(b)?,
        }
    }
    Ok(())
}

// A tag, in short where it is one of YAML's own.
fn put_tag(out: &mut Vec<u8>, tag: &[u8]) -> Result<(), AllocError> {
    match tag.strip_prefix(b"tag:yaml.org,2002:") {
        Some(name) => {
            out.extend_from_slice(b" !!")?;
            out.extend_from_slice(name)
        }
        None => {
            out.push(b' ')?;
            put_text(out, tag)
        }
    }
}

// A node's number behind its sign. A write into a Vec fails only for want of memory.
fn put_number(out: &mut Vec<u8>, sign: char, node: u32) -> Result<(), AllocError> {
    write!(out, "{sign}{node}").map_err(|_| AllocError)
}

// The mark in front of a child: keys and values of a mapping are told apart.
fn child_mark(d: &Document<'_>, parent: u32, place: u32) -> &'static str {
    match d.kind(parent) {
        Some(NodeKind::Mapping) => if place % 2 == 1 { "? " } else { ": " },
        _ => "- ",
    }
}

impl Outline {
    // An outline of which nothing is told yet.
    fn new(heap: Global, d: &Document<'_>) -> Result<Outline, AllocError> {
        Ok(Outline {
            text: Vec::new(heap),
            met: meetings(heap, d)?,
            open: Vec::new(heap),
        })
    }

    // One node where it is first met.
    fn put_node(&mut self, d: &Document<'_>, node: u32) -> Result<(), AllocError> {
        let kind: &[u8] = match d.kind(node) {
            Some(NodeKind::Scalar) => b"scalar",
            Some(NodeKind::Sequence) => b"sequence",
            Some(NodeKind::Mapping) => b"mapping",
            None => b"nothing",
        };
        self.text.extend_from_slice(kind)?;
        put_tag(&mut self.text, d.tag(node).unwrap_or(b""))?;
        if self.met.get(node as usize).is_some_and(|met| met.times > 1) {
            self.text.push(b' ')?;
            put_number(&mut self.text, '&', node)?;
        }
        if let Some(NodeKind::Scalar) = d.kind(node) {
            self.text.extend_from_slice(b" \"")?;
            put_text(&mut self.text, d.value(node).unwrap_or(b""))?;
            self.text.push(b'"')?;
        }
        self.text.push(b'\n')?;
        Ok(())
    }

    // One node, first met or met again; a collection that is first met is opened.
    fn put_met(&mut self, d: &Document<'_>, node: u32) -> Result<(), AllocError> {
        if let Some(met) = self.met.get_mut(node as usize) {
            if met.told {
                put_number(&mut self.text, '*', node)?;
                self.text.push(b'\n')?;
                return Ok(());
            }
            met.told = true;
        }
        self.put_node(d, node)?;
        if d.child_count(node).unwrap_or(0) > 0 {
            self.open.push(Open { node, place: 1 })?;
        }
        Ok(())
    }

    // The space in front of a child, for each open collection and the one that the child is in.
    fn put_indent(&mut self) -> Result<(), AllocError> {
        for _ in 0..self.open.len().saturating_add(1) {
            self.text.push(b' ')?;
            self.text.push(b' ')?;
        }
        Ok(())
    }
}

// The outline of a document. Each turn tells a link or leaves a collection, so there are no more turns than links and nodes.
pub fn outline_of(heap: Global, d: &Document<'_>) -> Result<Vec<u8>, AllocError> {
    let mut outline = Outline::new(heap, d)?;
    if let Some(root) = d.root() {
        outline.put_met(d, root)?;
    }
    for _ in 0..MAX_NODES + MAX_LINKS {
        let Some(Open { node, place }) = outline.open.pop() else {
            break;
        };
        let Some(child) = d.child(node, place) else {
            continue;
        };
        outline.put_indent()?;
        outline
            .text
            .extend_from_slice(child_mark(d, node, place).as_bytes())?;
        outline.open.push(Open {
            node,
            place: place.saturating_add(1),
        })?;
        outline.put_met(d, child)?;
    }
    Ok(outline.text)
}
