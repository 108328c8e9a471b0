// A line is written by one routine, whatever becomes of its bytes: they are counted, compared or stored.
ghost use Rattle.std.specs.Prelude.{◌≡◌, ℕ, ◌+◌, ◌≤◌, true, List, [], ◌∷◌, ◌++◌, length};
ghost use Rattle.model.specs.Events.{allowed};
ghost use Rattle.yaml.specs.Shapes.{ev_of};
ghost use Rattle.lines.specs.Line.{word as word_of, escape_byte, escape as escape_text, marked, optional, value_part, digits as digits_of, line_of};

use crate::byte::{escape, escaped, first_escaped};
use model::EventKind;
use yaml::Event;

// What takes the bytes of a line, some at a time.
pub trait Pen {
    // the pen that has taken some bytes more
    ghost wrote: { Self → List ℕ → Self → Type 0 };

    // Whether it takes some bytes at once faster than one after the other.
    const RUNS: bool;

    // how many bytes it takes at least
    ghost room: { Self → ℕ };

    ghost nothing: { (s : Self) → wrote s [] s };

    ghost onward: { (s t u : Self) (xs ys : List ℕ) → wrote s xs t → wrote t ys u → wrote s (xs ++ ys) u };

    // Takes some bytes that there is room for.
    ghost falls: { (s t : Self) (xs : List ℕ) → wrote s xs t → room s ≤ room t + length xs };

    fn put(&mut self, bytes: &[u8])
        requires { length bytes.now ≤ room self.old }
        ensures wrote { wrote self.old bytes.now self.new }
        ensures room { room self.old ≤ room self.new + length bytes.now };
}

// Writes a byte of a text.
fn write_byte<P: Pen>(pen: &mut P, byte: u8)
    requires { length (escape_byte byte) ≤ P.Pen.room pen.old }
    ensures wrote { P.Pen.wrote pen.old (escape_byte byte) pen.new }
    ensures room { P.Pen.room pen.old ≤ P.Pen.room pen.new + length (escape_byte byte) }
{
    match escape(byte) {
        Some(escaped) => pen.put(&escaped),
        None => pen.put(&[byte]),
    }
}

// Writes a text byte by byte.
fn write_bytes<P: Pen>(pen: &mut P, text: &[u8])
    requires { length (escape_text text.now) ≤ P.Pen.room pen.old }
    ensures wrote { P.Pen.wrote pen.old (escape_text text.now) pen.new }
    ensures room { P.Pen.room pen.old ≤ P.Pen.room pen.new + length (escape_text text.now) }
{
    for b in text {
        write_byte(pen, *b);
    }
}

// Writes some bytes as they are; of none, nothing.
fn write_plain<P: Pen>(pen: &mut P, bytes: &[u8])
    requires { length bytes.now ≤ P.Pen.room pen.old }
    ensures wrote { P.Pen.wrote pen.old bytes.now pen.new }
    ensures room { P.Pen.room pen.old ≤ P.Pen.room pen.new + length bytes.now }
{
    if !bytes.is_empty() {
        pen.put(bytes);
    }
}

// Writes a text: the bytes between two that are escaped at once.
fn write_runs<P: Pen>(pen: &mut P, text: &[u8])
    requires { length (escape_text text.now) ≤ P.Pen.room pen.old }
    ensures wrote { P.Pen.wrote pen.old (escape_text text.now) pen.new }
    ensures room { P.Pen.room pen.old ≤ P.Pen.room pen.new + length (escape_text text.now) }
{
    let mut rest = text;
    // `split_inclusive` would have us ask of each piece again whether its last byte is escaped
    'text: while let Some(at) = first_escaped(rest) {
        let (front, back) = rest.split_at(at);
        write_plain(pen, front);
        pen.put(&escaped(back[0]));
        rest = &back[1..];
    }
    write_plain(pen, rest);
}

// Writes a text, in the way that is faster for the pen.
fn write_text<P: Pen>(pen: &mut P, text: &[u8])
    requires { length (escape_text text.now) ≤ P.Pen.room pen.old }
    ensures wrote { P.Pen.wrote pen.old (escape_text text.now) pen.new }
    ensures room { P.Pen.room pen.old ≤ P.Pen.room pen.new + length (escape_text text.now) }
{
    if P::RUNS {
        write_runs(pen, text);
    } else {
        write_bytes(pen, text);
    }
}

// Writes a text behind a space and its mark.
fn write_part<P: Pen>(pen: &mut P, mark: u8, text: &[u8])
    requires { 2 + length (escape_text text.now) ≤ P.Pen.room pen.old }
    ensures wrote { P.Pen.wrote pen.old (marked mark text.now) pen.new }
    ensures room { P.Pen.room pen.old ≤ P.Pen.room pen.new + length (marked mark text.now) }
{
    pen.put(&[b' ', mark]);
    write_text(pen, text);
}

// Writes an anchor or a tag; of one that is absent, nothing.
fn write_optional<P: Pen>(pen: &mut P, mark: u8, text: &[u8])
    requires { length (optional mark text.now) ≤ P.Pen.room pen.old }
    ensures wrote { P.Pen.wrote pen.old (optional mark text.now) pen.new }
    ensures room { P.Pen.room pen.old ≤ P.Pen.room pen.new + length (optional mark text.now) }
{
    if !text.is_empty() {
        write_part(pen, mark, text);
    }
}

// Writes the value of a scalar; of any other event, nothing. Not one routine with the one above: whether a value stands depends on the kind, and one of no
// bytes stands too.
fn write_value<P: Pen>(pen: &mut P, kind: EventKind, text: &[u8])
    requires { length (value_part kind text.now) ≤ P.Pen.room pen.old }
    ensures wrote { P.Pen.wrote pen.old (value_part kind text.now) pen.new }
    ensures room { P.Pen.room pen.old ≤ P.Pen.room pen.new + length (value_part kind text.now) }
{
    if kind == EventKind::Scalar {
        write_part(pen, b':', text);
    }
}

// The word that a line begins with. No `From`: the kind and the array are types of other crates.
fn word(kind: EventKind) -> [u8; 4]
    ensures { result ≡ word_of kind }
{
    match kind {
        EventKind::StreamStart => *b"+STR",
        EventKind::StreamEnd => *b"-STR",
        EventKind::DocumentStart => *b"+DOC",
        EventKind::DocumentEnd => *b"-DOC",
        EventKind::Alias => *b"=ALI",
        EventKind::Scalar => *b"=VAL",
        EventKind::SequenceStart => *b"+SEQ",
        EventKind::SequenceEnd => *b"-SEQ",
        EventKind::MappingStart => *b"+MAP",
        EventKind::MappingEnd => *b"-MAP",
    }
}

// Writes the word, the style and the flags.
fn write_head<P: Pen>(pen: &mut P, e: &Event<'_>)
    requires digits { (e.now.style ≤ 9) × (e.now.flags ≤ 9) }
    requires room { 8 ≤ P.Pen.room pen.old }
    ensures wrote { P.Pen.wrote pen.old (word_of e.now.kind ++ digits_of e.now.style e.now.flags) pen.new }
    ensures room { P.Pen.room pen.old ≤ P.Pen.room pen.new + 8 }
{
    pen.put(&word(e.kind));
    pen.put(&[b' ', b'0' + e.style, b' ', b'0' + e.flags]);
}

// Writes the line of an event.
#[tactic(auto, using(crate::specs::Lawful::length_line, crate::specs::Lawful::small_digits))]
pub fn write_line<P: Pen>(pen: &mut P, e: &Event<'_>)
    requires allowed { allowed (ev_of e.now) ≡ true }
    requires room { length (line_of (ev_of e.now)) ≤ P.Pen.room pen.old }
    ensures wrote { P.Pen.wrote pen.old (line_of (ev_of e.now)) pen.new }
    ensures room { P.Pen.room pen.old ≤ P.Pen.room pen.new + length (line_of (ev_of e.now)) }
{
    write_head(pen, e);
    write_optional(pen, b'&', e.anchor);
    write_optional(pen, b'<', e.tag);
    write_value(pen, e.kind, e.value);
    pen.put(b"\n");
}
