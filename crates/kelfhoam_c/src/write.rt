// Writing, for C.
ghost use Rattle.std.specs.Prelude.{◌≡◌, not, length, nat_eq};
ghost use Rattle.document.specs.Check.{handed};
ghost use Rattle.dumper.specs.States.{state_of};
ghost use Rattle.kelfhoam_c.specs.Writing.{Turned, lent, lent_of, MadeCalls, Wrote};

use crate::told::{CallTold, accepted, tell_call};
use document::{Document, Handed, Node};
use dumper::Writer;
use packed::PackedWriter;
use walk::{Counted, Step};
use yaml::Sink;

// What each call is lent: what a Document may stand on, and the two tables of its walk.
#[derive(Drop)]
struct Lent<'a> {
    handed: Handed<'a>,
    counting: &'a mut [Counted],
    steps: &'a mut [Step],
}

// One call of a writer, by its letter, as C gives it: `o` opens, `c` closes, `e` dumps an empty Document, `d` the Document on what was handed in, where one stands on it.
fn call<K: Sink>(writer: &mut Writer<K>, letter: u8, lent: &mut Lent<'_>) -> CallTold
    ensures turned { Turned K.Sink.weight (lent_of lent.old) letter (state_of K.Sink.view writer.old) result (state_of K.Sink.view writer.new) }
    ensures same { lent_of lent.new ≡ lent_of lent.old }
{
    match letter {
        b'o' => tell_call(writer.open()),
        b'c' => tell_call(writer.close()),
        b'e' => tell_call(writer.dump(Document::empty(), lent.counting, lent.steps)),
        b'd' => match Document::stand(lent.handed) {
            Ok(d) => tell_call(writer.dump(d, lent.counting, lent.steps)),
            Err(refusal) => refusal.into(),
        },
        _ => accepted(0),
    }
}

// Several calls, one after the other, as many as have an entry to tell in.
fn call_all<K: Sink>(
    writer: &mut Writer<K>,
    calls: &[u8],
    lent: &mut Lent<'_>,
    told: &mut [CallTold],
)
    ensures { MadeCalls K.Sink.weight (lent_of lent.old) calls.now (state_of K.Sink.view writer.old) (state_of K.Sink.view writer.new) told.old told.new }
{
    // By index: `told.iter_mut().zip(calls)` was tried, and a proof knows no entry of `told` after it.
    let made = calls.len().min(told.len());
    for (i, &letter) in calls[..made].iter().enumerate() {
        told[i] = call(writer, letter, lent);
    }
}

// Makes a writer over `out` and calls it, one call a byte; tells what each call told, and how many bytes hold events.
// The C interface sets its parameters.
#[unsafe(no_mangle)]
pub extern "C" fn kelfhoam_write<'x>(
    calls: &[u8],
    nodes: &'x [Node],
    links: &'x [u32],
    text: &'x [u8],
    n: u64,
    start_implicit: u8,
    end_implicit: u8,
    counting: &mut [Counted],
    steps: &mut [Step],
    out: &mut [u8],
    told: &mut [CallTold],
) -> u64
    ensures { Wrote (lent (handed nodes.now links.now text.now n) (not (nat_eq start_implicit 0)) (not (nat_eq end_implicit 0)) (length counting.old) (length steps.old)) calls.now (length out.old) told.old told.new result }
{
    let room = out.len();
    let mut packed = PackedWriter::new(out);
    let mut writer = Writer::new(&mut packed);
    let handed = Handed {
        nodes,
        links,
        text,
        count: n as usize,
        start_implicit: start_implicit != 0,
        end_implicit: end_implicit != 0,
    };
    let mut lent = Lent {
        handed,
        counting,
        steps,
    };
    call_all(&mut writer, calls, &mut lent, told);
    room.saturating_sub(writer.space()) as u64
}
