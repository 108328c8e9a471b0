// What stands at the front of packed bytes.
ghost use Rattle.std.specs.Prelude.{◌≡◌, ◌<◌, Some, length};
ghost use Rattle.packed.specs.Packed.{packed_front, by_head, two_bytes};
ghost use Rattle.packed.specs.Ends.{found_of, front_of, Inside};

use yaml::event::zero_free;
use yaml::{Cause, Event, EventKind, Shape};

// The bytes of a head.
pub const HEAD: usize = 9;

// An event that stands at the front of an input, and the number of its bytes.
#[derive(Clone, Copy)]
pub struct Found<'a> {
    pub event: Event<'a>,
    pub size: usize,
}

// The number of two bytes, high byte first.
fn two_bytes(high: u8, low: u8) -> usize
    ensures value { result ≡ two_bytes high low }
    ensures small { result < 65536 }
{
    u16::from_be_bytes([high, low]) as usize
}

// Cuts the texts of an allowed event, of lengths that its head told, from the front of what follows the head.
fn cut_texts<'a>(shape: Shape, texts: &'a [u8]) -> Result<Found<'a>, Cause>
    requires anchor { shape.anchor < 65536 }
    requires tag { shape.tag < 65536 }
    requires value { shape.value < 65536 }
    ensures { found_of result ≡ by_head (Some shape.kind) shape.style shape.flags shape.anchor shape.tag shape.value texts.now }
{
    if !shape.is_allowed() {
        return Err(Cause::HeadNotAllowed);
    }
    let length = shape.anchor + shape.tag + shape.value;
    if texts.len() < length {
        return Err(Cause::TextsCut);
    }
    let (anchor, rest) = texts.split_at(shape.anchor);
    let (tag, rest) = rest.split_at(shape.tag);
    let (value, _) = rest.split_at(shape.value);
    if !zero_free(anchor) || !zero_free(tag) {
        return Err(Cause::ZeroByte);
    }
    let event = Event {
        kind: shape.kind,
        style: shape.style,
        flags: shape.flags,
        anchor,
        tag,
        value,
    };
    Ok(Found {
        event,
        size: HEAD + length,
    })
}

// Reads the event at the front; none where there is no byte, and else the cause why there is none.
pub fn read_front<'a>(rest: &'a [u8]) -> Result<Option<Found<'a>>, Cause>
    ensures front { front_of result ≡ packed_front rest.now }
    ensures inside { Inside result (length rest.now) }
{
    match rest {
        [] => Ok(None),
        [number, style, flags, a1, a0, t1, t0, v1, v0, texts @ ..] => {
            let Ok(kind) = EventKind::try_from(*number) else {
                return Err(Cause::HeadNotAllowed);
            };
            let shape = Shape {
                kind,
                style: *style,
                flags: *flags,
                anchor: two_bytes(*a1, *a0),
                tag: two_bytes(*t1, *t0),
                value: two_bytes(*v1, *v0),
            };
            Ok(Some(cut_texts(shape, texts)?))
        }
        _ => Err(Cause::HeadCut),
    }
}
