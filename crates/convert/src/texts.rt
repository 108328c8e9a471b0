// Room for the texts of one event, in which a source's events are put together.
use crate::copy::copy_text;
use crate::whole::Whole;
use model::Fault;
use yaml::event::{MAX_ANCHOR, MAX_TAG, MAX_VALUE};
use yaml::{Event, Source, Text};

// Room for the texts of any event.
#[derive(Drop)]
pub struct Texts {
    anchor: [u8; MAX_ANCHOR],
    tag: [u8; MAX_TAG],
    value: [u8; MAX_VALUE],
}

impl Texts {
    ghost use Rattle.convert.specs.Wholes.{Blank, GaveWhole};

    // Room without a text.
    pub fn new() -> Texts
        ensures { Blank result }
    {
        Texts {
            anchor: [0; MAX_ANCHOR],
            tag: [0; MAX_TAG],
            value: [0; MAX_VALUE],
        }
    }

    // Takes the next event of a source, and lends it whole; there is none at the source's end. In line, so that where the reader and the texts stand
    // is known where it is called, and a long text is copied at once.
    #[inline(always)]
    pub fn next_of<S: Source>(&mut self, source: &mut S) -> Result<Option<Whole<'_>>, Fault>
        ensures { GaveWhole (S.Source.flow source.old) result (S.Source.flow source.new) }
    {
        let Some(head) = source.next_event()? else {
            return Ok(None);
        };
        copy_text(source, Text::Anchor, head.anchor, &mut self.anchor);
        copy_text(source, Text::Tag, head.tag, &mut self.tag);
        copy_text(source, Text::Value, head.value, &mut self.value);
        Ok(Some(Whole {
            event: Event {
                kind: head.kind,
                style: head.style,
                flags: head.flags,
                anchor: &self.anchor[..head.anchor],
                tag: &self.tag[..head.tag],
                value: &self.value[..head.value],
            },
            start: head.start,
            end: head.end,
        }))
    }
}
