// Examples of packed events: read, refused, written and converted.
#![tactic(auto)]

use convert::survey::look_over;
use convert::{Survey, Unconverted, Unsurveyed, hand_all};
use lines::LineReader;
use lines_cases::events_of;
use packed::{PackedReader, PackedWriter};
use yaml::event::allowed;
use yaml::{Event, EventKind, Refusal, Sink, Source, Text};

// How many events come of an input, and the number and the place of the fault after them, if there is one.
pub fn reading(bytes: &[u8]) -> (usize, Option<(u8, u64)>) {
    events_of(PackedReader::new(bytes))
}

// An event of a kind, with no style, flags or texts.
fn plain<'a>(kind: EventKind) -> Event<'a> {
    Event {
        kind,
        style: 0,
        flags: 0,
        anchor: b"",
        tag: b"",
        value: b"",
    }
}

// Whether an event of a kind, without texts but an alias's, may have a style and flags.
pub fn plain_allowed(kind: EventKind, style: u8, flags: u8) -> bool {
    let anchor: &[u8] = match kind {
        EventKind::Alias => b"a",
        _ => b"",
    };
    allowed(&Event {
        style,
        flags,
        anchor,
        ..plain(kind)
    })
}

// An event of a kind with texts of these lengths, at most that of the bytes that they are taken from.
fn of_lengths<'a>(
    kind: EventKind,
    bytes: &'a [u8],
    anchor: usize,
    tag: usize,
    value: usize,
) -> Event<'a> {
    let most = bytes.len();
    Event {
        anchor: &bytes[..anchor.min(most)],
        tag: &bytes[..tag.min(most)],
        value: &bytes[..value.min(most)],
        ..plain(kind)
    }
}

// Whether an event of a kind with texts of these lengths, at most 5,000 each, is allowed.
pub fn lengths_allowed(kind: EventKind, anchor: usize, tag: usize, value: usize) -> bool {
    allowed(&of_lengths(kind, &[97; 5000], anchor, tag, value))
}

// The size of a scalar with texts of these lengths, at most 5,000 each.
pub fn packed_size(anchor: usize, tag: usize, value: usize) -> Option<u16> {
    PackedWriter::new(&mut []).size(&of_lengths(EventKind::Scalar, &[97; 5000], anchor, tag, value))
}

// Hands a scalar to a writer.
pub fn take_scalar(writer: &mut PackedWriter<'_>, style: u8, value: &[u8]) -> Result<(), Refusal> {
    writer.take(&Event {
        style,
        value,
        ..plain(EventKind::Scalar)
    })
}

#[cfg(test)]
mod tests {
    use super::*;
    use std::test::Fail;

    const BOOK: [u8; 76] = [
        1, 0, 0, 0, 0, 0, 0, 0, 0, 3, 0, 1, 0, 0, 0, 0, 0, 0, 7, 1, 1, 0, 0, 0, 0, 0, 0, 6, 1, 1,
        0, 1, 0, 0, 0, 2, 115, 49, 53, 5, 0, 0, 0, 1, 0, 0, 0, 0, 115, 8, 0, 0, 0, 0, 0, 0, 0, 0,
        4, 0, 1, 0, 0, 0, 0, 0, 0, 2, 0, 0, 0, 0, 0, 0, 0, 0,
    ];

    #[test]
    fn the_book_is_read(rt: HostRuntime) {
        assert_eq!(rt; reading(&BOOK), (8, None));
        assert_eq!(rt; reading(&[]), (0, None));
    }

    #[test]
    fn faults_have_number_and_place(rt: HostRuntime) {
        assert_eq!(rt; reading(&BOOK[0..17]), (1, Some((11, 9))));
        assert_eq!(rt; reading(&BOOK[0..1]), (0, Some((11, 0))));
        assert_eq!(rt; reading(&[0, 0, 0, 0, 0, 0, 0, 0, 0]), (0, Some((12, 0))));
        assert_eq!(rt; reading(&[11, 0, 0, 0, 0, 0, 0, 0, 0]), (0, Some((12, 0))));
        assert_eq!(rt; reading(&[1, 4, 0, 0, 0, 0, 0, 0, 0]), (0, Some((12, 0))));
        assert_eq!(rt; reading(&[6, 0, 0, 0, 65, 0, 0, 0, 0]), (0, Some((12, 0))));
        assert_eq!(rt; reading(&[6, 0, 0, 0, 0, 1, 1, 0, 0]), (0, Some((12, 0))));
        assert_eq!(rt; reading(&[6, 0, 0, 0, 0, 0, 0, 16, 1]), (0, Some((12, 0))));
        assert_eq!(rt; reading(&[6, 0, 0, 0, 0, 0, 0, 16, 0]), (0, Some((13, 0))));
        assert_eq!(rt;
            reading(&[5, 0, 0, 0, 1, 0, 0, 0, 0, 0]),
            (0, Some((14, 0)))
        );
        assert_eq!(rt;
            reading(&[6, 0, 0, 0, 0, 0, 1, 0, 0, 0]),
            (0, Some((14, 0)))
        );
        assert_eq!(rt; reading(&[6, 0, 0, 0, 0, 0, 0, 0, 1, 0]), (1, None));
    }

    #[test]
    fn a_fault_lasts(rt: HostRuntime) {
        let mut reader = PackedReader::new(&BOOK[0..17]);
        assert!(rt; reader.next_event().is_ok());
        assert!(rt; reader.next_event().is_err());
        assert!(rt; reader.next_event().is_err());
        assert!(rt; reader.byte(Text::Anchor, 0).is_none());
    }

    #[test]
    fn marks_and_bytes(rt: HostRuntime) -> Result<(), Fail> {
        let mut reader = PackedReader::new(&BOOK);
        assert!(rt; reader.byte(Text::Value, 0).is_none());
        for _ in 0..3 {
            assert!(rt; reader.next_event().is_ok());
        }
        let Ok(Some(head)) = reader.next_event() else {
            return Err(Fail::new("no event"));
        };
        assert!(rt; head.start.index == 27 && head.start.line == 3 && head.start.column == 0);
        assert!(rt; head.end.index == 39 && head.end.line == 3 && head.end.column == 0);
        assert!(rt; head.anchor == 1 && head.tag == 0 && head.value == 2);
        assert_eq!(rt; reader.byte(Text::Anchor, 0), Some(115));
        assert_eq!(rt; reader.byte(Text::Anchor, 1), None);
        assert_eq!(rt; reader.byte(Text::Tag, 0), None);
        assert_eq!(rt; reader.byte(Text::Value, 1), Some(53));
        assert_eq!(rt; reader.byte(Text::Value, 2), None);
        Ok(())
    }

    #[test]
    fn styles_and_flags_by_kind(rt: HostRuntime) -> Result<(), Fail> {
        let most = [
            (3, 0),
            (0, 0),
            (0, 1),
            (0, 1),
            (0, 0),
            (5, 3),
            (2, 1),
            (0, 0),
            (2, 1),
            (0, 0),
        ];
        for (number, (style, flags)) in (1..11u8).zip(most) {
            let kind = EventKind::try_from(number)?;
            assert!(rt; u8::from(kind) == number);
            assert!(rt; plain_allowed(kind, style, flags));
            assert!(rt; !plain_allowed(kind, style.saturating_add(1), flags));
            assert!(rt; !plain_allowed(kind, style, flags.saturating_add(1)));
        }
        assert!(rt; EventKind::try_from(0).is_err());
        assert!(rt; EventKind::try_from(11).is_err());
        Ok(())
    }

    #[test]
    fn texts_at_their_limits(rt: HostRuntime) {
        assert!(rt; lengths_allowed(EventKind::Scalar, 64, 256, 4096));
        assert!(rt; !lengths_allowed(EventKind::Scalar, 65, 0, 0));
        assert!(rt; !lengths_allowed(EventKind::Scalar, 0, 257, 0));
        assert!(rt; !lengths_allowed(EventKind::Scalar, 0, 0, 4097));
        assert!(rt; !lengths_allowed(EventKind::Alias, 0, 0, 0));
        assert!(rt; lengths_allowed(EventKind::Alias, 64, 0, 0));
        assert!(rt; !lengths_allowed(EventKind::Alias, 1, 1, 0));
        assert!(rt; !lengths_allowed(EventKind::SequenceStart, 0, 0, 1));
        assert!(rt; !lengths_allowed(EventKind::DocumentStart, 0, 0, 1));
    }

    #[test]
    fn zero_bytes_only_in_values(rt: HostRuntime) {
        assert!(rt;
            !allowed(&Event {
                anchor: b"\0",
                ..plain(EventKind::Scalar)
            })
        );
        assert!(rt;
            !allowed(&Event {
                tag: b"a\0",
                ..plain(EventKind::Scalar)
            })
        );
        assert!(rt;
            allowed(&Event {
                value: b"\0",
                ..plain(EventKind::Scalar)
            })
        );
    }

    #[test]
    fn a_sink_refuses_and_tells_why(rt: HostRuntime) {
        assert_eq!(rt; packed_size(64, 256, 4096), Some(4425));
        assert_eq!(rt; packed_size(65, 0, 0), None);
        let mut out = [0u8; 20];
        let mut writer = PackedWriter::new(&mut out);
        assert_eq!(rt; take_scalar(&mut writer, 6, b""), Err(Refusal::NotAllowed));
        assert_eq!(rt; take_scalar(&mut writer, 5, b""), Ok(()));
        assert_eq!(rt;
            take_scalar(&mut writer, 5, b"abc"),
            Err(Refusal::NoSpace {
                size: 12,
                space: 11
            })
        );
        assert!(rt; writer.space() == 11);
        assert_eq!(rt; take_scalar(&mut writer, 5, b"ab"), Ok(()));
        assert!(rt; writer.space() == 0);
    }

    #[test]
    fn lines_become_packed(rt: HostRuntime) {
        let mut out = [0u8; 76];
        let mut source = LineReader::new(
            b"+STR 0 0\n+DOC 0 1\n+SEQ 1 1\n=VAL 1 1 &s :15\n=ALI 0 0 &s\n-SEQ 0 0\n-DOC 0 1\n-STR 0 0\n",
        );
        let mut sink = PackedWriter::new(&mut out);
        let converted = hand_all(&mut source, &mut sink);
        assert!(rt; converted.events == 8);
        assert!(rt; converted.end.is_ok());
        let written = sink.finish();
        assert!(rt; written == BOOK.as_slice());
    }

    #[test]
    fn converting_stops_at_want_of_space(rt: HostRuntime) {
        let mut out = [0u8; 26];
        let mut source = PackedReader::new(&BOOK);
        let mut sink = PackedWriter::new(&mut out);
        let converted = hand_all(&mut source, &mut sink);
        assert!(rt; converted.events == 2);
        assert!(rt;
            matches!(
                converted.end,
                Err(Unconverted::Refused(Refusal::NoSpace { size: 9, space: 8 }))
            )
        );
    }

    #[test]
    fn a_survey_counts_by_kind(rt: HostRuntime) {
        let book = look_over(&mut PackedReader::new(&BOOK), &PackedWriter::new(&mut []));
        let all = Survey {
            events: 8,
            kinds: [1, 1, 1, 1, 1, 1, 1, 1, 0, 0],
            anchors: 1,
            bytes: 76,
            stop: Ok(()),
        };
        assert_eq!(rt; book, all);
        assert!(rt; book.of_kind(EventKind::Alias) == 1);
        assert!(rt; book.of_kind(EventKind::MappingStart) == 0);
        let nothing = look_over(&mut PackedReader::new(&[]), &PackedWriter::new(&mut []));
        assert_eq!(rt; nothing, Survey::new());
    }

    #[test]
    fn a_survey_stops_at_a_fault(rt: HostRuntime) {
        let cut = look_over(
            &mut PackedReader::new(&BOOK[0..17]),
            &PackedWriter::new(&mut []),
        );
        assert!(rt; cut.events == 1);
        assert!(rt; cut.bytes == 9);
        assert!(rt; cut.of_kind(EventKind::StreamStart) == 1);
        let Err(Unsurveyed::Faulty(fault)) = cut.stop else {
            assert!(rt; false, "no fault");
            return;
        };
        assert!(rt; fault.cause.number() == 11);
        assert!(rt; fault.place == 9);
    }
}
