// Examples of lines: read, refused and written.
#![tactic(auto)]

use lines::{LineReader, LineWriter};
use yaml::{Event, EventKind, Sink, Source, Text};

// How many events come of a source, up to 20, and the number and the place of the fault after them, if there is one.
pub fn events_of<S: Source + Drop>(mut source: S) -> (usize, Option<(u8, u64)>) {
    let events = (0..20)
        .take_while(|_| matches!(source.next_event(), Ok(Some(_))))
        .count();
    let fault = source.next_event().err();
    (events, fault.map(|f| (f.cause.number(), f.place)))
}

// The same of some lines.
pub fn reading(bytes: &[u8]) -> (usize, Option<(u8, u64)>) {
    events_of(LineReader::new(bytes))
}

// Whether the first line is refused.
pub fn refused(bytes: &[u8]) -> bool {
    reading(bytes) == (0, Some((15, 0)))
}

// An event with an anchor and a value. Five parameters, as each example tells all five; a record with its fields' names would be no plainer.
pub fn event<'a>(
    kind: EventKind,
    style: u8,
    flags: u8,
    anchor: &'a [u8],
    value: &'a [u8],
) -> Event<'a> {
    Event {
        kind,
        style,
        flags,
        anchor,
        tag: b"",
        value,
    }
}

// Hands an event to a writer, which takes it or tells the number of its refusal.
pub fn taken(writer: &mut LineWriter<'_>, e: &Event<'_>) -> Result<(), u8> {
    writer.take(e).map_err(|refusal| refusal.number())
}

#[cfg(test)]
mod book {
    use super::*;
    use std::test::Fail;

    const BOOK: &[u8] =
        b"+STR 0 0\n+DOC 0 1\n+SEQ 1 1\n=VAL 1 1 &s :15\n=ALI 0 0 &s\n-SEQ 0 0\n-DOC 0 1\n-STR 0 0\n";

    #[test]
    fn reads(rt: HostRuntime) {
        assert_eq!(rt; reading(BOOK), (8, None));
    }

    #[test]
    fn tells(rt: HostRuntime) -> Result<(), Fail> {
        let mut reader = LineReader::new(b"+SEQ 1 1\n=VAL 1 1 &s :15\n");
        assert_eq!(rt; reader.byte(Text::Value, 0), None);
        let _ = reader.next_event();
        let Ok(Some(head)) = reader.next_event() else {
            return Err(Fail::new("no second event"));
        };
        assert!(rt; head.kind == EventKind::Scalar);
        assert_eq!(rt; (head.style, head.flags), (1, 1));
        assert_eq!(rt; (head.anchor, head.tag, head.value), (1, 0, 2));
        assert_eq!(rt;
            (head.start.index, head.start.line, head.start.column),
            (9, 1, 0)
        );
        assert_eq!(rt;
            (head.end.index, head.end.line, head.end.column),
            (25, 1, 0)
        );
        assert_eq!(rt; reader.byte(Text::Anchor, 0), Some(b's'));
        assert_eq!(rt; reader.byte(Text::Value, 1), Some(b'5'));
        assert_eq!(rt; reader.byte(Text::Value, 2), None);
        Ok(())
    }

    #[test]
    fn writes(rt: HostRuntime) {
        let mut out = [0; 100];
        let mut writer = LineWriter::new(&mut out);
        assert_eq!(rt;
            taken(&mut writer, &event(EventKind::StreamStart, 0, 0, b"", b"")),
            Ok(())
        );
        assert_eq!(rt;
            taken(
                &mut writer,
                &event(EventKind::DocumentStart, 0, 1, b"", b""),
            ),
            Ok(())
        );
        assert_eq!(rt;
            taken(
                &mut writer,
                &event(EventKind::SequenceStart, 1, 1, b"", b""),
            ),
            Ok(())
        );
        assert_eq!(rt;
            taken(&mut writer, &event(EventKind::Scalar, 1, 1, b"s", b"15")),
            Ok(())
        );
        assert_eq!(rt;
            taken(&mut writer, &event(EventKind::Alias, 0, 0, b"s", b"")),
            Ok(())
        );
        assert_eq!(rt;
            taken(&mut writer, &event(EventKind::SequenceEnd, 0, 0, b"", b"")),
            Ok(())
        );
        assert_eq!(rt;
            taken(&mut writer, &event(EventKind::DocumentEnd, 0, 1, b"", b"")),
            Ok(())
        );
        assert_eq!(rt;
            taken(&mut writer, &event(EventKind::StreamEnd, 0, 0, b"", b"")),
            Ok(())
        );
        assert_eq!(rt; writer.space(), 18);
        assert!(rt; writer.finish() == BOOK);
    }
}

#[cfg(test)]
mod escapes {
    use super::*;
    use std::test::Fail;

    #[test]
    fn writes(rt: HostRuntime) {
        let mut out = [0; 40];
        let mut writer = LineWriter::new(&mut out);
        let e = event(EventKind::Scalar, 1, 1, b"", b"a b\\~\x7f\xff\n");
        assert_eq!(rt; writer.size(&e), Some(29));
        assert_eq!(rt; taken(&mut writer, &e), Ok(()));
        assert_eq!(rt; taken(&mut writer, &e), Err(32));
        assert_eq!(rt;
            taken(&mut writer, &event(EventKind::Alias, 0, 0, b"", b"")),
            Err(31)
        );
        assert!(rt; writer.finish() == b"=VAL 1 1 :a\\20b\\5C~\\7F\\FF\\0A\n".as_slice());
    }

    #[test]
    fn reads(rt: HostRuntime) -> Result<(), Fail> {
        let mut reader = LineReader::new(b"=VAL 1 1 <!\\FF :\\20b\\5C\n");
        let Ok(Some(head)) = reader.next_event() else {
            return Err(Fail::new("no event"));
        };
        assert_eq!(rt; (head.anchor, head.tag, head.value), (0, 2, 3));
        assert_eq!(rt; reader.byte(Text::Tag, 1), Some(255));
        assert_eq!(rt; reader.byte(Text::Value, 0), Some(b' '));
        assert_eq!(rt; reader.byte(Text::Value, 2), Some(b'\\'));
        Ok(())
    }
}

#[cfg(test)]
mod wrong {
    use super::*;

    #[test]
    fn digits(rt: HostRuntime) {
        assert!(rt; refused(b"=VAL 1 1 :\\ff\n"));
        assert!(rt; refused(b"=VAL 1 1 :\\61\n"));
        assert!(rt; refused(b"=VAL 1 1 :\\G0\n"));
        assert!(rt; refused(b"=VAL 1 1 :\\7\n"));
        assert!(rt; refused(b"=VAL 1 1 :\xff\n"));
    }

    #[test]
    fn ends(rt: HostRuntime) {
        assert_eq!(rt; reading(b"+STR 0 0\n+DOC 0 1"), (1, Some((15, 9))));
        assert_eq!(rt; reading(b"+STR 0 0\n\n"), (1, Some((15, 9))));
        assert!(rt; refused(b"+STR 0 0\r\n"));
        assert!(rt; refused(b"+STR"));
        assert_eq!(rt; reading(b""), (0, None));
    }

    #[test]
    fn spaces(rt: HostRuntime) {
        assert!(rt; refused(b"+STR  0 0\n"));
        assert!(rt; refused(b"+STR 0 0 \n"));
        assert!(rt; refused(b"=VAL 1 1  :a\n"));
        assert!(rt; refused(b"=VAL 1 1 :a \n"));
    }

    #[test]
    fn parts(rt: HostRuntime) {
        assert!(rt; refused(b"=VAL 6 1 :a\n"));
        assert!(rt; refused(b"=VAL 1 4 :a\n"));
        assert!(rt; refused(b"=VAL 1 1\n"));
        assert_eq!(rt; reading(b"=VAL 1 1 :\n"), (1, None));
        assert!(rt; refused(b"=VAL 1 1 <t &a :v\n"));
        assert!(rt; refused(b"=VAL 1 1 & :v\n"));
        assert!(rt; refused(b"+SEQ 1 1 :v\n"));
        assert!(rt; refused(b"=VAL 1 1 &\\00 :v\n"));
        assert!(rt; refused(b"=ALI 0 0\n"));
        assert!(rt; refused(b"*ALI 0 0 &a\n"));
    }

    #[test]
    fn long(rt: HostRuntime) {
        assert!(rt;
            !refused(
                b"=ALI 0 0 &aaaaaaaaaaaaaaaaaaaaaaaaaaaaaaaaaaaaaaaaaaaaaaaaaaaaaaaaaaaaaaaa\n",
            )
        );
        assert!(rt;
            refused(
                b"=ALI 0 0 &aaaaaaaaaaaaaaaaaaaaaaaaaaaaaaaaaaaaaaaaaaaaaaaaaaaaaaaaaaaaaaaaa\n",
            )
        );
    }
}
