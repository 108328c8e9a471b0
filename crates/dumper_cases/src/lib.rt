// Small documents, and what writing them hands on and answers.
#![tactic(auto)]

use document::{Node, NodeKind};
use dumper::Refused;
use tables::Empty;

// Both tags and a value.
pub const TEXT: &[u8] = b"tag:yaml.org,2002:seqtag:yaml.org,2002:stra";

// A sequence with that many links from a place on.
pub fn sequence(first_link: u32, link_count: u32) -> Node {
    Node {
        kind: NodeKind::Sequence.into(),
        style: 1,
        tag_length: 21,
        first_link,
        link_count,
        ..<Node as Empty>::none()
    }
}

// The scalar `a`.
pub fn scalar() -> Node {
    Node {
        kind: NodeKind::Scalar.into(),
        style: 1,
        tag_start: 21,
        tag_length: 21,
        value_start: 42,
        value_length: 1,
        ..<Node as Empty>::none()
    }
}

// How many events were taken, and where the call was refused the refusal's number too.
pub fn told(answer: Result<usize, Refused>) -> Result<usize, (usize, u8)> {
    answer.map_err(|refused| (refused.events, refused.why.number()))
}

#[cfg(test)]
mod calls {
    use super::*;
    use document::{Document, Handed};
    use dumper::{Why, Writer};
    use lines::LineWriter;
    use walk::{Counted, Step};
    use yaml::Refusal;

    // The Document on the first nodes of these tables, or the empty one.
    fn document<'x>(
        nodes: &'x [Node],
        links: &'x [u32],
        count: usize,
        implicit: bool,
    ) -> Document<'x> {
        let handed = Handed {
            nodes,
            links,
            text: TEXT,
            count,
            start_implicit: implicit,
            end_implicit: implicit,
        };
        Document::stand(handed).unwrap_or(Document::empty())
    }

    const SHARED: &[u8] =
        b"+STR 0 0\n+DOC 0 1\n+SEQ 1 1 <tag:yaml.org,2002:seq\n=VAL 1 3 &id001 <tag:yaml.org,2002:str :a\n=ALI 0 0 &id001\n-SEQ 0 0\n-DOC 0 1\n-STR 0 0\n";

    // a sequence whose two items are one scalar
    #[test]
    fn shared_by_the_root(rt: HostRuntime) {
        let nodes = [sequence(0, 2), scalar()];
        let links = [2, 2];
        let mut counting = [<Counted as Empty>::none(); 2];
        let mut steps = [<Step as Empty>::none(); 4];
        let mut out = [0; 300];
        let mut lines = LineWriter::new(&mut out);
        let mut writer = Writer::new(&mut lines);
        let d = document(&nodes, &links, 2, true);
        assert_eq!(rt; told(writer.dump(d, &mut counting, &mut steps)), Ok(7));
        assert_eq!(rt; told(writer.close()), Ok(1));
        assert_eq!(rt; told(writer.close()), Ok(0));
        assert_eq!(rt; steps[0], <Step as Empty>::none());
        assert_eq!(rt; counting[1], <Counted as Empty>::none());
        assert!(rt; lines.finish() == SHARED);
    }

    // a sequence that holds itself
    #[test]
    fn ring(rt: HostRuntime) {
        let nodes = [sequence(0, 1)];
        let links = [1];
        let mut counting = [<Counted as Empty>::none(); 1];
        let mut steps = [<Step as Empty>::none(); 3];
        let mut out = [0; 300];
        let mut lines = LineWriter::new(&mut out);
        let mut writer = Writer::new(&mut lines);
        let _ = writer.open();
        let d = document(&nodes, &links, 1, false);
        assert_eq!(rt; told(writer.dump(d, &mut counting, &mut steps)), Ok(5));
    }

    #[test]
    fn opening(rt: HostRuntime) {
        let mut out = [0; 300];
        let mut lines = LineWriter::new(&mut out);
        let mut writer = Writer::new(&mut lines);
        assert_eq!(rt; told(writer.close()), Err((0, 52)));
        assert_eq!(rt; told(writer.open()), Ok(1));
        assert_eq!(rt; told(writer.open()), Err((0, 51)));
        assert_eq!(rt; told(writer.close()), Ok(1));
    }

    // two sequences that share a scalar below the root
    #[test]
    fn shared_below(rt: HostRuntime) {
        let nodes = [sequence(0, 2), sequence(2, 1), sequence(2, 1), scalar()];
        let links = [2, 3, 4];
        let mut counting = [<Counted as Empty>::none(); 4];
        let mut steps = [<Step as Empty>::none(); 8];
        let mut out = [0; 300];
        let mut lines = LineWriter::new(&mut out);
        let mut writer = Writer::new(&mut lines);
        let d = document(&nodes, &links, 4, false);
        let refused = Refused {
            events: 0,
            why: Why::NoAnchor(4),
        };
        assert!(rt; writer.dump(d, &mut counting, &mut steps) == Err(refused));
    }

    // a Document without nodes starts and ends the stream
    #[test]
    fn empty(rt: HostRuntime) {
        let nodes = [scalar()];
        let mut counting = [<Counted as Empty>::none(); 1];
        let mut steps = [<Step as Empty>::none(); 1];
        let mut out = [0; 300];
        let mut lines = LineWriter::new(&mut out);
        let mut writer = Writer::new(&mut lines);
        assert_eq!(rt;
            told(writer.dump(Document::empty(), &mut [], &mut [])),
            Ok(2)
        );
        assert_eq!(rt;
            told(writer.dump(Document::empty(), &mut [], &mut [])),
            Ok(0)
        );
        let d = document(&nodes, &[], 1, false);
        assert_eq!(rt;
            told(writer.dump(d, &mut counting, &mut steps)),
            Err((0, 54))
        );
    }

    // a sink that is full after the document's start
    #[test]
    fn spoilt(rt: HostRuntime) {
        let nodes = [scalar()];
        let mut counting = [<Counted as Empty>::none(); 1];
        let mut steps = [<Step as Empty>::none(); 1];
        let mut out = [0; 20];
        let mut lines = LineWriter::new(&mut out);
        let mut writer = Writer::new(&mut lines);
        let d = document(&nodes, &[], 1, false);
        let refused = Refused {
            events: 2,
            why: Why::Sink {
                node: 1,
                refusal: Refusal::NoSpace { size: 35, space: 2 },
            },
        };
        assert!(rt; writer.dump(d, &mut counting, &mut steps) == Err(refused));
        assert_eq!(rt;
            told(writer.dump(Document::empty(), &mut [], &mut [])),
            Err((0, 53))
        );
        assert_eq!(rt; told(writer.close()), Err((0, 53)));
    }
}
