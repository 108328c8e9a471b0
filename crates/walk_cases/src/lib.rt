// Small documents and what planning says of them: which nodes get an anchor, the steps, and each refusal.
#![tactic(auto)]

use document::{Document, Handed, Node, NodeKind};
use tables::Empty;
use walk::{Counted, Step, StepKind, Unplanned, anchor_of, generate_anchor, make_plan};

// A node of the kind with that many links from a place on; its tag is the first byte of the text.
pub fn node(kind: NodeKind, first_link: u32, link_count: u32) -> Node {
    Node {
        kind: u8::from(kind),
        tag_length: 1,
        first_link,
        link_count,
        ..Node::none()
    }
}

// What planning says of a Document on these nodes and links; the counter is not at 0 before.
pub fn planned<'x>(
    nodes: &'x [Node],
    links: &'x [u32],
    counting: &mut [Counted],
    steps: &mut [Step],
) -> Result<usize, Unplanned> {
    let handed = Handed {
        nodes,
        links,
        text: b"t",
        count: nodes.len(),
        start_implicit: false,
        end_implicit: false,
    };
    let document = Document::stand(handed).unwrap_or(Document::empty());
    let mut last_anchor_id = 7;
    make_plan(&document, counting, steps, &mut last_anchor_id)
}

// so many sequences, each in the one before, the last one empty; there is no room for steps
pub fn nested(deep: u32) -> Result<usize, Unplanned> {
    let mut nodes = [node(NodeKind::Sequence, 0, 0); 257];
    let mut links = [0u32; 257];
    let mut counting = [Counted::none(); 257];
    for (i, (node, link)) in nodes.iter_mut().zip(links.iter_mut()).enumerate() {
        *link = i as u32 + 2;
        if i as u32 + 1 < deep {
            node.first_link = i as u32;
            node.link_count = 1;
        }
    }
    planned(&nodes, &links, &mut counting, &mut [])
}

#[cfg(test)]
mod plans {
    use super::*;

    #[test]
    fn names(rt: HostRuntime) {
        let seven = generate_anchor(7);
        assert_eq!(rt; seven.as_bytes().len(), 5);
        assert_eq!(rt; seven.as_bytes()[4], b'7');
        let thousand = generate_anchor(1000);
        assert_eq!(rt; thousand.as_bytes().len(), 6);
        assert_eq!(rt; thousand.as_bytes()[2], b'1');
    }

    // a mapping whose key is its value
    #[test]
    fn shared_by_the_root(rt: HostRuntime) {
        let nodes = [node(NodeKind::Mapping, 0, 2), node(NodeKind::Scalar, 0, 0)];
        let mut counting = [Counted::none(); 2];
        let mut steps = [Step::none(); 5];
        assert_eq!(rt; planned(&nodes, &[2, 2], &mut counting, &mut steps), Ok(4));
        assert_eq!(rt; anchor_of(&counting, 1), None);
        assert_eq!(rt; anchor_of(&counting, 2), Some(1));
        assert_eq!(rt; steps[0], Step::new(StepKind::First, 1));
        assert_eq!(rt; steps[1], Step::new(StepKind::First, 2));
        assert_eq!(rt; steps[2], Step::new(StepKind::Again, 2));
        assert_eq!(rt; steps[3], Step::new(StepKind::Leave, 1));
        assert_eq!(rt; steps[4], Step::none());
    }

    // only the root's own links are counted
    #[test]
    fn shared_below(rt: HostRuntime) {
        let nodes = [
            node(NodeKind::Sequence, 0, 1),
            node(NodeKind::Sequence, 1, 2),
            node(NodeKind::Scalar, 0, 0),
        ];
        let mut counting = [Counted::none(); 3];
        let mut steps = [Step::none(); 8];
        assert_eq!(rt;
            planned(&nodes, &[2, 3, 3], &mut counting, &mut steps),
            Err(Unplanned::NoAnchor(3))
        );
    }

    #[test]
    fn small_tables(rt: HostRuntime) {
        let nodes = [node(NodeKind::Sequence, 0, 1), node(NodeKind::Scalar, 0, 0)];
        let mut one = [Counted::none(); 1];
        let mut two = [Counted::none(); 2];
        let mut few = [Step::none(); 2];
        let mut enough = [Step::none(); 3];
        assert_eq!(rt;
            planned(&[], &[], &mut one, &mut few),
            Err(Unplanned::NoNodes)
        );
        assert_eq!(rt;
            planned(&nodes, &[2], &mut one, &mut few),
            Err(Unplanned::TooFewCounts)
        );
        assert_eq!(rt;
            planned(&nodes, &[2], &mut two, &mut few),
            Err(Unplanned::TooFewSteps)
        );
        assert_eq!(rt; planned(&nodes, &[2], &mut two, &mut enough), Ok(3));
    }

    #[test]
    fn deep(rt: HostRuntime) {
        assert_eq!(rt; nested(256), Err(Unplanned::TooFewSteps));
        assert_eq!(rt; nested(257), Err(Unplanned::TooDeep));
    }
}
