// Small documents at each limit and one past it: what the check says of them, and what reading them gives.
#![tactic(auto)]

use document::{Document, Handed, Node};

// A scalar whose tag is the first byte of the text, without value.
pub fn scalar() -> Node {
    Node {
        kind: 1,
        tag_length: 1,
        ..Node::default()
    }
}

// A collection of the kind with that many links from a place on. Kinds are numbers here, as in the record, since wrong numbers are examples too.
pub fn collection(kind: u8, first_link: u32, link_count: u32) -> Node {
    Node {
        kind,
        first_link,
        link_count,
        ..scalar()
    }
}

// What the check says: the refusal's number and node, if there is one.
pub fn verdict<'x>(
    nodes: &'x [Node],
    links: &'x [u32],
    text: &'x [u8],
    count: usize,
) -> Result<(), (u8, u32)> {
    let handed = Handed {
        nodes,
        links,
        text,
        count,
        start_implicit: false,
        end_implicit: false,
    };
    match Document::stand(handed) {
        Ok(_) => Ok(()),
        Err(refusal) => Err((refusal.question.number(), refusal.node)),
    }
}

// A scalar whose tag is that part of the text.
pub fn tagged(start: u32, length: u16) -> Node {
    Node {
        tag_start: start,
        tag_length: length,
        ..scalar()
    }
}

// A scalar whose value is that part of the text.
pub fn valued(start: u32, length: u16) -> Node {
    Node {
        value_start: start,
        value_length: length,
        ..scalar()
    }
}

// A node of that kind and style, without links.
pub fn styled(kind: u8, style: u8) -> Node {
    Node {
        kind,
        style,
        ..scalar()
    }
}

// What the check says of a node alone.
pub fn alone(node: Node, text: &[u8]) -> Result<(), (u8, u32)> {
    let nodes = [node];
    verdict(&nodes, &[], text, 1)
}

// What the check says of a collection of that kind and a scalar after it, with these links.
pub fn linked(kind: u8, count: u32, links: &[u32]) -> Result<(), (u8, u32)> {
    let nodes = [collection(kind, 0, count), scalar()];
    verdict(&nodes, links, b"t", 2)
}

#[cfg(test)]
mod counts {
    use super::*;

    #[test]
    fn as_many_as_the_table(rt: HostRuntime) {
        let nodes = [scalar(); 3];
        assert_eq!(rt; verdict(&nodes, &[], b"t", 0), Ok(()));
        assert_eq!(rt; verdict(&nodes, &[], b"t", 3), Ok(()));
        assert_eq!(rt; verdict(&nodes, &[], b"t", 4), Err((41, 0)));
    }

    #[test]
    fn as_many_as_the_limit(rt: HostRuntime) {
        let nodes = [scalar(); 4097];
        assert_eq!(rt; verdict(&nodes, &[], b"t", 4096), Ok(()));
        assert_eq!(rt; verdict(&nodes, &[], b"t", 4097), Err((41, 0)));
    }

    #[test]
    fn links_in_all(rt: HostRuntime) {
        let links = [1u32; 4096];
        let mut nodes = [collection(2, 0, 4096); 5];
        assert_eq!(rt; verdict(&nodes, &links, b"t", 4), Ok(()));
        nodes[4] = collection(2, 0, 1);
        assert_eq!(rt; verdict(&nodes, &links, b"t", 5), Err((46, 0)));
        nodes[4] = collection(2, 0, 0);
        assert_eq!(rt; verdict(&nodes, &links, b"t", 5), Ok(()));
    }

    #[test]
    fn text_in_all(rt: HostRuntime) {
        let text = [b't'; 4095];
        let nodes = [valued(0, 4095); 17];
        assert_eq!(rt; verdict(&nodes, &[], &text, 16), Ok(()));
        assert_eq!(rt; verdict(&nodes, &[], &text, 17), Err((46, 0)));
    }
}

#[cfg(test)]
mod nodes {
    use super::*;

    #[test]
    fn kinds_and_styles(rt: HostRuntime) {
        assert_eq!(rt; alone(styled(1, 5), b"t"), Ok(()));
        assert_eq!(rt; alone(styled(1, 6), b"t"), Err((42, 1)));
        assert_eq!(rt; alone(styled(2, 2), b"t"), Ok(()));
        assert_eq!(rt; alone(styled(3, 3), b"t"), Err((42, 1)));
        assert_eq!(rt; alone(styled(4, 0), b"t"), Err((42, 1)));
        assert_eq!(rt; alone(Node::default(), b"t"), Err((42, 1)));
    }

    #[test]
    fn tags(rt: HostRuntime) {
        let text = [b't'; 257];
        assert_eq!(rt; alone(tagged(1, 256), &text), Ok(()));
        assert_eq!(rt; alone(tagged(2, 256), &text), Err((43, 1)));
        assert_eq!(rt; alone(tagged(0, 257), &text), Err((43, 1)));
        assert_eq!(rt; alone(tagged(0, 0), &text), Err((43, 1)));
        assert_eq!(rt; alone(tagged(0, 1), b"!!"), Err((43, 1)));
        assert_eq!(rt; alone(tagged(0, 2), b"!!"), Ok(()));
        assert_eq!(rt; alone(tagged(0, 2), b"!\0"), Err((43, 1)));
    }

    #[test]
    fn values(rt: HostRuntime) {
        let text = [b't'; 4097];
        assert_eq!(rt; alone(valued(1, 4096), &text), Ok(()));
        assert_eq!(rt; alone(valued(2, 4096), &text), Err((44, 1)));
        assert_eq!(rt; alone(valued(0, 4097), &text), Err((44, 1)));
        let node = Node {
            value_start: 1,
            ..collection(2, 0, 0)
        };
        assert_eq!(rt; alone(node, &text), Err((44, 1)));
    }

    #[test]
    fn links(rt: HostRuntime) {
        assert_eq!(rt; linked(3, 2, &[2, 1]), Ok(()));
        assert_eq!(rt; linked(3, 2, &[2]), Err((45, 1)));
        assert_eq!(rt; linked(3, 2, &[2, 3]), Err((45, 1)));
        assert_eq!(rt; linked(3, 2, &[0, 1]), Err((45, 1)));
        assert_eq!(rt; linked(3, 1, &[2, 1]), Err((45, 1)));
        assert_eq!(rt; linked(2, 1, &[2, 1]), Ok(()));
        assert_eq!(rt; linked(1, 1, &[2, 1]), Err((45, 1)));
    }
}

#[cfg(test)]
mod reads {
    use super::*;
    use document::NodeKind;

    // A sequence that holds a scalar twice, and itself.
    #[test]
    fn a_small_book(rt: HostRuntime) {
        let nodes = [collection(2, 0, 3), valued(1, 2)];
        let handed = Handed {
            nodes: &nodes,
            links: &[2, 2, 1],
            text: b"t15",
            count: 2,
            start_implicit: false,
            end_implicit: true,
        };
        let document = Document::stand(handed).unwrap_or(Document::empty());
        assert_eq!(rt; document.root(), Some(1));
        assert_eq!(rt; document.len(), 2);
        assert!(rt; document.end_implicit() && !document.start_implicit());
        assert_eq!(rt; document.child(1, 0), None);
        assert_eq!(rt; document.child(1, 2), Some(2));
        assert_eq!(rt; document.child(1, 3), Some(1));
        assert_eq!(rt; document.child(1, 4), None);
        assert_eq!(rt; document.child(3, 1), None);
        assert_eq!(rt; document.child_count(1), Some(3));
        assert_eq!(rt; document.value(2), Some(&b"15"[..]));
        assert_eq!(rt; document.tag(2), Some(&b"t"[..]));
        assert_eq!(rt; document.value(3), None);
        assert!(rt; document.kind(1) == Some(NodeKind::Sequence));
        assert_eq!(rt; document.style(0), None);
    }
}

#[cfg(test)]
mod stacks {
    use tables::{Empty, Stack, clear};

    #[test]
    fn full_and_empty(rt: HostRuntime) {
        let mut table = [7u32; 2];
        let mut stack = Stack::new(&mut table);
        let mut place = 9;
        assert!(rt; !stack.pop(&mut place));
        assert_eq!(rt; place, 9);
        assert!(rt; stack.push(1).is_ok() & stack.push(2).is_ok());
        assert!(rt; stack.push(3).is_err());
        assert_eq!(rt; stack.get(1), Some(2));
        assert!(rt; stack.pop(&mut place));
        assert_eq!(rt; place, 2);
        assert_eq!(rt; stack.get(1), None);
        assert_eq!(rt; table[0], 1);
        assert_eq!(rt; table[1], 0);
        clear(&mut table);
        assert_eq!(rt; table[0], 0);
    }
}
