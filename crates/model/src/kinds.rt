// The kinds of events and of nodes, and their numbers.
ghost use Rattle.std.specs.Prelude.{◌≡◌};
ghost use Rattle.model.specs.Events.{kind_number, KindOf};
ghost use Rattle.model.specs.Graph.{node_number, NodeKindOf};

use crate::{EventKind, NoSuchKind, NodeKind};
use std::error::Error;
use std::fmt;

// The number of a kind of events, as in `yaml_event_type_t`.
impl From<EventKind> for u8 {
    ghost from_gives = { λ kind number. number ≡ kind_number kind };

    fn from(kind: EventKind) -> u8 {
        kind as u8
    }
}

// The kind of events of that number, if there is one.
impl TryFrom<u8> for EventKind {
    type Error = NoSuchKind;

    ghost try_from_gives = { KindOf };

    fn try_from(number: u8) -> Result<EventKind, NoSuchKind> {
        match number {
            1 => Ok(EventKind::StreamStart),
            2 => Ok(EventKind::StreamEnd),
            3 => Ok(EventKind::DocumentStart),
            4 => Ok(EventKind::DocumentEnd),
            5 => Ok(EventKind::Alias),
            6 => Ok(EventKind::Scalar),
            7 => Ok(EventKind::SequenceStart),
            8 => Ok(EventKind::SequenceEnd),
            9 => Ok(EventKind::MappingStart),
            10 => Ok(EventKind::MappingEnd),
            _ => Err(NoSuchKind(number)),
        }
    }
}

// The number of a kind of nodes, as in `yaml_node_type_t`.
impl From<NodeKind> for u8 {
    ghost from_gives = { λ kind number. number ≡ node_number kind };

    fn from(kind: NodeKind) -> u8 {
        kind as u8
    }
}

// The kind of nodes of that number, if there is one.
impl TryFrom<u8> for NodeKind {
    type Error = NoSuchKind;

    ghost try_from_gives = { NodeKindOf };

    fn try_from(number: u8) -> Result<NodeKind, NoSuchKind> {
        match number {
            1 => Ok(NodeKind::Scalar),
            2 => Ok(NodeKind::Sequence),
            3 => Ok(NodeKind::Mapping),
            _ => Err(NoSuchKind(number)),
        }
    }
}

impl fmt::Display for NoSuchKind {
    fn fmt<W: fmt::Write>(&self, f: &mut fmt::Formatter<W>) -> fmt::Result {
        write!(f, "no kind has the number {}", self.0)
    }
}

impl Error for NoSuchKind {}
