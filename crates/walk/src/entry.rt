// The entries of the two tables: the counting table has one for each node, the step table one for each step of the walk.
// Both are records that C lends, of numbers only, and a table of zeros is empty: in them 0 says no and none.
ghost use Rattle.std.specs.Prelude.{◌≡◌};
ghost use Rattle.walk.specs.declared.entry.Counted.{Counted};
ghost use Rattle.walk.specs.declared.entry.Step.{Step};
ghost use Rattle.walk.specs.declared.entry.StepKind.{StepKind};
ghost use Rattle.walk.specs.Entries.{empty_counted, empty_step, made, step_number, kind_of, StepKindOf};

use std::error::Error;
use std::fmt;
use tables::Empty;

// What is known of a node.
#[repr(C)]
#[derive(Clone, Copy, PartialEq, Eq, Debug, Default)]
pub struct Counted {
    // how often it was counted
    pub references: u32,
    // its anchor's number; 0 where it has none
    pub anchor: u32,
    // 1 once the walk has met it
    pub serialized: u32,
}

impl Empty for Counted {
    ghost empty = { empty_counted };

    fn none() -> Counted {
        Counted::default()
    }
}

// What a step of the walk does; the numbers are those in the step table.
#[derive(Clone, Copy, PartialEq, Eq, Debug)]
pub enum StepKind {
    // it meets a node first
    First = 1,
    // it meets a node again
    Again,
    // it ends a collection
    Leave,
}

// A number that no step has.
#[derive(Clone, Copy, PartialEq, Eq, Debug)]
pub struct NoSuchStep(pub u32);

// The number of a kind of steps.
impl From<StepKind> for u32 {
    ghost from_gives = { λ kind what. what ≡ step_number kind };

    fn from(kind: StepKind) -> u32 {
        kind as u32
    }
}

// The kind of steps of that number, if there is one.
impl TryFrom<u32> for StepKind {
    type Error = NoSuchStep;

    ghost try_from_gives = { StepKindOf };

    fn try_from(what: u32) -> Result<StepKind, NoSuchStep> {
        match what {
            1 => Ok(StepKind::First),
            2 => Ok(StepKind::Again),
            3 => Ok(StepKind::Leave),
            _ => Err(NoSuchStep(what)),
        }
    }
}

impl fmt::Display for NoSuchStep {
    fn fmt<W: fmt::Write>(&self, f: &mut fmt::Formatter<W>) -> fmt::Result {
        write!(f, "no step has the number {}", self.0)
    }
}

impl Error for NoSuchStep {}

// One step of the walk.
#[repr(C)]
#[derive(Clone, Copy, PartialEq, Eq, Debug, Default)]
pub struct Step {
    // the number of what it does; 0 only in an empty entry
    pub what: u32,
    pub node: u32,
}

impl Step {
    // The step that does this to a node.
    pub fn new(kind: StepKind, node: u32) -> Step
        ensures { result ≡ made (step_number kind) node }
    {
        Step {
            what: u32::from(kind),
            node,
        }
    }

    // What it does; an empty entry does nothing.
    pub fn kind(&self) -> Option<StepKind>
        ensures { result ≡ kind_of self.now.what }
    {
        StepKind::try_from(self.what).ok()
    }
}

impl Empty for Step {
    ghost empty = { empty_step };

    fn none() -> Step {
        Step::default()
    }
}
