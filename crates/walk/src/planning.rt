// Planning how a Document is written, before anything is written: the anchors' numbers and the steps of the walk.
ghost use Rattle.std.specs.Prelude.{◌≡◌, ◌<◌, length, replicate, IsErrOf};
ghost use Rattle.document.specs.Books.{book_of};
ghost use Rattle.walk.specs.Entries.{entry_at, number_in, empty_counted, empty_step};
ghost use Rattle.walk.specs.Plans.{lacks, first_lacking, Prepared, Plans, Determined};

use crate::count::anchor_node;
use crate::dump::{TooDeep, Walk};
use crate::entry::{Counted, Step, StepKind};
use crate::limits::MAX_STEPS;
use document::Document;
use tables::clear;

// Why there is no plan; the questions are asked in this order.
#[derive(Clone, Copy, PartialEq, Eq, Debug)]
pub enum Unplanned {
    // the Document has no nodes
    NoNodes,
    // 55: the counting table has fewer entries than there are nodes
    TooFewCounts,
    // 56: more than 256 collections would be open at once
    TooDeep,
    // 57: the step table has fewer entries than the walk has steps
    TooFewSteps,
    // 58: the node is met again and has no anchor; it is the first such
    NoAnchor(u32),
}

// Without a walk there is no plan.
impl From<TooDeep> for Unplanned {
    ghost use Rattle.std.specs.Prelude.{◌≡◌};
    ghost use Rattle.walk.specs.declared.planning.Unplanned.TheVariants.{TooDeep as Deep};

    ghost from_gives = { λ _ why. why ≡ Deep };

    fn from(_deep: TooDeep) -> Unplanned {
        Unplanned::TooDeep
    }
}

// Sets the counter back to 0 on every way out: a form this project keeps, a guard that is dropped.
struct Reset<'a>(&'a mut u32);

impl Drop for Reset<'_> {
    fn drop(self)
        ensures { self.exit.0.now ≡ 0 }
    {
        *self.0 = 0;
        let Reset(_) = self;
    }
}

// The number of a node's anchor, if it has one.
pub fn anchor_of(counting: &[Counted], node: u32) -> Option<u32>
    ensures { result ≡ number_in (entry_at counting.now node) }
{
    let place = (node as usize).checked_sub(1)?;
    let anchor = counting.get(place)?.anchor;
    if anchor == 0 { None } else { Some(anchor) }
}

// Whether a step meets a node again that has no anchor.
fn lacks_anchor(counting: &[Counted], step: Step) -> bool
    ensures { result ≡ lacks counting.now step }
{
    matches!(step.kind(), Some(StepKind::Again)) && anchor_of(counting, step.node).is_none()
}

// The first node that is met again and has no anchor.
fn first_lacking(counting: &[Counted], steps: &[Step]) -> Option<u32>
    ensures { result ≡ first_lacking counting.now steps.now }
{
    steps
        .iter()
        .find(|step| lacks_anchor(counting, **step))
        .map(|step| step.node)
}

// Walks over the numbered nodes.
fn plan_walk(
    d: &Document<'_>,
    counting: &mut [Counted],
    steps: &mut [Step],
) -> Result<usize, Unplanned>
    requires { Prepared (book_of d.now).nodes counting.old }
    ensures plan { Plans (book_of d.now).nodes (length counting.old) steps.old result counting.new steps.new }
    ensures room { IsErrOf result Unplanned.TooFewSteps → length steps.old < MAX_STEPS }
{
    d.sound();
    let mut walk = Walk {
        counting,
        steps,
        count: 0,
    };
    walk.dump_node(d, 1, 0)?;
    let Walk {
        counting,
        steps,
        count,
    } = walk;
    if count > steps.len() {
        return Err(Unplanned::TooFewSteps);
    }
    match first_lacking(counting, &steps[..count]) {
        Some(node) => Err(Unplanned::NoAnchor(node)),
        None => Ok(count),
    }
}

// Numbers the anchors and walks over the nodes, and answers with the number of steps. Then the tables hold the plan; else they hold anything.
// A table of MAX_STEPS is long enough for any walk. Numbers begin at 1 whatever the counter held, and it is back at 0 in any case.
#[tactic(auto, using(crate::proofs::OneAnswer::determined))]
pub fn make_plan(
    d: &Document<'_>,
    counting: &mut [Counted],
    steps: &mut [Step],
    last_anchor_id: &mut u32,
) -> Result<usize, Unplanned>
    ensures counter { last_anchor_id.new ≡ 0 }
    ensures plan { Plans (book_of d.now).nodes (length counting.old) steps.old result counting.new steps.new }
    ensures room { IsErrOf result Unplanned.TooFewSteps → length steps.old < MAX_STEPS }
    ensures determined { Determined }
{
    *last_anchor_id = 0;
    let guard = Reset(last_anchor_id);
    let nodes = d.len();
    if nodes == 0 {
        return Err(Unplanned::NoNodes);
    }
    if counting.len() < nodes {
        return Err(Unplanned::TooFewCounts);
    }
    clear(counting);
    anchor_node(d, counting, guard.0);
    plan_walk(d, counting, steps)
}

// Empties both tables.
pub fn clear_plan(counting: &mut [Counted], steps: &mut [Step])
    ensures counting { counting.new ≡ replicate (length counting.old) empty_counted }
    ensures steps { steps.new ≡ replicate (length steps.old) empty_step }
{
    clear(counting);
    clear(steps);
}
