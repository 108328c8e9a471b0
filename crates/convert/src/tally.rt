// What a survey tells, counted event by event.
ghost use Rattle.std.specs.Prelude.{◌≡◌, ℕ, ◌-◌, ◌≤◌, length, slice_index};
ghost use Rattle.convert.specs.declared.tally.Unsurveyed.TheVariants.{Faulty};

use yaml::{Event, EventKind, Fault};

// Why not every event was surveyed.
#[derive(Clone, Copy, PartialEq, Eq, Debug)]
pub enum Unsurveyed {
    // the source gave a fault
    Faulty(Fault),
    // the bytes are more than a number can tell
    TooLarge,
}

impl From<Fault> for Unsurveyed {
    ghost from_gives = { λ fault e. e ≡ Faulty fault };

    fn from(fault: Fault) -> Unsurveyed {
        Unsurveyed::Faulty(fault)
    }
}

// What is to come.
#[derive(Clone, Copy, PartialEq, Eq, Debug)]
pub struct Survey {
    pub events: usize,
    // how many of each kind, in the order of the kinds' numbers: a map from kinds is no plainer, since each kind has its count
    pub kinds: [usize; 10],
    // how many nodes have an anchor
    pub anchors: usize,
    // the sizes, added up
    pub bytes: usize,
    // whether these are all
    pub stop: Result<(), Unsurveyed>,
}

impl Survey {
    ghost use Rattle.model.specs.Events.{kind_number};
    ghost use Rattle.convert.specs.Surveys.{Untouched, Bounded};

    // No event is surveyed yet.
    pub fn new() -> Survey
        ensures untouched { Untouched result }
        ensures bounded { Bounded result }
    {
        Survey {
            events: 0,
            kinds: [0; 10],
            anchors: 0,
            bytes: 0,
            stop: Ok(()),
        }
    }

    // How many events of a kind are to come.
    pub fn of_kind(&self, kind: EventKind) -> usize
        ensures { result ≡ slice_index self.now.kinds (kind_number kind - 1) }
    {
        let place = usize::from(u8::from(kind)) - 1;
        self.kinds[place]
    }
}

// A survey while it is counted. Each event is a byte at least, so no count is larger than the bytes.
#[derive(Drop)]
pub(crate) struct Tally {
    pub(crate) survey: Survey,
    ghost ten: { length survey.kinds ≡ 10 },
    ghost heavy: { survey.events ≤ survey.bytes },
    ghost few_kinds: { (k : ℕ) → slice_index survey.kinds k ≤ survey.events },
    ghost few_anchors: { survey.anchors ≤ survey.events },
}

impl Tally {
    ghost use Rattle.yaml.specs.Shapes.{ev_of};
    ghost use Rattle.convert.specs.Surveys.{Adds, Untouched};

    // No event is counted yet.
    pub(crate) fn new() -> Tally
        ensures { Untouched result.survey }
    {
        Tally {
            survey: Survey::new(),
        }
    }

    // Counts one event of this size.
    pub(crate) fn add(&mut self, event: &Event<'_>, size: usize) -> Result<(), Unsurveyed>
        requires heavy { 1 ≤ size }
        ensures { Adds self.old.survey (ev_of event.now) size result self.new.survey }
    {
        let survey = &mut self.survey;
        survey.bytes = survey.bytes.checked_add(size).ok_or(Unsurveyed::TooLarge)?;
        survey.events += 1;
        survey.kinds[usize::from(u8::from(event.kind)) - 1] += 1;
        // an alias names an anchor, and gives none
        if event.kind != EventKind::Alias && !event.anchor.is_empty() {
            survey.anchors += 1;
        }
        Ok(())
    }
}
