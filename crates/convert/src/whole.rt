// An event of a source, whole.
use model::Mark;
use yaml::Event;

// An event as a sink takes it, and the marks of its two ends.
#[derive(Clone, Copy)]
pub struct Whole<'a> {
    pub event: Event<'a>,
    pub start: Mark,
    pub end: Mark,
}
