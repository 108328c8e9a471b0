// An event of a document, as the tables take it.
ghost use Rattle.std.specs.Prelude.{◌≤◌, length};

use model::Mark;
use yaml::Event;

// An event with the marks where it begins and where it ends. Its texts are no longer than those of an allowed event.
#[derive(Clone, Copy)]
pub struct Placed<'a> {
    pub event: Event<'a>,
    pub start: Mark,
    pub end: Mark,
    pub ghost short_anchor: { length event.anchor.now ≤ 64 },
    pub ghost short_tag: { length event.tag.now ≤ 256 },
    pub ghost short_value: { length event.value.now ≤ 4096 },
}
