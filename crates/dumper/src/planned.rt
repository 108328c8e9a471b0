// A Document with the plan of how it is written.
ghost use Rattle.std.specs.Prelude.{◌≡◌, ℕ, ◌≤◌, true};
ghost use Rattle.model.specs.Events.{all_allowed};
ghost use Rattle.serial.specs.Numbering.{number_of};
ghost use Rattle.serial.specs.Serialize.{book_events};
ghost use Rattle.document.specs.Books.{book_of};
ghost use Rattle.walk.specs.Entries.{entry_at};
ghost use Rattle.dumper.specs.Steps.{tokens_of};

use document::Document;
use walk::{Counted, Step};

#[derive(Clone, Copy)]
pub(crate) struct Planned<'p, 'd> {
    pub d: &'p Document<'d>,
    // the numbers of its nodes' anchors
    pub counting: &'p [Counted],
    // the walk over its nodes
    pub steps: &'p [Step],
    ghost numbers: { (v : ℕ) → (entry_at counting.now v).anchor ≡ number_of (book_of d.now).nodes v },
    ghost few: { (v : ℕ) → number_of (book_of d.now).nodes v ≤ 4096 },
    ghost allowed: { all_allowed (book_events (book_of d.now) (tokens_of steps.now)) ≡ true },
}
