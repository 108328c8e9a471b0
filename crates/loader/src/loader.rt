// The loader over any source.
ghost use Rattle.std.specs.Prelude.{◌≡◌};
ghost use Rattle.loader.specs.declared.answer.Phase.TheVariants.{Fresh};
ghost use Rattle.loader.specs.Loads.{Loads};

use crate::answer::{Loaded, Phase};
use crate::stream::load_from;
use composer::{Refusal, Tables};
use yaml::Source;

#[derive(Drop)]
pub struct Loader<S> {
    source: S,
    phase: Phase,
}

impl<S: Source> Loader<S> {
    // A loader before the start of its source's stream.
    pub fn new(source: S) -> Loader<S>
        ensures { result ≡ record { source = source; phase = Fresh } }
    {
        Loader {
            source,
            phase: Phase::Fresh,
        }
    }

    // Loads the next document into the tables, which are emptied first; answers None at the stream's end, or refuses.
    pub fn load(&mut self, tables: &mut Tables<'_>) -> Result<Option<Loaded>, Refusal>
        ensures { Loads self.old.phase (S.Source.flow self.old.source) tables.old result self.new.phase (S.Source.flow self.new.source) tables.new }
    {
        tables.wipe();
        let answer = load_from(self.phase, &mut self.source, tables);
        match answer {
            Ok(Some(_)) => {
                tables.forget();
                self.phase = Phase::Between;
            }
            Ok(None) => self.phase = Phase::Ended,
            Err(_) => {
                tables.wipe();
                self.phase = Phase::Spoilt;
            }
        }
        answer
    }
}
