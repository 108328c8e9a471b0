// Events from any source.
ghost use Rattle.std.specs.Prelude.{◌≡◌};
ghost use Rattle.loader.specs.Loads.{given};

use composer::Refusal;
use yaml::Fault;

// 21 and 22: what a source gave, or why it gave no event.
pub fn given<T>(next: Result<Option<T>, Fault>) -> Result<T, Refusal>
    ensures { result ≡ given next }
{
    next.map_err(Refusal::SourceFault)?.ok_or(Refusal::NoEvent)
}
