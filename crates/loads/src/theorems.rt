// The theorems about loading. The functions do nothing: each stands for what its contract says.
ghost use Rattle.loads.specs.Stepping.{StepComposes};
ghost use Rattle.loads.specs.Room.{StepAccepted, StepWithin, LoadedExactly, ComposedLoads, StopsWithin};
ghost use Rattle.loads.specs.Runs.{LoadComposes};
ghost use Rattle.loads.specs.Written.{WalkLoads, WalkStops};
ghost use Rattle.loads.specs.Standing.{LoadedStands};
ghost use Rattle.loads.specs.Order.{ComposedWalk, ComposedOrder, ComposedLed};
ghost use Rattle.loads.specs.Marks.{LoadedMarks};
ghost use Rattle.loads.specs.Examples.{SmallExamples, DeepExamples};
ghost use Rattle.loads.specs.Refusing.{StepRefused, RunRefused};
ghost use Rattle.loads.specs.Loads.{LoadGives, LoadRuns};
ghost use Rattle.loads.specs.Gives.{CodeGives};

// each accepted event is taken in by composing
pub fn steps_compose()
    ensures { StepComposes }
{}

// what composing takes in, with space for it, is accepted
pub fn steps_accepted()
    ensures { StepAccepted }
{}

// accepted steps keep within the space
pub fn steps_within()
    ensures { StepWithin }
{}

// what is loaded is what its events compose to, and nothing else
pub fn load_composes()
    ensures { LoadComposes }
{}

// a document is loaded exactly where its events compose, with space all the way
pub fn loaded_exactly()
    ensures { LoadedExactly }
{}

// events that compose are loaded, whatever their marks and whatever follows
pub fn composed_loads()
    ensures { ComposedLoads }
{}

// events that stop within the document are refused
pub fn stops_within()
    ensures { StopsWithin }
{}

// what a document was serialized to is loaded to one that is alike
pub fn walk_loads()
    ensures { WalkLoads }
{}

// and where it breaks off, it is refused
pub fn walk_stops()
    ensures { WalkStops }
{}

// what is loaded passes the document's check, in tables of any length
pub fn loaded_stands()
    ensures { LoadedStands }
{}

// what is composed is walked in the order of its numbers
pub fn composed_walk()
    ensures { ComposedWalk }
{}

// every walk of it meets its nodes in that order
pub fn composed_order()
    ensures { ComposedOrder }
{}

// and a path leads to each of them
pub fn composed_led()
    ensures { ComposedLed }
{}

// nodes and documents begin and end where their events do
pub fn loaded_marks()
    ensures { LoadedMarks }
{}

// small documents
pub fn small_examples()
    ensures { SmallExamples }
{}

// deep documents
pub fn deep_examples()
    ensures { DeepExamples }
{}

// an event is refused exactly for the reason that is told
pub fn step_refused()
    ensures { StepRefused }
{}

// a document is refused by its first event that is refused, or since none came
pub fn run_refused()
    ensures { RunRefused }
{}

// the document that a load gave, whole
pub fn load_gives()
    ensures { LoadGives }
{}

// a load runs the document that comes next
pub fn load_runs()
    ensures { LoadRuns }
{}

// all this holds of what the loader's code gives
pub fn code_gives()
    ensures { CodeGives }
{}
