// The theorems about runs. The functions do nothing: each stands for what its contract says.
ghost use Rattle.runs.specs.Runs.{OneAnswer};
ghost use Rattle.runs.specs.Holds.{RunsHold};
ghost use Rattle.runs.specs.ReadBack.{OneReading};
ghost use Rattle.runs.specs.Law.{LawOfRuns};

// every call has exactly one answer
pub fn one_answer()
    ensures { OneAnswer }
{}

// after every run the sink holds the accepted documents whole, in order, and at most the beginning of one more
pub fn runs_hold()
    ensures { RunsHold }
{}

// what a sink took reads back in one way only
pub fn one_reading()
    ensures { OneReading }
{}

// after every run the reported events are counted right, each call was refused for lack of space exactly when there was too little,
// and what the sink took reads back as the accepted documents
pub fn law_of_runs()
    ensures { LawOfRuns }
{}
