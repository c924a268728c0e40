// Theorems, each on the contract of a function.
ghost use Rattle.runs.specs.Cases.{CasesHold};
ghost use Rattle.runs.specs.Laws.{EveryRun};

// The worked cases come out as they must.
pub fn cases_hold()
    ensures { CasesHold }
{}

// Every run of the two sides keeps the laws.
pub fn every_run_keeps_the_laws()
    ensures { EveryRun }
{}
