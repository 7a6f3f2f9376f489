//! What is shown of the definitions of runs and laws by themselves. The laws of all runs stand in the crates `safety_..` above.
ghost use Rattle.runs.specs.Laws.{Config, MergesAreRuns, FirstSteps, PremisesAreMet, UnnoticedFollows};
ghost use Rattle.runs.specs.Broken.{Refused};
ghost use Rattle.runs.specs.BrokenPasses.{RefusedPasses};

/// The first steps of a script, worked out by hand, are a run.
pub fn first_steps_are_a_run()
    ensures { FirstSteps }
{}

/// The merge of the journals of a cluster's nodes is a run: where each journal is a list of steps of its node from its
/// start, its stamps rise, and each delivered message was sent by a step with a smaller stamp.
pub fn merged_journals_are_a_run()
    ensures { (cfg : Config) → MergesAreRuns cfg }
{}

/// Two runs worked out by hand, a record's whole way and a client's move, meet the premises of the laws, so that each says something of a run.
pub fn premises_are_met()
    ensures { PremisesAreMet }
{}

/// For each law of safety short histories, each of which breaks one of its sentences, are refused; and so are some that are no runs.
pub fn broken_histories_are_refused()
    ensures { Refused }
{}

/// So are short histories for the laws of agreement, logs, clients, maps and consumers, and of two speculations, each by the sentence that it breaks.
pub fn broken_passes_are_refused()
    ensures { RefusedPasses }
{}

/// Where no node noticed a removal, all that is marked at a position is of one record: three of the laws give it together.
pub fn unnoticed_follows()
    ensures { UnnoticedFollows }
{}
