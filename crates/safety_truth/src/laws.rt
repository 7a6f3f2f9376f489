//! What every run of a valid cluster tells its clients.
ghost use Rattle.runs.specs.Truth.{IsTruthful};
ghost use Rattle.safety_frame.specs.EveryRun.{OfEveryRun};

/// The law of truth: a confirmed record is its client's submission of that number, each number is confirmed at one position, in the client's order,
/// none is left out below a confirmed one, and an acknowledgement comes once for each number, of a position that was confirmed before.
pub fn truthful()
    ensures { OfEveryRun (λ cfg past. IsTruthful past) }
{}
