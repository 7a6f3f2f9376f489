ghost use Rattle.shard_log.specs.Calls.{NumbersAreConsecutive, NumbersBeginWithFirst, LogsOnlyGrow, CopiesAreFronts};

/// What holds of every log, whatever calls made it. It does nothing: its contract is the law.
pub fn log_laws()
    // In a log that a primary's calls made, and in each front of it, each client's numbers stand
    // consecutively, in order of local, from the number that its calls name as its first.
    ensures consecutive { NumbersAreConsecutive }
    ensures first { NumbersBeginWithFirst }

    // A log only grows at its end, and one that copies of a log's records made is a front of that log.
    ensures growth { LogsOnlyGrow }
    ensures copies { CopiesAreFronts }
{}
