//! What holds of the logs of every run of a valid cluster, and that its cuts are true.
ghost use Rattle.runs.specs.Logs.{BackupIsAPrefix, ReportsTell, ReplicatedsTell, CoveredIsHeld, DeliversTell, LogsHold};
ghost use Rattle.runs.specs.Cuts.{CutsAreTrue};
ghost use Rattle.safety_frame.specs.EveryRun.{OfEveryRun};
ghost use Rattle.safety_frame.specs.Replicates.{LogsTell};
ghost use Rattle.safety_logs.specs.LogClauses.{HeldGrows, HeldIsCommon, ReplicatedsAreCommon, KeptReportsTell, DeliversStand};
ghost use Rattle.safety_logs.specs.Cuts.{WishesAreGood, CutsAreGood};
ghost use Rattle.safety_logs.specs.Held.{CoveredIsCommon, PromisedIsDurable, PromisedIsLeased, DurableIsHeld, CoveredIsConfirmed};

/// What a replica told of its log is true of it from then on: a length is at most the log's, and a record stands at its local.
pub fn logs_tell()
    ensures { OfEveryRun LogsTell }
{}

/// The log of a shard that counts only grows, at its end, and so does what both of its replicas have.
pub fn held_grows()
    ensures { HeldGrows }
{}

/// A backup's log begins its primary's.
pub fn backup_is_a_prefix()
    ensures { OfEveryRun BackupIsAPrefix }
{}

/// Both replicas of a shard have the log that counts, and no longer one.
pub fn held_is_common()
    ensures { OfEveryRun HeldIsCommon }
{}

/// A report tells at most the length of its sender's log, as it is sent.
pub fn reports_tell()
    ensures { OfEveryRun ReportsTell }
{}

/// What a backup tells its primary to have copied both have as it is sent.
pub fn replicateds_tell()
    ensures { OfEveryRun ReplicatedsTell }
{}

/// And from then on: it begins the logs of both.
pub fn replicateds_are_common()
    ensures { OfEveryRun ReplicatedsAreCommon }
{}

/// The greatest report that a sequencer keeps of a replica is at most the length of its log.
pub fn kept_reports_tell()
    ensures { OfEveryRun KeptReportsTell }
{}

/// A cut that a sequencer wishes for fits after the entries that it knows, and both replicas of each row have its round.
pub fn wishes_are_good()
    ensures { OfEveryRun WishesAreGood }
{}

/// So is a cut that anyone wishes or voted for, at its slot: it fits after what is agreed below it, and both replicas of each row have its round.
pub fn cuts_are_good()
    ensures { OfEveryRun CutsAreGood }
{}

/// An accepted cut is true, judged before it is accepted: it fits after entries that are chosen by then, and both replicas of each row hold its
/// round, and hold the same.
pub fn cuts_are_true()
    ensures { OfEveryRun CutsAreTrue }
{}

/// Both replicas of a shard have what any node knows to be covered.
pub fn covered_is_held()
    ensures { OfEveryRun CoveredIsHeld }
{}

/// What the agreed list covers of a shard stands in the shard's log that counts, and both replicas have it.
pub fn covered_is_common()
    ensures { OfEveryRun CoveredIsCommon }
{}

/// What a replica takes for durable both have, and it is no less than what the replica knows to be covered; below it the replica's log is the one
/// that counts.
pub fn durable_is_held()
    ensures { OfEveryRun DurableIsHeld }
{}

/// A delivered record stands in both logs, as it is sent.
pub fn delivers_tell()
    ensures { OfEveryRun DeliversTell }
{}

/// And from then on in the log that counts.
pub fn delivers_stand()
    ensures { OfEveryRun DeliversStand }
{}

/// The replica that acts for a shard promises no more than it takes for durable.
pub fn promised_is_durable()
    ensures { OfEveryRun PromisedIsDurable }
{}

/// Nor more than is leased to its shard.
pub fn promised_is_leased()
    ensures { OfEveryRun PromisedIsLeased }
{}

/// A replica has confirmed just what it knows to be covered, local after local, each at its place with its record, over all its restarts.
pub fn covered_is_confirmed()
    ensures { OfEveryRun CoveredIsConfirmed }
{}

/// The law of logs, whole.
pub fn logs_hold()
    ensures { OfEveryRun LogsHold }
{}
