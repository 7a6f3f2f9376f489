//! What holds of the consumers of every run of a valid cluster.
ghost use Rattle.runs.specs.Consumers.{ConfirmedIsCovered, ConfirmedIsApplied, ConsumersHold};
ghost use Rattle.runs.specs.Eagerness.{IsEager};
ghost use Rattle.runs.specs.Outputs.{OutputsFollowConfirmed};
ghost use Rattle.runs.specs.Undos.{StateFollowsApplied};
ghost use Rattle.safety_frame.specs.EveryRun.{OfEveryRun};
ghost use Rattle.safety_consumers.specs.Applications.{StateIsTheFold, PointsArePositions, UndosHaveNotices};
ghost use Rattle.safety_consumers.specs.Owned.{HeldIsTrue, ConfirmedIsThePrefix, AppliedIsHeld, ConsumersMarksTell};
ghost use Rattle.safety_consumers.specs.Marked.{AppliedIsTheMarks, ItemsAreConfirmed, ConfirmationsAreCounted};
ghost use Rattle.safety_consumers.specs.Eager.{PromisedIsGreatest, PromisedIsMarked};
ghost use Rattle.safety_consumers.specs.Handed.{HandedIsHeld, AppliedIsGreatest};

/// What a consumer's marks have applied is what it confirmed, and then what its state has beyond; and each record was applied at the end.
pub fn applied_is_the_marks()
    ensures { OfEveryRun AppliedIsTheMarks }
{}

/// A consumer's vault keeps what it confirmed, each record with its output, and what went out is this output.
pub fn items_are_confirmed()
    ensures { OfEveryRun ItemsAreConfirmed }
{}

/// A consumer confirms the positions 0, 1, 2 and so on, over all its restarts.
pub fn confirmations_are_counted()
    ensures { OfEveryRun ConfirmationsAreCounted }
{}

/// What a consumer confirmed it has applied.
pub fn confirmed_is_applied()
    ensures { OfEveryRun (λ cfg past. ConfirmedIsApplied past) }
{}

/// And it knows it to be covered.
pub fn confirmed_is_covered()
    ensures { OfEveryRun ConfirmedIsCovered }
{}

/// The application's state at a consumer is that after what it has applied.
pub fn state_is_the_fold()
    ensures { OfEveryRun StateIsTheFold }
{}

/// Its undos lead back to the states before what is applied and not confirmed, and the outputs that it holds are of these records.
pub fn points_are_positions()
    ensures { OfEveryRun PointsArePositions }
{}

/// The law of consumers: what is confirmed is covered and applied, and what is kept for undos and outputs is that of the positions between.
pub fn consumers_hold()
    ensures { OfEveryRun ConsumersHold }
{}

/// A consumer's output is that of its confirmed list, and so is what its vault keeps.
pub fn outputs_follow_confirmed()
    ensures { OfEveryRun OutputsFollowConfirmed }
{}

/// Where more is applied than a removal leaves, the undo stands right after its notice; each other undo is a restart's.
pub fn undos_have_notices()
    ensures { OfEveryRun UndosHaveNotices }
{}

/// A consumer's state is that after its applied list, and an undo has its notice.
pub fn state_follows_applied()
    ensures { OfEveryRun StateFollowsApplied }
{}

/// What a consumer holds of a shard stands in the shard's log that counts.
pub fn held_is_true()
    ensures { OfEveryRun HeldIsTrue }
{}

/// Each confirmed record is that of its position's owner, in the map of what the consumer knows.
pub fn confirmed_is_the_prefix()
    ensures { OfEveryRun ConfirmedIsThePrefix }
{}

/// And so is each record that is applied and not confirmed.
pub fn applied_is_held()
    ensures { OfEveryRun AppliedIsHeld }
{}

/// What a consumer shows as applied or confirmed is the record of the position's owner by what it knew then, and a confirmed position was covered.
pub fn consumers_marks_tell()
    ensures { OfEveryRun ConsumersMarksTell }
{}

/// A primary has promised what it knows to be covered, and all that it takes for durable and that is leased to its shard.
pub fn promised_is_greatest()
    ensures { OfEveryRun PromisedIsGreatest }
{}

/// Each local that it has promised was covered at its last restart, or was promised since then at the position where it is leased now.
pub fn promised_is_marked()
    ensures { OfEveryRun PromisedIsMarked }
{}

/// What was handed to a consumer in reach since its last restart it holds as far as it needs it, and it holds nothing else.
pub fn handed_is_held()
    ensures { OfEveryRun HandedIsHeld }
{}

/// The record of the position that a consumer would apply next isn't held.
pub fn applied_is_greatest()
    ensures { OfEveryRun AppliedIsGreatest }
{}

/// Every run is eager: what is handed in order is applied, and what is durable and leased is promised.
pub fn eager()
    ensures { OfEveryRun IsEager }
{}
