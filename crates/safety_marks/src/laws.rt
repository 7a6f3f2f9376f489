//! What holds of the marks of every run of a valid cluster.
ghost use Rattle.net_model.specs.Pasts.{Throughout};
ghost use Rattle.runs.specs.OneLog.{IsOneLog};
ghost use Rattle.runs.specs.Speculating.{NoticesAreTrue, SpeculationHolds, SpeculationAgrees, OneRecordUnnoticed};
ghost use Rattle.safety_frame.specs.EveryRun.{OfEveryRun};
ghost use Rattle.safety_marks.specs.Acks.{AckedIsCounted};
ghost use Rattle.safety_marks.specs.MarkClauses.{MarksTell};
ghost use Rattle.safety_marks.specs.Shown.{MarksAreShownAs, NoticesAreRemovals};

/// A marked record stands in the log of its position's owner, by the map that its node knew then, and a confirmed one's position was covered.
pub fn marks_tell()
    ensures { OfEveryRun MarksTell }
{}

/// A replica or a consumer shows each mark with the notices of all removals that it knew then; no other node shows a mark of a position.
pub fn marks_are_shown_as()
    ensures { OfEveryRun MarksAreShownAs }
{}

/// The notices of a replica or a consumer are, in order, the first positions of the removals that it knows.
pub fn notices_are_removals()
    ensures { OfEveryRun NoticesAreRemovals }
{}

/// A notice comes with the removal that its node learns, and names the first position that it moves.
pub fn notices_are_true()
    ensures { OfEveryRun (λ cfg. Throughout (NoticesAreTrue cfg)) }
{}

/// The law of one log: no position has two confirmed records, and each consumer confirms the positions 0, 1, 2 and so on.
pub fn one_log()
    ensures { OfEveryRun (λ cfg past. IsOneLog past) }
{}

/// The law of speculation: a confirmed record is what any node speculated at its position, or the confirming node noticed a removal from there or below before.
pub fn speculation_holds()
    ensures { OfEveryRun SpeculationHolds }
{}

/// Two speculations at a position are of one record, or one of the two nodes noticed a removal from there or below before.
pub fn speculation_agrees()
    ensures { OfEveryRun (λ cfg past. SpeculationAgrees past) }
{}

/// Where no node noticed a removal, all that is marked at a position, speculated or confirmed, is of one record.
pub fn one_record_unnoticed()
    ensures { OfEveryRun (λ cfg past. OneRecordUnnoticed past) }
{}

/// A client is acknowledged each number once, in order.
pub fn acked_is_counted()
    ensures { OfEveryRun (λ cfg past. AckedIsCounted past) }
{}
