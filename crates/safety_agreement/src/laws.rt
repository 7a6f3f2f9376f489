//! What holds of every run of a valid cluster: how its sequencers agree, one slot after the other.
ghost use Rattle.runs.specs.Agreement.{OneValuePerBallot};
ghost use Rattle.runs.specs.Laws.{OneIsChosen, KnownIsChosen};
ghost use Rattle.safety_frame.specs.EveryRun.{OfEveryRun};
ghost use Rattle.safety_agreement.specs.Acceptors.{AcceptorIsItems};
ghost use Rattle.safety_agreement.specs.Owners.{BallotsHaveOwners};
ghost use Rattle.safety_agreement.specs.Attempts.{AttemptsAreOfTheNextSlot, AttemptsArePromised, AttemptsAreUnvoted, AttemptsAreVoted};
ghost use Rattle.safety_agreement.specs.Heard.{AttemptsHavePromises};
ghost use Rattle.safety_agreement.specs.Decideds.{DecidedsAreKnown};
ghost use Rattle.safety_agreement.specs.Chosen.{AgreedIsChosen};
ghost use Rattle.safety_agreement.specs.Votes.{OneVotePerBallot, OwnersVoted, AcceptedsAreVotes, PromisesTell, SafeAtBallot};

/// A slot's acceptor has the greatest ballot of its items, and the vote of the greatest ballot that it cast.
pub fn acceptor_is_items()
    ensures { OfEveryRun AcceptorIsItems }
{}

/// An attempt's ballot is its sequencer's; Prepare and Accept come from the ballot's owner, Promise and Accepted go to it.
pub fn ballots_have_owners()
    ensures { OfEveryRun BallotsHaveOwners }
{}

/// A sequencer has one vote at a slot and a ballot.
pub fn one_vote_per_ballot()
    ensures { OfEveryRun OneVotePerBallot }
{}

/// What anyone voted at a slot and a ballot, or is asked to, the ballot's owner voted.
pub fn owners_voted()
    ensures { OfEveryRun OwnersVoted }
{}

/// Each Accepted is a vote of its sender.
pub fn accepteds_are_votes()
    ensures { OfEveryRun AcceptedsAreVotes }
{}

/// A Promise binds its sender, and tells the sender's last vote up to its ballot.
pub fn promises_tell()
    ensures { OfEveryRun PromisesTell }
{}

/// An attempt is for the first slot that its sequencer doesn't know.
pub fn attempts_are_of_the_next_slot()
    ensures { OfEveryRun AttemptsAreOfTheNextSlot }
{}

/// An attempt's own acceptor has promised its ballot.
pub fn attempts_are_promised()
    ensures { OfEveryRun AttemptsArePromised }
{}

/// While an attempt sends nothing, its ballot is above 0 and nobody has a vote there.
pub fn attempts_are_unvoted()
    ensures { OfEveryRun AttemptsAreUnvoted }
{}

/// Who counts as having promised an attempt, but for its own sequencer, has sent it a Promise of its slot and ballot; each counts once, and of
/// what these report the vote of the greatest ballot is kept.
pub fn attempts_have_promises()
    ensures { OfEveryRun AttemptsHavePromises }
{}

/// While an attempt sends an entry, its sequencer and all whose acceptances are counted have voted it; each counts once.
pub fn attempts_are_voted()
    ensures { OfEveryRun AttemptsAreVoted }
{}

/// At each ballot below that of a vote a majority voted the same, or has no vote there and never will.
pub fn safe_at_ballot()
    ensures { OfEveryRun SafeAtBallot }
{}

/// A decided entry is known to its sender at its slot, and its count is above the slot and at most the number of entries known there.
pub fn decideds_are_known()
    ensures { OfEveryRun DecidedsAreKnown }
{}

/// Of all entries that any node accepted at a slot and a ballot, or was asked to accept, no two differ.
pub fn one_value_per_ballot()
    ensures { OfEveryRun OneValuePerBallot }
{}

/// No slot has two chosen entries.
pub fn one_is_chosen()
    ensures { OfEveryRun OneIsChosen }
{}

/// The agreed list, the longest that a sequencer knows, is chosen slot by slot, and what any node knows begins it.
pub fn agreed_is_chosen()
    ensures { OfEveryRun AgreedIsChosen }
{}

/// There is one list of chosen entries, and what any node knows begins it.
pub fn known_is_chosen()
    ensures { OfEveryRun KnownIsChosen }
{}
