//! The laws of one slot, over every schedule of its machine and any number of replicas. Each stands on the contract of a
//! function with nothing to do.

ghost use Rattle.std.specs.Prelude.{◌≡◌, ℕ, ◌++◌, ◌*◌, ◌<◌, ◌≤◌, ◌⊎◌, List, Contains, Some, slice_get, length};
ghost use Rattle.majority.specs.Ballots.{IsNextBallot, next_ballot};
ghost use Rattle.majority.specs.Proposers.{Attempt, accepted_answer};
ghost use Rattle.majority.specs.Votes.{HasVote, IsChosenByVotes, IsChosenAt};
ghost use Rattle.majority.specs.Journals.{value_told, IsRecovered, AreOfReplicas, HoldAcceptances};
ghost use Rattle.majority.specs.Slot.{SlotEvent, Accepted, fresh_slot, slot_run};
ghost use Rattle.majority.specs.declared.journal.VoteJournal.{VoteJournal};

use crate::answers::AcceptedAnswer;

/// Two values that are chosen, at the same time or one later, are equal; and a value once chosen is what every vote at a
/// ballot that is no lower carries from then on.
pub fn agreement<V>()
    ensures equal { (n : ℕ) (early late : List (SlotEvent V)) (v w : V) → IsChosenByVotes n (slot_run n early fresh_slot).votes v
        → IsChosenByVotes n (slot_run n (early ++ late) fresh_slot).votes w → v ≡ w }
    ensures carried { (n : ℕ) (early late : List (SlotEvent V)) (ballot later replica : ℕ) (v w : V) → IsChosenAt n (slot_run n early fresh_slot).votes ballot v
        → HasVote (slot_run n (early ++ late) fresh_slot).votes replica later w → ballot ≤ later → w ≡ v }
{}

/// An attempt that counts a majority of acceptances has had its value chosen; and so it has where it answers `Chosen` to
/// an acceptance that was sent at its ballot, or to its own replica's.
pub fn decision<V>()
    ensures counted { (n replica : ℕ) (events : List (SlotEvent V)) (attempt : Attempt V) (v : V)
        → (slot_run n events fresh_slot).attempts replica ≡ Some attempt → attempt.sending ≡ Some v → n < 2 * length attempt.acceptances
        → IsChosenAt n (slot_run n events fresh_slot).votes attempt.ballot v }
    ensures answered { (n replica from : ℕ) (events : List (SlotEvent V)) (attempt : Attempt V) (v : V)
        → (slot_run n events fresh_slot).attempts replica ≡ Some attempt → attempt.sending ≡ Some v
        → (from ≡ replica) ⊎ Contains (slot_run n events fresh_slot).sent (Accepted from attempt.ballot)
        → accepted_answer from attempt ≡ AcceptedAnswer.Chosen → IsChosenAt n (slot_run n events fresh_slot).votes attempt.ballot v }
{}

/// Journals that have at a slot what the acceptors of a majority hold tell the value that is chosen there, and so do the
/// values that are recovered from them, if these reach the slot.
pub fn recovery<V>()
    ensures told { (n : ℕ) (events : List (SlotEvent V)) (slot : ℕ) (journals : List (VoteJournal V)) (v : V)
        → IsChosenByVotes n (slot_run n events fresh_slot).votes v → AreOfReplicas n journals → n < 2 * length journals
        → HoldAcceptances (slot_run n events fresh_slot).acceptors slot journals → value_told slot journals ≡ Some v }
    ensures found { (n : ℕ) (events : List (SlotEvent V)) (slot : ℕ) (journals : List (VoteJournal V)) (values : List V) (v : V)
        → IsChosenByVotes n (slot_run n events fresh_slot).votes v → AreOfReplicas n journals → n < 2 * length journals
        → HoldAcceptances (slot_run n events fresh_slot).acceptors slot journals → IsRecovered journals values → slot ≤ length values
        → slice_get values slot ≡ Some v }
{}

/// The ballot that follows a floor is the least one above it that the replica owns.
pub fn next_ballots()
    ensures { (replica n floor : ℕ) → replica < n → IsNextBallot replica n floor (next_ballot replica n floor) }
{}
