ghost use Rattle.std.specs.Prelude.{◌≡◌, ℕ, Bool, List, Option, ◌≤◌, length, IfOk, OnOk, OnErr, IfSome};
ghost use Rattle.spec_base.specs.Faults.{CountsFault, StaysSound};
ghost use Rattle.spec_base.specs.Disk.{Told, GivesPart, Written, Torn, CountsRow};
ghost use Rattle.spec_base.specs.Crash.{Only, SameOutcomes, NoneNew, Follows, Elapses};

use crate::stop::Stop;

/// A file that is read and written at offsets, and what a crash may leave of it.
///
/// Until a sync, a crash may leave any bytes in each written range and past the old end. A write that fails counts as
/// a write: there and past the old end a read too may then give any bytes.
pub trait Disk {
    /// The bytes that a read gives; None where the disk can't tell.
    ghost seen: { Self → Option (List ℕ) };

    /// What a crash at this moment may leave.
    ghost may_leave: { Self → List ℕ → Type 0 };

    /// The moment, a number that doesn't fall.
    ghost moment: { Self → ℕ };

    /// What a crash at some moment from that one on might have left, in a call or between two.
    ghost left_since: { Self → ℕ → List ℕ → Type 0 };

    /// How often the disk has failed.
    ghost faults: { Self → ℕ };

    /// How many of its last calls failed one after the other, 0 to 2; calls for want of memory aside.
    ghost in_a_row: { Self → ℕ };

    /// The disk never fails.
    ghost never_fails: { Self → Bool };

    /// Puts the bytes from the offset `at` on at the start of `into` and answers how many: 0 for a buffer that isn't
    /// empty comes only at or past the end. It changes nothing on the disk.
    fn read(&mut self, at: u64, into: &mut [u8]) -> Result<usize, Stop>
        ensures fits { IfOk result (λ n. n ≤ length into.new) }
        ensures given { IfOk result (λ n. IfSome (seen self.old) (GivesPart at n into.new)) }
        ensures seen { seen self.new ≡ seen self.old }
        ensures crash { SameOutcomes (may_leave self.old) (may_leave self.new) }
        ensures time { Elapses (moment self.old) (moment self.new) (left_since self.old) (left_since self.new) (may_leave self.new) }
        ensures count { CountsFault (faults self.old) (faults self.new) result }
        ensures row { CountsRow (in_a_row self.old) (in_a_row self.new) result }
        ensures sound { StaysSound (never_fails self.old) (never_fails self.new) (faults self.old) (faults self.new) };

    /// Writes the bytes from the offset `at` on, over what is there and past the end.
    fn write_at(&mut self, at: u64, bytes: &[u8]) -> Result<(), Stop>
        ensures written { OnOk result (Told (Written at bytes.now) (seen self.old) (seen self.new)) }
        ensures torn { OnErr result (Told (Torn at (length bytes.now)) (seen self.old) (seen self.new)) }
        ensures crash { Follows (Torn at (length bytes.now)) (may_leave self.old) (may_leave self.new) }
        ensures time { Elapses (moment self.old) (moment self.new) (left_since self.old) (left_since self.new) (may_leave self.new) }
        ensures count { CountsFault (faults self.old) (faults self.new) result }
        ensures row { CountsRow (in_a_row self.old) (in_a_row self.new) result }
        ensures sound { StaysSound (never_fails self.old) (never_fails self.new) (faults self.old) (faults self.new) };

    /// After it, a crash leaves what a read gives. One that fails changes nothing on the disk.
    fn sync(&mut self) -> Result<(), Stop>
        ensures durable { OnOk result (IfSome (seen self.old) (λ file. Only file (may_leave self.new))) }
        ensures seen { seen self.new ≡ seen self.old }
        ensures none_new { NoneNew (may_leave self.old) (may_leave self.new) }
        ensures crash { OnErr result (SameOutcomes (may_leave self.old) (may_leave self.new)) }
        ensures time { Elapses (moment self.old) (moment self.new) (left_since self.old) (left_since self.new) (may_leave self.new) }
        ensures count { CountsFault (faults self.old) (faults self.new) result }
        ensures row { CountsRow (in_a_row self.old) (in_a_row self.new) result }
        ensures sound { StaysSound (never_fails self.old) (never_fails self.new) (faults self.old) (faults self.new) };

    /// What a read gives is one of the contents that a crash now may leave.
    ghost seen_is_left: { (disk : Self) → IfSome (seen disk) (may_leave disk) };

    /// This moment is one of those since an earlier one.
    ghost counts_now: { (disk : Self) (t : ℕ) (c : List ℕ) → t ≤ moment disk → may_leave disk c → left_since disk t c };

    /// Since this moment there is no other.
    ghost only_now: { (disk : Self) (c : List ℕ) → left_since disk (moment disk) c → may_leave disk c };

    /// No more than 2 failures in a row are told.
    ghost two_in_a_row: { (disk : Self) → in_a_row disk ≤ 2 };
}
