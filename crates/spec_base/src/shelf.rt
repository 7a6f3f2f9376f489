ghost use Rattle.std.specs.Prelude.{◌≡◌, ℕ, ◌+◌, ◌-◌, ◌^◌, ◌≤◌, min, Bool, true, false, List, Option, Some, None, IsTrue, IfOk, OnOk, OnErr};
ghost use Rattle.spec_base.specs.Faults.{CountsFault};
ghost use Rattle.spec_base.specs.Disk.{CountsRow};
ghost use Rattle.spec_base.specs.Shelf.{SameBut, GivesKept};

use crate::disk::Disk;
use crate::stop::Stop;

/// Disks by name, of which each is on the shelf or out. Each call leaves the other names as they were.
pub trait Shelf {
    /// A disk of the shelf; it moves between threads.
    type D: Disk + Send + Drop;

    /// How often the disk of a name has failed, in a `disk` call or, as far as it came back, since it was given.
    ghost faults: { Self → List ℕ → ℕ };

    /// How many of the last calls for that name failed one after the other, 0 to 2.
    ghost in_a_row: { Self → List ℕ → ℕ };

    /// The disk of that name was given, and has not come back.
    ghost is_out: { Self → List ℕ → Bool };

    /// The count of faults that the disk of that name had when it was last given.
    ghost given: { Self → List ℕ → ℕ };

    /// The shelf can tell which disks lie on it.
    ghost tells: { Self → Bool };

    /// The disk that lies on the shelf at a name; None where that name is new, or its disk is out.
    ghost kept: { Self → List ℕ → Option Self.D };

    /// Gives the disk of that name: the one that came back last, or an empty one where the name is new. At an error
    /// it stays on the shelf.
    fn disk(&mut self, name: &str) -> Result<Self::D, Stop>
        requires { is_out self.old name.now ≡ false }
        ensures out { OnOk result (is_out self.new name.now ≡ true) }
        ensures gives { IfOk result (λ disk. IsTrue (tells self.old) → GivesKept Self.D.seen Self.D.may_leave (kept self.old name.now) disk) }
        ensures given { IfOk result (λ disk. given self.new name.now ≡ Self.D.faults disk) }
        ensures err_out { OnErr result (is_out self.new name.now ≡ false) }
        ensures err_kept { OnErr result (kept self.new name.now ≡ kept self.old name.now) }
        ensures count { CountsFault (faults self.old name.now) (faults self.new name.now) result }
        ensures row { CountsRow (in_a_row self.old name.now) (in_a_row self.new name.now) result }
        ensures tells { tells self.new ≡ tells self.old }
        ensures other_faults { SameBut name.now (faults self.old) (faults self.new) }
        ensures other_rows { SameBut name.now (in_a_row self.old) (in_a_row self.new) }
        ensures other_out { SameBut name.now (is_out self.old) (is_out self.new) }
        ensures other_given { SameBut name.now (given self.old) (given self.new) }
        ensures other_kept { SameBut name.now (kept self.old) (kept self.new) };

    /// Takes the disk of that name back, and counts its faults since it was given. It takes no memory.
    fn back(&mut self, name: &str, disk: Self::D)
        requires { is_out self.old name.now ≡ true }
        ensures tells { tells self.new ≡ tells self.old }
        ensures on_shelf { is_out self.new name.now ≡ false }
        ensures kept { IsTrue (tells self.old) → kept self.new name.now ≡ Some disk }
        ensures count { faults self.new name.now ≡ min (faults self.old name.now + (Self.D.faults disk - given self.old name.now)) (2 ^ 64 - 1) }
        ensures row { in_a_row self.new name.now ≡ Self.D.in_a_row disk }
        ensures other_faults { SameBut name.now (faults self.old) (faults self.new) }
        ensures other_rows { SameBut name.now (in_a_row self.old) (in_a_row self.new) }
        ensures other_out { SameBut name.now (is_out self.old) (is_out self.new) }
        ensures other_given { SameBut name.now (given self.old) (given self.new) }
        ensures other_kept { SameBut name.now (kept self.old) (kept self.new) };

    /// No more than 2 failures in a row are told of a name.
    ghost two_in_a_row: { (shelf : Self) (name : List ℕ) → in_a_row shelf name ≤ 2 };
}
