ghost use Rattle.std.specs.Prelude.{◌≡◌, ◌≤◌, List, ℕ, Some, length, OnOk, OnErr, IsErrOf};
ghost use Rattle.spec_base.specs.Faults.{StaysSound};
ghost use Rattle.spec_base.specs.Disk.{Torn};
ghost use Rattle.spec_base.specs.Crash.{Only, LeavesOnly};
ghost use Rattle.spec_base.specs.declared.stop.Stop.TheVariants.{Failed};
ghost use Rattle.gate_vault.specs.Put.{FailedTwice, TriesEach, IsTornPut};
ghost use Rattle.gate_vault.specs.inside.Writes.{IsPut};

use crate::twice::{sync_twice, write_twice};
use spec_base::{Disk, Stop};

/// Writes the bytes at an offset and syncs, each made once more at once where it fails.
pub fn put<D: Disk>(disk: &mut D, at: u64, bytes: &[u8]) -> Result<(), Stop>
    ensures done { (file : List ℕ) → D.seen disk.old ≡ Some file → OnOk result (IsPut at bytes.now file (D.seen disk.new) (D.may_leave disk.new)) }
    ensures failed { (file : List ℕ) → D.seen disk.old ≡ Some file → OnErr result (IsTornPut at (length bytes.now) file (D.seen disk.new)) }
    ensures any_moment { (file : List ℕ) → Only file (D.may_leave disk.old)
        → LeavesOnly D.moment D.left_since disk.old disk.new (Torn at (length bytes.now) file) }
    ensures fault { IsErrOf result Failed → FailedTwice (D.faults disk.old) (D.faults disk.new) (D.in_a_row disk.new) }
    ensures tries { TriesEach 2 (D.faults disk.old) (D.faults disk.new) result }
    ensures no_fall { D.faults disk.old ≤ D.faults disk.new }
    ensures sound { StaysSound (D.never_fails disk.old) (D.never_fails disk.new) (D.faults disk.old) (D.faults disk.new) }
{
    write_twice(disk, at, bytes)?;
    sync_twice(disk)
}
