// Each call of the disk, made once more at once where it fails.
ghost use Rattle.std.specs.Prelude.{◌≡◌, ◌≤◌, List, ℕ, length, OnOk, OnErr, IfSome, IfOk, IsErrOf};
ghost use Rattle.spec_base.specs.Faults.{StaysSound};
ghost use Rattle.spec_base.specs.Disk.{Told, GivesPart, Torn};
ghost use Rattle.spec_base.specs.Crash.{Only, NoneNew, Follows, Elapses};
ghost use Rattle.spec_base.specs.declared.stop.Stop.TheVariants.{Failed};
ghost use Rattle.gate_vault.specs.Put.{FailedTwice, TriesEach};
ghost use Rattle.gate_vault.specs.inside.Writes.{WrittenOver};

use spec_base::{Disk, Stop};

#[tactic(auto, using(crate::proofs::Again::failed_twice, spec_base::proofs::MemDiskLemmas::torn_none))]
pub fn read_twice<D: Disk>(disk: &mut D, at: u64, into: &mut [u8]) -> Result<usize, Stop>
    ensures fault { IsErrOf result Failed → FailedTwice (D.faults disk.old) (D.faults disk.new) (D.in_a_row disk.new) }
    ensures tries { TriesEach 1 (D.faults disk.old) (D.faults disk.new) result }
    ensures no_fall { D.faults disk.old ≤ D.faults disk.new }
    ensures sound { StaysSound (D.never_fails disk.old) (D.never_fails disk.new) (D.faults disk.old) (D.faults disk.new) }
    ensures fits { IfOk result (λ n. n ≤ length into.new) }
    ensures given { IfOk result (λ n. IfSome (D.seen disk.old) (GivesPart at n into.new)) }
    ensures seen { D.seen disk.new ≡ D.seen disk.old }
    ensures none_new { NoneNew (D.may_leave disk.old) (D.may_leave disk.new) }
    ensures time { Elapses (D.moment disk.old) (D.moment disk.new) (D.left_since disk.old) (D.left_since disk.new) (D.may_leave disk.old) }
{
    match disk.read(at, into) {
        Ok(count) => Ok(count),
        Err(Stop::Failed) => disk.read(at, into),
        Err(Stop::OutOfMemory) => Err(Stop::OutOfMemory),
    }
}

#[tactic(auto, using(crate::proofs::Again::failed_twice, spec_base::proofs::MemDiskLemmas::torn_none))]
pub fn write_twice<D: Disk>(disk: &mut D, at: u64, bytes: &[u8]) -> Result<(), Stop>
    ensures fault { IsErrOf result Failed → FailedTwice (D.faults disk.old) (D.faults disk.new) (D.in_a_row disk.new) }
    ensures tries { TriesEach 1 (D.faults disk.old) (D.faults disk.new) result }
    ensures no_fall { D.faults disk.old ≤ D.faults disk.new }
    ensures sound { StaysSound (D.never_fails disk.old) (D.never_fails disk.new) (D.faults disk.old) (D.faults disk.new) }
    ensures written { OnOk result (Told (WrittenOver at bytes.now) (D.seen disk.old) (D.seen disk.new)) }
    ensures torn { OnErr result (Told (Torn at (length bytes.now)) (D.seen disk.old) (D.seen disk.new)) }
    ensures crash { Follows (Torn at (length bytes.now)) (D.may_leave disk.old) (D.may_leave disk.new) }
    ensures time { Elapses (D.moment disk.old) (D.moment disk.new) (D.left_since disk.old) (D.left_since disk.new)
        (λ c. (d : List ℕ) × D.may_leave disk.old d × Torn at (length bytes.now) d c) }
{
    match disk.write_at(at, bytes) {
        Ok(()) => Ok(()),
        Err(Stop::Failed) => disk.write_at(at, bytes),
        Err(Stop::OutOfMemory) => Err(Stop::OutOfMemory),
    }
}

#[tactic(auto, using(crate::proofs::Again::failed_twice, spec_base::proofs::MemDiskLemmas::torn_none))]
pub fn sync_twice<D: Disk>(disk: &mut D) -> Result<(), Stop>
    ensures fault { IsErrOf result Failed → FailedTwice (D.faults disk.old) (D.faults disk.new) (D.in_a_row disk.new) }
    ensures tries { TriesEach 1 (D.faults disk.old) (D.faults disk.new) result }
    ensures no_fall { D.faults disk.old ≤ D.faults disk.new }
    ensures sound { StaysSound (D.never_fails disk.old) (D.never_fails disk.new) (D.faults disk.old) (D.faults disk.new) }
    ensures durable { OnOk result (IfSome (D.seen disk.old) (λ file. Only file (D.may_leave disk.new))) }
    ensures seen { D.seen disk.new ≡ D.seen disk.old }
    ensures none_new { NoneNew (D.may_leave disk.old) (D.may_leave disk.new) }
    ensures time { Elapses (D.moment disk.old) (D.moment disk.new) (D.left_since disk.old) (D.left_since disk.new) (D.may_leave disk.old) }
{
    match disk.sync() {
        Ok(()) => Ok(()),
        Err(Stop::Failed) => disk.sync(),
        Err(Stop::OutOfMemory) => Err(Stop::OutOfMemory),
    }
}
