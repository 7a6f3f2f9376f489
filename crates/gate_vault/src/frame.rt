// A frame behind the last gate: four device calls, in an order that a crash can't harm.
ghost use Rattle.std.specs.Prelude.{◌≡◌, ◌≤◌, ◌<◌, ◌+◌, ◌-◌, ◌^◌, ◌++◌, ◌∷◌, [], List, ℕ, Some, length, OnOk, OnErr, IfOk, IsErrOf};
ghost use Rattle.spec_base.specs.Faults.{StaysSound};
ghost use Rattle.spec_base.specs.Crash.{Only, LeavesOnly};
ghost use Rattle.spec_base.specs.declared.stop.Stop.TheVariants.{Failed};
ghost use Rattle.gate_vault.specs.File.{payload, gate_after, StandsFor, StandsWithGate, IsBeforeOrAfter};
ghost use Rattle.gate_vault.specs.Put.{FailedTwice, TriesEach, TellsBeforeOrAfter};
ghost use Rattle.gate_vault.specs.inside.Writes.{KeepsClosed};

use crate::put::put;
use quota_table::{Bytes, OutOfMemory};
use spec_base::{Disk, Stop};
use std::alloc::Global;

/// An entry's length in two bytes, its bytes, and a closed gate.
pub fn payload_of(alloc: Global, entry: &[u8]) -> Result<Bytes, OutOfMemory>
    requires { length entry.now ≤ 4096 }
    ensures { IfOk result (λ bytes. bytes ≡ payload entry.now ++ 0 ∷ []) }
{
    let mut bytes = Bytes::new(alloc);
    bytes.push((entry.len() / 256) as u8)?;
    bytes.push((entry.len() % 256) as u8)?;
    bytes.extend_from_slice(entry)?;
    bytes.push(0)?;
    Ok(bytes)
}

/// Where the gate behind an entry stands; no memory where a file can't be so long.
pub fn gate_behind(gate: u64, len: usize) -> Result<u64, OutOfMemory>
    ensures { IfOk result (λ next. next ≡ gate + 3 + len) }
{
    let size = (len as u64).checked_add(3).ok_or(OutOfMemory)?;
    gate.checked_add(size).ok_or(OutOfMemory)
}

/// Writes the payload and the closed gate behind it, syncs, opens the gate, and syncs.
pub fn write_frame<D: Disk>(disk: &mut D, gate: u64, bytes: &[u8]) -> Result<(), Stop>
    requires { gate < 2 ^ 64 - 1 }
    ensures acknowledged { (entries : List (List ℕ)) (entry file : List ℕ) → gate ≡ gate_after entries → bytes.now ≡ payload entry ++ 0 ∷ []
        → D.seen disk.old ≡ Some file → StandsFor file entries
        → OnOk result (KeepsClosed (D.seen disk.new) (D.may_leave disk.new) (entries ++ entry ∷ [])) }
    ensures failed { (entries : List (List ℕ)) (entry file : List ℕ) → gate ≡ gate_after entries → bytes.now ≡ payload entry ++ 0 ∷ []
        → D.seen disk.old ≡ Some file → StandsWithGate file entries
        → OnErr result (TellsBeforeOrAfter (D.seen disk.new) entries entry) }
    ensures any_moment { (entries : List (List ℕ)) (entry file : List ℕ) → gate ≡ gate_after entries → bytes.now ≡ payload entry ++ 0 ∷ []
        → D.seen disk.old ≡ Some file → Only file (D.may_leave disk.old) → StandsWithGate file entries
        → LeavesOnly D.moment D.left_since disk.old disk.new (IsBeforeOrAfter entries entry) }
    ensures fault { IsErrOf result Failed → FailedTwice (D.faults disk.old) (D.faults disk.new) (D.in_a_row disk.new) }
    ensures tries { TriesEach 4 (D.faults disk.old) (D.faults disk.new) result }
    ensures no_fall { D.faults disk.old ≤ D.faults disk.new }
    ensures sound { StaysSound (D.never_fails disk.old) (D.never_fails disk.new) (D.faults disk.old) (D.faults disk.new) }
{
    put(disk, gate + 1, bytes)?;
    // The payload and the closed gate behind it are on the disk before the gate before them opens.
    put(disk, gate, &[1])
}
