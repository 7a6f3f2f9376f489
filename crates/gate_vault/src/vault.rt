ghost use Rattle.std.specs.Prelude.{◌≡◌, ◌≤◌, ◌++◌, ◌∷◌, [], List, ℕ, Some, length, false, MatchOption, OnOk, OnErr, IfOk, IfErr, IsErrOf, Err};
ghost use Rattle.spec_base.specs.Faults.{StaysSound};
ghost use Rattle.spec_base.specs.Crash.{Only, NoneNew, Elapses, LeavesOnly};
ghost use Rattle.spec_base.specs.Disk.{Torn};
ghost use Rattle.gate_vault.specs.declared.errors.VaultError.TheVariants.{DiskFault};
ghost use Rattle.gate_vault.specs.File.{IsBeforeOrAfter, StandsFor, StandsWithGate};
ghost use Rattle.gate_vault.specs.Stops.{IsStop, IsLoadError, IsOfFile, RefusesFile};
ghost use Rattle.gate_vault.specs.Put.{FailedTwice, TriesEach, IsTornPut, TellsBeforeOrAfter, TellsClosed};

use crate::errors::VaultError;
use crate::frame::{gate_behind, payload_of, write_frame};
use crate::load::{Entries, read_file};
use crate::put::put;
use spec_base::Disk;
use std::alloc::Global;

/// The most bytes of an entry.
pub const MOST_BYTES: usize = 4096;

/// A file of entries on a disk. An entry has at most 4,096 bytes.
#[derive(Drop)]
pub struct Vault<D> {
    alloc: Global,
    disk: D,
    /// Where the last gate stands, which is closed: before it are the head and the frames.
    gate: u64,
    /// An append had a disk fault or no memory.
    broken: bool,
}

impl<D: Disk> Vault<D> {
    ghost use Rattle.gate_vault.specs.Vault.{Keeps, KeepsWithGate, disk_of, is_broken, formatted_disk, loaded_disk, refusal_of, broken_after};

    /// Writes an empty vault. At Ok every crash leaves the empty list.
    ///
    /// A fault of the disk is DiskFault, where it failed twice one after the other. At an error the disk comes back, with
    /// its first nine bytes and what lies past its old end torn.
    pub fn format(alloc: Global, mut disk: D) -> Result<Vault<D>, (D, VaultError)>
        ensures empty { (file : List ℕ) → D.seen disk ≡ Some file → IfOk result (λ vault. KeepsWithGate D.seen D.may_leave vault []) }
        ensures closed { (file : List ℕ) → D.seen disk ≡ Some file → IfOk result (λ vault. TellsClosed (D.seen (disk_of vault)) []) }
        ensures whole { IfOk result (λ vault. is_broken vault ≡ false) }
        ensures named { IfErr result (λ e. IsStop e.1) }
        ensures torn { (file : List ℕ) → D.seen disk ≡ Some file → IfErr result (λ e. IsTornPut 0 9 file (D.seen e.0)) }
        ensures any_moment { (file : List ℕ) → Only file (D.may_leave disk)
            → LeavesOnly D.moment D.left_since disk (formatted_disk result) (Torn 0 9 file) }
        ensures fault { IfErr result (λ e. e.1 ≡ DiskFault → FailedTwice (D.faults disk) (D.faults e.0) (D.in_a_row e.0)) }
        ensures tries { TriesEach 2 (D.faults disk) (D.faults (formatted_disk result)) result }
        ensures no_fall { D.faults disk ≤ D.faults (formatted_disk result) }
        ensures sound { StaysSound (D.never_fails disk) (D.never_fails (formatted_disk result)) (D.faults disk) (D.faults (formatted_disk result)) }
    {
        match put(&mut disk, 0, b"BELVAULT\0") {
            Ok(()) => Ok(Vault {
                alloc,
                disk,
                gate: 8,
                broken: false,
            }),
            Err(stop) => Err((disk, VaultError::from(stop))),
        }
    }

    /// Syncs, and gives the entries that the file stands for, each of at most 4,096 bytes; every later crash leaves
    /// them. A read of the disk gives what it gave, also at an error, with which the disk comes back.
    ///
    /// A file that stands for no such entries is refused: by NotAVault where it does not begin with the head, and else
    /// by Damaged at its first open gate with no frame behind it.
    pub fn load(alloc: Global, mut disk: D) -> Result<(Vault<D>, Entries), (D, VaultError)>
        ensures loaded { (file : List ℕ) → D.seen disk ≡ Some file
            → IfOk result (λ loaded. StandsFor file loaded.1 × Keeps D.seen D.may_leave loaded.0 loaded.1) }
        ensures with_gate { (file : List ℕ) (entries : List (List ℕ)) → D.seen disk ≡ Some file → StandsWithGate file entries
            → IfOk result (λ loaded. (loaded.1 ≡ entries) × KeepsWithGate D.seen D.may_leave loaded.0 entries) }
        ensures refused { (file : List ℕ) → D.seen disk ≡ Some file → IfErr result (λ e. RefusesFile file e.1) }
        ensures synced { (file : List ℕ) → D.seen disk ≡ Some file → IfErr result (λ e. IsOfFile e.1 → Only file (D.may_leave e.0)) }
        ensures named { IfErr result (λ e. IsLoadError e.1) }
        ensures same { D.seen (loaded_disk result) ≡ D.seen disk }
        ensures none_new { NoneNew (D.may_leave disk) (D.may_leave (loaded_disk result)) }
        ensures time { Elapses (D.moment disk) (D.moment (loaded_disk result)) (D.left_since disk) (D.left_since (loaded_disk result)) (D.may_leave disk) }
        ensures whole { IfOk result (λ loaded. is_broken loaded.0 ≡ false) }
        ensures fault { IfErr result (λ e. e.1 ≡ DiskFault → FailedTwice (D.faults disk) (D.faults e.0) (D.in_a_row e.0)) }
        ensures no_fall { D.faults disk ≤ D.faults (loaded_disk result) }
        ensures sound { StaysSound (D.never_fails disk) (D.never_fails (loaded_disk result)) (D.faults disk) (D.faults (loaded_disk result)) }
    {
        match read_file(alloc, &mut disk) {
            Ok((entries, gate)) => Ok((
                Vault {
                    alloc,
                    disk,
                    gate,
                    broken: false,
                },
                entries,
            )),
            Err(error) => Err((disk, error)),
        }
    }

    /// Adds an entry. At Ok it is acknowledged: from then on every crash leaves it, behind those from before.
    ///
    /// Where the byte of the last gate stands in the file, a crash at any moment of the call leaves the entries from
    /// before it, with this one or without, and again such a byte; and so it is after DiskFault and OutOfMemory, which
    /// break the vault: load the file again, which tells. That byte stands there after a format and after an append that
    /// answered Ok, and after a load of a file that has it; nothing is promised of a crash within an append to a file
    /// that ends where its last gate belongs. Broken and TooLong change nothing.
    pub fn append(&mut self, entry: &[u8]) -> Result<(), VaultError>
        ensures refused { MatchOption (refusal_of (is_broken self.old) (length entry.now)) (IfErr result IsStop)
            (λ e. (result ≡ Err e) × (self.new ≡ self.old)) }
        ensures acknowledged { (entries : List (List ℕ)) → Keeps D.seen D.may_leave self.old entries
            → OnOk result (KeepsWithGate D.seen D.may_leave self.new (entries ++ entry.now ∷ [])) }
        ensures closed { (entries : List (List ℕ)) → Keeps D.seen D.may_leave self.old entries
            → OnOk result (TellsClosed (D.seen (disk_of self.new)) (entries ++ entry.now ∷ [])) }
        ensures any_moment { (entries : List (List ℕ)) → KeepsWithGate D.seen D.may_leave self.old entries
            → LeavesOnly D.moment D.left_since (disk_of self.old) (disk_of self.new) (IsBeforeOrAfter entries entry.now) }
        ensures failed { (entries : List (List ℕ)) → KeepsWithGate D.seen D.may_leave self.old entries
            → OnErr result (TellsBeforeOrAfter (D.seen (disk_of self.new)) entries entry.now) }
        ensures broken { is_broken self.new ≡ broken_after (is_broken self.old) result }
        ensures fault { IsErrOf result DiskFault → FailedTwice (D.faults (disk_of self.old)) (D.faults (disk_of self.new)) (D.in_a_row (disk_of self.new)) }
        ensures tries { TriesEach 4 (D.faults (disk_of self.old)) (D.faults (disk_of self.new)) result }
        ensures no_fall { D.faults (disk_of self.old) ≤ D.faults (disk_of self.new) }
        ensures sound { StaysSound (D.never_fails (disk_of self.old)) (D.never_fails (disk_of self.new)) (D.faults (disk_of self.old)) (D.faults (disk_of self.new)) }
    {
        if self.broken {
            return Err(VaultError::Broken);
        }
        if entry.len() > MOST_BYTES {
            return Err(VaultError::TooLong { len: entry.len() });
        }
        self.broken = true;
        let bytes = payload_of(self.alloc, entry)?;
        let next = gate_behind(self.gate, entry.len())?;
        write_frame(&mut self.disk, self.gate, bytes.as_slice())?;
        self.gate = next;
        self.broken = false;
        Ok(())
    }

    /// The disk, as it is. It takes no memory.
    pub fn into_disk(self) -> D
        ensures { result ≡ disk_of self }
    {
        let Vault {
            alloc: _,
            disk,
            gate: _,
            broken: _,
        } = self;
        disk
    }
}
