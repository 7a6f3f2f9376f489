ghost use Rattle.std.specs.Prelude.{◌≡◌, ◌≢◌, ◌+◌, ◌-◌, ◌^◌, ℕ, List, Some, None, min, true, false, MatchOption, OnOk, OnErr, IfOk, IfErr, IfSome, IsSome, is_none, []};
ghost use Rattle.spec_base.specs.Faults.{CountsFault};
ghost use Rattle.spec_base.specs.Disk.{CountsRow};
ghost use Rattle.spec_base.specs.Plan.{fresh_plan};
ghost use Rattle.spec_base.specs.Shelf.{SameBut};
ghost use Rattle.spec_base.specs.declared.stop.Stop.TheVariants.{OutOfMemory as NoMemory};
ghost use Rattle.spec_base.specs.MemDisk.{failures_in_a_row};
ghost use Rattle.spec_base.specs.MemShelf.{calls_for};

use crate::disk::Disk;
use crate::mem_disk::MemDisk;
use crate::shelf::Shelf;
use crate::stop::Stop;
use quota_table::{Bytes, OutOfMemory};
use std::alloc::{AllocError, Global};
use std::collections::BTreeMap;

/// A call of a disk on a shelf in memory that is to fail.
#[derive(Clone, Debug, Drop, PartialEq)]
pub struct DiskFail {
    /// The disk's name.
    pub name: Bytes,
    /// The number of the call, from 0, over that disk's calls.
    pub call: u64,
}

/// What the shelf keeps of a name that was asked for.
#[derive(Debug, Drop)]
pub struct Slot {
    /// The disk; None while it is out.
    disk: Option<MemDisk>,
    /// How often it has failed, as far as it has come back.
    faults: u64,
    /// How many of its last calls failed one after the other, as far as it has come back.
    row: u8,
    /// The count of faults with which it was last given.
    given: u64,
}

/// A shelf of disks in memory. Its `disk` never fails but for want of memory.
#[derive(Drop)]
pub struct MemShelf {
    alloc: Global,
    fails: Vec<DiskFail>,
    slots: BTreeMap<String, Slot>,
}

impl MemShelf {
    ghost use Rattle.spec_base.specs.MemShelf.{faults_of, failures_of, is_out_of, kept_of, fails_of, calls_for};

    /// A shelf on which no name has a disk yet. The disk of a name will fail at the calls that `fails` has for it.
    pub fn new(alloc: Global, fails: &[DiskFail]) -> Result<MemShelf, OutOfMemory>
        ensures fails { IfOk result (λ shelf. fails_of shelf ≡ fails.now) }
        ensures nothing_kept { IfOk result (λ shelf. (name : List ℕ) → kept_of shelf name ≡ None) }
        ensures none_out { IfOk result (λ shelf. (name : List ℕ) → is_out_of shelf name ≡ false) }
        ensures faults { IfOk result (λ shelf. (name : List ℕ) → faults_of shelf name ≡ 0) }
        ensures rows { IfOk result (λ shelf. (name : List ℕ) → failures_of shelf name ≡ 0) }
    {
        let mut kept = Vec::with_capacity(alloc, fails.len())?;
        for fail in fails {
            kept.push(fail.clone()?)?;
        }
        Ok(MemShelf {
            alloc,
            fails: kept,
            slots: BTreeMap::new(alloc),
        })
    }

    /// An empty disk for a name.
    fn fresh_disk(&self, name: &str) -> Result<MemDisk, OutOfMemory>
        ensures { IfOk result (λ disk. disk ≡ record { calls = []; plan = fresh_plan (calls_for (fails_of self.now) name.now); row = 0 }) }
    {
        let calls = calls_of(self.alloc, &self.fails, name.as_bytes())?;
        MemDisk::new(self.alloc, &calls)
    }
}

/// The numbers of the calls that fail for a name.
fn calls_of(alloc: Global, fails: &[DiskFail], name: &[u8]) -> Result<Vec<u64>, AllocError>
    ensures { IfOk result (λ calls. calls.items ≡ calls_for fails.now name.now) }
{
    let mut calls = Vec::new(alloc);
    for fail in fails {
        if fail.name.as_slice() == name {
            calls.push(fail.call)?;
        }
    }
    Ok(calls)
}

impl Slot {
    /// Gives the disk, which is there.
    fn give(&mut self) -> MemDisk
        requires { IsSome self.old.disk }
        ensures disk { self.old.disk ≡ Some result }
        ensures slot { self.new ≡ record { disk = None; faults = self.old.faults; row = 0; given = result.plan.faults } }
    {
        let Some(disk) = self.disk.take() else {
            unreachable!()
        };
        self.row = 0;
        self.given = disk.fault_count();
        disk
    }

    /// Takes the disk back.
    fn take_back(&mut self, disk: MemDisk)
        ensures { self.new ≡ record {
          disk = Some disk;
          faults = min (self.old.faults + (disk.plan.faults - self.old.given)) (2 ^ 64 - 1);
          row = disk.row;
          given = self.old.given;
        } }
    {
        let more = disk.fault_count().saturating_sub(self.given);
        self.faults = self.faults.saturating_add(more);
        self.row = disk.failures_in_a_row();
        self.disk = Some(disk);
    }
}

impl Shelf for MemShelf {
    type D = MemDisk;

    ghost use Rattle.spec_base.specs.MemShelf.{faults_of, told_row, failures_of, given_of, is_out_of, kept_of, fails_of, calls_for};
    ghost use Rattle.spec_base.specs.inside.MemDiskLaws.{at_most_two};

    ghost faults = { faults_of };

    ghost is_out = { is_out_of };

    ghost given = { given_of };

    ghost in_a_row = { failures_of };

    ghost tells = { λ _. true };

    ghost kept = { kept_of };

    ghost two_in_a_row = { λ shelf name. at_most_two (told_row shelf name) };

    /// It never answers Failed. A new disk is to fail at the calls that the shelf has for its name.
    #[tactic(auto, using(std::proofs::lemmas::Map::Text::text_keys))]
    fn disk(&mut self, name: &str) -> Result<MemDisk, Stop>
        requires { is_out_of self.old name.now ≡ false }
        ensures only_memory { IfErr result (λ stop. stop ≡ NoMemory) }
        ensures fails { fails_of self.new ≡ fails_of self.old }
        ensures disk { IfOk result (λ disk. MatchOption (kept_of self.old name.now)
            (disk ≡ record { calls = []; plan = fresh_plan (calls_for (fails_of self.old) name.now); row = 0 })
            (λ kept. disk ≡ kept)) }
        ensures out { OnOk result (is_out_of self.new name.now ≡ true) }
        ensures given { IfOk result (λ disk. given_of self.new name.now ≡ disk.plan.faults) }
        ensures err_out { OnErr result (is_out_of self.new name.now ≡ false) }
        ensures err_kept { OnErr result (kept_of self.new name.now ≡ kept_of self.old name.now) }
        ensures count { CountsFault (faults_of self.old name.now) (faults_of self.new name.now) result }
        ensures row { CountsRow (failures_of self.old name.now) (failures_of self.new name.now) result }
        ensures other_faults { SameBut name.now (faults_of self.old) (faults_of self.new) }
        ensures other_rows { SameBut name.now (failures_of self.old) (failures_of self.new) }
        ensures other_out { SameBut name.now (is_out_of self.old) (is_out_of self.new) }
        ensures other_given { SameBut name.now (given_of self.old) (given_of self.new) }
        ensures other_kept { SameBut name.now (kept_of self.old) (kept_of self.new) }
    {
        if let Some(slot) = self.slots.get_mut(name) {
            return Ok(slot.give());
        }
        let disk = self.fresh_disk(name)?;
        let slot = Slot {
            disk: None,
            faults: 0,
            row: 0,
            given: disk.fault_count(),
        };
        self.slots
            .insert(String::from_str(self.alloc, name)?, slot)?;
        Ok(disk)
    }

    #[tactic(auto, using(std::proofs::lemmas::Map::Text::text_keys))]
    fn back(&mut self, name: &str, disk: MemDisk)
        requires { is_out_of self.old name.now ≡ true }
        ensures fails { fails_of self.new ≡ fails_of self.old }
        ensures on_shelf { is_out_of self.new name.now ≡ false }
        ensures kept { kept_of self.new name.now ≡ Some disk }
        ensures count { faults_of self.new name.now ≡ min (faults_of self.old name.now + (disk.plan.faults - given_of self.old name.now)) (2 ^ 64 - 1) }
        ensures row { failures_of self.new name.now ≡ failures_in_a_row disk }
        ensures other_faults { SameBut name.now (faults_of self.old) (faults_of self.new) }
        ensures other_rows { SameBut name.now (failures_of self.old) (failures_of self.new) }
        ensures other_out { SameBut name.now (is_out_of self.old) (is_out_of self.new) }
        ensures other_given { SameBut name.now (given_of self.old) (given_of self.new) }
        ensures other_kept { SameBut name.now (kept_of self.old) (kept_of self.new) }
    {
        let Some(slot) = self.slots.get_mut(name) else {
            unreachable!()
        };
        slot.take_back(disk);
    }
}
