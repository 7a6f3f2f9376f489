//! Runs on shelves in memory, of which a node's disk fails at some calls.

ghost use Rattle.std.specs.Prelude.{◌≡◌, ℕ, List, None, false, IfOk};
ghost use Rattle.msg_wire.specs.Valid.{IsValidPlan};
ghost use Rattle.spec_base.specs.MemShelf.{is_out_of, kept_of};

use crate::{RunError, RunRecord, run_cluster};
use cluster_users::Gate;
use gate_vault::{Entries, Vault};
use msg_wire::Plan;
use quota_table::Bytes;
use spec_base::{DiskFail, MemShelf, Shelf};
use std::alloc::Global;
use std::sync::Wait;
use std::test::Fail;
use std::thread::Threads;

/// A call of a disk that fails, by the node's name: 0 and 1 are those of the format, 2 to 5 those of the first append.
pub(super) type FailingCall = (&'static str, u64);

/// A new shelf, on which these calls fail.
pub(super) fn shelf_of(alloc: Global, fails: &[FailingCall]) -> Result<MemShelf, Fail>
    ensures kept { IfOk result (λ shelf. (name : List ℕ) → kept_of shelf name ≡ None) }
    ensures out { IfOk result (λ shelf. (name : List ℕ) → is_out_of shelf name ≡ false) }
{
    let mut all = Vec::new(alloc);
    for (name, call) in fails {
        let name = Bytes::from_slice(alloc, name.as_bytes())?;
        all.push(DiskFail { name, call: *call })?;
    }
    Ok(MemShelf::new(alloc, all.as_slice())?)
}

/// Runs a plan on a new shelf. All disks lie on the shelf again.
pub(super) fn run_on<R: Threads + Wait + Sync, G: Gate + Sync>(
    rt: &R,
    alloc: Global,
    plan: &Plan,
    shelf: &mut MemShelf,
    gate: &G,
) -> Result<RunRecord, RunError>
    requires valid { IsValidPlan plan.now }
    requires kept { (name : List ℕ) → kept_of shelf.old name ≡ None }
    requires out { (name : List ℕ) → is_out_of shelf.old name ≡ false }
    ensures { (name : List ℕ) → is_out_of shelf.new name ≡ false }
{
    run_cluster(rt, alloc, plan, shelf, gate)
}

/// The entries that the vault at a name keeps.
pub(super) fn entries_at(alloc: Global, shelf: &mut MemShelf, name: &str) -> Result<Entries, Fail>
    requires { (name : List ℕ) → is_out_of shelf.old name ≡ false }
{
    let disk = shelf.disk(name)?;
    match Vault::load(alloc, disk) {
        Ok((vault, entries)) => {
            shelf.back(name, vault.into_disk());
            Ok(entries)
        }
        Err((disk, error)) => {
            shelf.back(name, disk);
            Err(Fail::from(error))
        }
    }
}
