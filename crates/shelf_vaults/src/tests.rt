//! Vaults on a shelf in memory, of which disks fail.

ghost use Rattle.std.specs.Prelude.{◌≡◌, ℕ, List, Some, None, false, IfOk, OnOk, codes};
ghost use Rattle.spec_base.specs.MemShelf.{is_out_of, kept_of};

use crate::shelf::disks_of;
use crate::{ShelfError, format_all, give_back};
use quota_table::Bytes;
use spec_base::{Disk, DiskFail, MemShelf, NodeId, Shelf, Side};
use std::alloc::Global;
use std::fmt::Write;
use std::test::Fail;

/// A replica's pair and a consumer.
const NODES: [NodeId; 3] = [
    NodeId::Shard(0, Side::Primary),
    NodeId::Shard(0, Side::Backup),
    NodeId::Consumer(0),
];

/// A new shelf, on which the backup's disk fails at some calls.
fn shelf(alloc: Global, calls: &[u64]) -> Result<MemShelf, Fail>
    ensures kept { IfOk result (λ shelf. (name : List ℕ) → kept_of shelf name ≡ None) }
    ensures out { IfOk result (λ shelf. (name : List ℕ) → is_out_of shelf name ≡ false) }
{
    let mut fails = Vec::new(alloc);
    for call in calls {
        let name = Bytes::from_slice(alloc, b"s0b")?;
        fails.push(DiskFail { name, call: *call })?;
    }
    Ok(MemShelf::new(alloc, fails.as_slice())?)
}

/// Makes the vaults and gives them back, and says what failed.
fn made_and_back(alloc: Global, shelf: &mut MemShelf, text: &mut String) -> Result<(), Fail>
    requires kept { (name : List ℕ) → kept_of shelf.old name ≡ None }
    requires out { (name : List ℕ) → is_out_of shelf.old name ≡ false }
    ensures primary { OnOk result (is_out_of shelf.new (codes "s0p") ≡ false) }
    ensures backup { OnOk result (is_out_of shelf.new (codes "s0b") ≡ false) }
    ensures consumer { OnOk result (is_out_of shelf.new (codes "k0") ≡ false) }
{
    match format_all(alloc, shelf, &NODES) {
        Ok(vaults) => {
            let count = vaults.len();
            let room = Vec::with_capacity(alloc, count)?;
            give_back(shelf, &NODES, disks_of(vaults, room));
            write!(text, "{count} vaults")?;
        }
        Err(ShelfError::Fault { name }) => write!(text, "{name:?} failed")?,
        Err(ShelfError::OutOfMemory) => write!(text, "no memory")?,
    }
    Ok(())
}

/// The length of the file at a name.
fn length_at(shelf: &mut MemShelf, name: &str) -> Result<usize, Fail>
    requires on_shelf { is_out_of shelf.old name.now ≡ false }
    ensures out { OnOk result ((other : List ℕ) → is_out_of shelf.old other ≡ false → is_out_of shelf.new other ≡ false) }
{
    let mut disk = shelf.disk(name)?;
    let mut file = [0; 16];
    let count = disk.read(0, &mut file);
    shelf.back(name, disk);
    Ok(count?)
}

/// What failed, and the length of the file at each name.
fn made(alloc: Global, calls: &[u64]) -> Result<String, Fail> {
    let mut shelf = shelf(alloc, calls)?;
    let mut text = String::new(alloc);
    made_and_back(alloc, &mut shelf, &mut text)?;
    let primary = length_at(&mut shelf, "s0p")?;
    let backup = length_at(&mut shelf, "s0b")?;
    let consumer = length_at(&mut shelf, "k0")?;
    write!(text, ", s0p {primary}, s0b {backup}, k0 {consumer}")?;
    Ok(text)
}

/// The calls of the backup's disk that fail, and what is made then: one call that fails is made again.
const ROWS: [(&[u64], &str); 3] = [
    (&[], "3 vaults, s0p 9, s0b 9, k0 9"),
    (&[0, 2], "3 vaults, s0p 9, s0b 9, k0 9"),
    (&[0, 1], "Shard(0, Backup) failed, s0p 9, s0b 0, k0 0"),
];

#[test]
fn vaults_on_a_shelf_whose_disks_fail(rt: HostRuntime) -> Result<(), Fail> {
    for (calls, wanted) in ROWS {
        assert_eq!(rt; made(rt.alloc(), calls)?.as_str(), wanted);
    }
    Ok(())
}
