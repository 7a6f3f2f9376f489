//! What a node keeps on its disk.

ghost use Rattle.std.specs.Prelude.{◌≡◌, ◌++◌, ◌≤◌, ◌∷◌, [], List, Err, map, IfOk, OnOk, OnErr, IsErrOf};
ghost use Rattle.gate_vault.specs.Put.{FailedTwice};
ghost use Rattle.msg_wire.specs.Valid.{AreValidItems};
ghost use Rattle.node_actor.specs.declared.stopped.Stopped.TheVariants.{Disk as DiskStopped, Memory as NoMemory};
ghost use Rattle.msg_wire.specs.Items.{items_spelling};
ghost use Rattle.node_actor.specs.Chunks.{Chunks, chunk_of, all_items};
ghost use Rattle.node_actor.specs.Stores.{disk_in, AreEntries, KeepsChunks, TellsItems};

use crate::stopped::Stopped;
use gate_vault::Vault;
use msg_wire::{Item, Items, decode_items, encode_items};
use quota_table::Bytes;
use spec_base::Disk;
use std::alloc::Global;

/// Where a node stores: its vault, or its disk alone where the vault could not be loaded.
#[derive(Drop)]
pub enum Store<D> {
    Open(Vault<D>),
    Shut(D),
}

impl<D: Disk + Drop> Store<D> {
    /// The disk, as it is.
    pub fn into_disk(self) -> D
        ensures { result ≡ disk_in self }
    {
        match self {
            Store::Open(vault) => vault.into_disk(),
            Store::Shut(disk) => disk,
        }
    }
}

/// Reads a store's vault anew, and gives all items of its entries. At an error the disk is kept.
pub fn reload<D: Disk + Drop>(alloc: Global, store: Store<D>) -> (Store<D>, Result<Items, Stopped>)
    ensures ok { (chunks : Chunks) → KeepsChunks ⟦<D as Disk>⟧ store chunks → IfOk result.1 (λ items. (items ≡ all_items chunks) × KeepsChunks ⟦<D as Disk>⟧ result.0 chunks) }
    ensures valid { IfOk result.1 AreValidItems }
    ensures tells { (chunks : Chunks) → KeepsChunks ⟦<D as Disk>⟧ store chunks → TellsItems (D.seen (disk_in result.0)) }
    ensures fault { IsErrOf result.1 DiskStopped → FailedTwice (D.faults (disk_in store)) (D.faults (disk_in result.0)) (D.in_a_row (disk_in result.0)) }
    ensures no_fall { D.faults (disk_in store) ≤ D.faults (disk_in result.0) }
{
    match Vault::load(alloc, store.into_disk()) {
        Ok((vault, entries)) => {
            let items = items_in(alloc, entries.as_slice());
            (Store::Open(vault), items)
        }
        Err((disk, error)) => (Store::Shut(disk), Err(Stopped::from(error))),
    }
}

/// All items of a vault's entries. Want of memory too where an entry spells no items, which no node's vault has.
fn items_in(alloc: Global, entries: &[Bytes]) -> Result<Items, Stopped>
    ensures ok { (chunks : Chunks) → AreEntries chunks → entries.now ≡ map items_spelling chunks → IfOk result (λ items. items ≡ all_items chunks) }
    ensures valid { IfOk result AreValidItems }
    ensures memory { OnErr result (result ≡ Err NoMemory) }
{
    let mut all = Items::new(alloc);
    for entry in entries {
        let Ok(mut items) = decode_items(alloc, entry.as_slice()) else {
            return Err(Stopped::Memory);
        };
        all.append(&mut items)?;
    }
    Ok(all)
}

/// Stores the items of a step as one entry, where there are any. The entry is written into `room` first.
pub fn keep<D: Disk>(store: &mut Store<D>, room: &mut Bytes, items: &[Item]) -> Result<(), Stopped>
    requires { AreValidItems items.now }
    ensures ok { (chunks : Chunks) → KeepsChunks ⟦<D as Disk>⟧ store.old chunks → OnOk result (KeepsChunks ⟦<D as Disk>⟧ store.new (chunks ++ chunk_of items.now)) }
    ensures tells { (chunks : Chunks) → KeepsChunks ⟦<D as Disk>⟧ store.old chunks → TellsItems (D.seen (disk_in store.new)) }
    ensures fault { IsErrOf result DiskStopped → FailedTwice (D.faults (disk_in store.old)) (D.faults (disk_in store.new)) (D.in_a_row (disk_in store.new)) }
    ensures no_fall { D.faults (disk_in store.old) ≤ D.faults (disk_in store.new) }
{
    if items.is_empty() {
        return Ok(());
    }
    let Store::Open(vault) = store else {
        return Err(Stopped::Memory);
    };
    room.clear();
    encode_items(items, room)?;
    vault.append(room.as_slice())?;
    Ok(())
}
