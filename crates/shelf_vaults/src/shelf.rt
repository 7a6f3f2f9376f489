ghost use Rattle.std.specs.Prelude.{◌≡◌, ◌≤◌, ◌<◌, false, true, [], length, IfOk, IfErr, OnOk, OnErr, IsErrOf, IsTrue, List, ℕ, map, vec_len, vec_capacity};
ghost use Rattle.std.specs.List.{AllByRecursion};
ghost use Rattle.spec_base.specs.Shelf.{SameBut, GivesKept};
ghost use Rattle.spec_base.specs.Spelling.{IsValidNode, node_name};
ghost use Rattle.spec_base.specs.declared.stop.Stop.TheVariants.{Failed};
ghost use Rattle.gate_vault.specs.Put.{FailedTwice};
ghost use Rattle.gate_vault.specs.Vault.{KeepsWithGate, disk_of};
ghost use Rattle.shelf_vaults.specs.Sights.{sight, TellsBytes, IsOutAs, IsBackAs, EachWith, AreOn, AreOut, AllTell, BreaksOff, IsFaultAmong, IsFaultOf};
ghost use Rattle.shelf_vaults.specs.Sights.{IsNoFall, IsNameOfNone, HaveOwnNames};

use crate::errors::ShelfError;
use gate_vault::{Vault, VaultError};
use quota_table::OutOfMemory;
use spec_base::{Disk, NodeId, NodeName, Shelf, Stop, spell};
use std::alloc::Global;

/// The name of a node as text.
fn name_of(name: &NodeName) -> &str
    requires { (node : _) × IsValidNode node × (name.now ≡ node_name node) }
    ensures { result.now ≡ name.now }
{
    let Ok(text) = str::from_utf8(name.as_slice()) else {
        unreachable!()
    };
    text
}

/// The disk of a name; the call is made once more where it fails.
fn lend<H: Shelf>(shelf: &mut H, name: &str) -> Result<H::D, Stop>
    requires { H.is_out shelf.old name.now ≡ false }
    ensures others { SameBut name.now (sight H.faults H.in_a_row H.is_out H.given H.kept shelf.old)
        (sight H.faults H.in_a_row H.is_out H.given H.kept shelf.new) }
    ensures tells { H.tells shelf.new ≡ H.tells shelf.old }
    ensures out { OnOk result (H.is_out shelf.new name.now ≡ true) }
    ensures gives { IfOk result (λ disk. IsTrue (H.tells shelf.old) → GivesKept H.D.seen H.D.may_leave (H.kept shelf.old name.now) disk) }
    ensures given { IfOk result (λ disk. H.given shelf.new name.now ≡ H.D.faults disk) }
    ensures no_fall { H.faults shelf.old name.now ≤ H.faults shelf.new name.now }
    ensures err { OnErr result ((H.is_out shelf.new name.now ≡ false) × (H.kept shelf.new name.now ≡ H.kept shelf.old name.now)) }
    ensures fault { IsErrOf result Failed → FailedTwice (H.faults shelf.old name.now) (H.faults shelf.new name.now) (H.in_a_row shelf.new name.now) }
{
    match shelf.disk(name) {
        Ok(disk) => Ok(disk),
        Err(Stop::Failed) => shelf.disk(name),
        Err(Stop::OutOfMemory) => Err(Stop::OutOfMemory),
    }
}

/// An empty vault on the disk of a node; at an error its disk lies on the shelf again.
fn format_one<H: Shelf>(
    alloc: Global,
    shelf: &mut H,
    node: NodeId,
) -> Result<Vault<H::D>, ShelfError>
    requires node { IsValidNode node }
    requires tells { IsTrue (H.tells shelf.old) }
    requires on_shelf { H.is_out shelf.old (node_name node) ≡ false }
    ensures others { SameBut (node_name node) (sight H.faults H.in_a_row H.is_out H.given H.kept shelf.old)
        (sight H.faults H.in_a_row H.is_out H.given H.kept shelf.new) }
    ensures tells { H.tells shelf.new ≡ H.tells shelf.old }
    ensures out { IfOk result (IsOutAs H.D.faults (sight H.faults H.in_a_row H.is_out H.given H.kept shelf.old (node_name node))
        (sight H.faults H.in_a_row H.is_out H.given H.kept shelf.new (node_name node))) }
    ensures empty { TellsBytes H.D.seen (H.kept shelf.old (node_name node)) → IfOk result (λ vault. KeepsWithGate H.D.seen H.D.may_leave vault []) }
    ensures no_fall { IsNoFall (H.faults shelf.old (node_name node)) (H.faults shelf.new (node_name node)) }
    ensures back { OnErr result (H.is_out shelf.new (node_name node) ≡ false) }
    ensures fault { IfErr result (IsFaultOf H.D.faults node (sight H.faults H.in_a_row H.is_out H.given H.kept shelf.old (node_name node))
        (sight H.faults H.in_a_row H.is_out H.given H.kept shelf.new (node_name node))) }
{
    let spelled = spell(node);
    let name = name_of(&spelled);
    let disk = match lend(shelf, name) {
        Ok(disk) => disk,
        Err(Stop::Failed) => return Err(ShelfError::Fault { name: node }),
        Err(Stop::OutOfMemory) => return Err(ShelfError::OutOfMemory),
    };
    match Vault::format(alloc, disk) {
        Ok(vault) => Ok(vault),
        Err((disk, error)) => {
            shelf.back(name, disk);
            match error {
                VaultError::DiskFault => Err(ShelfError::Fault { name: node }),
                _ => Err(ShelfError::OutOfMemory),
            }
        }
    }
}

/// The disks of so many nodes lie on the shelf again, each at its node's name. It takes no memory.
pub fn give_back<H: Shelf>(shelf: &mut H, nodes: &[NodeId], disks: Vec<H::D>)
    requires valid { AllByRecursion IsValidNode nodes.now }
    requires names { HaveOwnNames nodes.now }
    requires each { length nodes.now ≡ length disks.items }
    requires tells { IsTrue (H.tells shelf.old) }
    requires out { AreOut (sight H.faults H.in_a_row H.is_out H.given H.kept shelf.old) nodes.now }
    ensures others { (name : List ℕ) → IsNameOfNone nodes.now name → sight H.faults H.in_a_row H.is_out H.given H.kept shelf.new name
        ≡ sight H.faults H.in_a_row H.is_out H.given H.kept shelf.old name }
    ensures tells { H.tells shelf.new ≡ H.tells shelf.old }
    ensures back { EachWith (IsBackAs H.D.faults H.D.in_a_row)
        (sight H.faults H.in_a_row H.is_out H.given H.kept shelf.old)
        (sight H.faults H.in_a_row H.is_out H.given H.kept shelf.new) nodes.now disks.items }
{
    let mut disks = disks;
    while let Some(disk) = disks.pop() {
        let node = nodes[disks.len()];
        let spelled = spell(node);
        shelf.back(name_of(&spelled), disk);
    }
}

/// The disks of vaults, in their order, in room that is there.
pub(crate) fn disks_of<D: Disk + Drop>(vaults: Vec<Vault<D>>, room: Vec<D>) -> Vec<D>
    requires none { room.items ≡ [] }
    requires room { vec_len vaults ≤ vec_capacity room }
    ensures { result.items ≡ map disk_of vaults.items }
{
    let mut disks = room;
    for vault in vaults {
        disks.push_reserved(vault.into_disk());
    }
    disks
}

/// An empty vault for each node, on the disk of its name, in their order. At an error all their disks lie on the shelf.
///
/// It ends at the first disk that can't be had or written. Each call is made once more where it fails.
pub fn format_all<H: Shelf>(
    alloc: Global,
    shelf: &mut H,
    nodes: &[NodeId],
) -> Result<Vec<Vault<H::D>>, ShelfError>
    requires valid { AllByRecursion IsValidNode nodes.now }
    requires names { HaveOwnNames nodes.now }
    requires tells { IsTrue (H.tells shelf.old) }
    requires on_shelf { AreOn (sight H.faults H.in_a_row H.is_out H.given H.kept shelf.old) nodes.now }
    requires told { AllTell H.D.seen (sight H.faults H.in_a_row H.is_out H.given H.kept shelf.old) nodes.now }
    ensures others { (name : List ℕ) → IsNameOfNone nodes.now name → sight H.faults H.in_a_row H.is_out H.given H.kept shelf.new name
        ≡ sight H.faults H.in_a_row H.is_out H.given H.kept shelf.old name }
    ensures tells { H.tells shelf.new ≡ H.tells shelf.old }
    ensures out { IfOk result (λ vaults. EachWith (IsOutAs H.D.faults) (sight H.faults H.in_a_row H.is_out H.given H.kept shelf.old)
        (sight H.faults H.in_a_row H.is_out H.given H.kept shelf.new) nodes.now vaults.items) }
    ensures empty { IfOk result (λ vaults. AllByRecursion (λ vault. KeepsWithGate H.D.seen H.D.may_leave vault []) vaults.items) }
    ensures back { OnErr result (AreOn (sight H.faults H.in_a_row H.is_out H.given H.kept shelf.new) nodes.now) }
    ensures breaks_off { OnErr result (BreaksOff H.D.seen nodes.now (sight H.faults H.in_a_row H.is_out H.given H.kept shelf.old)
        (sight H.faults H.in_a_row H.is_out H.given H.kept shelf.new)) }
    ensures fault { IfErr result (IsFaultAmong H.D.faults nodes.now (sight H.faults H.in_a_row H.is_out H.given H.kept shelf.old)
        (sight H.faults H.in_a_row H.is_out H.given H.kept shelf.new)) }
{
    let mut vaults = room(alloc, nodes.len())?;
    let disks = room(alloc, nodes.len())?;
    for node in nodes {
        match format_one(alloc, shelf, *node) {
            Ok(vault) => vaults.push_reserved(vault),
            Err(error) => {
                let made = vaults.len();
                give_back(shelf, &nodes[..made], disks_of(vaults, disks));
                return Err(error);
            }
        }
    }
    Ok(vaults)
}

/// Room for so many.
fn room<T>(alloc: Global, count: usize) -> Result<Vec<T>, OutOfMemory>
    ensures none { IfOk result (λ list. list.items ≡ []) }
    ensures room { IfOk result (λ list. vec_capacity list ≡ count) }
{
    Ok(Vec::with_capacity(alloc, count)?)
}
