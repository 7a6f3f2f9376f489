ghost use Rattle.std.specs.Prelude.{◌≡◌, ◌<◌, ◌≤◌, ◌+◌, ◌∷◌, [], length, vec_len, vec_capacity, map};
ghost use Rattle.std.specs.List.{AllByRecursion};
ghost use Rattle.std.specs.Vec.Iter.{into_iter_items, into_iter_len};
ghost use Rattle.link_rows.specs.Rows.{names_of_ins, names_of_outs};
ghost use Rattle.cluster_seats.specs.Blanks.{IsBlank};
ghost use Rattle.cluster_seats.specs.Seatings.{AreMadeOf, IsMadeOf, Sit};

use crate::blank::Blank;
use gate_vault::Vault;
use link_faults::FaultPlan;
use link_rows::{InRow, OutRow};
use net_model::NodeModel;
use node_actor::{NodeActor, NodeCore};
use spec_base::Disk;
use std::alloc::Global;
use std::vec::IntoIter;

/// Each node with its vault, with the links from it and with those to it, in their order. There is room for them, and no memory is taken.
pub fn seat_all<N: NodeModel + Drop, D: Disk + Drop>(
    alloc: Global,
    blanks: Vec<Blank<N>>,
    vaults: Vec<Vault<D>>,
    outs: Vec<OutRow>,
    ins: Vec<InRow>,
    plan: FaultPlan,
    room: Vec<NodeActor<N, D>>,
) -> Vec<NodeActor<N, D>>
    requires start { AllByRecursion (IsBlank ⟦<N as NodeModel>⟧) blanks.items }
    requires vaults { length vaults.items ≡ length blanks.items }
    requires outs { length outs.items ≡ length blanks.items }
    requires ins { length ins.items ≡ length blanks.items }
    requires none { room.items ≡ [] }
    requires room { vec_len blanks ≤ vec_capacity room }
    ensures made { AreMadeOf ⟦<N as NodeModel>⟧ ⟦<D as Disk>⟧ plan blanks.items vaults.items (map (λ row. row.items) outs.items)
        (map (λ row. row.items) ins.items) result.items }
    ensures sit { Sit ⟦<N as NodeModel>⟧ ⟦<D as Disk>⟧ blanks.items vaults.items (map (λ row. names_of_outs row.items) outs.items)
        (map (λ row. names_of_ins row.items) ins.items) (map (λ row. row.items) outs.items) result.items }
{
    let mut actors = room;
    let mut vaults_left = vaults.into_iter();
    let mut outs_left = outs.into_iter();
    let mut ins_left = ins.into_iter();
    for blank in blanks {
        let vault = next_of(&mut vaults_left);
        let sends = next_of(&mut outs_left);
        let receives = next_of(&mut ins_left);
        actors.push_reserved(seat(alloc, blank, vault, sends, receives, plan));
    }
    actors
}

/// One node with its vault and its links.
fn seat<N: NodeModel + Drop, D: Disk + Drop>(
    alloc: Global,
    blank: Blank<N>,
    vault: Vault<D>,
    outs: OutRow,
    ins: InRow,
    plan: FaultPlan,
) -> NodeActor<N, D>
    requires { IsBlank ⟦<N as NodeModel>⟧ blank }
    ensures { IsMadeOf ⟦<N as NodeModel>⟧ ⟦<D as Disk>⟧ plan blank vault outs.items ins.items result }
{
    let Blank {
        cfg,
        name,
        node,
        faults,
    } = blank;
    let core = NodeCore::new(alloc, cfg, name, node, vault, faults, plan);
    NodeActor::new(core, outs, ins)
}

/// The next of a list that has one.
fn next_of<T>(list: &mut IntoIter<T>) -> T
    requires { 0 < into_iter_len list.old }
    ensures first { into_iter_items list.old ≡ result ∷ into_iter_items list.new }
    ensures len { into_iter_len list.new + 1 ≡ into_iter_len list.old }
{
    match list.next() {
        Some(one) => one,
        None => unreachable!(),
    }
}
