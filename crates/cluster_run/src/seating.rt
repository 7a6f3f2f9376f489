//! The nodes of a run with their vaults.
ghost use Rattle.std.specs.Prelude.{◌≡◌, ◌≤◌, [], length, vec_capacity};
ghost use Rattle.std.specs.List.{AllByRecursion};
ghost use Rattle.msg_wire.specs.Nodes.{nodes_of};
ghost use Rattle.cluster_seats.specs.Seatings.{AreSitting, KeepsNone};
ghost use Rattle.cluster_run.specs.Beginning.{AreNodesOf, counts_of};

use crate::ready::Nodes;
use cluster_seats::seat_all;
use gate_vault::Vault;
use link_faults::FaultPlan;
use msg_wire::Plan;
use net_model::NodeModel;
use node_actor::NodeActor;
use spec_base::Disk;
use std::alloc::Global;
use world::AnyNode;

/// The nodes of a plan, each with its vault. There is room for them.
pub(crate) fn seat<D: Disk + Drop>(
    alloc: Global,
    plan: &Plan,
    nodes: Nodes,
    vaults: Vec<Vault<D>>,
    room: Vec<NodeActor<AnyNode, D>>,
) -> Vec<NodeActor<AnyNode, D>>
    requires nodes { AreNodesOf ⟦<AnyNode as NodeModel>⟧ plan.now nodes }
    requires each { length vaults.items ≡ length (nodes_of plan.now.cfg) }
    requires empty { AllByRecursion (KeepsNone ⟦<D as Disk>⟧) vaults.items }
    requires none { room.items ≡ [] }
    requires room { length (nodes_of plan.now.cfg) ≤ vec_capacity room }
    ensures { AreSitting ⟦<AnyNode as NodeModel>⟧ ⟦<D as Disk>⟧ plan.now.cfg (nodes_of plan.now.cfg) (counts_of ⟦<D as Disk>⟧ vaults.items) result.items }
{
    let Nodes { blanks, outs, ins } = nodes;
    let faults = FaultPlan {
        lose: plan.lose,
        repeat: plan.repeat,
        late: plan.late,
        cut: plan.cut,
    };
    seat_all(alloc, blanks, vaults, outs, ins, faults, room)
}
