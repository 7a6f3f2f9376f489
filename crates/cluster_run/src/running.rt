//! A run, from the vaults of its nodes to their journals and disks.
ghost use Rattle.std.specs.Prelude.{◌≡◌, length};
ghost use Rattle.std.specs.List.{AllByRecursion};
ghost use Rattle.msg_wire.specs.Nodes.{nodes_of};
ghost use Rattle.msg_wire.specs.Valid.{IsValidPlan};
ghost use Rattle.cluster_seats.specs.Seatings.{KeepsNone};
ghost use Rattle.cluster_run.specs.Beginning.{AreNodesOf, AreUsersOf, HaveRoom};
ghost use Rattle.cluster_run.specs.Running.{HaveRun, consumers_in, first_of};

use crate::apart::apart;
use crate::closing::{Closed, close};
use crate::errors::RunError;
use crate::ready::{Nodes, Rooms, Users};
use crate::seating::seat;
use crate::working::work;
use cluster_crew::Ended;
use cluster_users::{Gate, Looks};
use gate_vault::Vault;
use msg_wire::Plan;
use net_model::{Journal, NodeModel};
use plan_crew::begin_crew;
use quota_table::OutOfMemory;
use spec_base::Disk;
use std::alloc::Global;
use std::sync::Wait;
use std::thread::Threads;
use world::AnyNode;

/// What a run leaves.
#[derive(Drop)]
pub(crate) struct Ran<D> {
    pub(crate) journals: Vec<Journal>,
    pub(crate) disks: Vec<D>,
    pub(crate) looks: Vec<Looks>,
    /// Whether the drain came to its end.
    pub(crate) quiet: bool,
    /// Why the run has no history; None where it has one.
    pub(crate) stop: Option<RunError>,
}

/// Runs the nodes of a plan on these vaults. It takes no memory but that of steps.
pub(crate) fn run_nodes<R, D, P, G>(
    rt: &R,
    alloc: Global,
    plan: &Plan,
    gate: &G,
    nodes: Nodes,
    users: Users<P>,
    rooms: Rooms<D, P>,
    vaults: Vec<Vault<D>>,
) -> Ran<D>
where
    R: Threads + Wait + Sync,
    D: Disk + Drop + Send,
    P: Wait + Drop + Send,
    G: Gate + Sync,
    requires valid { IsValidPlan plan.now }
    requires nodes { AreNodesOf ⟦<AnyNode as NodeModel>⟧ plan.now nodes }
    requires users { AreUsersOf plan.now users }
    requires rooms { HaveRoom (length (nodes_of plan.now.cfg)) (length plan.now.readers) (length plan.now.submitters) rooms }
    requires each { length vaults.items ≡ length (nodes_of plan.now.cfg) }
    requires empty { AllByRecursion (KeepsNone ⟦<D as Disk>⟧) vaults.items }
    ensures ran { HaveRun ⟦<AnyNode as NodeModel>⟧ ⟦<D as Disk>⟧ plan.now vaults.items result.journals.items result.disks.items result.stop }
    ensures looks { consumers_in result.looks.items ≡ plan.now.readers }
{
    let Users {
        desks,
        takers,
        submitters,
        publishers,
        readers,
    } = users;
    let Rooms {
        actors,
        crew,
        end,
        journals,
        disks,
    } = rooms;
    let actors = seat(alloc, plan, nodes, vaults, actors);
    let crew = begin_crew(plan, actors, takers, publishers, readers, submitters, crew);
    let (ended, followed) = work(rt, alloc, plan, gate, crew, desks.as_slice(), end);
    let Ended {
        mut actors,
        looks,
        left,
    } = ended;
    let Closed { quiet, stop } = close(actors.as_mut_slice(), left, plan.settle);
    let (journals, disks) = apart(actors, journals, disks);
    Ran {
        journals,
        disks,
        looks,
        quiet,
        stop: first_of(stop, followed),
    }
}

/// Why a run has no history: by what its nodes say, or else since memory was wanted.
fn first_of(stop: Option<RunError>, followed: Result<(), OutOfMemory>) -> Option<RunError>
    ensures { result ≡ first_of stop followed }
{
    match (stop, followed) {
        (Some(error), _) => Some(error),
        (None, Err(OutOfMemory)) => Some(RunError::OutOfMemory),
        (None, Ok(())) => None,
    }
}
