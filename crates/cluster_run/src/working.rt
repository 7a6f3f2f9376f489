//! The part of a run that a plan's lines say, and the beginning of its drain.
ghost use Rattle.std.specs.Prelude.{◌≡◌, List, length};
ghost use Rattle.msg_wire.specs.Nodes.{nodes_of};
ghost use Rattle.msg_wire.specs.Valid.{IsValidPlan};
ghost use Rattle.node_seats.specs.Seats.{Seat, AreSeated};
ghost use Rattle.cluster_crew.specs.Ending.{IsRoomFor};
ghost use Rattle.plan_crew.specs.Begins.{BeginsAt};
ghost use Rattle.cluster_run.specs.Running.{consumers_in};

use cluster_crew::{Crew, Ended, Room};
use cluster_users::Gate;
use msg_wire::Plan;
use net_model::NodeModel;
use quota_table::OutOfMemory;
use spec_base::Disk;
use std::alloc::Global;
use std::sync::Wait;
use std::thread::Threads;
use submit_desk::Desk;
use world::AnyNode;

/// Does what the lines of a plan say, and begins the drain. Beside what is left of the crew: whether memory was wanted.
pub(crate) fn work<R, D, P, G>(
    rt: &R,
    alloc: Global,
    plan: &Plan,
    gate: &G,
    crew: Crew<AnyNode, D, P>,
    desks: &[Desk],
    room: Room<AnyNode, D>,
) -> (Ended<AnyNode, D>, Result<(), OutOfMemory>)
where
    R: Threads + Wait + Sync,
    D: Disk + Drop + Send,
    P: Wait + Drop + Send,
    G: Gate + Sync,
    requires valid { IsValidPlan plan.now }
    requires begins { (seats : List Seat) × (length seats ≡ length (nodes_of plan.now.cfg))
        × BeginsAt ⟦<AnyNode as NodeModel>⟧ ⟦<D as Disk>⟧ plan.now desks.now seats crew }
    requires room { IsRoomFor (length (nodes_of plan.now.cfg)) (length plan.now.readers) (length plan.now.submitters) room }
    ensures seated { (seats : List Seat) → BeginsAt ⟦<AnyNode as NodeModel>⟧ ⟦<D as Disk>⟧ plan.now desks.now seats crew
        → AreSeated ⟦<AnyNode as NodeModel>⟧ ⟦<D as Disk>⟧ seats result.0.actors.items }
    ensures looks { consumers_in result.0.looks.items ≡ plan.now.readers }
{
    let (crew, followed) = crew.follow(rt, alloc, plan, gate, desks);
    (crew.end(rt, plan, desks, room), followed)
}
