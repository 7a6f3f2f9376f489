//! All that a run needs but its vaults. What wants memory as a run begins comes before they are made, so that each disk can be given back.
ghost use Rattle.std.specs.Prelude.{◌≡◌, length, IfOk};
ghost use Rattle.msg_wire.specs.Nodes.{nodes_of};
ghost use Rattle.msg_wire.specs.Valid.{IsValidPlan};
ghost use Rattle.cluster_run.specs.Beginning.{AreNodesOf, AreUsersOf, HaveRoom};

use crate::openings::openings_of;
use cluster_crew::Room as EndRoom;
use cluster_seats::{Blank, blanks};
use cluster_users::{Reader, Submitter};
use link_rows::{InRow, OutRow, links_between};
use msg_wire::Plan;
use net_model::{Journal, NodeModel};
use node_actor::NodeActor;
use plan_crew::Room;
use plan_desks::{Begun, Taker, begin};
use plan_views::{BegunViews, begin_views};
use quota_table::OutOfMemory;
use spec_base::{Disk, NodeId};
use std::alloc::Global;
use std::sync::Wait;
use submit_desk::Desk;
use view_cell::Publisher;
use world::AnyNode;

/// The nodes of a run, which lack their vaults alone.
#[derive(Drop)]
pub(crate) struct Nodes {
    pub(crate) blanks: Vec<Blank<AnyNode>>,
    /// From each node the links to all.
    pub(crate) outs: Vec<OutRow>,
    /// To each node the links from all.
    pub(crate) ins: Vec<InRow>,
}

/// Whatever else takes part in a run.
#[derive(Drop)]
pub(crate) struct Users<P: Wait + Drop> {
    /// The desk of each client, at its number.
    pub(crate) desks: Vec<Desk>,
    /// The pass that takes from each.
    pub(crate) takers: Vec<Taker>,
    pub(crate) submitters: Vec<Submitter>,
    /// The end of each consumer on which its view is published.
    pub(crate) publishers: Vec<Publisher<P>>,
    pub(crate) readers: Vec<Reader>,
}

/// The memory that a run needs later, where none may be refused.
#[derive(Drop)]
pub(crate) struct Rooms<D, P: Wait + Drop> {
    pub(crate) actors: Vec<NodeActor<AnyNode, D>>,
    pub(crate) crew: Room<AnyNode, D, P>,
    pub(crate) end: EndRoom<AnyNode, D>,
    pub(crate) journals: Vec<Journal>,
    pub(crate) disks: Vec<D>,
}

/// The nodes of a plan, with the links between them.
pub(crate) fn nodes_for(alloc: Global, plan: &Plan, names: &[NodeId]) -> Result<Nodes, OutOfMemory>
    requires valid { IsValidPlan plan.now }
    requires names { names.now ≡ nodes_of plan.now.cfg }
    ensures { IfOk result (AreNodesOf ⟦<AnyNode as NodeModel>⟧ plan.now) }
{
    let blanks = blanks(alloc, &plan.cfg, names, plan.seed)?;
    let (outs, ins) = links_between(alloc, names.len())?;
    Ok(Nodes { blanks, outs, ins })
}

/// The desks, submitters, views and readers of a plan.
pub(crate) fn users_for<'a, R: Wait>(
    rt: &'a R,
    alloc: Global,
    plan: &Plan,
) -> Result<Users<&'a R>, OutOfMemory>
    requires valid { IsValidPlan plan.now }
    ensures { IfOk result (AreUsersOf plan.now) }
{
    let Begun {
        desks,
        takers,
        submitters,
    } = begin(rt, alloc, plan)?;
    let openings = openings_of(alloc, &plan.cfg)?;
    let BegunViews {
        publishers,
        readers,
    } = begin_views(rt, alloc, plan.readers.as_slice(), openings)?;
    Ok(Users {
        desks,
        takers,
        submitters,
        publishers,
        readers,
    })
}

/// Room for so many nodes, and for a plan's readers and submitters.
pub(crate) fn rooms_for<D: Disk + Drop, P: Wait + Drop>(
    alloc: Global,
    plan: &Plan,
    count: usize,
) -> Result<Rooms<D, P>, OutOfMemory>
    ensures { IfOk result (HaveRoom count (length plan.now.readers) (length plan.now.submitters)) }
{
    Ok(Rooms {
        actors: Vec::with_capacity(alloc, count)?,
        crew: Room::new(alloc, count)?,
        end: EndRoom::new(alloc, count, plan.readers.len(), plan.submitters.len())?,
        journals: Vec::with_capacity(alloc, count)?,
        disks: Vec::with_capacity(alloc, count)?,
    })
}
