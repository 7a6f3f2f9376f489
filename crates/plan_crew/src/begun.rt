//! A crew as a run begins.
ghost use Rattle.std.specs.Prelude.{List, ◌≡◌, vec_len};
ghost use Rattle.msg_wire.specs.Valid.{IsValidPlan};
ghost use Rattle.node_seats.specs.Seats.{Seat, AreSeated};
ghost use Rattle.submit_desk.specs.Passes.{DeskView};
ghost use Rattle.plan_crew.specs.Begins.{AreNew, BeginsAt, IsRoomFor, BelongToPlan};

use crate::members::members_of;
use crate::room::Room;
use crate::sides::sides_of;
use cluster_crew::Crew;
use cluster_users::{Reader, Submitter};
use msg_wire::Plan;
use net_model::NodeModel;
use node_actor::NodeActor;
use plan_desks::Taker;
use spec_base::Disk;
use std::sync::Wait;
use view_cell::Publisher;

/// The crew of a plan: its nodes, each client with the pass that takes from its desk and each consumer with the end on which its view is
/// published, its readers and its submitters. There is room for it.
pub fn begin_crew<N: NodeModel + Drop, D: Disk + Drop, P: Wait + Drop>(
    plan: &Plan,
    actors: Vec<NodeActor<N, D>>,
    takers: Vec<Taker>,
    publishers: Vec<Publisher<P>>,
    readers: Vec<Reader>,
    submitters: Vec<Submitter>,
    room: Room<N, D, P>,
) -> Crew<N, D, P>
    requires valid { IsValidPlan plan.now }
    requires new { AreNew plan.now.cfg actors.items }
    requires room { IsRoomFor (vec_len actors) room }
    requires belong { (desks : List DeskView) × BelongToPlan plan.now desks takers.items publishers.items readers.items submitters.items }
    ensures at { (desks : List DeskView) (seats : List Seat) → BelongToPlan plan.now desks takers.items publishers.items readers.items submitters.items
        → AreSeated ⟦<N as NodeModel>⟧ ⟦<D as Disk>⟧ seats actors.items
        → BeginsAt ⟦<N as NodeModel>⟧ ⟦<D as Disk>⟧ plan.now desks seats result }
{
    let Room { sides, members } = room;
    let shards = usize::from(plan.cfg.shards);
    let bare = usize::from(plan.cfg.seqs) + 2 * shards;
    let sides = sides_of(bare, takers, publishers, sides);
    Crew {
        members: members_of(actors, sides, members),
        readers,
        submitters,
    }
}
