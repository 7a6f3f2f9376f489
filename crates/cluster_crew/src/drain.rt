//! The beginning of the drain, on the calling thread: clients take what lies on their desks and what their submitters still hold. Then the
//! crew is taken apart.
ghost use Rattle.std.specs.Prelude.{◌≤◌, vec_len};
ghost use Rattle.std.specs.List.{AllZip};
ghost use Rattle.msg_wire.specs.Valid.{IsValidPlan};
ghost use Rattle.node_seats.specs.Seats.{AreSeated};
ghost use Rattle.cluster_crew.specs.Crews.{CanFollow, IsCrewAt};
ghost use Rattle.cluster_crew.specs.Ending.{IsRoomFor, IsKeptBy, seats_of};

use crate::apart::{actors_of, looks_of};
use crate::bodies::take_bodies;
use crate::crew::Crew;
use crate::joins::join_all;
use crate::room::Room;
use cluster_users::Looks;
use msg_wire::Plan;
use net_model::{NodeModel, Viewed};
use node_actor::NodeActor;
use spec_base::Disk;
use std::sync::Wait;
use submit_desk::Desk;

/// What is left of a crew as the drain has begun.
#[derive(Drop)]
pub struct Ended<N, D> {
    /// The nodes, in their order.
    pub actors: Vec<NodeActor<N, D>>,
    /// What each reader kept, in order.
    pub looks: Vec<Looks>,
    /// How many inputs the drain may still take.
    pub left: u32,
}

impl<N: NodeModel + Viewed + Drop, D: Disk + Drop, P: Wait + Drop> Crew<N, D, P> {
    /// Each client, in the order of nodes, takes its desk's bodies and then what its submitters still hold, in the order of submitters: at
    /// most as many inputs as the plan's limit. It ends where a node stops. It takes no memory but that of steps.
    pub fn end<R: Wait>(self, rt: &R, plan: &Plan, desks: &[Desk], room: Room<N, D>) -> Ended<N, D>
        requires valid { IsValidPlan plan.now }
        requires places { CanFollow ⟦<N as NodeModel>⟧ ⟦<D as Disk>⟧ plan.now desks.now self }
        requires room { IsRoomFor (vec_len self.members) (vec_len self.readers) (vec_len self.submitters) room }
        ensures seated { (places : _) → IsCrewAt ⟦<N as NodeModel>⟧ ⟦<D as Disk>⟧ places self
            → AreSeated ⟦<N as NodeModel>⟧ ⟦<D as Disk>⟧ (seats_of places.posts) result.actors.items }
        ensures looks { AllZip IsKeptBy self.readers.items result.looks.items }
        ensures left { result.left ≤ plan.now.limit }
    {
        let Crew {
            mut members,
            readers,
            submitters,
        } = self;
        let Room {
            actors,
            looks,
            held,
        } = room;
        let clients = plan.submitters.as_slice();
        let mut held = join_all(rt, &mut members, desks, clients, submitters, held);
        let left = take_bodies(rt, &mut members, desks, clients, &mut held, plan.limit);
        Ended {
            actors: actors_of(members, actors),
            looks: looks_of(readers, looks),
            left,
        }
    }
}
