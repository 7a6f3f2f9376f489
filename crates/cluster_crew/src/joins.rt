//! Submitters' passes are given back to the taking passes of their clients.
ghost use Rattle.std.specs.Prelude.{◌≡◌, ◌≤◌, [], vec_len, vec_capacity};
ghost use Rattle.cluster_crew.specs.Crews.{CanGather, CanJoin, MembersStay};
ghost use Rattle.cluster_crew.specs.Ending.{ReturnsTo};

use crate::member::Member;
use cluster_users::Submitter;
use net_model::{NodeModel, Viewed};
use record_codec::Body;
use spec_base::{Disk, NodeId};
use std::collections::VecDeque;
use std::sync::Wait;
use submit_desk::{Desk, DeskPass};

/// Each submitter's pass goes to its client, of which `clients` has the number. What the submitters still hold, in their order, for which there
/// is room.
pub(crate) fn join_all<R: Wait, N: NodeModel + Viewed + Drop, D: Disk + Drop, P: Wait + Drop>(
    rt: &R,
    members: &mut [Member<N, D, P>],
    desks: &[Desk],
    clients: &[u8],
    submitters: Vec<Submitter>,
    mut held: Vec<VecDeque<Body>>,
) -> Vec<VecDeque<Body>>
    requires places { CanGather ⟦<N as NodeModel>⟧ ⟦<D as Disk>⟧ desks.now clients.now members.old submitters.items }
    requires none { held.items ≡ [] }
    requires room { vec_len submitters ≤ vec_capacity held }
    ensures members { MembersStay ⟦<N as NodeModel>⟧ ⟦<D as Disk>⟧ members.old members.new }
    ensures each { vec_len result ≡ vec_len submitters }
{
    for submitter in submitters {
        let client = clients[held.len()];
        let (pass, bodies) = submitter.into_parts();
        join(rt, members, desks, client, pass);
        held.push_reserved(bodies);
    }
    held
}

/// A submitter's pass goes to the client with this number.
fn join<R: Wait, N: NodeModel + Viewed + Drop, D: Disk + Drop, P: Wait + Drop>(
    rt: &R,
    members: &mut [Member<N, D, P>],
    desks: &[Desk],
    client: u8,
    pass: DeskPass,
)
    requires at { CanJoin ⟦<N as NodeModel>⟧ ⟦<D as Disk>⟧ desks.now members.old }
    requires pass { ReturnsTo desks.now client pass }
    ensures { MembersStay ⟦<N as NodeModel>⟧ ⟦<D as Disk>⟧ members.old members.new }
{
    for place in 0..members.len() {
        if members[place].actor.name() == (NodeId::Client(client)) {
            members[place].join(rt, desks, client, pass);
            return;
        }
    }
}
