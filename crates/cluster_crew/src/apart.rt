//! What is left of members and readers.
ghost use Rattle.std.specs.Prelude.{◌≡◌, ◌≤◌, [], vec_len, vec_capacity};
ghost use Rattle.std.specs.List.{AllZip};
ghost use Rattle.cluster_crew.specs.Ending.{IsActorOf, IsKeptBy};

use crate::member::Member;
use cluster_users::{Looks, Reader};
use node_actor::NodeActor;
use std::sync::Wait;

/// The nodes of members, in their order. There is room for them.
pub(crate) fn actors_of<N: Drop, D: Drop, P: Wait + Drop>(
    members: Vec<Member<N, D, P>>,
    mut actors: Vec<NodeActor<N, D>>,
) -> Vec<NodeActor<N, D>>
    requires none { actors.items ≡ [] }
    requires room { vec_len members ≤ vec_capacity actors }
    ensures { AllZip IsActorOf members.items result.items }
{
    for member in members {
        actors.push_reserved(actor_of(member));
    }
    actors
}

/// The node of a member.
fn actor_of<N: Drop, D: Drop, P: Wait + Drop>(member: Member<N, D, P>) -> NodeActor<N, D>
    ensures { result ≡ member.actor }
{
    let Member { actor, side: _ } = member;
    actor
}

/// What readers kept, in their order. There is room for it.
pub(crate) fn looks_of(readers: Vec<Reader>, mut looks: Vec<Looks>) -> Vec<Looks>
    requires none { looks.items ≡ [] }
    requires room { vec_len readers ≤ vec_capacity looks }
    ensures { AllZip IsKeptBy readers.items result.items }
{
    for reader in readers {
        looks.push_reserved(reader.into_looks());
    }
    looks
}
