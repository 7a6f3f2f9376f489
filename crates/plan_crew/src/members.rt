//! Nodes with what they have beside their links.
ghost use Rattle.std.specs.Prelude.{◌≡◌, ◌≤◌, [], vec_len, vec_capacity};
ghost use Rattle.plan_crew.specs.Begins.{members_of};

use cluster_crew::{Member, Side};
use node_actor::NodeActor;
use std::collections::VecDeque;
use std::sync::Wait;

/// Each node with the side at its place. There is room for them.
pub(crate) fn members_of<N: Drop, D: Drop, P: Wait + Drop>(
    actors: Vec<NodeActor<N, D>>,
    mut sides: VecDeque<Side<P>>,
    mut members: Vec<Member<N, D, P>>,
) -> Vec<Member<N, D, P>>
    requires none { members.items ≡ [] }
    requires room { vec_len actors ≤ vec_capacity members }
    ensures { result.items ≡ members_of actors.items sides.items }
{
    for actor in actors {
        if let Some(side) = sides.pop_front() {
            members.push_reserved(Member { actor, side });
        }
    }
    members
}
