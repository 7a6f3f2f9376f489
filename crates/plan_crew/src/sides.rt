//! What the nodes of a cluster have beside their links, in their order.
ghost use Rattle.std.specs.Prelude.{◌≡◌, ◌+◌, ◌++◌, ◌≤◌, [], map, replicate, vec_len};
ghost use Rattle.std.specs.List.{AllByRecursion};
ghost use Rattle.std.specs.VecDeque.{deque_len, deque_capacity};
ghost use Rattle.cluster_crew.specs.declared.member.Side.TheVariants.{None as bare_side};
ghost use Rattle.plan_crew.specs.Begins.{IsUnshown, desk_side, view_side, sides_of};

use cluster_crew::{Showing, Side};
use plan_desks::Taker;
use std::collections::VecDeque;
use std::sync::Wait;
use view_cell::Publisher;

/// So many nodes have nothing; those behind them have the passes of desks, and then the ends of views. There is room for them.
pub(crate) fn sides_of<P: Wait + Drop>(
    bare: usize,
    takers: Vec<Taker>,
    publishers: Vec<Publisher<P>>,
    mut sides: VecDeque<Side<P>>,
) -> VecDeque<Side<P>>
    requires none { sides.items ≡ [] }
    requires room { bare + vec_len takers + vec_len publishers ≤ deque_capacity sides }
    requires unshown { AllByRecursion IsUnshown publishers.items }
    ensures { result.items ≡ sides_of bare takers.items publishers.items }
{
    push_bare(bare, &mut sides);
    push_desks(takers, &mut sides);
    push_views(publishers, &mut sides);
    sides
}

/// So many more have nothing.
fn push_bare<P: Wait + Drop>(count: usize, sides: &mut VecDeque<Side<P>>)
    requires { deque_len sides.old + count ≤ deque_capacity sides.old }
    ensures items { sides.new.items ≡ sides.old.items ++ replicate count bare_side }
    ensures len { deque_len sides.new ≡ deque_len sides.old + count }
    ensures capacity { deque_capacity sides.new ≡ deque_capacity sides.old }
{
    for _node in 0..count {
        sides.push_back_reserved(Side::None);
    }
}

/// Clients have these passes.
fn push_desks<P: Wait + Drop>(takers: Vec<Taker>, sides: &mut VecDeque<Side<P>>)
    requires { deque_len sides.old + vec_len takers ≤ deque_capacity sides.old }
    ensures items { sides.new.items ≡ sides.old.items ++ map desk_side takers.items }
    ensures len { deque_len sides.new ≡ deque_len sides.old + vec_len takers }
    ensures capacity { deque_capacity sides.new ≡ deque_capacity sides.old }
{
    for taker in takers {
        let Taker { client: _, pass } = taker;
        sides.push_back_reserved(Side::Client(pass));
    }
}

/// Consumers have these ends, on which nothing was shown yet.
fn push_views<P: Wait + Drop>(publishers: Vec<Publisher<P>>, sides: &mut VecDeque<Side<P>>)
    requires room { deque_len sides.old + vec_len publishers ≤ deque_capacity sides.old }
    requires unshown { AllByRecursion IsUnshown publishers.items }
    ensures items { sides.new.items ≡ sides.old.items ++ map view_side publishers.items }
    ensures len { deque_len sides.new ≡ deque_len sides.old + vec_len publishers }
    ensures capacity { deque_capacity sides.new ≡ deque_capacity sides.old }
{
    for publisher in publishers {
        sides.push_back_reserved(Side::Consumer(Showing::new(publisher)));
    }
}
