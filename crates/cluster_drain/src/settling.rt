ghost use Rattle.std.specs.Prelude.{ℕ, ◌<◌, length};
ghost use Rattle.node_seats.specs.Seats.{AreSettled};
ghost use Rattle.cluster_drain.specs.Drains.{CanDrain, Drains};
ghost use Rattle.cluster_drain.specs.inside.Pairs.{IsLinkSettled, StaySettled};

use crate::links::settle_link;
use net_model::NodeModel;
use node_actor::NodeActor;
use spec_base::Disk;

/// On each link what was received, and what waits at the receiver's end, is then all that was pushed into it; where memory is ample, all that
/// was queued.
pub fn settle_all<N: NodeModel + Drop, D: Disk + Drop>(actors: &mut [NodeActor<N, D>])
    requires { CanDrain ⟦<N as NodeModel>⟧ actors.old }
    ensures drains { Drains ⟦<N as NodeModel>⟧ ⟦<D as Disk>⟧ actors.old actors.new }
    ensures settled { AreSettled actors.new }
{
    for from in 0..actors.len() {
        settle_from(actors, from);
    }
}

/// The same for the links from one node.
fn settle_from<N: NodeModel + Drop, D: Disk + Drop>(actors: &mut [NodeActor<N, D>], from: usize)
    requires can { CanDrain ⟦<N as NodeModel>⟧ actors.old }
    requires from { from < length actors.old }
    ensures drains { Drains ⟦<N as NodeModel>⟧ ⟦<D as Disk>⟧ actors.old actors.new }
    ensures settled { (to : ℕ) → to < length actors.old → IsLinkSettled actors.new from to }
    ensures kept { StaySettled actors.old actors.new }
{
    for to in 0..actors.len() {
        let _settled = settle_link(actors, from, to);
    }
}
