//! The link from one node of a list to another, both of them at hand.

ghost use Rattle.std.specs.Prelude.{◌<◌, length};
ghost use Rattle.cluster_drain.specs.inside.Pairs.{AreLinkEnds, IsSettledPair};

use net_model::NodeModel;
use node_actor::{NodeActor, settle_between};
use quota_table::OutOfMemory;
use spec_base::Disk;

/// Brings all that the node at one place queued for the one at another to that one's end.
pub fn settle_link<N: NodeModel + Drop, D: Disk + Drop>(
    actors: &mut [NodeActor<N, D>],
    from: usize,
    to: usize,
) -> Result<(), OutOfMemory>
    requires from { from < length actors.old }
    requires to { to < length actors.old }
    requires ends { AreLinkEnds from to actors.old }
    ensures { IsSettledPair from to actors.old actors.new }
{
    if from == to {
        actors[from].settle_own(from)
    } else if from < to {
        let (low, high) = actors.split_at_mut(to);
        settle_between(&mut low[from], to, &mut high[0], from)
    } else {
        let (low, high) = actors.split_at_mut(from);
        settle_between(&mut high[0], to, &mut low[to], from)
    }
}
