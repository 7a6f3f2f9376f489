//! What is left of nodes: their journals, and their disks.
ghost use Rattle.std.specs.Prelude.{◌≡◌, ◌≤◌, [], vec_len, vec_capacity};
ghost use Rattle.node_seats.specs.Seats.{journals_of};
ghost use Rattle.cluster_run.specs.Answers.{disks_of};

use net_model::{Journal, NodeModel};
use node_actor::NodeActor;
use spec_base::Disk;

/// The journals and the disks of nodes, in their order. There is room for them.
pub(crate) fn apart<N: NodeModel + Drop, D: Disk + Drop>(
    actors: Vec<NodeActor<N, D>>,
    mut journals: Vec<Journal>,
    mut disks: Vec<D>,
) -> (Vec<Journal>, Vec<D>)
    requires none { (journals.items ≡ []) × (disks.items ≡ []) }
    requires room { (vec_len actors ≤ vec_capacity journals) × (vec_len actors ≤ vec_capacity disks) }
    ensures journals { result.0.items ≡ journals_of actors.items }
    ensures disks { result.1.items ≡ disks_of actors.items }
{
    for actor in actors {
        let (core, _outs, _ins) = actor.into_parts();
        let (journal, disk) = core.into_parts();
        journals.push_reserved(journal);
        disks.push_reserved(disk);
    }
    (journals, disks)
}
