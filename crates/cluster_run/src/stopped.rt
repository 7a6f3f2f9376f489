//! Why a run has no history: the first node that was stopped.
ghost use Rattle.std.specs.Prelude.{◌≡◌};
ghost use Rattle.cluster_run.specs.Answers.{first_stop};

use crate::errors::RunError;
use net_model::NodeModel;
use node_actor::{NodeActor, Stopped};
use spec_base::Disk;

/// What the first of these nodes that is stopped says; None where all go on.
pub(crate) fn first_stop<N: NodeModel + Drop, D: Disk + Drop>(
    actors: &[NodeActor<N, D>],
) -> Option<RunError>
    ensures { result ≡ first_stop actors.now }
{
    match actors {
        [] => None,
        [first, rest @ ..] => match first.stopped() {
            None => first_stop(rest),
            Some(Stopped::Disk) => Some(RunError::ShelfFault { name: first.name() }),
            Some(Stopped::Memory) => Some(RunError::OutOfMemory),
        },
    }
}
