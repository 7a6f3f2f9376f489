//! The end of a run: the drain, and what is then left of its nodes.
ghost use Rattle.std.specs.Prelude.{◌≡◌, List};
ghost use Rattle.msg_wire.specs.declared.config.Config.{Config};
ghost use Rattle.node_seats.specs.Seats.{Seat, AreSeats, AreSeated, AreSettled};
ghost use Rattle.cluster_run.specs.Running.{EndedBy, cause_of};

use crate::errors::RunError;
use crate::stopped::first_stop;
use cluster_drain::{Early, drain, settle_all};
use net_model::NodeModel;
use node_actor::NodeActor;
use spec_base::Disk;

/// What the drain left to say.
#[derive(Clone, Copy, Debug, Drop, PartialEq)]
pub(crate) struct Closed {
    /// Whether the drain came to its end.
    pub(crate) quiet: bool,
    /// Why the run has no history; None where it has one.
    pub(crate) stop: Option<RunError>,
}

/// Drains the nodes, with so many inputs at most and so many rounds of ticks, and settles all links.
pub(crate) fn close<N: NodeModel + Drop, D: Disk + Drop>(
    actors: &mut [NodeActor<N, D>],
    left: u32,
    settle: u32,
) -> Closed
    requires { (cfg : Config) × (seats : List Seat) × AreSeats cfg seats × AreSeated ⟦<N as NodeModel>⟧ ⟦<D as Disk>⟧ seats actors.old }
    ensures seated { (seats : List Seat) → AreSeated ⟦<N as NodeModel>⟧ ⟦<D as Disk>⟧ seats actors.old
        → AreSeated ⟦<N as NodeModel>⟧ ⟦<D as Disk>⟧ seats actors.new }
    ensures settled { AreSettled actors.new }
    ensures ended { EndedBy result.stop actors.new }
{
    let drained = drain(actors, left, settle);
    settle_all(actors);
    Closed {
        quiet: drained.early.is_none(),
        stop: cause_of(first_stop(actors), drained.early),
    }
}

/// Why nodes have no history: by the first that was stopped, or else since the drain wanted memory.
fn cause_of(stop: Option<RunError>, early: Option<Early>) -> Option<RunError>
    ensures { result ≡ cause_of stop early }
{
    match (stop, early) {
        (Some(error), _) => Some(error),
        (None, Some(Early::Memory)) => Some(RunError::OutOfMemory),
        (None, _) => None,
    }
}
