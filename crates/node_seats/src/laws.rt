//! What is shown of nodes at their seats.
ghost use Rattle.std.specs.Prelude.{◌≤◌, ℕ, List};
ghost use Rattle.msg_wire.specs.declared.config.Config.{Config};
ghost use Rattle.net_model.specs.Sources.{InEach, DeliveriesAreSent};
ghost use Rattle.node_actor.specs.Actors.{EndedFaults, Moved};
ghost use Rattle.node_actor.specs.Steps.{IsOwnStep};
ghost use Rattle.node_actor.specs.Stores.{disk_in};
ghost use Rattle.node_actor.specs.declared.actor.NodeActor.{NodeActor};
ghost use Rattle.node_seats.specs.Seats.{Seat, AreGoing, AreSeated, AreSeats, AreSettled, IsNew, IsSeated, StaysSeated, WaitsElsewhere, journals_of, seat_of};

use net_model::NodeModel;
use spec_base::Disk;

/// An actor as a run begins is at a seat of its own.
pub fn new_actors_are_seated<N: NodeModel + Drop, D: Disk + Drop>()
    ensures { (count : ℕ) (actor : NodeActor N D)
        → IsNew ⟦<N as NodeModel>⟧ ⟦<D as Disk>⟧ actor → count ≤ D.faults (disk_in actor.core.store)
        → IsSeated ⟦<N as NodeModel>⟧ ⟦<D as Disk>⟧ (seat_of count actor) actor }
{}

/// An actor that moved is at the seat at which it was.
pub fn moved_actors_stay_seated<N: NodeModel + Drop, D: Disk + Drop>()
    ensures { (before after : NodeActor N D) → Moved ⟦<N as NodeModel>⟧ ⟦<D as Disk>⟧ before after → StaysSeated ⟦<N as NodeModel>⟧ ⟦<D as Disk>⟧ before after }
{}

/// So is one whose faults ended.
pub fn ended_faults_leave_seats<N: NodeModel + Drop, D: Disk + Drop>()
    ensures { (before after : NodeActor N D) → EndedFaults ⟦<N as NodeModel>⟧ ⟦<D as Disk>⟧ before after → StaysSeated ⟦<N as NodeModel>⟧ ⟦<D as Disk>⟧ before after }
{}

/// So is one of whose links frames were brought to the other end, or came to this one.
pub fn settled_links_leave_seats<N: NodeModel + Drop, D: Disk + Drop>()
    ensures { (before after : NodeActor N D) → WaitsElsewhere before after → StaysSeated ⟦<N as NodeModel>⟧ ⟦<D as Disk>⟧ before after }
{}

/// What the nodes of a run took was sent with a smaller stamp, once all links are settled and none is stopped, and each node's steps are
/// those of its table.
pub fn settled_nodes_took_what_was_sent<N: NodeModel + Drop, D: Disk + Drop>()
    ensures { (cfg : Config) (seats : List Seat) (actors : List (NodeActor N D)) → AreSeats cfg seats
        → AreSeated ⟦<N as NodeModel>⟧ ⟦<D as Disk>⟧ seats actors → AreGoing actors → AreSettled actors
        → DeliveriesAreSent (journals_of actors) × InEach (IsOwnStep ⟦<N as NodeModel>⟧ cfg) (journals_of actors) }
{}
