//! A gate at which the actors of the plan of two records meet before each of their turns.

ghost use Rattle.std.specs.Prelude.{◌<◌, IfSome};

use cluster_users::{Actor, Gate};
use spec_base::{NodeId, Side};
use std::sync::atomic::{AtomicU64, Ordering};
use std::thread;

/// How often an actor looks whether all have come to its turn, at most, so that a run ends where they can't.
const PATIENCE: u32 = 100_000_000;

/// No actor begins a turn before all seven have come to it.
#[derive(Drop)]
pub(super) struct Meeting {
    /// To how many turns each actor has come.
    come: [AtomicU64; 7],
    /// How often an actor waited in vain, came to a turn that wasn't its next, or was none of the seven. From then on nobody waits.
    broken: AtomicU64,
}

/// The place of an actor; None of one that has no part in the plan.
fn place_of(actor: Actor) -> Option<usize>
    ensures { IfSome result (λ place. place < 7) }
{
    match actor {
        Actor::Node {
            node: NodeId::Seq(0),
        } => Some(0),
        Actor::Node {
            node: NodeId::Shard(0, Side::Primary),
        } => Some(1),
        Actor::Node {
            node: NodeId::Shard(0, Side::Backup),
        } => Some(2),
        Actor::Node {
            node: NodeId::Client(0),
        } => Some(3),
        Actor::Node {
            node: NodeId::Consumer(0),
        } => Some(4),
        Actor::Reader { number: 0 } => Some(5),
        Actor::Submitter { number: 0 } => Some(6),
        _ => None,
    }
}

impl Meeting {
    pub(super) fn new() -> Meeting {
        Meeting {
            come: [
                AtomicU64::new(0),
                AtomicU64::new(0),
                AtomicU64::new(0),
                AtomicU64::new(0),
                AtomicU64::new(0),
                AtomicU64::new(0),
                AtomicU64::new(0),
            ],
            broken: AtomicU64::new(0),
        }
    }

    /// Whether each actor came to so many turns, one after the other, and none waited in vain.
    pub(super) fn held(&self, turns: u64) -> bool {
        self.broken.load(Ordering::SeqCst) == 0
            && self
                .come
                .iter()
                .all(|come| come.load(Ordering::SeqCst) == turns)
    }

    /// Whether each actor has come to so many turns.
    fn have_come(&self, turns: u64) -> bool {
        self.come
            .iter()
            .all(|come| come.load(Ordering::SeqCst) >= turns)
    }

    fn breaks(&self) {
        self.broken.fetch_add(1, Ordering::SeqCst);
    }

    /// Comes to a turn; false where it isn't the actor's next.
    fn comes(&self, actor: Actor, turn: u32) -> bool {
        match place_of(actor) {
            Some(place) => self.come[place].fetch_add(1, Ordering::SeqCst) == u64::from(turn),
            None => false,
        }
    }

    /// Waits until each actor has come to this turn.
    fn waits(&self, turn: u32) {
        let turns = u64::from(turn) + 1;
        for look in 0..PATIENCE {
            if self.have_come(turns) || self.broken.load(Ordering::SeqCst) > 0 {
                return;
            }
            if look % 64 == 63 {
                thread::yield_now();
            }
        }
        self.breaks();
    }
}

impl Gate for Meeting {
    fn pass(&self, actor: Actor, turn: u32) {
        if self.comes(actor, turn) {
            self.waits(turn);
        } else {
            self.breaks();
        }
    }
}
