ghost use Rattle.std.specs.Prelude.{◌≡◌, ◌≤◌, [], length, nat_eq};
ghost use Rattle.std.specs.List.{list_any};
ghost use Rattle.majority.specs.Ballots.{with_replica};

use arrayvec::ArrayVec;
use std::marker::Model;

/// Distinct replicas, in the order in which they were added. It takes no memory.
/// Contracts see the list of their numbers.
#[derive(Debug, Drop)]
pub(crate) struct Replicas {
    numbers: ArrayVec<u8, 256>,
}

impl Model for Replicas {
    ghost use Rattle.std.specs.Prelude.{ℕ, ◌<◌, List, All, nat_eq};
    ghost use Rattle.std.specs.List.{IsDistinct};

    ghost Value = { List ℕ };

    ghost view = { λ r. r.numbers.items };

    ghost invariant = { λ r. IsDistinct nat_eq r.numbers.items × All (λ number. number < 256) r.numbers.items };
}

impl Replicas {
    /// No replica.
    pub(crate) fn new() -> Replicas
        ensures { result ≡ [] }
    {
        Replicas {
            numbers: ArrayVec::new(),
        }
    }

    /// How many there are, 0 to 256.
    pub(crate) fn len(&self) -> usize
        ensures value { result ≡ length self.now }
        ensures most { result ≤ 256 }
    {
        self.numbers.len()
    }

    /// Adds the replica, unless it is among them.
    pub(crate) fn add(&mut self, replica: u8)
        ensures { self.new ≡ with_replica replica self.old }
    {
        if !self.has(replica) {
            self.numbers.push(replica);
        }
    }

    /// How many there are with this replica among them.
    pub(crate) fn len_with(&self, replica: u8) -> usize
        ensures value { result ≡ length (with_replica replica self.now) }
        ensures most { result ≤ 257 }
    {
        if self.has(replica) {
            self.len()
        } else {
            self.len() + 1
        }
    }

    fn has(&self, replica: u8) -> bool
        ensures { result ≡ list_any (nat_eq replica) self.now }
    {
        self.numbers.iter().any(|number| replica == *number)
    }
}
