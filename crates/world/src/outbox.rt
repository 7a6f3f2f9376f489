ghost use Rattle.std.specs.Prelude.{◌≡◌, ◌<◌, ◌++◌, [], true, false, not, length, replicate, slice_set, OnOk};
ghost use Rattle.std.specs.List.{position_from};

use quota_table::OutOfMemory;
use std::alloc::Global;
use std::marker::Model;

/// The messages of a history by number: whether a drain is to pass each over. Contracts see it as the list of these flags.
///
/// Each call is O(1), but for `push`, which is linear in what it takes, and `next_open`: all its calls together are
/// linear in the messages.
#[derive(Drop)]
pub(crate) struct Outbox {
    /// Of each message whether it was delivered or is to be passed over.
    settled: Vec<bool>,
    /// All messages below this number are settled. It only rises.
    next: usize,
}

impl Model for Outbox {
    ghost use Rattle.std.specs.Prelude.{List, Bool};

    ghost Value = { List Bool };

    ghost use Rattle.std.specs.Prelude.{◌≤◌, length};
    ghost use Rattle.world.specs.inside.Outboxes.{AreSettledBelow};

    ghost view = { λ o. o.settled.items };

    ghost invariant = { λ o. record { within : o.next ≤ length o.settled.items; below : AreSettledBelow o.next o.settled.items } };
}

impl Outbox {
    /// No message.
    pub fn new(alloc: Global) -> Outbox
        ensures { result ≡ [] }
    {
        Outbox {
            settled: Vec::new(alloc),
            next: 0,
        }
    }

    /// So many messages more; none of them is settled.
    pub fn push(&mut self, count: usize) -> Result<(), OutOfMemory>
        ensures { OnOk result (self.new ≡ self.old ++ replicate count false) }
    {
        for _ in 0..count {
            self.settled.push(false)?;
        }
        Ok(())
    }

    /// The message is settled.
    pub fn settle(&mut self, number: usize)
        requires { number < length self.old }
        ensures { self.new ≡ slice_set self.old number true }
    {
        self.settled[number] = true;
        if number == self.next {
            self.next += 1;
        }
    }

    /// The least number of a message that is not settled.
    pub fn next_open(&mut self) -> Option<usize>
        ensures open { result ≡ position_from not 0 self.old }
        ensures same { self.new ≡ self.old }
    {
        while self.next < self.settled.len() && self.settled[self.next] {
            self.next += 1;
        }
        if self.next < self.settled.len() {
            Some(self.next)
        } else {
            None
        }
    }
}
