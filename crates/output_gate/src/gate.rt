ghost use Rattle.std.specs.Prelude.{◌≡◌, ◌≤◌, ◌<◌, ◌+◌, ◌++◌, [], length, IfOk};
ghost use Rattle.app_law.specs.Positions.{below, IsPast};
ghost use Rattle.output_gate.specs.Gates.{out_position, holding, gate_below, gate_from};
ghost use Rattle.output_gate.specs.Steps.{TakesOldest, DropsNewest};

use crate::kept::{Kept, KeptOut};
use quota_table::OutOfMemory;
use record_codec::Output;
use std::alloc::Global;
use std::collections::VecDeque;
use std::marker::Model;

/// The outputs that are held back, the oldest first. Contracts see their list and the room.
#[derive(Debug, Drop)]
pub struct OutputGate {
    held: VecDeque<KeptOut>,
}

impl Model for OutputGate {
    ghost use Rattle.std.specs.VecDeque.{deque_capacity};
    ghost use Rattle.app_law.specs.Positions.{IsRising};
    ghost use Rattle.output_gate.specs.Gates.{Gate, out_position};

    ghost Value = { Gate };

    ghost view = { λ g. record { room = deque_capacity g.held; held = g.held.items } };

    ghost invariant = { λ g. IsRising out_position g.held.items };
}

impl OutputGate {
    /// Room for `n` outputs, and none of them yet. It takes all the memory.
    pub fn with_room(alloc: Global, n: usize) -> Result<OutputGate, OutOfMemory>
        ensures { IfOk result (λ gate. gate ≡ record { room = n; held = [] }) }
    {
        Ok(OutputGate {
            held: VecDeque::with_capacity(alloc, n)?,
        })
    }

    /// Holds the output of the record at a position past all that are held.
    pub fn hold(&mut self, position: u64, out: Output)
        requires room { length self.old.held < self.old.room }
        requires past { IsPast out_position self.old.held position }
        ensures { self.new ≡ holding self.old position out }
    {
        self.held.push_back_reserved(KeptOut { position, out });
    }

    /// Gives the outputs below a position, in order.
    pub fn release_below(&mut self, position: u64, into: &mut Kept)
        requires { length into.old + length (below out_position position self.old.held) ≤ 3 }
        ensures gate { self.new ≡ gate_from self.old position }
        ensures released { into.new ≡ into.old ++ below out_position position self.old.held }
    {
        while let Some(kept) = self.take_oldest(position) {
            into.push(kept);
        }
    }

    /// Gives the oldest output, where it stands below a position.
    pub fn take_oldest(&mut self, position: u64) -> Option<KeptOut>
        ensures { TakesOldest position self.old self.new result }
    {
        self.held.pop_front_if(|kept| kept.position < position)
    }

    /// Drops the outputs from a position on.
    pub fn drop_from(&mut self, position: u64)
        ensures { self.new ≡ gate_below self.old position }
    {
        while self.drop_newest(position) {}
    }

    /// Drops the newest output, where it stands at a position or past it.
    fn drop_newest(&mut self, position: u64) -> bool
        ensures { DropsNewest position self.old self.new result }
    {
        match self.held.pop_back_if(|kept| kept.position >= position) {
            Some(_) => true,
            None => false,
        }
    }
}
