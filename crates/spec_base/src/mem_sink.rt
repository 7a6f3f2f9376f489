ghost use Rattle.std.specs.Prelude.{◌≡◌, ◌↔◌, ℕ, [], Some, ◌<◌, ◌≤◌, min, length, take, IsTrue, IfOk, OnErr, IsErrOf};
ghost use Rattle.std.specs.Io.KnownBytes.{append_known};
ghost use Rattle.spec_base.specs.Faults.{CountsFault, StaysSound};
ghost use Rattle.spec_base.specs.Plan.{fresh_plan, fails_next, is_sound, after_call};
ghost use Rattle.spec_base.specs.declared.stop.Stop.TheVariants.{Failed};

use crate::plan::FailPlan;
use crate::sink::Sink;
use crate::stop::Stop;
use quota_table::{Bytes, OutOfMemory};
use std::alloc::Global;
use std::marker::Model;

/// A sink that keeps the bytes it takes, tells them, and fails at the calls that it was told to.
#[derive(Debug, Drop)]
pub struct MemSink {
    taken: Bytes,
    most: usize,
    plan: FailPlan,
}

impl Model for MemSink {
    ghost use Rattle.std.specs.Prelude.{◌≤◌};
    ghost use Rattle.spec_base.specs.Memory.{SinkMemory};

    ghost Value = { SinkMemory };

    ghost view = { λ s. record { taken = s.taken; most = s.most; plan = s.plan } };

    ghost invariant = { λ s. 1 ≤ s.most };
}

impl MemSink {
    /// A sink that takes at most `most` bytes at a call. The calls whose numbers, from 0, are in `fails` answer
    /// Failed and take nothing; with an empty list none ever does.
    pub fn new(alloc: Global, most: usize, fails: &[u64]) -> Result<MemSink, OutOfMemory>
        requires { 1 ≤ most }
        ensures { IfOk result (λ sink. sink ≡ record { taken = []; most = most; plan = fresh_plan fails.now }) }
    {
        Ok(MemSink {
            taken: Bytes::new(alloc),
            most,
            plan: FailPlan::new(alloc, fails)?,
        })
    }

    /// The bytes taken so far.
    pub fn taken(&self) -> &[u8]
        ensures { result.now ≡ self.now.taken }
    {
        self.taken.as_slice()
    }
}

impl Sink for MemSink {
    ghost taken = { λ s. Some s.taken };

    ghost faults = { λ s. s.plan.faults };

    ghost never_fails = { λ s. is_sound s.plan };

    /// It answers as the plan says, or for want of memory.
    fn write(&mut self, piece: &[u8]) -> Result<usize, Stop>
        ensures most { IfOk result (λ n. n ≡ min self.old.most (length piece.now)) }
        ensures failed { IsErrOf result Failed ↔ IsTrue (fails_next self.old.plan) }
        ensures planned { self.new.plan ≡ after_call self.old.plan }
        ensures same { self.new.most ≡ self.old.most }
        ensures fits { IfOk result (λ n. n ≤ length piece.now) }
        ensures some { IfOk result (λ n. 0 < length piece.now → 0 < n) }
        ensures taken { IfOk result (λ n. Some self.new.taken ≡ append_known (Some self.old.taken) (take n piece.now)) }
        ensures err { OnErr result (Some self.new.taken ≡ Some self.old.taken) }
        ensures count { CountsFault self.old.plan.faults self.new.plan.faults result }
        ensures sound { StaysSound (is_sound self.old.plan) (is_sound self.new.plan) self.old.plan.faults self.new.plan.faults }
    {
        if self.plan.next_fails() {
            return Err(Stop::Failed);
        }
        let count = self.most.min(piece.len());
        self.taken.extend_from_slice(&piece[..count])?;
        Ok(count)
    }
}
