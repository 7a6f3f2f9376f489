ghost use Rattle.std.specs.Prelude.{◌≡◌, ℕ, List, Option, Some, Ok, Err, ◌<◌, ◌≤◌, length, take, drop, min, if◌then◌else◌, IfOk, OnErr};
ghost use Rattle.std.specs.Io.KnownBytes.{prepend_known, IsAtEnd};
ghost use Rattle.spec_base.specs.Faults.{CountsFault, StaysSound};
ghost use Rattle.spec_base.specs.Plan.{fresh_plan, fails_next, is_sound, after_call};
ghost use Rattle.spec_base.specs.declared.stop.Stop.TheVariants.{Failed};

use crate::copying::copy_front;
use crate::plan::FailPlan;
use crate::source::Source;
use crate::stop::Stop;
use quota_table::OutOfMemory;
use std::alloc::Global;
use std::marker::Model;

/// A source over bytes in memory, which tells what is left, and fails at the calls that it was told to.
#[derive(Debug, Drop)]
pub struct MemSource {
    bytes: Vec<u8>,
    /// How many of the bytes have been given.
    at: usize,
    most: usize,
    plan: FailPlan,
}

impl Model for MemSource {
    ghost use Rattle.std.specs.Prelude.{◌≤◌, length, drop};
    ghost use Rattle.spec_base.specs.Memory.{SourceMemory};

    ghost Value = { SourceMemory };

    ghost view = { λ s. record { left = drop s.at s.bytes.items; most = s.most; plan = s.plan } };

    ghost invariant = { λ s. (s.at ≤ length s.bytes.items) × (1 ≤ s.most) };
}

impl MemSource {
    /// A source of these bytes that gives at most `most` at a call. The calls whose numbers, from 0, are in `fails`
    /// answer Failed and give nothing; with an empty list none ever does.
    pub fn new(
        alloc: Global,
        bytes: &[u8],
        most: usize,
        fails: &[u64],
    ) -> Result<MemSource, OutOfMemory>
        requires { 1 ≤ most }
        ensures { IfOk result (λ source. source ≡ record { left = bytes.now; most = most; plan = fresh_plan fails.now }) }
    {
        Ok(MemSource {
            bytes: Vec::from_slice(alloc, bytes)?,
            at: 0,
            most,
            plan: FailPlan::new(alloc, fails)?,
        })
    }
}

impl Source for MemSource {
    ghost left = { λ s. Some s.left };

    ghost faults = { λ s. s.plan.faults };

    ghost never_fails = { λ s. is_sound s.plan };

    /// It takes no memory, so it answers as the plan says.
    fn read(&mut self, into: &mut [u8]) -> Result<usize, Stop>
        ensures answer { result ≡ (if fails_next self.old.plan then Err Failed
            else Ok (min self.old.most (min (length self.old.left) (length into.old)))) }
        ensures planned { self.new.plan ≡ after_call self.old.plan }
        ensures most { self.new.most ≡ self.old.most }
        ensures untouched { OnErr result (into.new ≡ into.old) }
        ensures behind { IfOk result (λ n. drop n into.new ≡ drop n into.old) }
        ensures fits { IfOk result (λ n. n ≤ length into.new) }
        ensures given { IfOk result (λ n. Some self.old.left ≡ prepend_known (take n into.new) (Some self.new.left)) }
        ensures end { IfOk result (λ n. n ≡ 0 → 0 < length into.new → IsAtEnd (Some self.new.left)) }
        ensures err { OnErr result (Some self.new.left ≡ Some self.old.left) }
        ensures count { CountsFault self.old.plan.faults self.new.plan.faults result }
        ensures sound { StaysSound (is_sound self.old.plan) (is_sound self.new.plan) self.old.plan.faults self.new.plan.faults }
    {
        if self.plan.next_fails() {
            return Err(Stop::Failed);
        }
        let (_, left) = self.bytes.as_slice().split_at(self.at);
        let count = copy_front(left, self.most, into);
        self.at += count;
        Ok(count)
    }
}
