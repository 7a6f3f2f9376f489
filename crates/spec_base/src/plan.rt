ghost use Rattle.std.specs.Prelude.{◌≡◌, ◌==◌, IfOk, MatchBool};
ghost use Rattle.std.specs.List.{list_any};
ghost use Rattle.spec_base.specs.Faults.{RoseByOne};
ghost use Rattle.spec_base.specs.Plan.{fresh_plan, fails_next, after_call};

use quota_table::OutOfMemory;
use std::alloc::Global;
use std::marker::Model;

/// Which calls of an object in memory fail: their numbers, counted from 0.
#[derive(Debug, Drop)]
pub struct FailPlan {
    calls: u64,
    faults: u64,
    fails: Vec<u64>,
}

impl Model for FailPlan {
    ghost use Rattle.spec_base.specs.Plan.{Plan};

    ghost Value = { Plan };

    ghost view = { λ p. record { fails = p.fails.items; calls = p.calls; faults = p.faults } };
}

impl FailPlan {
    pub fn new(alloc: Global, fails: &[u64]) -> Result<FailPlan, OutOfMemory>
        ensures { IfOk result (λ plan. plan ≡ fresh_plan fails.now) }
    {
        Ok(FailPlan {
            calls: 0,
            faults: 0,
            fails: Vec::from_slice(alloc, fails)?,
        })
    }

    /// How many calls have failed, up to 2^64 - 1.
    pub fn faults(&self) -> u64
        ensures { result ≡ self.now.faults }
    {
        self.faults
    }

    /// Counts one call, and says whether it fails.
    pub fn next_fails(&mut self) -> bool
        ensures fails { result ≡ fails_next self.old }
        ensures plan { self.new ≡ after_call self.old }
        ensures count { MatchBool result (RoseByOne self.old.faults self.new.faults) (self.new.faults ≡ self.old.faults) }
    {
        let fails = is_listed(&self.fails, self.calls);
        self.calls = self.calls.saturating_add(1);
        if fails {
            self.faults = self.faults.saturating_add(1);
        }
        fails
    }
}

fn is_listed(calls: &[u64], number: u64) -> bool
    ensures { result ≡ list_any (λ call. call == number) calls.now }
{
    calls.iter().any(|call| *call == number)
}
