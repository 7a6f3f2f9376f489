ghost use Rattle.std.specs.Prelude.{◌≡◌, ◌<◌, ◌≤◌, ◌^◌, ◌+◌, ◌||◌, nat_le, length, IsSome, IfOk, OnOk, OnErr};
ghost use Rattle.std.specs.Option.{option_copied};
ghost use Rattle.spec_delivery.specs.declared.put.Put.TheVariants.{Kept};
ghost use Rattle.spec_delivery.specs.Lanes.{IsInReach, HoldsInReach, fresh_lane, held_at, is_past_end, is_kept, put_answer, after_put, raised, closed, emptied};

use crate::put::Put;
use quota_table::OutOfMemory;
use record_codec::Record;
use std::alloc::Global;
use std::collections::BTreeMap;
use std::marker::Model;

/// How many locals past its floor a shard's records are held: those less than this past it.
pub const REACH: u64 = 640;

/// The records of one shard.
#[derive(Debug, Drop)]
pub(crate) struct Lane {
    /// How many of its locals are confirmed.
    floor: u64,
    /// Its final local end, once the shard is gone.
    end: Option<u64>,
    held: BTreeMap<u64, Record>,
}

impl Model for Lane {
    ghost use Rattle.std.specs.Prelude.{◌≤◌, ◌^◌};
    ghost use Rattle.std.specs.List.Sorted.{IsStrictlySortedBy};
    ghost use Rattle.std.specs.Map.{keys_of};
    ghost use Rattle.std.specs.Ordering.{nat_cmp};
    ghost use Rattle.spec_delivery.specs.Lanes.{LaneState, HoldsInReach};

    ghost Value = { LaneState };

    ghost view = { λ l. record { floor = l.floor; end = l.end; held = l.held.entries } };

    ghost invariant = { λ l. (l.floor ≤ 2 ^ 48) × HoldsInReach (record { floor = l.floor; end = l.end; held = l.held.entries }) × IsStrictlySortedBy nat_cmp (keys_of l.held.entries) };
}

impl Lane {
    /// A lane with nothing confirmed or held. It takes no memory.
    pub(crate) fn new(alloc: Global) -> Lane
        ensures { result ≡ fresh_lane }
    {
        Lane {
            floor: 0,
            end: None,
            held: BTreeMap::new(alloc),
        }
    }

    /// How many locals are confirmed. What is held is in reach, and so at most 640 records.
    pub(crate) fn floor(&self) -> u64
        ensures floor { result ≡ self.now.floor }
        ensures within { result ≤ 2 ^ 48 }
        ensures reach { HoldsInReach self.now }
        ensures few { length self.now.held ≤ 640 }
    {
        self.floor
    }

    /// The final local end, once the shard is gone.
    pub(crate) fn end(&self) -> Option<u64>
        ensures { result ≡ self.now.end }
    {
        self.end
    }

    /// The record that is held at a local.
    pub(crate) fn at(&self, local: u64) -> Option<&Record>
        ensures value { option_copied result ≡ held_at self.now local }
        ensures reach { IsSome (held_at self.now local) → IsInReach self.now local }
    {
        self.held.get(&local)
    }

    /// Whether a record that is put at a local would be kept.
    pub(crate) fn wants(&self, local: u64) -> bool
        ensures { result ≡ is_kept (put_answer self.now local) }
    {
        self.answer_at(local) == Put::Kept
    }

    /// Holds a copy of a record, unless its local is out of reach or has one already. At an error all is as before.
    pub(crate) fn put(&mut self, local: u64, rec: &Record) -> Result<Put, OutOfMemory>
        ensures answer { IfOk result (λ put. put ≡ put_answer self.old local) }
        ensures lane { IfOk result (λ put. self.new ≡ after_put put self.old local rec.now) }
        ensures err { OnErr result (self.new ≡ self.old) }
    {
        let answer = self.answer_at(local);
        if answer == Put::Kept {
            self.keep(local, rec.clone()?)?;
        }
        Ok(answer)
    }

    /// Holds a record at a local in reach. At an error all is as before.
    fn keep(&mut self, local: u64, rec: Record) -> Result<(), OutOfMemory>
        requires { IsInReach self.old local }
        ensures lane { OnOk result (self.new ≡ after_put Kept self.old local rec) }
        ensures err { OnErr result (self.new ≡ self.old) }
    {
        self.held.insert(local, rec)?;
        Ok(())
    }

    /// What becomes of a record that is put at a local.
    fn answer_at(&self, local: u64) -> Put
        ensures { result ≡ put_answer self.now local }
    {
        if local < self.floor {
            Put::Old
        } else if self.is_far(local) {
            Put::Far
        } else if self.at(local).is_some() {
            Put::Again
        } else {
            Put::Kept
        }
    }

    fn is_far(&self, local: u64) -> bool
        ensures { result ≡ (nat_le (self.now.floor + 640) local || is_past_end self.now.end local) }
    {
        let end = match self.end {
            Some(end) => local >= end,
            None => false,
        };
        local >= self.floor + REACH || end
    }

    /// One more local is confirmed; its record is dropped.
    pub(crate) fn raise(&mut self)
        requires { self.old.floor < 2 ^ 48 }
        ensures { self.new ≡ raised self.old }
    {
        self.held.remove(&self.floor);
        self.floor += 1;
    }

    /// The shard ends there; what is at or past the end is dropped.
    pub(crate) fn close(&mut self, end: u64)
        ensures { self.new ≡ closed self.old end }
    {
        self.held.retain(|local, _| *local < end);
        self.end = Some(end);
    }

    /// Drops what is held.
    pub(crate) fn clear(&mut self)
        ensures { self.new ≡ emptied self.old }
    {
        self.held.clear();
    }
}
