ghost use Rattle.std.specs.BTreeMap.{get};
ghost use Rattle.std.specs.Ordering.{nat_cmp};
ghost use Rattle.std.specs.Option.{option_or};
ghost use Rattle.std.specs.Prelude.{ℕ, ◌≡◌, ◌≤◌, ◌++◌, ◌∷◌, [], nat_lt, true, false, length, OnOk, OnErr, All};
ghost use Rattle.std.specs.List.Sorted.{IsNonDecreasingBy, IsPartitionPoint};
ghost use Rattle.shard_log.specs.declared.index.Place.{Place};
ghost use Rattle.shard_log.specs.inside.Places.{last_below, first_with, local_with};

use quota_table::OutOfMemory;
use std::alloc::Global;
use std::collections::BTreeMap;
use std::marker::Model;

/// Where a record of a client stands in a log, and its number.
#[derive(Clone, Copy, Debug)]
pub struct Place {
    pub local: u64,
    pub number: u64,
}

/// The places of one client's records in a log, in order of local. Contracts see it as that list.
/// Each look-up and each push costs O(log n) in its length.
#[derive(Debug, Drop)]
pub struct ClientIndex {
    places: Vec<Place>,
    /// The first local of each number.
    locals: BTreeMap<u64, u64>,
}

impl Model for ClientIndex {
    ghost use Rattle.std.specs.Prelude.{List};
    ghost use Rattle.shard_log.specs.declared.index.Place.{Place};

    ghost Value = { List Place };

    ghost use Rattle.shard_log.specs.inside.Index.{IsIndex};

    ghost view = { λ i. i.places.items };

    ghost invariant = { IsIndex };
}

impl ClientIndex {
    /// No place. It takes no memory.
    pub fn new(alloc: Global) -> ClientIndex
        ensures { result ≡ [] }
    {
        ClientIndex {
            places: Vec::new(alloc),
            locals: BTreeMap::new(alloc),
        }
    }

    /// The number of the last place below `end`.
    pub fn last_below(&self, end: u64) -> Option<u64>
        ensures { result ≡ last_below end self.now }
    {
        let count = count_below(&self.places, end);
        self.places[..count].last().map(|place| place.number)
    }

    /// The local of the first place with this number.
    pub fn local_of(&self, number: u64) -> Option<u64>
        ensures { result ≡ first_with number self.now }
    {
        self.locals.get(&number).copied()
    }

    /// Puts a place at the end. At an error the places are as before.
    pub fn push(&mut self, place: Place) -> Result<(), OutOfMemory>
        requires { All (λ (p : Place). p.local ≤ place.local) self.old }
        ensures ok { OnOk result (self.new ≡ self.old ++ place ∷ []) }
        ensures err { OnErr result (self.new ≡ self.old) }
    {
        self.places.reserve(1)?;
        keep_first(&mut self.locals, &place)?;
        let Ok(()) = self.places.push(place) else {
            unreachable!()
        };
        Ok(())
    }
}

/// How many of the places, which stand in order of local, are below `end`.
fn count_below(places: &[Place], end: u64) -> usize
    requires { IsNonDecreasingBy (λ (p : Place). p.local) places.now }
    ensures bound { result ≤ length places.now }
    ensures point { IsPartitionPoint (λ (p : Place). nat_lt p.local end ≡ true) (λ (p : Place). nat_lt p.local end ≡ false) places.now result }
{
    places.partition_point(|place| place.local < end)
}

/// Notes the local of a place's number, where none is noted yet. At an error nothing changes.
fn keep_first(locals: &mut BTreeMap<u64, u64>, place: &Place) -> Result<(), OutOfMemory>
    ensures ok { OnOk result ((number : ℕ) → get nat_cmp locals.new number ≡ option_or (get nat_cmp locals.old number) (local_with number place.now)) }
    ensures err { OnErr result ((number : ℕ) → get nat_cmp locals.new number ≡ get nat_cmp locals.old number) }
{
    if !locals.contains_key(&place.number) {
        locals.insert(place.number, place.local)?;
    }
    Ok(())
}
