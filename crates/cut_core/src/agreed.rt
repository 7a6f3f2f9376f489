ghost use Rattle.std.specs.Prelude.{◌≡◌, ◌+◌, ◌<◌, ◌≤◌, ◌↔◌, ◌^◌, length, IfOk, OnErr, IsTrue, Some, IfSome, IsSome, MatchOption};
ghost use Rattle.std.specs.List.{slice_get};
ghost use Rattle.std.specs.Option.{option_copied};
ghost use Rattle.fix_ante.specs.Windows.{end_of};
ghost use Rattle.cut_core.specs.Agreements.{agreement_from};
ghost use Rattle.cut_core.specs.Map.{located, placed, covered_locals, gone_end};
ghost use Rattle.cut_core.specs.Effects.{effect_of, ends_window};
ghost use Rattle.cut_core.specs.Fold.{applied, HasValidTable};
ghost use Rattle.cut_core.specs.Soundness.{IsFirst, IsSound};
ghost use Rattle.cut_core.specs.inside.Kept.{IsPast, StandsIn, IsPastLocal, HasLocal};

mod faults;
mod steps;

use crate::effects::Effect;
use crate::gone::{Gone, end_among};
use crate::past::{Past, count_to_local, count_to_position, local_end, window_from};
use arrayvec::ArrayVec;
use fix_ante::{Owner, Window, owner, place};
use quota_table::{Entry, OutOfMemory};
use std::alloc::Global;
use std::marker::Model;

/// What the entries so far have agreed on. Contracts see it as an `Agreement`.
///
/// The covered positions are told from the windows that are over and from the current one: no list of positions is
/// kept. An entry costs at most O(rows), amortised. Readers take no memory, and cost at most O(rows + log n) in the
/// number of windows.
#[derive(Debug, Drop)]
pub struct Agreed {
    /// How many entries were applied, at most 1,000,000.
    slots: u32,
    /// The windows that are over, in order.
    past: Vec<Past>,
    current: Window,
    /// The covered rounds of the current window, fewer than it has.
    rounds: u16,
    /// The window that follows the current one.
    granted: Option<Window>,
    /// The shards that are gone, in order of going.
    gone: ArrayVec<Gone, 6>,
}

impl Model for Agreed {
    ghost use Rattle.cut_core.specs.Agreements.{Agreement};

    ghost Value = { Agreement };

    ghost use Rattle.cut_core.specs.inside.Kept.{agreement_of, IsAgreed};

    ghost view = { agreement_of };

    ghost invariant = { IsAgreed };
}

impl Agreed {
    /// Nothing is agreed on but the first window. It takes no memory.
    pub fn new(alloc: Global, first: Window) -> Result<Agreed, OutOfMemory>
        requires { IsFirst first }
        ensures { IfOk result (λ agreed. agreed ≡ agreement_from first) }
    {
        prove!(first.base() == 0);
        Ok(Agreed {
            slots: 0,
            past: Vec::new(alloc),
            current: first,
            rounds: 0,
            granted: None,
            gone: ArrayVec::new(),
        })
    }

    /// Applies the next entry, and tells what it did. An entry that does not fit changes nothing but the count of
    /// entries, and takes no memory. At an error all is as before.
    pub fn apply(&mut self, slot: u32, entry: &Entry) -> Result<Effect, OutOfMemory>
        requires slot { slot ≡ self.old.slots }
        requires few { slot < 1000000 }
        requires table { HasValidTable entry.now }
        ensures effect { IfOk result (λ effect. effect ≡ effect_of self.old entry.now) }
        ensures ok { IfOk result (λ _. self.new ≡ applied self.old entry.now) }
        ensures err { OnErr result (self.new ≡ self.old) }

        // Memory is taken only where another window follows the current one.
        ensures memory { OnErr result (IsTrue (ends_window (effect_of self.old entry.now))) }
    {
        prove!(slot == self.slots);
        match self.fault(entry) {
            Some(reason) => {
                self.pass();
                Ok(Effect::Void { reason })
            }
            None => self.apply_fitting(entry),
        }
    }

    /// How many entries were applied, at most 1,000,000.
    pub fn slots(&self) -> u32
        ensures slots { result ≡ self.now.slots }
        ensures most { result ≤ 1000000 }
        ensures sound { IsSound self.now }
    {
        self.slots
    }

    /// The current window. It ends at 2^48 at most.
    pub fn current(&self) -> &Window
        ensures window { result.now ≡ self.now.current }
        ensures end { end_of self.now.current ≤ 2 ^ 48 }
        ensures sound { IsSound self.now }
    {
        &self.current
    }

    /// The covered rounds of the current window, fewer than it has.
    pub fn rounds_covered(&self) -> u16
        ensures rounds { result ≡ self.now.rounds }
        ensures short { result < self.now.current.rounds }
    {
        self.rounds
    }

    /// The window that follows the current one. None exactly where none is granted. It ends at 2^48 at most.
    pub fn granted(&self) -> Option<&Window>
        ensures window { option_copied result ≡ self.now.granted }
        ensures end { IfSome result (λ window. end_of window.now ≤ 2 ^ 48) }
    {
        self.granted.as_ref()
    }

    /// How many positions are covered, at most 2^48.
    pub fn covered(&self) -> u64
        ensures covered { result ≡ length self.now.covered }
        ensures most { result ≤ 2 ^ 48 }
    {
        self.current.base() + u64::from(self.rounds) * u64::from(self.current.width())
    }

    /// How many of the shard's locals are covered: 0 where there is no such shard.
    pub fn locals(&self, shard: u8) -> u64
        ensures locals { result ≡ covered_locals self.now shard }
        ensures most { result ≤ length self.now.covered }
        ensures reach { result ≤ 2 ^ 48 }
    {
        local_end(&self.current, self.rounds, &self.gone, shard)
    }

    /// One past the shard's last local, all of which are covered. None exactly where it is not gone.
    pub fn gone(&self, shard: u8) -> Option<u64>
        ensures end { result ≡ gone_end self.now shard }
        ensures covered { IfSome result (λ end. end ≡ covered_locals self.now shard) }
    {
        end_among(&self.gone, shard)
    }

    /// Who has a covered position. None exactly at or past the covered ones.
    #[inline(always)]
    pub fn locate(&self, position: u64) -> Option<Owner>
        ensures owner { result ≡ located self.now position }
        ensures within { IsSome result ↔ (position < length self.now.covered) }
        ensures place { IfSome result (λ o. placed self.now o.shard o.local ≡ Some position) }
        ensures limits { IfSome result (λ o. (o.shard < 6) × (o.local ≤ position)) }
    {
        owner(self.window_at(position)?, position)
    }

    /// The position of a covered local. None exactly at or past the shard's covered locals.
    #[inline(always)]
    pub fn place(&self, shard: u8, local: u64) -> Option<u64>
        ensures place { result ≡ placed self.now shard local }
        ensures within { IsSome result ↔ (local < covered_locals self.now shard) }
        ensures below { IfSome result (λ p. p < length self.now.covered) }
        ensures owner { IfSome result (λ p. located self.now p ≡ Some (record { shard = shard; local = local })) }
    {
        place(self.window_of(shard, local)?, shard, local)
    }

    /// The number of the window in which a covered position stands. None exactly at or past the covered positions.
    pub fn number_at(&self, position: u64) -> Option<u32>
        ensures { result ≡ slice_get self.now.numbers position }
    {
        Some(self.window_at(position)?.number())
    }

    /// The window in which a covered position stands.
    fn window_at(&self, position: u64) -> Option<&Window>
        ensures window { MatchOption result
            (IsPast self.now position)
            (λ window. (position < length self.now.covered) × StandsIn self.now position window.now) }
        ensures sound { IsSound self.now }
    {
        let past = &self.past;
        if position >= self.covered() {
            return None;
        }
        // Most positions that are looked up stand in the current window: they need no search.
        if position >= self.current.base() {
            return Some(&self.current);
        }
        let over = count_to_position(past, position);
        Some(window_from(past, over, &self.current))
    }

    /// The window in which a shard's covered local stands.
    fn window_of(&self, shard: u8, local: u64) -> Option<&Window>
        ensures { MatchOption result
            (IsPastLocal self.now shard local)
            (λ window. (local < covered_locals self.now shard) × HasLocal self.now shard local window.now) }
    {
        let past = &self.past;
        if shard > 5 || local >= self.locals(shard) {
            return None;
        }
        let over = count_to_local(past, shard, local);
        Some(window_from(past, over, &self.current))
    }
}
