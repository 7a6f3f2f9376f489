ghost use Rattle.std.specs.Prelude.{ℕ, ◌≡◌, ◌+◌, ◌<◌, ◌≤◌, length, slice_index, IfOk, OnOk, OnErr, None, IsTrue, IsSome};
ghost use Rattle.quota_table.specs.Rows.{IsTable};
ghost use Rattle.fix_ante.specs.Windows.{has_row};
ghost use Rattle.cut_core.specs.declared.effects.Effect.TheVariants.{Covered, Granted, Removed};
ghost use Rattle.fix_ante.specs.Moves.{first_failed_of};
ghost use Rattle.cut_core.specs.Agreements.{is_last_round, gone_row, count_of};
ghost use Rattle.cut_core.specs.Reasons.{fault_of, grant_fault, granted_fault, gone_fault};
ghost use Rattle.cut_core.specs.Effects.{effect_where_fit, cut_effect, ends_window};
ghost use Rattle.cut_core.specs.Fold.{HasValidTable, with_round, after_entry, after_cut, after_table, after_remove, open_granted};
ghost use Rattle.cut_core.specs.Soundness.{IsSound, HasFinalEnds};
ghost use Rattle.cut_core.specs.inside.Kept.{followed};

use crate::agreed::Agreed;
use crate::effects::Effect;
use crate::gone::{Gone, with_dropped, with_gone};
use crate::past::{Past, ends_after};
use arrayvec::ArrayVec;
use fix_ante::{Window, next, place, without};
use quota_table::{Entry, OutOfMemory, Table};
use std::mem::replace;

impl Agreed {
    /// Counts an entry that changes nothing else.
    pub(super) fn pass(&mut self)
        requires { self.old.slots < 1000000 }
        ensures { self.new ≡ record self.old { slots = self.old.slots + 1 } }
    {
        self.slots += 1;
    }

    /// Applies an entry that fits.
    pub(super) fn apply_fitting(&mut self, entry: &Entry) -> Result<Effect, OutOfMemory>
        requires fits { fault_of self.old entry.now ≡ None }
        requires few { self.old.slots < 1000000 }
        requires table { HasValidTable entry.now }
        ensures effect { IfOk result (λ effect. effect ≡ effect_where_fit self.old entry.now) }
        ensures ok { OnOk result (self.new ≡ record (after_entry self.old entry.now) { slots = self.old.slots + 1 }) }
        ensures err { OnErr result (self.new ≡ self.old) }
        ensures memory { OnErr result (IsTrue (ends_window (effect_where_fit self.old entry.now))) }
    {
        match entry {
            Entry::Nothing => {
                self.pass();
                Ok(Effect::Still)
            }
            Entry::Cut { .. } => self.cut(),
            Entry::Table { rounds, rows, .. } => Ok(self.grant(*rounds, rows)),
            Entry::Remove { shard, .. } => self.remove(*shard),
        }
    }

    /// Covers a round. The last one opens the granted window.
    fn cut(&mut self) -> Result<Effect, OutOfMemory>
        requires fits { grant_fault (is_last_round self.old) self.old.granted ≡ None }
        requires few { self.old.slots < 1000000 }
        ensures effect { IfOk result (λ effect. effect ≡ cut_effect self.old self.old.granted) }
        ensures ok { OnOk result (self.new ≡ record (after_cut self.old) { slots = self.old.slots + 1 }) }
        ensures err { OnErr result (self.new ≡ self.old) }
        ensures memory { OnErr result (IsTrue (is_last_round self.old)) }
    {
        if self.is_last_round() {
            return self.open_granted();
        }
        Ok(self.cover_round())
    }

    /// Covers a round that is not the last.
    fn cover_round(&mut self) -> Effect
        requires more { self.old.rounds + 1 < self.old.current.rounds }
        requires few { self.old.slots < 1000000 }
        ensures effect { result ≡ Covered (self.old.rounds + 1) }
        ensures new { self.new ≡ record (with_round self.old) { slots = self.old.slots + 1 } }
    {
        self.rounds += 1;
        self.slots += 1;
        Effect::Covered {
            rounds: self.rounds,
        }
    }

    /// Covers the last round of the current window, and opens the granted one.
    fn open_granted(&mut self) -> Result<Effect, OutOfMemory>
        requires last { IsTrue (is_last_round self.old) }
        requires granted { IsSome self.old.granted }
        requires few { self.old.slots < 1000000 }
        ensures effect { IfOk result (λ effect. effect ≡ cut_effect self.old self.old.granted) }
        ensures ok { OnOk result (self.new ≡ record (open_granted (with_round self.old) self.old.granted) { slots = self.old.slots + 1 }) }
        ensures err { OnErr result (self.new ≡ self.old) }
    {
        let Some(granted) = &self.granted else {
            unreachable!()
        };
        let next = granted.copy();
        let window = next.number();
        let rounds = self.current.rounds();
        let ends = ends_after(&self.current, rounds, &self.gone);
        let gone = with_dropped(&self.gone, &self.current, &next, &ends);
        self.follow(rounds, ends, next, gone)?;
        Ok(Effect::Opened { window })
    }

    /// Grants a window, which is to follow the current one.
    fn grant(&mut self, rounds: u16, rows: &Table) -> Effect
        requires some { 1 ≤ rounds }
        requires most { rounds ≤ 1024 }
        requires table { IsTable rows.now }
        requires free { granted_fault self.old.granted (gone_fault (gone_row self.old rows.now)) ≡ None }
        requires few { self.old.slots < 1000000 }
        ensures effect { result ≡ Granted (self.old.slots + 1) }
        ensures new { self.new ≡ record (after_table self.old rounds rows.now) { slots = self.old.slots + 1 } }
    {
        let window = self.slots + 1;
        self.granted = Some(next(&self.current, window, rounds, rows));
        self.slots = window;
        Effect::Granted { window }
    }

    /// Removes a shard: after the covered rounds the other rows go on, and a granted window is none any more.
    fn remove(&mut self, shard: u8) -> Result<Effect, OutOfMemory>
        requires row { IsTrue (has_row shard self.old.current.spots) }
        requires another { 2 ≤ length self.old.current.spots }
        requires few { self.old.slots < 1000000 }
        ensures effect { IfOk result (λ effect. effect ≡ Removed shard (first_failed_of self.old.current self.old.rounds shard)) }
        ensures ok { OnOk result (self.new ≡ record (after_remove self.old shard) { slots = self.old.slots + 1 }) }
        ensures err { OnErr result (self.new ≡ self.old) }
    {
        let covered = self.rounds;
        let ends = ends_after(&self.current, covered, &self.gone);
        let end = ends[usize::from(shard)];
        // The least position that moves is that of the shard's first local that is not covered.
        let Some(first) = place(&self.current, shard, end) else {
            unreachable!()
        };
        let next = without(&self.current, self.slots + 1, covered, shard);
        let gone = with_gone(&self.gone, shard, end);
        self.follow(covered, ends, next, gone)?;
        Ok(Effect::Removed { shard, first })
    }

    /// The current window is over after these rounds, and the next one follows.
    fn follow(
        &mut self,
        rounds: u16,
        ends: [u64; 6],
        next: Window,
        gone: ArrayVec<Gone, 6>,
    ) -> Result<(), OutOfMemory>
        requires from { self.old.rounds ≤ rounds }
        requires most { rounds ≤ self.old.current.rounds }
        requires few { self.old.slots < 1000000 }
        requires ends { (shard : ℕ) → shard < 6 → slice_index ends shard ≡ count_of shard (followed self.old rounds next gone.items).covered }
        requires sound { IsSound (followed self.old rounds next gone.items) }
        requires settled { HasFinalEnds (followed self.old rounds next gone.items) }
        ensures ok { OnOk result (self.new ≡ followed self.old rounds next gone.items) }
        ensures err { OnErr result (self.new ≡ self.old) }
    {
        self.past.reserve(1)?;
        let end = self.current.base() + u64::from(rounds) * u64::from(self.current.width());
        let window = replace(&mut self.current, next);
        let Ok(()) = self.past.push(Past {
            window,
            rounds,
            end,
            ends,
        })
        else {
            unreachable!()
        };
        self.rounds = 0;
        self.granted = None;
        self.gone = gone;
        self.slots += 1;
        Ok(())
    }
}
