ghost use Rattle.std.specs.Prelude.{◌≡◌, ◌+◌, ◌<◌, ◌≤◌, ◌↔◌, ◌^◌, length, Some, IfOk, OnOk, OnErr, IfSome, IsSome, MatchResult};
ghost use Rattle.std.specs.List.{slice_get};
ghost use Rattle.std.specs.Option.{option_copied, option_map};
ghost use Rattle.cut_core.specs.Agreements.{count_of};
ghost use Rattle.cut_core.specs.Map.{map_of, mapped, leased, numbers_of};
ghost use Rattle.cut_core.specs.Effects.{effect_of};
ghost use Rattle.cut_core.specs.Fold.{HasValidTable};
ghost use Rattle.cut_core.specs.Soundness.{IsFirst, IsSound};
ghost use Rattle.cut_core.specs.Consistency.{IsConsistent};
ghost use Rattle.lease_window.specs.Known.{known_from, with_entry, agreed_of};
ghost use Rattle.lease_window.specs.inside.Leases.{lease_of, lease_in};
ghost use Rattle.lease_window.specs.declared.errors.LearnError.TheVariants.{Gap, Old, OutOfMemory as NoRoom};
ghost use Rattle.lease_window.specs.declared.lease.Lease.{Lease as LeaseOf};

use crate::errors::LearnError;
use crate::lease::Lease;
use cut_core::{Agreed, Effect};
use fix_ante::{Owner, Window, owner, place};
use quota_table::{Entry, OutOfMemory};
use std::alloc::Global;
use std::marker::Model;

/// The agreed entries that a node knows, from slot 0 on, with what they agree on.
/// Contracts see it as the first window and the list of the entries (`KnownEntries`), from which `agreed_of` is the
/// agreed state.
///
/// An entry is learned in O(1) beyond what it costs to apply it; readers take no memory, and O(log k) in the number of
/// windows at most.
#[derive(Debug, Drop)]
pub struct Known {
    /// The window before any entry: what is agreed on is told from it.
    first: Window,
    /// The known entries, at most 1,000,000.
    entries: Vec<Entry>,
    /// What they agree on.
    agreed: Agreed,
}

impl Model for Known {
    ghost use Rattle.lease_window.specs.Known.{KnownEntries};

    ghost Value = { KnownEntries };

    ghost use Rattle.lease_window.specs.inside.Kept.{IsKnown};

    ghost view = { λ k. record { first = k.first; entries = k.entries.items } };

    ghost invariant = { IsKnown };
}

impl Known {
    /// No entry is known.
    pub fn new(alloc: Global, first: Window) -> Result<Known, OutOfMemory>
        requires { IsFirst first }
        ensures { IfOk result (λ known. known ≡ known_from first) }
    {
        let agreed = Agreed::new(alloc, first.copy())?;
        // No entry is applied: with its count a reader tells that the state is sound.
        prove!(agreed.slots() == 0);
        Ok(Known {
            first,
            entries: Vec::new(alloc),
            agreed,
        })
    }

    /// Learns the entry of the next slot, and tells what it did. At an error nothing is learned: where the slot is past
    /// the next one (`Gap`), where its entry is known already (`Old`), and where memory was refused.
    pub fn learn(&mut self, slot: u32, entry: &Entry) -> Result<Effect, LearnError>
        requires few { slot < 1000000 }
        requires table { HasValidTable entry.now }
        ensures gap { length self.old.entries < slot → result ≡ Err (Gap (length self.old.entries)) }
        ensures old { slot < length self.old.entries → result ≡ Err (Old (length self.old.entries)) }
        ensures next { slot ≡ length self.old.entries → MatchResult result (λ effect. effect ≡ effect_of (agreed_of self.old) entry.now) (λ error. error ≡ NoRoom) }
        ensures ok { OnOk result (self.new ≡ with_entry entry.now self.old) }
        ensures err { OnErr result (self.new ≡ self.old) }
    {
        let count = self.count();
        if slot > count {
            return Err(LearnError::Gap { expected: count });
        }
        if slot < count {
            return Err(LearnError::Old { count });
        }
        self.learn_next(slot, entry)
            .map_err(|_| LearnError::OutOfMemory)
    }

    /// Learns the entry of the next slot. At an error all is as before.
    fn learn_next(&mut self, slot: u32, entry: &Entry) -> Result<Effect, OutOfMemory>
        requires next { slot ≡ length self.old.entries }
        requires few { slot < 1000000 }
        requires table { HasValidTable entry.now }
        ensures effect { IfOk result (λ effect. effect ≡ effect_of (agreed_of self.old) entry.now) }
        ensures ok { OnOk result (self.new ≡ with_entry entry.now self.old) }
        ensures err { OnErr result (self.new ≡ self.old) }
    {
        let learned = copied(entry)?;
        self.entries.reserve(1)?;
        let effect = self.agreed.apply(slot, entry)?;
        let Ok(()) = self.entries.push(learned) else {
            unreachable!()
        };
        Ok(effect)
    }

    /// How many entries are known: the slot of the next one, at most 1,000,000.
    pub fn count(&self) -> u32
        ensures count { result ≡ length self.now.entries }
        ensures most { result ≤ 1000000 }
    {
        self.agreed.slots()
    }

    /// The entry of a slot. None exactly where it is not known.
    pub fn entry(&self, slot: u32) -> Option<&Entry>
        ensures { option_copied result ≡ slice_get self.now.entries slot }
    {
        self.entries.get(slot as usize)
    }

    /// What the known entries agree on.
    pub fn agreed(&self) -> &Agreed
        ensures agreed { result.now ≡ agreed_of self.now }
        ensures sound { IsSound (agreed_of self.now) }
        ensures consistent { IsConsistent (agreed_of self.now) }
    {
        &self.agreed
    }

    /// The position that a shard's local has, and the number of the window in which it stands: a covered one, or one
    /// in the current window or in the granted one. None exactly where none of these has the local.
    pub fn leased(&self, shard: u8, local: u64) -> Option<Lease>
        ensures position { option_map (λ (l : LeaseOf). l.position) result ≡ leased (agreed_of self.now) shard local }
        ensures window { IfSome result (λ l. slice_get (numbers_of (agreed_of self.now)) l.position ≡ Some l.window) }
        ensures within { IsSome result ↔ (local < count_of shard (map_of (agreed_of self.now))) }
        ensures owner { IfSome result (λ l. mapped (agreed_of self.now) l.position ≡ Some (record { shard = shard; local = local })) }
        ensures limit { IfSome result (λ l. l.position < 2 ^ 48) }
    {
        find_lease(&self.agreed, shard, local)
    }

    /// Who has a position, a covered one or one of the current or the granted window. None exactly past these.
    #[inline(always)]
    pub fn owner(&self, position: u64) -> Option<Owner>
        ensures owner { result ≡ mapped (agreed_of self.now) position }
        ensures within { IsSome result ↔ (position < length (map_of (agreed_of self.now))) }
        ensures lease { IfSome result (λ o. leased (agreed_of self.now) o.shard o.local ≡ Some position) }
        ensures limits { IfSome result (λ o. (o.shard < 6) × (o.local ≤ position)) }
    {
        find_owner(&self.agreed, position)
    }
}

/// The position of a shard's local, with the number of its window: among the covered positions, in the current window,
/// or in the granted one.
fn find_lease(agreed: &Agreed, shard: u8, local: u64) -> Option<Lease>
    requires sound { IsSound agreed.now }
    requires numbers { length agreed.now.numbers ≡ length agreed.now.covered }
    ensures { result ≡ lease_of agreed.now shard local }
{
    if let Some(position) = agreed.place(shard, local) {
        let window = agreed.number_at(position)?;
        return Some(Lease { window, position });
    }
    if let Some(lease) = lease_in(agreed.current(), shard, local) {
        return Some(lease);
    }
    lease_in(agreed.granted()?, shard, local)
}

/// The position that a window gives to a shard's local, with the window's number.
fn lease_in(window: &Window, shard: u8, local: u64) -> Option<Lease>
    ensures { result ≡ lease_in window.now shard local }
{
    let position = place(window, shard, local)?;
    Some(Lease {
        window: window.number(),
        position,
    })
}

/// Who has a position: among the covered ones, in the current window, or in the granted one.
#[inline(always)]
fn find_owner(agreed: &Agreed, position: u64) -> Option<Owner>
    ensures owner { result ≡ mapped agreed.now position }
    ensures limits { IfSome result (λ o. (o.shard < 6) × (o.local ≤ position)) }
{
    if let Some(covered) = agreed.locate(position) {
        return Some(covered);
    }
    if let Some(current) = owner(agreed.current(), position) {
        return Some(current);
    }
    owner(agreed.granted()?, position)
}

/// A copy of an entry.
fn copied(entry: &Entry) -> Result<Entry, OutOfMemory>
    ensures { IfOk result (λ copy. copy ≡ entry.now) }
{
    Ok(entry.clone()?)
}
