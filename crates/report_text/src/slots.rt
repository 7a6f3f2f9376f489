//! What was decided, slot by slot.

ghost use Rattle.std.specs.Prelude.{◌≡◌, ◌<◌, ◌++◌, [], IfOk, OnOk, flat_map};
ghost use Rattle.std.specs.List.{AllByRecursion};
ghost use Rattle.msg_wire.specs.Valid.{IsValidConfig};
ghost use Rattle.cut_core.specs.Agreements.{agreement_from};
ghost use Rattle.cut_core.specs.Fold.{HasValidTable};
ghost use Rattle.node_rules.specs.Nodes.{first_window};
ghost use Rattle.report_text.specs.Slots.{slot_line, entry_words, row_words};
ghost use Rattle.report_text.specs.inside.Telling.{with_told, with_messages, IsValidTold, is_void_after, after_told, told_lines, void_words, is_void_effect};

use crate::by_number::ByNumber;
use crate::text::{Put, put_counted};
use cut_core::{Agreed, Effect};
use fix_ante::first;
use msg_wire::{Config, Message, What};
use quota_table::{Bytes, Entry, OutOfMemory, Row};
use std::alloc::Global;
use std::marker::Model;

/// The entry that was told first as decided, of each slot that was told.
#[derive(Drop)]
pub struct ToldSlots<'a>(ByNumber<&'a Entry>);

impl<'a> Model for ToldSlots<'a> {
    ghost use Rattle.std.specs.Prelude.{ℕ, List, map};
    ghost use Rattle.quota_table.specs.declared.entry.Entry.{Entry};

    ghost Value = { List (ℕ × Entry) };

    ghost view = { λ t. map (λ e. (e.0, e.1.now)) t.0 };
}

impl<'a> ToldSlots<'a> {
    /// Nothing was told. It takes no memory.
    pub fn new(alloc: Global) -> ToldSlots<'a>
        ensures { result ≡ [] }
    {
        ToldSlots(ByNumber::new(alloc))
    }

    /// More messages were sent.
    pub fn take_all(&mut self, messages: &'a [Message]) -> Put
        ensures { OnOk result (self.new ≡ with_messages self.old messages.now) }
    {
        for message in messages {
            if let What::Decided { slot, entry, .. } = &message.what {
                self.take(*slot, entry)?;
            }
        }
        Ok(())
    }

    /// A slot's entry was told.
    fn take(&mut self, slot: u32, entry: &'a Entry) -> Put
        ensures { OnOk result (self.new ≡ with_told self.old slot entry.now) }
    {
        let slot = u64::from(slot);
        match self.0.get(slot) {
            Some(_) => Ok(()),
            None => self.0.put(slot, entry),
        }
    }

    /// Puts the line of each slot at the end, rising.
    pub fn write(&self, alloc: Global, cfg: &Config, text: &mut Bytes) -> Put
        requires cluster { IsValidConfig cfg.now }
        requires valid { AllByRecursion IsValidTold self.now }
        ensures { OnOk result (text.new ≡ text.old ++ told_lines (agreement_from (first_window cfg.now)) self.now) }
    {
        let mut agreed = Agreed::new(alloc, first(cfg.rounds, &cfg.table))?;
        let rows = self.0.rows(alloc)?;
        for (number, entry) in rows {
            let slot = number as u32;
            let void = is_void(&mut agreed, slot, entry)?;
            put_slot(text, slot, entry, void)?;
        }
        Ok(())
    }
}

/// Whether a slot's entry is void. It is applied where those of all lower slots were.
#[tactic(auto, using(crate::proofs::Voids::effect_void))]
fn is_void(agreed: &mut Agreed, slot: u32, entry: &Entry) -> Result<bool, OutOfMemory>
    requires few { slot < 1000000 }
    requires table { HasValidTable entry.now }
    ensures void { IfOk result (λ void. void ≡ is_void_after agreed.old slot entry.now) }
    ensures agreed { OnOk result (agreed.new ≡ after_told agreed.old slot entry.now) }
{
    if agreed.slots() != slot {
        return Ok(false);
    }
    let effect = agreed.apply(slot, entry)?;
    Ok(did_nothing(effect))
}

/// Whether an entry did nothing since it didn't fit.
fn did_nothing(effect: Effect) -> bool
    ensures { result ≡ is_void_effect effect }
{
    matches!(effect, Effect::Void { .. })
}

#[tactic(auto, using(std::proofs::Common::append_assoc), unfolding(crate::specs::Slots::slot_line))]
fn put_slot(text: &mut Bytes, slot: u32, entry: &Entry, void: bool) -> Put
    ensures { OnOk result (text.new ≡ text.old ++ slot_line slot entry.now void) }
{
    put_counted(text, b"slot ", u64::from(slot))?;
    put_entry(text, entry)?;
    put_void(text, void)
}

#[tactic(auto, using(std::proofs::Common::append_assoc))]
fn put_entry(text: &mut Bytes, entry: &Entry) -> Put
    ensures { OnOk result (text.new ≡ text.old ++ entry_words entry.now) }
{
    match entry {
        Entry::Nothing => text.extend_from_slice(b" nothing"),
        Entry::Cut { window, round } => {
            put_counted(text, b" cut ", u64::from(*window))?;
            put_counted(text, b" ", u64::from(*round))
        }
        Entry::Table {
            after,
            rounds,
            rows,
        } => {
            put_counted(text, b" table ", u64::from(*after))?;
            put_counted(text, b" ", u64::from(*rounds))?;
            put_rows(text, rows.rows())
        }
        Entry::Remove { window, shard } => {
            put_counted(text, b" remove ", u64::from(*window))?;
            put_counted(text, b" ", u64::from(*shard))
        }
    }
}

fn put_rows(text: &mut Bytes, rows: &[Row]) -> Put
    ensures { OnOk result (text.new ≡ text.old ++ flat_map row_words rows.now) }
{
    for row in rows {
        put_counted(text, b" ", u64::from(row.shard))?;
        put_counted(text, b":", u64::from(row.quota))?;
    }
    Ok(())
}

/// The end of a slot's line.
fn put_void(text: &mut Bytes, void: bool) -> Put
    ensures { OnOk result (text.new ≡ text.old ++ void_words void) }
{
    if void {
        text.extend_from_slice(b" void\n")
    } else {
        text.push(b'\n')
    }
}
