//! What a history shows, gathered in one pass.

ghost use Rattle.std.specs.Prelude.{◌≡◌, ◌++◌, replicate, slice_get, IfOk, OnOk};
ghost use Rattle.std.specs.Option.{option_map_or};
ghost use Rattle.std.specs.List.{AllByRecursion};
ghost use Rattle.msg_wire.specs.Valid.{IsValidConfig};
ghost use Rattle.report_text.specs.inside.Telling.{IsValidTold};
ghost use Rattle.report_text.specs.inside.Consuming.{nothing_consumed, consumed_lines, with_own_marks};
ghost use Rattle.report_text.specs.inside.Submitting.{nothing_submitted, submitted_lines, with_own_entry};
ghost use Rattle.report_text.specs.Positions.{differ_line};
ghost use Rattle.report_text.specs.Report.{head_lines};
ghost use Rattle.report_text.specs.inside.Summing.{all_submitted, all_acked, summed_consumer, summed_lines};
ghost use Rattle.report_text.specs.inside.Gathering.{changed_at, with_entry, gathered_of, numbered_lines, gathered_lines};

use crate::clients::ClientMarks;
use crate::consumers::ConsumerMarks;
use crate::positions::ConfirmedLog;
use crate::slots::ToldSlots;
use crate::summary_lines::{put_quiet, put_totals};
use crate::text::{Put, put_counted};
use msg_wire::{Config, Mark};
use net_model::{EntryRef, History};
use quota_table::{Bytes, OutOfMemory};
use spec_base::NodeId;
use std::alloc::Global;
use std::marker::Model;

/// What the entries so far show. It holds references into the history, and no copies of records or bytes.
#[derive(Drop)]
pub struct Gathered<'a> {
    told: ToldSlots<'a>,
    confirmed: ConfirmedLog<'a>,
    /// One for each consumer, by number.
    consumers: Vec<ConsumerMarks<'a>>,
    /// One for each client, by number.
    clients: Vec<ClientMarks<'a>>,
}

impl<'a> Model for Gathered<'a> {
    ghost use Rattle.report_text.specs.inside.Gathering.{Gathered};

    ghost Value = { Gathered };

    ghost view = { λ g. record { told = g.told; confirmed = g.confirmed; consumers = g.consumers.items; clients = g.clients.items } };
}

/// Gathers what a history shows: one pass over its messages, one over its marks and one over its entries, in time linear
/// (times log) in them.
pub fn gather<'a>(
    alloc: Global,
    cfg: &Config,
    history: &'a History,
) -> Result<Gathered<'a>, OutOfMemory>
    ensures { IfOk result (λ gathered. gathered ≡ gathered_of cfg.now history.now) }
{
    let mut gathered = Gathered {
        told: ToldSlots::new(alloc),
        confirmed: ConfirmedLog::new(alloc),
        consumers: consumers(alloc, cfg.consumers)?,
        clients: clients(alloc, cfg.homes.len())?,
    };
    gathered.told.take_all(history.messages())?;
    gathered.confirmed.take_all(history.marks())?;
    for index in 0..history.len() {
        gathered.take_at(history, index)?;
    }
    Ok(gathered)
}

impl<'a> Gathered<'a> {
    /// The entry at an index, where there is one.
    fn take_at(&mut self, history: &'a History, index: usize) -> Put
        ensures { OnOk result (self.new ≡ option_map_or (with_entry self.old) (slice_get history.now index) self.old) }
    {
        match history.get(index) {
            Some(entry) => self.take(&entry),
            None => Ok(()),
        }
    }

    /// One more entry: what its node showed and was given.
    fn take(&mut self, entry: &EntryRef<'a>) -> Put
        ensures { OnOk result (self.new ≡ with_entry self.old entry.now) }
    {
        match entry.node() {
            NodeId::Consumer(number) => {
                take_consumer(&mut self.consumers, number, entry.marks())
            }
            NodeId::Client(number) => take_client(&mut self.clients, usize::from(number), entry),
            _ => Ok(()),
        }
    }

    /// Puts the report of all that was gathered, of this many entries, at the end.
    pub fn write(&self, alloc: Global, cfg: &Config, entries: usize, text: &mut Bytes) -> Put
        requires cluster { IsValidConfig cfg.now }
        requires valid { AllByRecursion IsValidTold self.now.told }
        ensures { OnOk result (text.new ≡ text.old ++ gathered_lines cfg.now entries self.now) }
    {
        put_head(text, entries)?;
        self.told.write(alloc, cfg, text)?;
        self.confirmed.write(alloc, text)?;
        write_consumers(cfg, self.consumers.as_slice(), text)?;
        write_clients(self.clients.as_slice(), text)?;
        put_differing(text, self.confirmed.differing(alloc)?)
    }

    /// Puts the summary of all that was gathered at the end.
    pub fn write_summary(&self, alloc: Global, cfg: &Config, quiet: bool, text: &mut Bytes) -> Put
        ensures { OnOk result (text.new ≡ text.old ++ summed_lines cfg.now quiet self.now) }
    {
        let clients = self.clients.as_slice();
        put_totals(text, all_submitted(clients), all_acked(clients))?;
        summarize_consumers(cfg, self.consumers.as_slice(), text)?;
        put_differing(text, self.confirmed.differing(alloc)?)?;
        put_quiet(text, quiet)
    }
}

fn consumers<'a>(alloc: Global, count: u8) -> Result<Vec<ConsumerMarks<'a>>, OutOfMemory>
    ensures { IfOk result (λ v. v.items ≡ replicate count nothing_consumed) }
{
    let mut all = Vec::new(alloc);
    for _number in 0..count {
        all.push(ConsumerMarks::new(alloc))?;
    }
    Ok(all)
}

fn take_consumer<'a>(consumers: &mut Vec<ConsumerMarks<'a>>, number: u8, marks: &'a [Mark]) -> Put
    ensures { OnOk result (consumers.new.items ≡ changed_at (λ c. with_own_marks number c marks.now) consumers.old.items number) }
{
    match consumers.get_mut(usize::from(number)) {
        Some(consumer) => consumer.take_all(u64::from(number), marks),
        None => Ok(()),
    }
}

fn clients<'a>(alloc: Global, count: usize) -> Result<Vec<ClientMarks<'a>>, OutOfMemory>
    ensures { IfOk result (λ v. v.items ≡ replicate count nothing_submitted) }
{
    let mut all = Vec::new(alloc);
    for _number in 0..count {
        all.push(ClientMarks::new(alloc))?;
    }
    Ok(all)
}

fn take_client<'a>(clients: &mut Vec<ClientMarks<'a>>, number: usize, entry: &EntryRef<'a>) -> Put
    ensures { OnOk result (clients.new.items ≡ changed_at (λ c. with_own_entry c entry.now) clients.old.items number) }
{
    match clients.get_mut(number) {
        Some(client) => client.take(entry),
        None => Ok(()),
    }
}

fn write_consumers(cfg: &Config, consumers: &[ConsumerMarks], text: &mut Bytes) -> Put
    ensures { OnOk result (text.new ≡ text.old ++ numbered_lines (consumed_lines cfg.now) 0 consumers.now) }
{
    for (number, consumer) in consumers.iter().enumerate() {
        consumer.write(cfg, number as u64, text)?;
    }
    Ok(())
}

fn summarize_consumers(cfg: &Config, consumers: &[ConsumerMarks], text: &mut Bytes) -> Put
    ensures { OnOk result (text.new ≡ text.old ++ numbered_lines (summed_consumer cfg.now) 0 consumers.now) }
{
    for (number, consumer) in consumers.iter().enumerate() {
        consumer.write_summary(cfg, number as u64, text)?;
    }
    Ok(())
}

/// How many bodies all clients were given.
fn all_submitted(clients: &[ClientMarks]) -> u128
    ensures { result ≡ all_submitted clients.now }
{
    let mut all = 0;
    for client in clients {
        all += client.submitted() as u128;
    }
    all
}

/// How many acknowledgements all clients showed.
fn all_acked(clients: &[ClientMarks]) -> u128
    ensures { result ≡ all_acked clients.now }
{
    let mut all = 0;
    for client in clients {
        all += client.acked() as u128;
    }
    all
}

fn write_clients(clients: &[ClientMarks], text: &mut Bytes) -> Put
    ensures { OnOk result (text.new ≡ text.old ++ numbered_lines submitted_lines 0 clients.now) }
{
    for (number, client) in clients.iter().enumerate() {
        client.write(number as u64, text)?;
    }
    Ok(())
}

#[tactic(auto, using(std::proofs::Common::append_assoc), unfolding(crate::specs::Report::head_lines))]
fn put_head(text: &mut Bytes, entries: usize) -> Put
    ensures { OnOk result (text.new ≡ text.old ++ head_lines entries) }
{
    put_counted(text, b"belfast 1\nentries ", entries as u64)?;
    text.push(b'\n')
}

#[tactic(auto, using(std::proofs::Common::append_assoc), unfolding(crate::specs::Positions::differ_line))]
fn put_differing(text: &mut Bytes, count: usize) -> Put
    ensures { OnOk result (text.new ≡ text.old ++ differ_line count) }
{
    put_counted(text, b"differ ", count as u64)?;
    text.push(b'\n')
}
