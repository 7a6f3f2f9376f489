//! What a consumer showed.

ghost use Rattle.std.specs.Prelude.{◌≡◌, ◌+◌, ◌-◌, ◌++◌, map, take, length, OnOk};
ghost use Rattle.report_text.specs.inside.Summing.{confirms_data, data_among, summed_consumer};
ghost use Rattle.report_text.specs.inside.Consuming.{nothing_consumed, is_applied_before, with_own_mark, with_own_marks, consumed_lines};

use crate::by_number::ByNumber;
use crate::consumer_lines::{Counts, put_counts, put_notices, put_output, put_state, shown_after};
use crate::summary_lines::put_data;
use crate::text::Put;
use msg_wire::{Config, Mark};
use quota_table::Bytes;
use record_codec::Record;
use std::alloc::Global;
use std::marker::Model;

/// What one consumer showed, over all its restarts.
#[derive(Drop)]
pub struct ConsumerMarks<'a> {
    /// Its marks, in order.
    marks: Vec<&'a Mark>,
    /// The place among them of the last Apply of each position that was applied.
    applied_at: ByNumber<usize>,
    /// How many positions it confirmed.
    confirmed: usize,
    /// How many of these it had last applied in an earlier entry.
    early: usize,
    /// Its applied list.
    log: Vec<&'a Record>,
    /// How many records were cut from the applied list on the way.
    undone: usize,
    /// The position of each notice, in order.
    notices: Vec<u64>,
    /// The lines of what went out.
    out_lines: Bytes,
}

impl<'a> Model for ConsumerMarks<'a> {
    ghost use Rattle.report_text.specs.inside.Consuming.{Consumed};

    ghost Value = { Consumed };

    ghost use Rattle.report_text.specs.inside.Kept.{consumed_of, AreWithinMarks};

    ghost view = { consumed_of };

    ghost invariant = { AreWithinMarks };
}

impl<'a> ConsumerMarks<'a> {
    /// It showed nothing. It takes no memory.
    pub fn new(alloc: Global) -> ConsumerMarks<'a>
        ensures { result ≡ nothing_consumed }
    {
        ConsumerMarks {
            marks: Vec::new(alloc),
            applied_at: ByNumber::new(alloc),
            confirmed: 0,
            early: 0,
            log: Vec::new(alloc),
            undone: 0,
            notices: Vec::new(alloc),
            out_lines: Bytes::new(alloc),
        }
    }

    /// The marks of one more entry of the consumer of this number.
    pub fn take_all(&mut self, number: u64, marks: &'a [Mark]) -> Put
        ensures { OnOk result (self.new ≡ with_own_marks number self.old marks.now) }
    {
        let start = self.marks.len();
        for mark in marks {
            self.take(number, start, mark)?;
        }
        Ok(())
    }

    /// One more mark, of an entry whose marks begin at `start`.
    fn take(&mut self, number: u64, start: usize, mark: &'a Mark) -> Put
        ensures { OnOk result (self.new ≡ with_own_mark number start self.old mark.now) }
    {
        let place = self.marks.len();
        self.marks.push(mark)?;
        match mark {
            Mark::Apply { position, rec } => {
                self.applied_at.put(*position, place)?;
                self.log.push(rec)?;
            }
            Mark::Undo { first } => self.undone += cut(&mut self.log, *first),
            Mark::Confirm { position, .. } => {
                self.confirmed += 1;
                if self.is_applied_before(start, *position) {
                    self.early += 1;
                }
            }
            Mark::Notice { first } => self.notices.push(*first)?,
            Mark::Out { bytes } => put_output(&mut self.out_lines, number, bytes)?,
            _ => {}
        }
        Ok(())
    }

    /// Whether the position was last applied before this place.
    fn is_applied_before(&self, start: usize, position: u64) -> bool
        ensures { result ≡ is_applied_before self.now start position }
    {
        match self.applied_at.get(position) {
            Some(at) => at < start,
            None => false,
        }
    }

    /// Puts how many records of clients it confirmed, and what it shows, at the end.
    pub fn write_summary(&self, cfg: &Config, number: u64, text: &mut Bytes) -> Put
        ensures { OnOk result (text.new ≡ text.old ++ summed_consumer cfg.now number self.now) }
    {
        put_data(text, number, count_data(self.marks.as_slice()))?;
        put_state(text, number, &shown_after(cfg.app, self.log.as_slice()))
    }

    /// Puts its lines at the end.
    pub fn write(&self, cfg: &Config, number: u64, text: &mut Bytes) -> Put
        ensures { OnOk result (text.new ≡ text.old ++ consumed_lines cfg.now number self.now) }
    {
        let log = self.log.as_slice();
        let notices = self.notices.as_slice();
        let counts = Counts {
            confirmed: self.confirmed,
            applied: log.len(),
            early: self.early,
            undone: self.undone,
            noticed: notices.len(),
        };
        put_counts(text, number, &counts)?;
        put_notices(text, number, notices)?;
        text.extend_from_slice(self.out_lines.as_slice())?;
        put_state(text, number, &shown_after(cfg.app, log))
    }
}

/// How many of the marks confirm a record of a client.
fn count_data(marks: &[&Mark]) -> usize
    ensures { result ≡ data_among (map (λ m. m.now) marks.now) }
{
    marks.iter().filter(|mark| confirms_data(mark)).count()
}

/// Whether a mark confirms a record of a client, and no filled place.
fn confirms_data(mark: &Mark) -> bool
    ensures { result ≡ confirms_data mark.now }
{
    match mark {
        Mark::Confirm { rec, .. } => matches!(rec, Record::Data { .. }),
        _ => false,
    }
}

/// Cuts a log at its record of this place, and tells how many records that drops.
fn cut(log: &mut Vec<&Record>, first: u64) -> usize
    ensures log { map (λ r. r.now) log.new.items ≡ take first (map (λ r. r.now) log.old.items) }
    ensures cut { result ≡ length (map (λ r. r.now) log.old.items) - first }
    ensures room { result + length log.new.items ≡ length log.old.items }
{
    let before = log.len();
    log.truncate(first as usize);
    before - log.len()
}
