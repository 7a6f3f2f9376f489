//! What a run shows: the numbers of its summary, and the marks that a reader's last look has to count.

use crate::RunRecord;
use msg_wire::{Event, Mark};
use net_model::{EntryRef, History};
use quota_table::{Bytes, OutOfMemory};
use record_codec::Record;
use spec_base::NodeId;
use std::alloc::Global;
use std::fmt::Write;
use std::test::Fail;

/// What two records give, whatever came of messages and calls of disks.
pub(super) const BOTH: &str = "submitted 2, acked 2, data 2, differ 0, quiet true, out 5\n12\n";

/// What was counted of a history, as its summary says it.
#[derive(Clone, Copy)]
struct Counts {
    submitted: u64,
    acked: u64,
    /// Records of clients that the consumer confirmed.
    data: u64,
}

impl Counts {
    fn add_mark(&mut self, node: NodeId, mark: &Mark) {
        match mark {
            Mark::Ack {
                number: _,
                position: _,
            } => self.acked = self.acked.saturating_add(1),
            Mark::Confirm {
                position: _,
                rec: Record::Data { .. },
            } => {
                if node == (NodeId::Consumer(0)) {
                    self.data = self.data.saturating_add(1);
                }
            }
            _ => {}
        }
    }

    fn add(&mut self, entry: &EntryRef<'_>) {
        if entry.body().is_some() {
            self.submitted = self.submitted.saturating_add(1);
        }
        for mark in entry.marks() {
            self.add_mark(entry.node(), mark);
        }
    }
}

fn counts_of(history: &History) -> Counts {
    let mut counts = Counts {
        submitted: 0,
        acked: 0,
        data: 0,
    };
    for index in 0..history.len() {
        if let Some(entry) = history.get(index) {
            counts.add(&entry);
        }
    }
    counts
}

/// Whether two marks confirm different records at one position.
fn do_differ(one: &Mark, other: &Mark) -> bool {
    match (one, other) {
        (
            Mark::Confirm { position, rec },
            Mark::Confirm {
                position: at,
                rec: there,
            },
        ) => position == at && rec != there,
        _ => false,
    }
}

/// How many marks there are from which an earlier one differs.
fn count_differing(marks: &[Mark]) -> u64 {
    let mut count = 0u64;
    for one in marks {
        for other in marks {
            if do_differ(one, other) {
                count = count.saturating_add(1);
            }
        }
    }
    count
}

/// All that went out, in its order: only a consumer lets something go out.
fn outputs_of(alloc: Global, history: &History) -> Result<Bytes, OutOfMemory> {
    let mut bytes = Bytes::new(alloc);
    for mark in history.marks() {
        if let Mark::Out { bytes: out } = mark {
            bytes.extend_from_slice(out.as_slice())?;
        }
    }
    Ok(bytes)
}

/// The numbers of a run's summary, and the consumer's outputs, of which the last is the state that it shows.
pub(super) fn told_of(alloc: Global, record: &RunRecord) -> Result<String, Fail> {
    let Counts {
        submitted,
        acked,
        data,
    } = counts_of(&record.history);
    let differ = count_differing(record.history.marks());
    let out = outputs_of(alloc, &record.history)?;
    let Ok(out) = std::str::from_utf8(out.as_slice()) else {
        return Err(Fail::new("text"));
    };
    let mut text = String::new(alloc);
    write!(
        text,
        "submitted {submitted}, acked {acked}, data {data}, differ {differ}, quiet {}, out {out}",
        record.quiet
    )?;
    Ok(text)
}

/// How many marks the consumer made up to its tick of this number, counted from 1.
pub(super) fn marks_to_tick(
    alloc: Global,
    history: &History,
    tick: u64,
) -> Result<u64, OutOfMemory> {
    let mut marks = 0u64;
    let mut ticks = 0u64;
    for index in 0..history.len() {
        let Some(entry) = history.get(index) else {
            return Ok(marks);
        };
        if entry.node() != (NodeId::Consumer(0)) {
            continue;
        }
        marks = marks.saturating_add(entry.marks().len() as u64);
        if matches!(entry.to_entry(alloc)?.event, Event::Tick) {
            ticks = ticks.saturating_add(1);
            if ticks == tick {
                return Ok(marks);
            }
        }
    }
    Ok(marks)
}

/// Whether a node took a message before its tick of this number, counted from 1.
pub(super) fn took_message_before(
    alloc: Global,
    history: &History,
    node: NodeId,
    tick: u64,
) -> Result<bool, OutOfMemory> {
    let mut ticks = 0u64;
    for index in 0..history.len() {
        let Some(entry) = history.get(index) else {
            return Ok(false);
        };
        if entry.node() != node {
            continue;
        }
        match entry.to_entry(alloc)?.event {
            Event::Deliver(_) => return Ok(true),
            Event::Tick => {
                ticks = ticks.saturating_add(1);
                if ticks == tick {
                    return Ok(false);
                }
            }
            _ => {}
        }
    }
    Ok(false)
}

/// How many ticks the consumer took up to the step that confirmed a position, with that step; None where none did.
pub(super) fn ticks_to_confirmation(
    alloc: Global,
    history: &History,
    position: u64,
) -> Result<Option<u64>, OutOfMemory> {
    let mut ticks = 0u64;
    for index in 0..history.len() {
        let Some(entry) = history.get(index) else {
            return Ok(None);
        };
        if entry.node() != (NodeId::Consumer(0)) {
            continue;
        }
        if matches!(entry.to_entry(alloc)?.event, Event::Tick) {
            ticks = ticks.saturating_add(1);
        }
        if entry.marks().iter().any(|mark| confirms(mark, position)) {
            return Ok(Some(ticks));
        }
    }
    Ok(None)
}

/// Whether a mark confirms this position.
fn confirms(mark: &Mark, position: u64) -> bool {
    match mark {
        Mark::Confirm {
            position: at,
            rec: _,
        } => *at == position,
        _ => false,
    }
}
