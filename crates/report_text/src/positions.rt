//! The confirmed log, position by position.

ghost use Rattle.std.specs.Prelude.{◌≡◌, ◌++◌, [], IfOk, OnOk};
ghost use Rattle.std.specs.BTreeMap.{insert_entry};
ghost use Rattle.std.specs.Ordering.{nat_cmp};
ghost use Rattle.report_text.specs.Positions.{same_record, log_line};
ghost use Rattle.report_text.specs.inside.Confirming.{with_confirmed, with_marks, confirmed_lines, differing};

use crate::by_number::ByNumber;
use crate::text::{Put, put_counted};
use msg_wire::Mark;
use quota_table::{Bytes, OutOfMemory};
use record_codec::Record;
use std::alloc::Global;
use std::marker::Model;

/// What was confirmed at a position.
#[derive(Clone, Copy)]
struct Confirmed<'a> {
    /// The record that was confirmed first.
    first: &'a Record,
    /// Whether another record was confirmed too.
    differs: bool,
}

/// What was confirmed, of each position at which a record was.
#[derive(Drop)]
pub struct ConfirmedLog<'a> {
    positions: ByNumber<Confirmed<'a>>,
}

impl<'a> Model for ConfirmedLog<'a> {
    ghost use Rattle.std.specs.Prelude.{ℕ, List, Bool, map};
    ghost use Rattle.record_codec.specs.declared.record.Record.{Record};

    ghost Value = { List (ℕ × (Record × Bool)) };

    ghost view = { λ l. map (λ e. (e.0, (e.1.first.now, e.1.differs))) l.positions };
}

impl<'a> ConfirmedLog<'a> {
    /// Nothing was confirmed. It takes no memory.
    pub fn new(alloc: Global) -> ConfirmedLog<'a>
        ensures { result ≡ [] }
    {
        ConfirmedLog {
            positions: ByNumber::new(alloc),
        }
    }

    /// More marks were shown.
    pub fn take_all(&mut self, marks: &'a [Mark]) -> Put
        ensures { OnOk result (self.new ≡ with_marks self.old marks.now) }
    {
        for mark in marks {
            if let Mark::Confirm { position, rec } = mark {
                self.take(*position, rec)?;
            }
        }
        Ok(())
    }

    /// A record was confirmed. What stays as it was is not written again.
    fn take(&mut self, position: u64, rec: &'a Record) -> Put
        ensures { OnOk result (self.new ≡ with_confirmed self.old position rec.now) }
    {
        let Some(known) = self.positions.get(position) else {
            return self.put(
                position,
                Confirmed {
                    first: rec,
                    differs: false,
                },
            );
        };
        if known.differs || is_same(known.first, rec) {
            return Ok(());
        }
        let first = known.first;
        self.put(
            position,
            Confirmed {
                first,
                differs: true,
            },
        )
    }

    fn put(&mut self, position: u64, confirmed: Confirmed<'a>) -> Put
        ensures { OnOk result (self.new ≡ insert_entry nat_cmp self.old position (confirmed.entry.first.now, confirmed.entry.differs)) }
    {
        self.positions.put(position, confirmed)
    }

    /// Puts the line of each position at the end, rising.
    pub fn write(&self, alloc: Global, text: &mut Bytes) -> Put
        ensures { OnOk result (text.new ≡ text.old ++ confirmed_lines self.now) }
    {
        let rows = self.positions.rows(alloc)?;
        for (position, confirmed) in rows {
            put_record(text, position, confirmed.first)?;
        }
        Ok(())
    }

    /// At how many positions two different records were confirmed.
    pub fn differing(&self, alloc: Global) -> Result<usize, OutOfMemory>
        ensures { IfOk result (λ count. count ≡ differing self.now) }
    {
        let rows = self.positions.rows(alloc)?;
        Ok(
            rows.iter()
                .filter(|(_position, confirmed)| confirmed.differs)
                .count(),
        )
    }
}

fn is_same(a: &Record, b: &Record) -> bool
    ensures { result ≡ same_record a.now b.now }
{
    a == b
}

#[tactic(auto, using(std::proofs::Common::append_assoc), unfolding(crate::specs::Positions::log_line))]
fn put_record(text: &mut Bytes, position: u64, rec: &Record) -> Put
    ensures { OnOk result (text.new ≡ text.old ++ log_line position rec.now) }
{
    put_counted(text, b"log ", position)?;
    match rec {
        Record::Data {
            client,
            number,
            body,
        } => {
            put_counted(text, b" c", u64::from(*client))?;
            put_counted(text, b" ", *number)?;
            text.extend_from_parts(b" ", body.as_slice(), b"\n")
        }
        Record::Noop => text.extend_from_slice(b" noop\n"),
    }
}
