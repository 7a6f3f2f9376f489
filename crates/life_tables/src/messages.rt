//! What messages say, in short.

ghost use Rattle.std.specs.Prelude.{IfOk};
ghost use Rattle.quota_table.specs.Entries.{IsValidEntry};
ghost use Rattle.record_codec.specs.Records.{IsValidRecord};
ghost use Rattle.msg_wire.specs.Valid.{IsPlace, IsValidReport, IsValidWhat};

use crate::words::{body, first, place, round, shard, small, two_places, two_small, window};
use msg_wire::What;
use quota_table::Entry;
use record_codec::Record;
use std::alloc::Global;
use std::test::Fail;

/// What a message says: its kind, and its fields in their order; a record as its client, its number and its body. Errors: no kind of message,
/// or a number out of range.
pub fn said(alloc: Global, line: &str) -> Result<What, Fail>
    ensures { IfOk result IsValidWhat }
{
    let (kind, rest) = first(line);
    match kind {
        "append" => append(alloc, rest),
        "replicate" => {
            let (local, rec) = placed(alloc, rest)?;
            Ok(What::Replicate { local, rec })
        }
        "deliver" => {
            let (local, rec) = placed(alloc, rest)?;
            Ok(What::Deliver { local, rec })
        }
        "accept" => accept(alloc, rest),
        "decided" => decided(alloc, rest),
        "promise" => promise(alloc, rest),
        _ => said_in_numbers(kind, rest),
    }
}

/// What a message says that has numbers alone.
fn said_in_numbers(kind: &str, rest: &str) -> Result<What, Fail>
    ensures { IfOk result IsValidWhat }
{
    match kind {
        "prepare" | "accepted" | "learn" => said_of_slot(kind, rest),
        "ack" | "ask" => said_of_two(kind, rest),
        _ => said_of_one(kind, place(rest)?),
    }
}

fn said_of_slot(kind: &str, rest: &str) -> Result<What, Fail>
    ensures { IfOk result IsValidWhat }
{
    if kind == "learn" {
        return Ok(What::Learn { slot: small(rest)? });
    }
    let (slot, ballot, _) = two_small(rest)?;
    if kind == "prepare" {
        return Ok(What::Prepare { slot, ballot });
    }
    Ok(What::Accepted { slot, ballot })
}

fn said_of_two(kind: &str, rest: &str) -> Result<What, Fail>
    ensures { IfOk result IsValidWhat }
{
    let (one, other, _) = two_places(rest)?;
    if kind == "ack" {
        return Ok(What::Ack {
            number: one,
            position: other,
        });
    }
    Ok(What::AskFate {
        first: one,
        least: other,
    })
}

fn said_of_one(kind: &str, place: u64) -> Result<What, Fail>
    requires { IsPlace place }
    ensures { IfOk result IsValidWhat }
{
    match kind {
        "fate" => Ok(What::Fate { next: place }),
        "replicated" => Ok(What::Replicated { len: place }),
        "report" => Ok(What::Report { len: place }),
        "fill" => Ok(What::Fill { wanted: place }),
        "fetch" => Ok(What::Fetch { local: place }),
        _ => Err("no message".into()),
    }
}

fn append(alloc: Global, line: &str) -> Result<What, Fail>
    ensures { IfOk result IsValidWhat }
{
    let (first, number, text) = two_places(line)?;
    let body = body(alloc, text)?;
    Ok(What::Append {
        first,
        number,
        body,
    })
}

/// A local, and a client's record there.
fn placed(alloc: Global, line: &str) -> Result<(u64, Record), Fail>
    ensures { IfOk result (λ found. IsPlace found.0 × IsValidRecord found.1) }
{
    let (local, rest) = first(line);
    let (client, rest) = first(rest);
    let (number, text) = first(rest);
    let rec = Record::Data {
        client: u32::from(shard(client)?),
        number: place(number)?,
        body: body(alloc, text)?,
    };
    Ok((place(local)?, rec))
}

fn accept(alloc: Global, line: &str) -> Result<What, Fail>
    ensures { IfOk result IsValidWhat }
{
    let (slot, ballot, rest) = two_small(line)?;
    let entry = entry(alloc, rest)?;
    Ok(What::Accept {
        slot,
        ballot,
        entry,
    })
}

fn decided(alloc: Global, line: &str) -> Result<What, Fail>
    ensures { IfOk result IsValidWhat }
{
    let (slot, count, rest) = two_small(line)?;
    if count == 0 {
        return Err("no count".into());
    }
    let entry = entry(alloc, rest)?;
    Ok(What::Decided { slot, count, entry })
}

fn promise(alloc: Global, line: &str) -> Result<What, Fail>
    ensures { IfOk result IsValidWhat }
{
    let (slot, ballot, rest) = two_small(line)?;
    let accepted = report(alloc, rest)?;
    Ok(What::Promise {
        slot,
        ballot,
        accepted,
    })
}

/// The ballot and the entry that a promise reports, if any.
fn report(alloc: Global, line: &str) -> Result<Option<(u32, Entry)>, Fail>
    ensures { IfOk result IsValidReport }
{
    if line.is_empty() {
        return Ok(None);
    }
    let (ballot, rest) = first(line);
    Ok(Some((small(ballot)?, entry(alloc, rest)?)))
}

/// An entry as a report has it: `nothing`, `cut WINDOW ROUND`, `remove WINDOW SHARD`, `table AFTER ROUNDS SHARD:QUOTA ..`.
fn entry(alloc: Global, line: &str) -> Result<Entry, Fail>
    ensures { IfOk result IsValidEntry }
{
    let (kind, rest) = first(line);
    if kind == "nothing" {
        return Ok(Entry::Nothing);
    }
    let (number, rest) = first(rest);
    let number = small(number)?;
    match kind {
        "cut" => Ok(Entry::Cut {
            window: number,
            round: round(rest)?,
        }),
        "remove" => Ok(Entry::Remove {
            window: number,
            shard: shard(rest)?,
        }),
        "table" => {
            let (rounds, rows) = window(alloc, rest)?;
            Ok(Entry::Table {
                after: number,
                rounds,
                rows,
            })
        }
        _ => Err("no entry".into()),
    }
}
