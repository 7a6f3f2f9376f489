//! What a step gives, in the words in which messages are read.

use msg_wire::{Item, Mark, Message, Messages, Step, What};
use quota_table::{Entry, Row};
use record_codec::Record;
use spec_base::{NodeId, Side};
use std::alloc::AllocError;
use std::fmt::Write;

/// Puts what a step gives at the end, each part after ` | `: the items that it stores, as `item ..`; what it sends, with the names of all nodes to
/// which it goes in a row, as `to .. ..`; and the marks that it shows, as `mark ..`. Kinds and fields stand as `said` reads them.
pub fn tell_step(text: &mut String, step: &Step) -> Result<(), AllocError> {
    for item in step.stable.iter() {
        text.push_str(" | item ")?;
        tell_item(text, item)?;
    }
    tell_sends(text, &step.sends)?;
    for mark in step.marks.iter() {
        text.push_str(" | mark ")?;
        tell_mark(text, mark)?;
    }
    Ok(())
}

/// What is sent stands behind the last of the nodes that it goes to.
fn tell_sends(text: &mut String, sends: &Messages) -> Result<(), AllocError> {
    let mut before = None;
    for Message { to, what, .. } in sends.iter() {
        if before != Some(what) {
            tell_before(text, before)?;
            text.push_str(" | to")?;
        }
        text.push(' ')?;
        tell_node(text, *to)?;
        before = Some(what);
    }
    tell_before(text, before)
}

fn tell_before(text: &mut String, what: Option<&What>) -> Result<(), AllocError> {
    let Some(what) = what else {
        return Ok(());
    };
    text.push(' ')?;
    tell_what(text, what)
}

fn tell_item(text: &mut String, item: &Item) -> Result<(), AllocError> {
    match item {
        Item::Promised { slot, ballot } => write!(text, "promised {slot} {ballot}"),
        Item::Accepted {
            slot,
            ballot,
            entry,
        } => {
            write!(text, "accepted {slot} {ballot} ")?;
            tell_entry(text, entry)
        }
        Item::Known { entry } => {
            text.push_str("known ")?;
            tell_entry(text, entry)
        }
        Item::Taken { rec } => {
            text.push_str("taken ")?;
            tell_record(text, rec)
        }
        Item::Confirmed { rec, output } => {
            text.push_str("confirmed ")?;
            tell_record(text, rec)?;
            text.push_str(", output ")?;
            tell_bytes(text, output.as_slice())
        }
        other => tell_small_item(text, other),
    }
}

fn tell_small_item(text: &mut String, item: &Item) -> Result<(), AllocError> {
    match item {
        Item::Noops { count } => write!(text, "noops {count}"),
        Item::Submitted { body } => {
            text.push_str("submitted ")?;
            tell_bytes(text, body.as_slice())
        }
        Item::Moved { shard, first } => write!(text, "moved {shard} {first}"),
        Item::Acked => text.push_str("acked"),
        other => write!(text, "{other:?}"),
    }
}

fn tell_what(text: &mut String, what: &What) -> Result<(), AllocError> {
    match what {
        What::Append {
            first,
            number,
            body,
        } => {
            write!(text, "append {first} {number} ")?;
            tell_bytes(text, body.as_slice())
        }
        What::Replicate { local, rec } => tell_placed(text, "replicate", *local, rec),
        What::Deliver { local, rec } => tell_placed(text, "deliver", *local, rec),
        What::Accept {
            slot,
            ballot,
            entry,
        } => {
            write!(text, "accept {slot} {ballot} ")?;
            tell_entry(text, entry)
        }
        What::Decided { slot, count, entry } => {
            write!(text, "decided {slot} {count} ")?;
            tell_entry(text, entry)
        }
        What::Promise {
            slot,
            ballot,
            accepted,
        } => {
            write!(text, "promise {slot} {ballot}")?;
            tell_accepted(text, accepted)
        }
        other => tell_numbers(text, other),
    }
}

fn tell_accepted(text: &mut String, accepted: &Option<(u32, Entry)>) -> Result<(), AllocError> {
    let Some((ballot, entry)) = accepted else {
        return Ok(());
    };
    write!(text, " {ballot} ")?;
    tell_entry(text, entry)
}

/// What a message says that has numbers alone.
fn tell_numbers(text: &mut String, what: &What) -> Result<(), AllocError> {
    match what {
        What::Ack { number, position } => write!(text, "ack {number} {position}"),
        What::AskFate { first, least } => write!(text, "ask {first} {least}"),
        What::Fate { next } => write!(text, "fate {next}"),
        What::Replicated { len } => write!(text, "replicated {len}"),
        What::Report { len } => write!(text, "report {len}"),
        What::Fill { wanted } => write!(text, "fill {wanted}"),
        What::Fetch { local } => write!(text, "fetch {local}"),
        What::Prepare { slot, ballot } => write!(text, "prepare {slot} {ballot}"),
        What::Accepted { slot, ballot } => write!(text, "accepted {slot} {ballot}"),
        What::Learn { slot } => write!(text, "learn {slot}"),
        other => write!(text, "{other:?}"),
    }
}

fn tell_mark(text: &mut String, mark: &Mark) -> Result<(), AllocError> {
    match mark {
        Mark::Apply { position, rec } => tell_placed(text, "apply", *position, rec),
        Mark::Confirm { position, rec } => tell_placed(text, "confirm", *position, rec),
        Mark::Promise { position, rec } => tell_placed(text, "promise", *position, rec),
        Mark::Undo { first } => write!(text, "undo {first}"),
        Mark::Notice { first } => write!(text, "notice {first}"),
        Mark::Ack { number, position } => write!(text, "ack {number} {position}"),
        Mark::Out { bytes } => {
            text.push_str("out ")?;
            tell_bytes(text, bytes.as_slice())
        }
    }
}

/// A record and its place.
fn tell_placed(text: &mut String, kind: &str, place: u64, rec: &Record) -> Result<(), AllocError> {
    write!(text, "{kind} {place} ")?;
    tell_record(text, rec)
}

fn tell_record(text: &mut String, rec: &Record) -> Result<(), AllocError> {
    match rec {
        Record::Data {
            client,
            number,
            body,
        } => {
            write!(text, "{client} {number} ")?;
            tell_bytes(text, body.as_slice())
        }
        Record::Noop => text.push_str("noop"),
    }
}

/// Bytes as their text in quotes, or one by one where that is none.
fn tell_bytes(text: &mut String, bytes: &[u8]) -> Result<(), AllocError> {
    match std::str::from_utf8(bytes) {
        Ok(words) => write!(text, "{words:?}"),
        Err(_) => write!(text, "{bytes:?}"),
    }
}

fn tell_entry(text: &mut String, entry: &Entry) -> Result<(), AllocError> {
    match entry {
        Entry::Nothing => text.push_str("nothing"),
        Entry::Cut { window, round } => write!(text, "cut {window} {round}"),
        Entry::Remove { window, shard } => write!(text, "remove {window} {shard}"),
        Entry::Table {
            after,
            rounds,
            rows,
        } => {
            write!(text, "table {after} {rounds}")?;
            tell_rows(text, rows.rows())
        }
    }
}

fn tell_rows(text: &mut String, rows: &[Row]) -> Result<(), AllocError> {
    for row in rows {
        let Row { shard, quota } = *row;
        write!(text, " {shard}:{quota}")?;
    }
    Ok(())
}

/// Puts a node's name at the end.
pub fn tell_node(text: &mut String, node: NodeId) -> Result<(), AllocError> {
    match node {
        NodeId::Seq(number) => write!(text, "q{number}"),
        NodeId::Shard(number, Side::Primary) => write!(text, "s{number}p"),
        NodeId::Shard(number, Side::Backup) => write!(text, "s{number}b"),
        NodeId::Client(number) => write!(text, "c{number}"),
        NodeId::Consumer(number) => write!(text, "k{number}"),
    }
}
