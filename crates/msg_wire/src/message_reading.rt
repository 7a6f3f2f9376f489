//! Messages and items, read field by field from the left.

ghost use Rattle.std.specs.Prelude.{◌≡◌, ◌≤◌, ℕ, List, length, IfOk, Ok};
ghost use Rattle.msg_wire.specs.declared.message.Message.{Message};
ghost use Rattle.msg_wire.specs.declared.item.Item.{Item};
ghost use Rattle.msg_wire.specs.Messages.{message_spelling};
ghost use Rattle.msg_wire.specs.Items.{items_spelling};
ghost use Rattle.msg_wire.specs.Valid.{IsValidMessage, AreValidItems};
ghost use Rattle.msg_wire.specs.Decoding.{Gives, report_of, report_at, node_of, node_at, client_kind, replica_kind, sequencer_kind, what_of, what_at, letter_at, message_at, whole_message};

use crate::errors::{Read, WireError};
use crate::message::{Message, What};
use crate::numbers::{ballot_at, byte_in, four_in, kind_in, place_at, slot_at};
use crate::parts::{body_at, entry_at, record_at, vote_at};
use quota_table::Entry;
use spec_base::{NodeId, Side};
use std::alloc::Global;

/// Reads the message that the bytes spell, all of them. At an error other than `OutOfMemory` they spell none, and the
/// error is the first fault from the left.
pub fn decode(alloc: Global, bytes: &[u8]) -> Result<Message, WireError>
    // What is read is a message, spelled so.
    ensures found { IfOk result (λ m. IsValidMessage m × (bytes.now ≡ message_spelling m)) }
    // What is spelled so is read, unless memory runs out.
    ensures only { (m : Message) → IsValidMessage m → bytes.now ≡ message_spelling m → Gives result (Ok m) }
    // Which fault it is.
    ensures exact { Gives result (whole_message bytes.now) }
{
    whole_message(alloc, bytes)
}

#[tactic(auto, unfolding(crate::specs::Decoding::message_at, crate::specs::Decoding::letter_at))]
fn message_at(alloc: Global, bytes: &[u8], at: usize) -> Read<Message>
    ensures { Gives result (message_at bytes.now at) }
{
    let (_, at) = kind_in(bytes, at, 1, 1)?;
    let (from, at) = node_at(bytes, at)?;
    let (to, at) = node_at(bytes, at)?;
    let (what, at) = what_at(alloc, bytes, at)?;
    Ok((Message { from, to, what }, at))
}

#[tactic(auto, unfolding(crate::specs::Decoding::whole_message))]
fn whole_message(alloc: Global, bytes: &[u8]) -> Result<Message, WireError>
    ensures { Gives result (whole_message bytes.now) }
{
    let (message, at) = message_at(alloc, bytes, 0)?;
    if at < bytes.len() {
        return Err(WireError::Trailing { at });
    }
    Ok(message)
}

#[tactic(auto, unfolding(crate::specs::Decoding::node_at))]
fn node_at(bytes: &[u8], at: usize) -> Read<NodeId>
    ensures { Gives result (node_at bytes.now at) }
{
    let (class, at) = byte_in(bytes, at, 0, 4)?;
    node_of(class, bytes, at)
}

#[tactic(auto, unfolding(crate::specs::Decoding::node_of))]
fn node_of(class: u8, bytes: &[u8], at: usize) -> Read<NodeId>
    ensures { Gives result (node_of class bytes.now at) }
{
    match class {
        0 => {
            let (number, at) = byte_in(bytes, at, 0, 4)?;
            Ok((NodeId::Seq(number), at))
        }
        1 => {
            let (number, at) = byte_in(bytes, at, 0, 5)?;
            Ok((NodeId::Shard(number, Side::Primary), at))
        }
        2 => {
            let (number, at) = byte_in(bytes, at, 0, 5)?;
            Ok((NodeId::Shard(number, Side::Backup), at))
        }
        3 => {
            let (number, at) = byte_in(bytes, at, 0, 5)?;
            Ok((NodeId::Client(number), at))
        }
        _ => {
            let (number, at) = byte_in(bytes, at, 0, 3)?;
            Ok((NodeId::Consumer(number), at))
        }
    }
}

#[tactic(auto, unfolding(crate::specs::Decoding::what_at))]
fn what_at(alloc: Global, bytes: &[u8], at: usize) -> Read<What>
    ensures { Gives result (what_at bytes.now at) }
{
    let (kind, at) = kind_in(bytes, at, 1, 16)?;
    what_of(alloc, kind, bytes, at)
}

#[tactic(auto, unfolding(crate::specs::Decoding::what_of))]
fn what_of(alloc: Global, kind: u8, bytes: &[u8], at: usize) -> Read<What>
    ensures { Gives result (what_of kind bytes.now at) }
{
    if kind < 5 {
        client_kind(alloc, kind, bytes, at)
    } else if kind < 11 {
        replica_kind(alloc, kind, bytes, at)
    } else {
        sequencer_kind(kind, bytes, at)
    }
}

/// Kinds 1 to 4, between clients and replicas.
#[tactic(auto, unfolding(crate::specs::Decoding::client_kind))]
fn client_kind(alloc: Global, kind: u8, bytes: &[u8], at: usize) -> Read<What>
    ensures { Gives result (client_kind kind bytes.now at) }
{
    let (first, at) = place_at(bytes, at)?;
    match kind {
        1 => {
            let (number, at) = place_at(bytes, at)?;
            let (body, at) = body_at(alloc, bytes, at)?;
            Ok((
                What::Append {
                    first,
                    number,
                    body,
                },
                at,
            ))
        }
        2 => {
            let number = first;
            let (position, at) = place_at(bytes, at)?;
            Ok((What::Ack { number, position }, at))
        }
        3 => {
            let (least, at) = place_at(bytes, at)?;
            Ok((What::AskFate { first, least }, at))
        }
        _ => Ok((What::Fate { next: first }, at)),
    }
}

/// Kinds 5 to 10, to and from replicas.
#[tactic(auto, unfolding(crate::specs::Decoding::replica_kind))]
fn replica_kind(alloc: Global, kind: u8, bytes: &[u8], at: usize) -> Read<What>
    ensures { Gives result (replica_kind kind bytes.now at) }
{
    let (local, at) = place_at(bytes, at)?;
    match kind {
        5 => {
            let (rec, at) = record_at(alloc, bytes, at)?;
            Ok((What::Replicate { local, rec }, at))
        }
        6 => Ok((What::Replicated { len: local }, at)),
        7 => Ok((What::Report { len: local }, at)),
        8 => Ok((What::Fill { wanted: local }, at)),
        9 => {
            let (rec, at) = record_at(alloc, bytes, at)?;
            Ok((What::Deliver { local, rec }, at))
        }
        _ => Ok((What::Fetch { local }, at)),
    }
}

/// Kinds 11 to 16, to and from sequencers.
#[tactic(auto, unfolding(crate::specs::Decoding::sequencer_kind, crate::specs::Decoding::vote_at))]
fn sequencer_kind(kind: u8, bytes: &[u8], at: usize) -> Read<What>
    ensures { Gives result (sequencer_kind kind bytes.now at) }
{
    let (slot, at) = slot_at(bytes, at)?;
    match kind {
        11 => {
            let (ballot, at) = ballot_at(bytes, at)?;
            Ok((What::Prepare { slot, ballot }, at))
        }
        12 => {
            let (ballot, at) = ballot_at(bytes, at)?;
            let (accepted, at) = report_at(bytes, at)?;
            Ok((
                What::Promise {
                    slot,
                    ballot,
                    accepted,
                },
                at,
            ))
        }
        13 => {
            let ((ballot, entry), at) = vote_at(bytes, at)?;
            Ok((
                What::Accept {
                    slot,
                    ballot,
                    entry,
                },
                at,
            ))
        }
        14 => {
            let (ballot, at) = ballot_at(bytes, at)?;
            Ok((What::Accepted { slot, ballot }, at))
        }
        15 => {
            let (count, at) = four_in(bytes, at, 1, 1_000_000)?;
            let (entry, at) = entry_at(bytes, at)?;
            Ok((What::Decided { slot, count, entry }, at))
        }
        _ => Ok((What::Learn { slot }, at)),
    }
}

#[tactic(auto, unfolding(crate::specs::Decoding::report_at))]
fn report_at(bytes: &[u8], at: usize) -> Read<Option<(u32, Entry)>>
    ensures { Gives result (report_at bytes.now at) }
{
    let (flag, at) = byte_in(bytes, at, 0, 1)?;
    report_of(flag, bytes, at)
}

#[tactic(auto, unfolding(crate::specs::Decoding::report_of, crate::specs::Decoding::vote_at))]
fn report_of(flag: u8, bytes: &[u8], at: usize) -> Read<Option<(u32, Entry)>>
    ensures { Gives result (report_of flag bytes.now at) }
{
    if flag == 0 {
        return Ok((None, at));
    }
    let (vote, at) = vote_at(bytes, at)?;
    Ok((Some(vote), at))
}
