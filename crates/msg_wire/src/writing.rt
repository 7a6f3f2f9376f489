//! Messages and items as bytes: fields go into a head, which takes no memory, and then all at once to the end of the
//! bytes, with the body that is behind them.

ghost use Rattle.std.specs.Prelude.{◌≡◌, ◌≤◌, ◌+◌, ◌++◌, ◌∷◌, [], length, OnOk, OnErr};
ghost use Rattle.record_codec.specs.Fields.{sized};
ghost use Rattle.record_codec.specs.Entries.{entry_spelling, rows_spelling};
ghost use Rattle.msg_wire.specs.Messages.{node_spelling, report_spelling, kind_of, fields_of, message_spelling};
ghost use Rattle.msg_wire.specs.Items.{tag_of, item_fields, item_spelling, items_spelling};
ghost use Rattle.msg_wire.specs.Valid.{IsValidMessage, AreValidItems};

use crate::item::Item;
use crate::message::{Message, What};
use quota_table::{Bytes, Entry, OutOfMemory, Table};
use record_codec::fields::{Head, put_byte, put_eight, put_four, put_two};
use record_codec::{Body, Output, ShortText, put_record};
use spec_base::{NodeId, Side};

/// Fields behind a body: the output of a confirmed record and its length.
type Tail = ShortText<65>;

/// Puts the spelling of a message at the end. At an error the bytes are as before.
#[tactic(auto, using(std::proofs::Common::append_assoc))]
pub fn encode(message: &Message, into: &mut Bytes) -> Result<(), OutOfMemory>
    requires { IsValidMessage message.now }
    ensures ok { OnOk result (into.new ≡ into.old ++ message_spelling message.now) }
    ensures err { OnErr result (into.new ≡ into.old) }
{
    let mut head = Head::new();
    put_byte(&mut head, 1);
    put_node(&mut head, message.from);
    put_node(&mut head, message.to);
    put_byte(&mut head, kind_of(&message.what));
    let body = put_fields(&mut head, &message.what);
    into.extend_from_parts(head.as_slice(), body, &[])
}

/// Puts the spelling of items at the end, one after the other. At an error the bytes are as before.
pub fn encode_items(items: &[Item], into: &mut Bytes) -> Result<(), OutOfMemory>
    requires some { 1 ≤ length items.now }
    requires valid { AreValidItems items.now }
    ensures ok { OnOk result (into.new ≡ into.old ++ items_spelling items.now) }
    ensures err { OnErr result (into.new ≡ into.old) }
{
    let before = into.len();
    for item in items {
        if let Err(error) = put_item(item, into) {
            into.truncate(before);
            return Err(error);
        }
    }
    Ok(())
}

#[tactic(auto, using(std::proofs::Common::append_assoc))]
fn put_item(item: &Item, into: &mut Bytes) -> Result<(), OutOfMemory>
    ensures ok { OnOk result (into.new ≡ into.old ++ item_spelling item.now) }
    ensures err { OnErr result (into.new ≡ into.old) }
{
    let mut head = Head::new();
    let mut tail = Tail::new();
    put_byte(&mut head, tag_of(item));
    let body = put_item_fields(&mut head, &mut tail, item);
    into.extend_from_parts(head.as_slice(), body, tail.as_slice())
}

fn kind_of(what: &What) -> u8
    ensures { result ≡ kind_of what.now }
{
    match what {
        What::Append { .. } => 1,
        What::Ack { .. } => 2,
        What::AskFate { .. } => 3,
        What::Fate { .. } => 4,
        What::Replicate { .. } => 5,
        What::Replicated { .. } => 6,
        What::Report { .. } => 7,
        What::Fill { .. } => 8,
        What::Deliver { .. } => 9,
        What::Fetch { .. } => 10,
        What::Prepare { .. } => 11,
        What::Promise { .. } => 12,
        What::Accept { .. } => 13,
        What::Accepted { .. } => 14,
        What::Decided { .. } => 15,
        What::Learn { .. } => 16,
    }
}

fn tag_of(item: &Item) -> u8
    ensures { result ≡ tag_of item.now }
{
    match item {
        Item::Promised { .. } => 1,
        Item::Accepted { .. } => 2,
        Item::Known { .. } => 3,
        Item::Taken { .. } => 4,
        Item::Noops { .. } => 5,
        Item::Submitted { .. } => 6,
        Item::Acked => 7,
        Item::Moved { .. } => 8,
        Item::Confirmed { .. } => 9,
    }
}

/// Puts the fields of a message before its body at the end of a head, and gives the body.
#[tactic(auto, using(std::proofs::Common::append_assoc))]
fn put_fields<'a>(head: &mut Head, what: &'a What) -> &'a [u8]
    requires { length head.old + 33 ≤ 40 }
    ensures { head.new ++ result.now ≡ head.old ++ fields_of what.now }
{
    match what {
        What::Append {
            first,
            number,
            body,
        } => {
            put_eight(head, *first);
            put_eight(head, *number);
            put_body(head, body)
        }
        What::Ack {
            number: first,
            position: second,
        }
        | What::AskFate {
            first,
            least: second,
        } => {
            put_eight(head, *first);
            put_eight(head, *second);
            &[]
        }
        What::Fate { next: place }
        | What::Replicated { len: place }
        | What::Report { len: place }
        | What::Fill { wanted: place }
        | What::Fetch { local: place } => {
            put_eight(head, *place);
            &[]
        }
        What::Replicate { local, rec } | What::Deliver { local, rec } => {
            put_eight(head, *local);
            put_record(head, rec)
        }
        _ => {
            put_sequencer_fields(head, what);
            &[]
        }
    }
}

/// The fields of the kinds to and from sequencers.
#[tactic(auto, using(std::proofs::Common::append_assoc))]
fn put_sequencer_fields(head: &mut Head, what: &What)
    requires kind { 11 ≤ kind_of what.now }
    requires room { length head.old + 33 ≤ 40 }
    ensures { head.new ≡ head.old ++ fields_of what.now }
{
    match what {
        What::Prepare { slot, ballot } | What::Accepted { slot, ballot } => {
            put_four(head, *slot);
            put_four(head, *ballot);
        }
        What::Promise {
            slot,
            ballot,
            accepted,
        } => {
            put_four(head, *slot);
            put_four(head, *ballot);
            put_report(head, accepted);
        }
        What::Accept {
            slot,
            ballot: number,
            entry,
        }
        | What::Decided {
            slot,
            count: number,
            entry,
        } => {
            put_four(head, *slot);
            put_four(head, *number);
            put_entry(head, entry);
        }
        What::Learn { slot } => put_four(head, *slot),
        _ => unreachable!(),
    }
}

/// Puts the fields of an item before its body at the end of a head, those behind it into a tail, and gives the body.
#[tactic(auto, using(std::proofs::Common::append_assoc))]
fn put_item_fields<'a>(head: &mut Head, tail: &mut Tail, item: &'a Item) -> &'a [u8]
    requires room { length head.old + 28 ≤ 40 }
    requires empty { tail.old ≡ [] }
    ensures { head.new ++ result.now ++ tail.new ≡ head.old ++ item_fields item.now }
{
    match item {
        Item::Promised { slot, ballot } => {
            put_four(head, *slot);
            put_four(head, *ballot);
            &[]
        }
        Item::Accepted {
            slot,
            ballot,
            entry,
        } => {
            put_four(head, *slot);
            put_four(head, *ballot);
            put_entry(head, entry);
            &[]
        }
        Item::Known { entry } => {
            put_entry(head, entry);
            &[]
        }
        Item::Taken { rec } => put_record(head, rec),
        Item::Noops { count } => {
            put_byte(head, *count);
            &[]
        }
        Item::Submitted { body } => put_body(head, body),
        Item::Acked => &[],
        Item::Moved { shard, first } => {
            put_byte(head, *shard);
            put_eight(head, *first);
            &[]
        }
        Item::Confirmed { rec, output } => {
            put_output(tail, output);
            put_record(head, rec)
        }
    }
}

fn put_body<'a>(head: &mut Head, body: &'a Body) -> &'a [u8]
    requires { length head.old + 2 ≤ 40 }
    ensures { head.new ++ result.now ≡ head.old ++ sized body.now }
{
    put_two(head, body.len() as u16);
    body.as_slice()
}

fn put_output(tail: &mut Tail, output: &Output)
    requires { tail.old ≡ [] }
    ensures { tail.new ≡ length output.now ∷ output.now }
{
    tail.extend_from_slice(&[output.len() as u8]);
    tail.extend_from_slice(output.as_slice());
}

fn put_node(head: &mut Head, node: NodeId)
    requires { length head.old + 2 ≤ 40 }
    ensures bytes { head.new ≡ head.old ++ node_spelling node }
    ensures len { length head.new ≡ length head.old + 2 }
{
    let (class, number) = match node {
        NodeId::Seq(number) => (0, number),
        NodeId::Shard(number, Side::Primary) => (1, number),
        NodeId::Shard(number, Side::Backup) => (2, number),
        NodeId::Client(number) => (3, number),
        NodeId::Consumer(number) => (4, number),
    };
    put_byte(head, class);
    put_byte(head, number);
}

#[tactic(auto, using(std::proofs::Common::append_assoc))]
fn put_report(head: &mut Head, accepted: &Option<(u32, Entry)>)
    requires { length head.old + 25 ≤ 40 }
    ensures { head.new ≡ head.old ++ report_spelling accepted.now }
{
    match accepted {
        None => put_byte(head, 0),
        Some((ballot, entry)) => {
            put_byte(head, 1);
            put_four(head, *ballot);
            put_entry(head, entry);
        }
    }
}

#[tactic(auto, using(std::proofs::Common::append_assoc))]
fn put_entry(head: &mut Head, entry: &Entry)
    requires { length head.old + 20 ≤ 40 }
    ensures { head.new ≡ head.old ++ entry_spelling entry.now }
{
    match entry {
        Entry::Nothing => put_byte(head, 0),
        Entry::Cut { window, round } => {
            put_byte(head, 1);
            put_four(head, *window);
            put_two(head, *round);
        }
        Entry::Table {
            after,
            rounds,
            rows,
        } => {
            put_byte(head, 2);
            put_four(head, *after);
            put_two(head, *rounds);
            put_rows(head, rows);
        }
        Entry::Remove { window, shard } => {
            put_byte(head, 3);
            put_four(head, *window);
            put_byte(head, *shard);
        }
    }
}

fn put_rows(head: &mut Head, table: &Table)
    requires { length head.old + 13 ≤ 40 }
    ensures { head.new ≡ head.old ++ length table.now ∷ rows_spelling table.now }
{
    let rows = table.rows();
    put_byte(head, rows.len() as u8);
    for row in rows {
        put_byte(head, row.shard);
        put_byte(head, row.quota);
    }
}
