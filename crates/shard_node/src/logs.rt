//! How a replica's log grows: Append and Fill at the primary, Replicate at the backup.

ghost use Rattle.std.specs.Prelude.{◌≡◌, ◌+◌, ◌<◌, ◌≤◌, ◌^◌, length, OnOk};
ghost use Rattle.record_codec.specs.Records.{IsValidRecord};
ghost use Rattle.shard_log.specs.ShardLog.{append_from_answer};
ghost use Rattle.msg_wire.specs.Nodes.{number_of};
ghost use Rattle.node_rules.specs.Names.items.{Taken as TakenItem};
ghost use Rattle.node_rules.specs.Turns.{turn_of, store};
ghost use Rattle.shard_node.specs.Logs.{report, replicate_at, take_in, acknowledge, appended, hear_append, filled, replicate_noops, hear_fill, confirm_length, hear_replicate};

use crate::puts::{put_noops, put_record};
use crate::state::{MOST, Replica, is_gone, shard_of};
use msg_wire::{Item, Step, What, number_of};
use node_rules::Done;
use record_codec::{Body, Record};
use shard_log::Appended;
use spec_base::{NodeId, Side};

/// How many places a Fill fills at most.
const MOST_FILLED: u64 = 64;

/// Tells every sequencer how long the log is.
pub fn report(replica: &Replica, out: &mut Step) -> Done
    ensures { OnOk result (turn_of replica.now out.new ≡ report (turn_of replica.now out.old)) }
{
    let len = replica.own.log.len();
    replica.send_to_sequencers(&What::Report { len }, out)
}

/// Sends the backup a record.
pub fn replicate_at(replica: &Replica, local: u64, rec: &Record, out: &mut Step) -> Done
    ensures { OnOk result (turn_of replica.now out.new ≡ replicate_at local rec.now (turn_of replica.now out.old)) }
{
    let backup = NodeId::Shard(shard_of(replica), Side::Backup);
    let rec = rec.clone()?;
    replica.send(backup, What::Replicate { local, rec }, out)
}

/// Tells a client the position of its record at a covered local.
pub fn acknowledge(
    replica: &Replica,
    client: NodeId,
    number: u64,
    local: u64,
    out: &mut Step,
) -> Done
    ensures { OnOk result (turn_of replica.now out.new ≡ acknowledge client number local (turn_of replica.now out.old)) }
{
    match replica.base.agreed().place(shard_of(replica), local) {
        Some(position) => replica.send(client, What::Ack { number, position }, out),
        None => Ok(()),
    }
}

/// Append: a primary whose shard is not gone takes the record where its number is the client's next one, and tells the
/// position of one that is covered already.
pub fn hear_append(
    replica: &mut Replica,
    client: NodeId,
    first: u64,
    number: u64,
    body: &Body,
    out: &mut Step,
) -> Done
    requires { number_of client ≤ 5 }
    ensures { OnOk result (turn_of replica.new out.new ≡ hear_append client first number body.now (turn_of replica.old out.old)) }
{
    if is_gone(replica) || number >= MOST || replica.own.log.len() >= MOST {
        return Ok(());
    }
    offer(replica, client, first, number, body, out)
}

/// Offers the log a client's record, and does what follows of its answer.
fn offer(
    replica: &mut Replica,
    client: NodeId,
    first: u64,
    number: u64,
    body: &Body,
    out: &mut Step,
) -> Done
    requires client { number_of client ≤ 5 }
    requires number { number < 2 ^ 48 }
    requires room { length replica.old.own.log < 2 ^ 48 }
    ensures { OnOk result (turn_of replica.new out.new ≡ appended (append_from_answer (number_of client) first number replica.old.own.log) client number body.now (turn_of replica.old out.old)) }
{
    let owner = u32::from(number_of(client));
    match replica
        .own
        .log
        .append_from(owner, first, number, body.clone()?)?
    {
        Appended::Taken { local } => {
            let body = body.clone()?;
            let rec = Record::Data {
                client: owner,
                number,
                body,
            };
            pass_on(replica, local, rec, out)
        }
        Appended::Duplicate { local } => acknowledge(replica, client, number, local, out),
        Appended::Gap { .. } => Ok(()),
    }
}

/// Stores a record that the log has taken, then copies it to the backup, and reports.
fn pass_on(replica: &Replica, local: u64, rec: Record, out: &mut Step) -> Done
    ensures { OnOk result (turn_of replica.now out.new ≡ report (replicate_at local rec (store (TakenItem rec) (turn_of replica.now out.old)))) }
{
    let taken = Item::Taken { rec: rec.clone()? };
    replica.store(taken, out)?;
    replicate_at(replica, local, &rec, out)?;
    report(replica, out)
}

/// Fill: a primary whose shard is not gone fills up to 64 places at its log's end, as far as is wanted.
pub fn hear_fill(replica: &mut Replica, wanted: u64, out: &mut Step) -> Done
    requires { wanted ≤ 2 ^ 48 }
    ensures { OnOk result (turn_of replica.new out.new ≡ hear_fill wanted (turn_of replica.old out.old)) }
{
    let len = replica.own.log.len();
    if is_gone(replica) || wanted <= len {
        return Ok(());
    }
    let count = (wanted - len).min(MOST_FILLED);
    fill(replica, count as u8, out)?;
    replicate_noops(replica, len, count, out)?;
    report(replica, out)
}

/// Fills places at the log's end, and stores that.
fn fill(replica: &mut Replica, count: u8, out: &mut Step) -> Done
    ensures { OnOk result (turn_of replica.new out.new ≡ filled count (turn_of replica.old out.old)) }
{
    put_noops(replica, count)?;
    replica.store(Item::Noops { count }, out)
}

/// Sends the backup the filled places from a local on.
fn replicate_noops(replica: &Replica, from: u64, count: u64, out: &mut Step) -> Done
    requires { from + count ≤ 2 ^ 48 }
    ensures { OnOk result (turn_of replica.now out.new ≡ replicate_noops from count (turn_of replica.now out.old)) }
{
    for local in from..from + count {
        replicate_at(replica, local, &Record::Noop, out)?;
    }
    Ok(())
}

/// Replicate: a backup takes the record that is next, and tells its primary how long its log is. A full log takes nothing.
pub fn hear_replicate(
    replica: &mut Replica,
    from: NodeId,
    local: u64,
    rec: &Record,
    out: &mut Step,
) -> Done
    requires { IsValidRecord rec.now }
    ensures { OnOk result (turn_of replica.new out.new ≡ hear_replicate from local rec.now (turn_of replica.old out.old)) }
{
    let len = replica.own.log.len();
    if local != len {
        return confirm_length(replica, from, out);
    }
    if len >= MOST {
        return Ok(());
    }
    take_in(replica, rec, out)?;
    confirm_length(replica, from, out)?;
    report(replica, out)
}

/// Takes a record at the log's end, and stores it.
fn take_in(replica: &mut Replica, rec: &Record, out: &mut Step) -> Done
    requires { IsValidRecord rec.now }
    ensures { OnOk result (turn_of replica.new out.new ≡ take_in rec.now (turn_of replica.old out.old)) }
{
    put_record(replica, rec)?;
    let rec = rec.clone()?;
    replica.store(Item::Taken { rec }, out)
}

/// Tells a node how long the log is.
fn confirm_length(replica: &Replica, to: NodeId, out: &mut Step) -> Done
    ensures { OnOk result (turn_of replica.now out.new ≡ confirm_length to (turn_of replica.now out.old)) }
{
    let len = replica.own.log.len();
    replica.send(to, What::Replicated { len }, out)
}
