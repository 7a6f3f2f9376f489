//! A replica's other rules: Replicated, Fetch, AskFate and Tick.

ghost use Rattle.std.specs.Prelude.{◌≡◌, ◌+◌, ◌<◌, ◌≤◌, ◌^◌, OnOk};
ghost use Rattle.msg_wire.specs.Nodes.{number_of};
ghost use Rattle.node_rules.specs.Names.{Step as StepOf};
ghost use Rattle.node_rules.specs.Turns.{turn_of};
ghost use Rattle.shard_node.specs.Rules.{hear_replicated, hear_fetch, answer_fate, hear_ask_fate, replicate_again, replicate_from, replicate_some, on_tick};

use crate::logs::{acknowledge, replicate_at, report};
use crate::state::{Replica, durable_of, is_primary, shard_of};
use msg_wire::{Step, What, number_of};
use node_rules::Done;
use spec_base::NodeId;

/// How many records a tick sends the backup once more, at most.
const MOST_AGAIN: u64 = 8;

/// Replicated: so much of the primary's log is at the backup too.
pub fn hear_replicated(replica: &mut Replica, len: u64)
    ensures { (out : StepOf) → turn_of replica.new out ≡ hear_replicated len (turn_of replica.old out) }
{
    let both = len.min(replica.own.log.len());
    replica.own.durable = replica.own.durable.max(both);
}

/// Fetch: a durable record is delivered.
pub fn hear_fetch(replica: &Replica, from: NodeId, local: u64, out: &mut Step) -> Done
    ensures { OnOk result (turn_of replica.now out.new ≡ hear_fetch from local (turn_of replica.now out.old)) }
{
    if local >= durable_of(replica) {
        return Ok(());
    }
    match replica.own.log.get(local) {
        Some(rec) => {
            let rec = rec.clone()?;
            replica.send(from, What::Deliver { local, rec }, out)
        }
        None => Ok(()),
    }
}

/// AskFate: where the shard is gone and its log has all its final locals, the client is told what became of its records.
pub fn hear_ask_fate(
    replica: &Replica,
    client: NodeId,
    first: u64,
    least: u64,
    out: &mut Step,
) -> Done
    requires { number_of client ≤ 5 }
    ensures { OnOk result (turn_of replica.now out.new ≡ hear_ask_fate client first least (turn_of replica.now out.old)) }
{
    let Some(end) = replica.base.agreed().gone(shard_of(replica)) else {
        return Ok(());
    };
    if replica.own.log.len() < end {
        return Ok(());
    }
    let owner = u32::from(number_of(client));
    let next = replica.own.log.next_of(owner, end).unwrap_or(first);
    answer_fate(replica, client, least, next, out)
}

/// A number below the client's next one is covered here, and its position goes back; else the next one does.
fn answer_fate(replica: &Replica, client: NodeId, least: u64, next: u64, out: &mut Step) -> Done
    requires { number_of client ≤ 5 }
    ensures { OnOk result (turn_of replica.now out.new ≡ answer_fate client least next (turn_of replica.now out.old)) }
{
    if least >= next {
        return replica.send(client, What::Fate { next }, out);
    }
    match replica
        .own
        .log
        .local_of(u32::from(number_of(client)), least)
    {
        Some(local) => acknowledge(replica, client, least, local, out),
        None => Ok(()),
    }
}

/// Tick: it asks for the next entry, reports, and a primary sends its backup once more what is not durable yet.
pub fn on_tick(replica: &mut Replica, out: &mut Step) -> Done
    requires { replica.old.own.durable ≤ 2 ^ 48 }
    ensures { OnOk result (turn_of replica.new out.new ≡ on_tick (turn_of replica.old out.old)) }
{
    replica.tick(out)?;
    report(replica, out)?;
    replicate_some(replica, out)
}

/// A primary sends its backup the next 8 records that are not known to be durable.
fn replicate_some(replica: &Replica, out: &mut Step) -> Done
    requires { replica.now.own.durable ≤ 2 ^ 48 }
    ensures { OnOk result (turn_of replica.now out.new ≡ replicate_some (turn_of replica.now out.old)) }
{
    if is_primary(replica) {
        replicate_from(replica, replica.own.durable, MOST_AGAIN, out)
    } else {
        Ok(())
    }
}

/// The records at several locals, as far as there are any, are sent to the backup.
fn replicate_from(replica: &Replica, from: u64, count: u64, out: &mut Step) -> Done
    requires { from + count < 2 ^ 64 }
    ensures { OnOk result (turn_of replica.now out.new ≡ replicate_from from count (turn_of replica.now out.old)) }
{
    for local in from..from + count {
        replicate_again(replica, local, out)?;
    }
    Ok(())
}

/// The record at a local, if there is one, is sent to the backup.
fn replicate_again(replica: &Replica, local: u64, out: &mut Step) -> Done
    ensures { OnOk result (turn_of replica.now out.new ≡ replicate_again (turn_of replica.now out.old) local) }
{
    match replica.own.log.get(local) {
        Some(rec) => replicate_at(replica, local, rec, out),
        None => Ok(()),
    }
}
