//! What a replica does at a learned entry.

ghost use Rattle.std.specs.Prelude.{◌≡◌, ◌≤◌, ◌^◌, OnOk};
ghost use Rattle.record_codec.specs.Records.{IsValidRecord};
ghost use Rattle.node_rules.specs.Turns.{turn_of};
ghost use Rattle.shard_node.specs.Learning.{tell_client, confirm_record, confirm, confirm_from, covered_is_durable, notice};

use crate::state::{Replica, covered_of, is_primary, shard_of};
use cut_core::Effect;
use msg_wire::{Mark, Step, What};
use node_rules::Done;
use record_codec::Record;
use spec_base::NodeId;

/// What follows of an entry that is learned now: what is covered is durable, what is newly covered is confirmed, and a
/// removal is noticed. `before` is how many locals were covered before it.
pub fn on_learned(replica: &mut Replica, before: u64, effect: Effect, out: &mut Step) -> Done
    ensures { OnOk result (turn_of replica.new out.new ≡ notice effect (confirm_from before (covered_is_durable (turn_of replica.old out.old)))) }
{
    replica.own.durable = replica.own.durable.max(covered_of(replica));
    confirm_from(replica, before, out)?;
    notice(replica, effect, out)
}

/// Confirms the locals that are covered now and were not before, rising.
fn confirm_from(replica: &Replica, before: u64, out: &mut Step) -> Done
    ensures { OnOk result (turn_of replica.now out.new ≡ confirm_from before (turn_of replica.now out.old)) }
{
    for local in before..covered_of(replica) {
        confirm(replica, local, out)?;
    }
    Ok(())
}

/// Confirms a local that is covered now. A record that the log does not have is left out; no run comes there.
fn confirm(replica: &Replica, local: u64, out: &mut Step) -> Done
    ensures { OnOk result (turn_of replica.now out.new ≡ confirm (turn_of replica.now out.old) local) }
{
    let Some(position) = replica.base.agreed().place(shard_of(replica), local) else {
        return Ok(());
    };
    match replica.own.log.get(local) {
        Some(rec) => confirm_record(replica, position, rec, out),
        None => Ok(()),
    }
}

/// Confirms a record at its position; the primary tells its client.
fn confirm_record(replica: &Replica, position: u64, rec: &Record, out: &mut Step) -> Done
    requires { IsValidRecord rec.now }
    ensures { OnOk result (turn_of replica.now out.new ≡ confirm_record position rec.now (turn_of replica.now out.old)) }
{
    let shown = rec.clone()?;
    replica.show(
        Mark::Confirm {
            position,
            rec: shown,
        },
        out,
    )?;
    if is_primary(replica) {
        tell_client(replica, position, rec, out)
    } else {
        Ok(())
    }
}

/// Tells the client of a record its position. A record that fills a place is nobody's.
fn tell_client(replica: &Replica, position: u64, rec: &Record, out: &mut Step) -> Done
    requires { IsValidRecord rec.now }
    ensures { OnOk result (turn_of replica.now out.new ≡ tell_client position rec.now (turn_of replica.now out.old)) }
{
    let Record::Data { client, number, .. } = rec else {
        return Ok(());
    };
    let number = *number;
    replica.send(
        NodeId::Client(*client as u8),
        What::Ack { number, position },
        out,
    )
}

/// Notices a removal: what was promised past the covered locals is promised anew.
fn notice(replica: &mut Replica, effect: Effect, out: &mut Step) -> Done
    ensures { OnOk result (turn_of replica.new out.new ≡ notice effect (turn_of replica.old out.old)) }
{
    if let Effect::Removed { first, .. } = effect {
        replica.show(Mark::Notice { first }, out)?;
        replica.own.promised = covered_of(replica);
    }
    Ok(())
}
