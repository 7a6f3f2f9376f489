//! A sequencer's rules for Learn, Prepare, Accept and Report.

ghost use Rattle.std.specs.Prelude.{◌≡◌, ◌<◌, OnOk};
ghost use Rattle.spec_base.specs.Spelling.{IsValidNode};
ghost use Rattle.node_rules.specs.Names.{Step as StepOf};
ghost use Rattle.node_rules.specs.Turns.{turn_of};
ghost use Rattle.seq_node.specs.States.{with_greatest};
ghost use Rattle.seq_node.specs.Rules.{tell, hear_learn, hear_prepare, hear_accept, hear_report};

use crate::state::Sequencer;
use majority::{AcceptAnswer, PrepareAnswer};
use msg_wire::{Item, Step, What};
use node_rules::Done;
use quota_table::Entry;
use spec_base::{NodeId, Side};

/// Learn: what is known is told.
pub fn hear_learn(seq: &Sequencer, from: NodeId, slot: u32, out: &mut Step) -> Done
    ensures { OnOk result (turn_of seq.now out.new ≡ hear_learn from slot (turn_of seq.now out.old)) }
{
    if slot < seq.base.count() {
        tell(seq, from, slot, out)
    } else {
        Ok(())
    }
}

/// Tells the entry of a slot that is known, with the own count.
fn tell(seq: &Sequencer, to: NodeId, slot: u32, out: &mut Step) -> Done
    ensures { OnOk result (turn_of seq.now out.new ≡ tell to slot (turn_of seq.now out.old)) }
{
    let count = seq.base.count();
    match seq.base.known().entry(slot) {
        Some(entry) => {
            let entry = entry.clone()?;
            seq.send(to, What::Decided { slot, count, entry }, out)
        }
        None => Ok(()),
    }
}

/// Prepare: a known slot is told. Where the acceptor promises, that is stored before it goes back.
pub fn hear_prepare(
    seq: &mut Sequencer,
    from: NodeId,
    slot: u32,
    ballot: u32,
    out: &mut Step,
) -> Done
    ensures { OnOk result (turn_of seq.new out.new ≡ hear_prepare from slot ballot (turn_of seq.old out.old)) }
{
    if slot < seq.base.count() {
        return tell(seq, from, slot, out);
    }
    match seq.own.acceptors.on_prepare(slot, ballot)? {
        PrepareAnswer::Lower { .. } => Ok(()),
        PrepareAnswer::Promised { accepted } => {
            seq.store(Item::Promised { slot, ballot }, out)?;
            let promise = What::Promise {
                slot,
                ballot,
                accepted,
            };
            seq.send(from, promise, out)
        }
    }
}

/// Accept: a known slot is told. Where the acceptor takes the entry, that is stored before it goes back.
pub fn hear_accept(
    seq: &mut Sequencer,
    from: NodeId,
    slot: u32,
    ballot: u32,
    entry: &Entry,
    out: &mut Step,
) -> Done
    ensures { OnOk result (turn_of seq.new out.new ≡ hear_accept from slot ballot entry.now (turn_of seq.old out.old)) }
{
    if slot < seq.base.count() {
        return tell(seq, from, slot, out);
    }
    match seq.own.acceptors.on_accept(slot, ballot, entry.clone()?)? {
        AcceptAnswer::Lower { .. } => Ok(()),
        AcceptAnswer::Taken => {
            let entry = entry.clone()?;
            let item = Item::Accepted {
                slot,
                ballot,
                entry,
            };
            seq.store(item, out)?;
            seq.send(from, What::Accepted { slot, ballot }, out)
        }
    }
}

/// Report: the greatest length of each replica is kept.
pub fn hear_report(seq: &mut Sequencer, from: NodeId, len: u64)
    requires { IsValidNode from }
    ensures { (out : StepOf) → turn_of seq.new out ≡ hear_report from len (turn_of seq.old out) }
{
    match from {
        NodeId::Shard(shard, Side::Primary) => keep_greatest(&mut seq.own.primaries, shard, len),
        NodeId::Shard(shard, Side::Backup) => keep_greatest(&mut seq.own.backups, shard, len),
        _ => {}
    }
}

/// Keeps the greater of a shard's length and what stands there.
fn keep_greatest(lengths: &mut [u64; 6], shard: u8, len: u64)
    requires { shard < 6 }
    ensures { lengths.new ≡ with_greatest shard len lengths.old }
{
    let shard = usize::from(shard);
    lengths[shard] = lengths[shard].max(len);
}
