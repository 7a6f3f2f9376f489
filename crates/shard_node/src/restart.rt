//! A replica at its start, after a restart, and as the items of its vault give it.

ghost use Rattle.std.specs.Prelude.{◌≡◌, ◌≤◌, ◌∷◌, [], IfOk, OnOk, replicate};
ghost use Rattle.record_codec.specs.Records.{IsValidRecord};
ghost use Rattle.msg_wire.specs.Valid.{IsValidConfig, IsNodeOf, IsValidItem};
ghost use Rattle.node_rules.specs.Names.records.{Noop};
ghost use Rattle.shard_node.specs.Restart.{fresh_node, fit_records, fit, reset_of};

use crate::puts::{put_noops, put_record};
use crate::state::{MOST, Replica, ReplicaState, covered_of};
use msg_wire::{Config, Item};
use node_rules::{Done, Node, NodeBase};
use quota_table::OutOfMemory;
use record_codec::Record;
use shard_log::ShardLog;
use spec_base::NodeId;
use std::alloc::Global;

/// A replica that has and knows nothing.
pub fn fresh(alloc: Global, cfg: &Config, me: NodeId) -> Result<Replica, OutOfMemory>
    requires valid { IsValidConfig cfg.now }
    requires node { IsNodeOf cfg.now me }
    ensures { IfOk result (λ replica. replica ≡ fresh_node cfg.now me) }
{
    Ok(Node {
        base: NodeBase::new(alloc, cfg, me)?,
        own: ReplicaState {
            log: ShardLog::new(alloc),
            durable: 0,
            promised: 0,
        },
    })
}

/// Forgets what a restart forgets: the known entries and the log stay, and what is covered is durable and promised.
pub fn reset(replica: &mut Replica)
    ensures { replica.new ≡ reset_of replica.old }
{
    let covered = covered_of(replica);
    replica.base.reset();
    replica.own.durable = covered;
    replica.own.promised = covered;
}

/// Takes one more item of a vault. One that does not fit is passed over.
pub fn fit(replica: &mut Replica, item: &Item) -> Done
    requires { IsValidItem item.now }
    ensures { OnOk result (replica.new ≡ fit replica.old item.now) }
{
    match item {
        Item::Known { entry } => replica.fit_known(entry),
        Item::Taken { rec } => fit_record(replica, rec),
        Item::Noops { count } => fit_noops(replica, *count),
        _ => Ok(()),
    }
}

/// Puts a record at the log's end, where there is room.
fn fit_record(replica: &mut Replica, rec: &Record) -> Done
    requires { IsValidRecord rec.now }
    ensures { OnOk result (replica.new ≡ fit_records (rec.now ∷ []) replica.old) }
{
    if replica.own.log.len() < MOST {
        put_record(replica, rec)
    } else {
        Ok(())
    }
}

/// Fills places at the log's end, where there is room for all of them.
fn fit_noops(replica: &mut Replica, count: u8) -> Done
    requires { 1 ≤ count }
    ensures { OnOk result (replica.new ≡ fit_records (replicate count Noop) replica.old) }
{
    if u64::from(count) <= MOST.saturating_sub(replica.own.log.len()) {
        put_noops(replica, count)
    } else {
        Ok(())
    }
}
