ghost use Rattle.std.specs.Prelude.{◌≡◌, length};
ghost use Rattle.shard_node.specs.States.{durable_locals};

use crate::learning::on_learned;
use crate::restart::{fit, fresh, reset};
use crate::state::{Replica, ReplicaState, covered_of, durable_of};
use crate::steps::{deliver, hear, react};
use msg_wire::{Config, Event, Item, Message, Step};
use node_rules::{Done, Hears, Kind, Learns, Living};
use quota_table::{Entry, OutOfMemory};
use spec_base::NodeId;
use std::alloc::Global;

/// A replica of a shard. Contracts see it as a `Core`: its node, and whether it is spent.
///
/// A step costs O(rows + replicas + log n) plus what it stores, sends and shows.
pub type ShardNode = Living<ReplicaState>;

impl Learns for ReplicaState {
    ghost use Rattle.shard_node.specs.Learning as learning;

    ghost on_learned = { learning.on_learned };

    fn learn(replica: &mut Replica, entry: &Entry, out: &mut Step) -> Done {
        let before = covered_of(replica);
        let effect = replica.learn(entry, out)?;
        on_learned(replica, before, effect, out)
    }
}

impl Hears for ReplicaState {
    ghost use Rattle.shard_node.specs.Steps as steps;

    ghost hear = { steps.hear };

    ghost is_under_way = { λ _. Unit {0} };

    fn hear(replica: &mut Replica, message: &Message, out: &mut Step) -> Done {
        hear(replica, message, out)
    }
}

impl Kind for ReplicaState {
    ghost use Rattle.msg_wire.specs.Nodes.{is_replica};
    ghost use Rattle.shard_node.specs.Restart as vault;
    ghost use Rattle.shard_node.specs.Steps.{replica_step};
    ghost use Rattle.shard_node.specs.Sound.{IsReplica};

    ghost is_kind = { is_replica };

    ghost fresh_node = { vault.fresh_node };

    ghost fit = { vault.fit };

    ghost settled = { vault.reset_of };

    ghost step = { replica_step };

    ghost is_sound = { IsReplica };

    ghost is_fitting = { λ _. Unit {0} };

    fn fresh(alloc: Global, cfg: &Config, me: NodeId) -> Result<Replica, OutOfMemory> {
        let replica = fresh(alloc, cfg, me)?;
        Ok(replica)
    }

    fn fit(replica: &mut Replica, item: &Item) -> Done {
        fit(replica, item)
    }

    fn settle(replica: &mut Replica) {
        reset(replica);
    }

    fn deliver(replica: &mut Replica, _alloc: Global, message: &Message, out: &mut Step) -> Done {
        deliver(replica, message, out)?;
        Ok(())
    }

    fn react(replica: &mut Replica, _alloc: Global, event: &Event, out: &mut Step) -> Done {
        react(replica, event, out)?;
        Ok(())
    }
}

/// What is read of a replica.
pub trait ReadReplica {
    /// How many records its log has.
    fn len(&self) -> u64;

    /// How many of them are durable: of a primary those that it knows both replicas to hold, of a backup all.
    fn durable(&self) -> u64;
}

impl ReadReplica for ShardNode {
    fn len(&self) -> u64
        ensures { result ≡ length self.now.node.own.log }
    {
        self.node().own.log.len()
    }

    fn durable(&self) -> u64
        ensures { result ≡ durable_locals self.now.node }
    {
        durable_of(self.node())
    }
}
