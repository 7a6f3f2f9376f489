ghost use Rattle.std.specs.Prelude.{◌≡◌, ◌+◌, ◌≤◌, length, is_some};
ghost use Rattle.cut_core.specs.Map.{covered_locals, gone_end};
ghost use Rattle.msg_wire.specs.Nodes.{is_primary, number_of};
ghost use Rattle.node_rules.specs.Nodes.{agreed_by};
ghost use Rattle.shard_node.specs.States.{durable_locals};

use msg_wire::number_of;
use node_rules::Node;
use shard_log::ShardLog;
use spec_base::{NodeId, Side};

/// The limit of a log's length, and of clients' numbers.
pub(crate) const MOST: u64 = 1 << 48;

/// What a replica of a shard has, beside what every node has.
#[derive(Debug, Drop)]
pub struct ReplicaState {
    /// The shard's records, by local.
    pub log: ShardLog,
    /// How many of them a primary knows both replicas to hold, at most 2^48. A backup's log is durable whole.
    pub durable: u64,
    /// How many of them a primary has promised and delivered.
    pub promised: u64,
}

/// A replica: a node with the state of its kind.
pub(crate) type Replica = Node<ReplicaState>;

/// The number of the replica's shard.
pub(crate) fn shard_of(replica: &Replica) -> u8
    ensures { result ≡ number_of replica.now.base.me }
{
    number_of(replica.base.me())
}

/// Whether the replica is its shard's primary.
pub(crate) fn is_primary(replica: &Replica) -> bool
    ensures { result ≡ is_primary replica.now.base.me }
{
    matches!(replica.base.me(), NodeId::Shard(_, Side::Primary))
}

/// How many of the shard's locals are covered.
pub(crate) fn covered_of(replica: &Replica) -> u64
    ensures { result ≡ covered_locals (agreed_by replica.now.base) (number_of replica.now.base.me) }
{
    replica.base.agreed().locals(shard_of(replica))
}

/// Whether the shard is gone.
pub(crate) fn is_gone(replica: &Replica) -> bool
    ensures { result ≡ is_some (gone_end (agreed_by replica.now.base) (number_of replica.now.base.me)) }
{
    replica.base.agreed().gone(shard_of(replica)).is_some()
}

/// How many records are durable: of a primary those that both replicas hold, of a backup all that it has.
pub(crate) fn durable_of(replica: &Replica) -> u64
    ensures { result ≡ durable_locals replica.now }
{
    if is_primary(replica) {
        replica.own.durable
    } else {
        replica.own.log.len()
    }
}
