//! Which messages a node takes.

ghost use Rattle.std.specs.Prelude.{◌≡◌, ◌↔◌, IsTrue};
ghost use Rattle.msg_wire.specs.Nodes.{is_node_of, number_of, is_sequencer, is_primary, is_replica, is_backup, is_client, is_consumer, same_node, same_shard};
ghost use Rattle.msg_wire.specs.Valid.{IsNodeOf};
ghost use Rattle.msg_wire.specs.Heeded.{goes_between, is_heeded};

use crate::config::Config;
use crate::message::{Message, What};
use spec_base::{NodeId, Side};

/// Whether a node takes a message: it came to this node, from another node of the cluster, between the classes of its
/// kind. Any other message does nothing by itself.
#[inline(always)]
pub fn is_heeded(cfg: &Config, me: NodeId, message: &Message) -> bool
    ensures { result ≡ is_heeded cfg.now me message.now }
{
    let Message { from, to, what } = message;
    same_node(*to, me)
        && is_node_of(cfg, *from)
        && !same_node(*from, *to)
        && goes_between(what, *from, *to)
}

/// Whether the cluster has a node.
pub fn is_node_of(cfg: &Config, node: NodeId) -> bool
    ensures test { result ≡ is_node_of cfg.now node }
    ensures node { IsTrue result ↔ IsNodeOf cfg.now node }
{
    match node {
        NodeId::Seq(number) => number < cfg.seqs,
        NodeId::Shard(number, _) => number < cfg.shards,
        NodeId::Client(number) => usize::from(number) < cfg.homes.len(),
        NodeId::Consumer(number) => number < cfg.consumers,
    }
}

/// A node's number among its kind; a replica's is that of its shard.
pub fn number_of(node: NodeId) -> u8
    ensures { result ≡ number_of node }
{
    match node {
        NodeId::Seq(number)
        | NodeId::Shard(number, _)
        | NodeId::Client(number)
        | NodeId::Consumer(number) => number,
    }
}

/// Whether two names are of one node.
pub fn same_node(a: NodeId, b: NodeId) -> bool
    ensures { result ≡ same_node a b }
{
    match (a, b) {
        (NodeId::Seq(a), NodeId::Seq(b)) => a == b,
        (NodeId::Shard(a, Side::Primary), NodeId::Shard(b, Side::Primary)) => a == b,
        (NodeId::Shard(a, Side::Backup), NodeId::Shard(b, Side::Backup)) => a == b,
        (NodeId::Client(a), NodeId::Client(b)) => a == b,
        (NodeId::Consumer(a), NodeId::Consumer(b)) => a == b,
        _ => false,
    }
}

/// Whether a kind of message goes from the one node to the other.
#[inline(always)]
fn goes_between(what: &What, from: NodeId, to: NodeId) -> bool
    ensures { result ≡ goes_between what.now from to }
{
    match what {
        What::Append { .. } => is_client(from) && is_primary(to),
        What::AskFate { .. } => is_client(from) && is_replica(to),
        What::Ack { .. } | What::Fate { .. } => is_replica(from) && is_client(to),
        What::Replicate { .. } => is_primary(from) && is_backup(to) && same_shard(from, to),
        What::Replicated { .. } => is_backup(from) && is_primary(to) && same_shard(from, to),
        What::Report { .. } => is_replica(from) && is_sequencer(to),
        What::Fill { .. } => is_sequencer(from) && is_primary(to),
        What::Deliver { .. } => is_replica(from) && is_consumer(to),
        What::Fetch { .. } => is_consumer(from) && is_replica(to),
        What::Prepare { .. } | What::Promise { .. } | What::Accept { .. } | What::Accepted { .. } =>
            { is_sequencer(from) && is_sequencer(to) }
        What::Decided { .. } => is_sequencer(from),
        What::Learn { .. } => is_sequencer(to),
    }
}

fn is_sequencer(node: NodeId) -> bool
    ensures { result ≡ is_sequencer node }
{
    matches!(node, NodeId::Seq(_))
}

fn is_replica(node: NodeId) -> bool
    ensures { result ≡ is_replica node }
{
    matches!(node, NodeId::Shard(_, _))
}

fn is_primary(node: NodeId) -> bool
    ensures { result ≡ is_primary node }
{
    matches!(node, NodeId::Shard(_, Side::Primary))
}

fn is_backup(node: NodeId) -> bool
    ensures { result ≡ is_backup node }
{
    matches!(node, NodeId::Shard(_, Side::Backup))
}

fn is_client(node: NodeId) -> bool
    ensures { result ≡ is_client node }
{
    matches!(node, NodeId::Client(_))
}

fn is_consumer(node: NodeId) -> bool
    ensures { result ≡ is_consumer node }
{
    matches!(node, NodeId::Consumer(_))
}

/// Whether two nodes are replicas of one shard.
fn same_shard(a: NodeId, b: NodeId) -> bool
    ensures { result ≡ same_shard a b }
{
    match (a, b) {
        (NodeId::Shard(a, _), NodeId::Shard(b, _)) => a == b,
        _ => false,
    }
}
