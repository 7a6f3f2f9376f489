//! The nodes of a cluster in their order, and where each stands in it.

ghost use Rattle.std.specs.Prelude.{◌≡◌, ◌++◌, IfOk, OnOk};
ghost use Rattle.msg_wire.specs.Nodes.{sequencers_of, replicas_of, all_replicas_of, clients_of, consumers_of, nodes_of};
ghost use Rattle.msg_wire.specs.Valid.{IsValidConfig, IsNodeOf};
ghost use Rattle.node_order.specs.Places.{rank_of};

use msg_wire::Config;
use quota_table::OutOfMemory;
use spec_base::{NodeId, Side};
use std::alloc::Global;

/// All nodes in their order: sequencers by number, replicas by shard with the primary first, clients, consumers.
pub fn nodes_in_order(alloc: Global, cfg: &Config) -> Result<Vec<NodeId>, OutOfMemory>
    requires { IsValidConfig cfg.now }
    ensures { IfOk result (λ order. order.items ≡ nodes_of cfg.now) }
{
    let mut order = Vec::new(alloc);
    push_sequencers(&mut order, cfg)?;
    push_replicas(&mut order, cfg)?;
    push_clients(&mut order, cfg)?;
    push_consumers(&mut order, cfg)?;
    Ok(order)
}

fn push_sequencers(order: &mut Vec<NodeId>, cfg: &Config) -> Result<(), OutOfMemory>
    ensures { OnOk result (order.new.items ≡ order.old.items ++ sequencers_of cfg.now) }
{
    for number in 0..cfg.seqs {
        order.push(NodeId::Seq(number))?;
    }
    Ok(())
}

fn push_replicas(order: &mut Vec<NodeId>, cfg: &Config) -> Result<(), OutOfMemory>
    ensures { OnOk result (order.new.items ≡ order.old.items ++ all_replicas_of cfg.now) }
{
    for shard in 0..cfg.shards {
        push_replicas_of(order, shard)?;
    }
    Ok(())
}

fn push_replicas_of(order: &mut Vec<NodeId>, shard: u8) -> Result<(), OutOfMemory>
    ensures { OnOk result (order.new.items ≡ order.old.items ++ replicas_of shard) }
{
    order.push(NodeId::Shard(shard, Side::Primary))?;
    order.push(NodeId::Shard(shard, Side::Backup))?;
    Ok(())
}

fn push_clients(order: &mut Vec<NodeId>, cfg: &Config) -> Result<(), OutOfMemory>
    requires { IsValidConfig cfg.now }
    ensures { OnOk result (order.new.items ≡ order.old.items ++ clients_of cfg.now) }
{
    let clients = cfg.homes.len() as u8;
    for number in 0..clients {
        order.push(NodeId::Client(number))?;
    }
    Ok(())
}

fn push_consumers(order: &mut Vec<NodeId>, cfg: &Config) -> Result<(), OutOfMemory>
    ensures { OnOk result (order.new.items ≡ order.old.items ++ consumers_of cfg.now) }
{
    for number in 0..cfg.consumers {
        order.push(NodeId::Consumer(number))?;
    }
    Ok(())
}

/// The place of a node in that order, in O(1).
pub fn rank_of(cfg: &Config, node: NodeId) -> usize
    requires valid { IsValidConfig cfg.now }
    requires node { IsNodeOf cfg.now node }
    ensures { result ≡ rank_of cfg.now node }
{
    let replicas = usize::from(cfg.seqs);
    let clients = replicas + 2 * usize::from(cfg.shards);
    match node {
        NodeId::Seq(number) => usize::from(number),
        NodeId::Shard(number, Side::Primary) => replicas + 2 * usize::from(number),
        NodeId::Shard(number, Side::Backup) => replicas + 2 * usize::from(number) + 1,
        NodeId::Client(number) => clients + usize::from(number),
        NodeId::Consumer(number) => clients + cfg.homes.len() + usize::from(number),
    }
}
