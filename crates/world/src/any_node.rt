ghost use Rattle.std.specs.Prelude.{◌≡◌, true, false, IfOk, OnOk, OnErr};
ghost use Rattle.msg_wire.specs.Valid.{IsValidConfig, IsNodeOf, IsValidEvent, AreValidItems};
ghost use Rattle.msg_wire.specs.Steps.{IsValidStep};

use app_law::AnyApp;
use client_node::ClientNode;
use consumer_node::{ConsumerNode, ReadConsumer};
use msg_wire::{Config, Event, Items, Message, Step};
use net_model::{NodeModel, View, Viewed};
use quota_table::OutOfMemory;
use seq_node::SeqNode;
use shard_node::ShardNode;
use spec_base::NodeId;
use std::alloc::Global;

/// A node of any kind.
#[derive(Drop)]
pub enum AnyNode {
    Seq(SeqNode),
    Shard(ShardNode),
    Client(ClientNode),
    Consumer(ConsumerNode<AnyApp>),
}

impl NodeModel for AnyNode {
    ghost use Rattle.world.specs.AnyNodes.{fresh_any, restarted_any, gives_any, leaves_any, is_spent_any};

    ghost fresh = { fresh_any };

    ghost restarted = { restarted_any };

    ghost gives = { gives_any };

    ghost leaves = { leaves_any };

    ghost is_spent = { is_spent_any };

    fn new(alloc: Global, cfg: &Config, node: NodeId) -> Result<AnyNode, OutOfMemory> {
        match node {
            NodeId::Seq(_) => Ok(AnyNode::Seq(SeqNode::new(alloc, cfg, node)?)),
            NodeId::Shard(_, _) => Ok(AnyNode::Shard(ShardNode::new(alloc, cfg, node)?)),
            NodeId::Client(_) => Ok(AnyNode::Client(ClientNode::new(alloc, cfg, node)?)),
            NodeId::Consumer(_) => Ok(AnyNode::Consumer(ConsumerNode::new(alloc, cfg, node)?)),
        }
    }

    fn restart(
        alloc: Global,
        cfg: &Config,
        node: NodeId,
        items: &Items,
    ) -> Result<AnyNode, OutOfMemory> {
        match node {
            NodeId::Seq(_) => Ok(AnyNode::Seq(SeqNode::restart(alloc, cfg, node, items)?)),
            NodeId::Shard(_, _) => Ok(AnyNode::Shard(ShardNode::restart(alloc, cfg, node, items)?)),
            NodeId::Client(_) => Ok(AnyNode::Client(ClientNode::restart(alloc, cfg, node, items)?)),
            NodeId::Consumer(_) => Ok(AnyNode::Consumer(ConsumerNode::restart(
                alloc, cfg, node, items,
            )?)),
        }
    }

    fn step(&mut self, alloc: Global, event: &Event) -> Result<Step, OutOfMemory> {
        match self {
            AnyNode::Seq(node) => node.step(alloc, event),
            AnyNode::Shard(node) => node.step(alloc, event),
            AnyNode::Client(node) => node.step(alloc, event),
            AnyNode::Consumer(node) => node.step(alloc, event),
        }
    }

    fn step_into(
        &mut self,
        alloc: Global,
        event: &Event,
        out: &mut Step,
    ) -> Result<(), OutOfMemory> {
        match self {
            AnyNode::Seq(node) => node.step_into(alloc, event, out),
            AnyNode::Shard(node) => node.step_into(alloc, event, out),
            AnyNode::Client(node) => node.step_into(alloc, event, out),
            AnyNode::Consumer(node) => node.step_into(alloc, event, out),
        }
    }

    fn deliver_into(
        &mut self,
        alloc: Global,
        message: &Message,
        out: &mut Step,
    ) -> Result<(), OutOfMemory> {
        match self {
            AnyNode::Seq(node) => node.deliver_into(alloc, message, out),
            AnyNode::Shard(node) => node.deliver_into(alloc, message, out),
            AnyNode::Client(node) => node.deliver_into(alloc, message, out),
            AnyNode::Consumer(node) => node.deliver_into(alloc, message, out),
        }
    }
}

impl Viewed for AnyNode {
    ghost use Rattle.world.specs.AnyNodes.{shows_any};

    ghost shows = { shows_any };

    fn view(&self) -> Option<View> {
        match self {
            AnyNode::Consumer(node) => Some(View {
                applied: node.applied(),
                confirmed: node.confirmed(),
                shown: node.show(),
            }),
            _ => None,
        }
    }
}
