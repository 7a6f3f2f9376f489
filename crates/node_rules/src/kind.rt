ghost use Rattle.std.specs.Prelude.{◌≡◌, IfOk, OnOk, IsTrue};
ghost use Rattle.msg_wire.specs.Valid.{IsValidConfig, IsNodeOf, IsValidMessage, IsValidEvent, IsValidItem};
ghost use Rattle.msg_wire.specs.Steps.{IsValidStep, empty_step};
ghost use Rattle.node_rules.specs.Nodes.{IsFitted};
ghost use Rattle.node_rules.specs.Names.events;
ghost use Rattle.node_rules.specs.Turns.{turn_of};

use crate::hearing::Hears;
use crate::node::{Done, Node};
use msg_wire::{Config, Event, Item, Message, Step};
use quota_table::OutOfMemory;
use spec_base::NodeId;
use std::alloc::Global;

/// A kind of node, by what a node of it has of its own: how it begins, how it comes back, and its steps.
///
/// Its first members are the kind's step table and what holds of its nodes; the calls do what that table says. After want
/// of memory a node is of no more use than to be dropped.
pub trait Kind: Hears {
    ghost use Rattle.std.specs.Prelude.{Bool};
    ghost use Rattle.node_rules.specs.Names.{NodeId, Config, Event, Item};
    ghost use Rattle.node_rules.specs.Nodes.{Node};
    ghost use Rattle.node_rules.specs.Turns.{Turn};

    /// Which names its nodes have.
    ghost is_kind: { NodeId → Bool };

    /// A node that has and knows nothing.
    ghost fresh_node: { Config → NodeId → Node Self };

    /// A node after one more item of its vault.
    ghost fit: { Node Self → Item → Node Self };

    /// A node after the last item.
    ghost settled: { Node Self → Node Self };

    /// The step of each event.
    ghost step: { Node Self → Event → Turn Self };

    /// What holds of every node of this kind.
    ghost is_sound: { Node Self → Type 0 };

    /// What holds of a node that takes the items of its vault.
    ghost is_fitting: { Node Self → Type 0 };

    /// A node that has and knows nothing.
    fn fresh(alloc: Global, cfg: &Config, me: NodeId) -> Result<Node<Self>, OutOfMemory>
        requires valid { IsValidConfig cfg.now }
        requires node { IsNodeOf cfg.now me }
        requires kind { IsTrue (is_kind me) }
        ensures node { IfOk result (λ node. node ≡ fresh_node cfg.now me) }
        ensures sound { IfOk result is_sound }
        ensures fitting { IfOk result is_fitting };

    /// Takes one more item of a vault. One that does not fit is passed over.
    fn fit(node: &mut Node<Self>, item: &Item) -> Done
        requires valid { IsValidItem item.now }
        requires fitting { is_fitting node.old }
        ensures node { OnOk result (node.new ≡ fit node.old item.now) }
        ensures fitting { OnOk result (is_fitting node.new) };

    /// Makes an end, after the last item.
    fn settle(node: &mut Node<Self>)
        requires { IsFitted is_kind fresh_node fit node.old }
        ensures node { node.new ≡ settled node.old }
        ensures sound { is_sound node.new };

    /// The step of a message that comes, written into a step that gives nothing yet.
    fn deliver(node: &mut Node<Self>, alloc: Global, message: &Message, out: &mut Step) -> Done
        requires sound { is_sound node.old }
        requires valid { IsValidMessage message.now }
        requires empty { out.old ≡ empty_step }
        ensures turn { OnOk result (turn_of node.new out.new ≡ step node.old (events.Deliver message.now)) }
        ensures sound { OnOk result (is_sound node.new) }
        ensures valid { OnOk result (IsValidStep out.new) };

    /// The step of an event, written into a step that gives nothing yet.
    fn react(node: &mut Node<Self>, alloc: Global, event: &Event, out: &mut Step) -> Done
        requires sound { is_sound node.old }
        requires valid { IsValidEvent event.now }
        requires empty { out.old ≡ empty_step }
        ensures turn { OnOk result (turn_of node.new out.new ≡ step node.old event.now) }
        ensures sound { OnOk result (is_sound node.new) }
        ensures valid { OnOk result (IsValidStep out.new) };
}
