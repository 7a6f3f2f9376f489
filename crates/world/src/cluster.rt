//! The nodes of a cluster, and how the one at a place takes a step.

ghost use Rattle.std.specs.Prelude.{◌≡◌, map, slice_get, slice_set, All, IfOk, OnOk, IsSomeAnd};
ghost use Rattle.msg_wire.specs.Steps.{IsValidStep};
ghost use Rattle.msg_wire.specs.Valid.{IsValidConfig, IsNodeOf, IsValidMessage, IsValidEvent};
ghost use Rattle.world.specs.AnyNodes.{fresh_any, gives_any, leaves_any};
ghost use Rattle.world.specs.inside.Kept.{IsReadyAt};
ghost use Rattle.runs.specs.Names.events;

use crate::any_node::AnyNode;
use msg_wire::{Config, Event, Message, Step};
use net_model::NodeModel;
use quota_table::OutOfMemory;
use spec_base::NodeId;
use std::alloc::Global;

/// The nodes at their start, in the same order.
pub(crate) fn fresh_nodes(
    alloc: Global,
    cfg: &Config,
    order: &[NodeId],
) -> Result<Vec<AnyNode>, OutOfMemory>
    requires valid { IsValidConfig cfg.now }
    requires within { All (IsNodeOf cfg.now) order.now }
    ensures { IfOk result (λ made. made.items ≡ map (fresh_any cfg.now) order.now) }
{
    let mut made = Vec::with_capacity(alloc, order.len())?;
    for node in order {
        made.push(AnyNode::new(alloc, cfg, *node)?)?;
    }
    Ok(made)
}

/// The node at a place takes a step, written into one that gives nothing yet. After want of memory that node is spent.
pub(crate) fn step_at(
    made: &mut Vec<AnyNode>,
    place: usize,
    alloc: Global,
    event: &Event,
    out: &mut Step,
) -> Result<(), OutOfMemory>
    requires ready { IsReadyAt place made.old.items out.old }
    requires valid { IsValidEvent event.now }
    ensures gives { OnOk result (IsSomeAnd (slice_get made.old.items place) (λ node. out.new ≡ gives_any node event.now)) }
    ensures leaves { OnOk result (IsSomeAnd (slice_get made.old.items place) (λ node. made.new.items ≡ slice_set made.old.items place (leaves_any node event.now))) }
    ensures valid { OnOk result (IsValidStep out.new) }
{
    let node = &mut made[place];
    node.step_into(alloc, event, out)
}

/// A message comes to the node at a place, as `step_at` takes the event; the message is not copied.
pub(crate) fn deliver_at(
    made: &mut Vec<AnyNode>,
    place: usize,
    alloc: Global,
    message: &Message,
    out: &mut Step,
) -> Result<(), OutOfMemory>
    requires ready { IsReadyAt place made.old.items out.old }
    requires valid { IsValidMessage message.now }
    ensures gives { OnOk result (IsSomeAnd (slice_get made.old.items place) (λ node. out.new ≡ gives_any node (events.Deliver message.now))) }
    ensures leaves { OnOk result (IsSomeAnd (slice_get made.old.items place) (λ node. made.new.items ≡ slice_set made.old.items place (leaves_any node (events.Deliver message.now)))) }
    ensures valid { OnOk result (IsValidStep out.new) }
{
    let node = &mut made[place];
    node.deliver_into(alloc, message, out)
}
