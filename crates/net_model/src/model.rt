ghost use Rattle.std.specs.Prelude.{◌≡◌, true, false, IfOk, OnOk, OnErr};
ghost use Rattle.msg_wire.specs.Valid.{IsValidConfig, IsNodeOf, IsValidMessage, IsValidEvent, AreValidItems};
ghost use Rattle.msg_wire.specs.Steps.{IsValidStep, empty_step};
ghost use Rattle.net_model.specs.Names.events;

use msg_wire::{Config, Event, Items, Message, Step};
use quota_table::OutOfMemory;
use spec_base::NodeId;
use std::alloc::Global;

/// A node as it is run: it is made, it comes back with what its vault keeps, and it takes steps.
///
/// Its first four members are the parts of a `StepTable`: what the calls do is what such a table says.
/// A node is spent exactly after a step that answered want of memory; it is of no more use then than to be dropped.
pub trait NodeModel: Sized {
    ghost use Rattle.std.specs.Prelude.{Bool, List};
    ghost use Rattle.spec_base.specs.declared.node.NodeId.{NodeId};
    ghost use Rattle.msg_wire.specs.declared.config.Config.{Config};
    ghost use Rattle.msg_wire.specs.declared.item.Item.{Item};
    ghost use Rattle.msg_wire.specs.declared.event.Event.{Event};
    ghost use Rattle.msg_wire.specs.declared.step.Step.{Step};

    /// A node of a cluster at its start.
    ghost fresh: { Config → NodeId → Self };

    /// The node that the items of its vault alone give.
    ghost restarted: { Config → NodeId → List Item → Self };

    /// What a step stores, sends and shows.
    ghost gives: { Self → Event → Step };

    /// What a step leaves of the node.
    ghost leaves: { Self → Event → Self };

    /// Whether the node is spent.
    ghost is_spent: { Self → Bool };

    /// A node that has and knows nothing.
    fn new(alloc: Global, cfg: &Config, node: NodeId) -> Result<Self, OutOfMemory>
        requires valid { IsValidConfig cfg.now }
        requires node { IsNodeOf cfg.now node }
        ensures node { IfOk result (λ made. made ≡ fresh cfg.now node) }
        ensures ready { IfOk result (λ made. is_spent made ≡ false) };

    /// The node that the items of a vault alone give.
    fn restart(
        alloc: Global,
        cfg: &Config,
        node: NodeId,
        items: &Items,
    ) -> Result<Self, OutOfMemory>
        requires valid { IsValidConfig cfg.now }
        requires node { IsNodeOf cfg.now node }
        requires items { AreValidItems items.now }
        ensures node { IfOk result (λ made. made ≡ restarted cfg.now node items.now) }
        ensures ready { IfOk result (λ made. is_spent made ≡ false) };

    /// The step of an event: what is stored, sent and shown, each item and message of it valid.
    fn step(&mut self, alloc: Global, event: &Event) -> Result<Step, OutOfMemory>
        requires ready { is_spent self.old ≡ false }
        requires valid { IsValidEvent event.now }
        ensures gives { IfOk result (λ out. out ≡ gives self.old event.now) }
        ensures leaves { OnOk result (self.new ≡ leaves self.old event.now) }
        ensures valid { IfOk result IsValidStep }
        ensures ready { OnOk result (is_spent self.new ≡ false) }
        ensures spent { OnErr result (is_spent self.new ≡ true) };

    /// The step of an event, written into a step that gives nothing yet, whose room is used again. After want of memory
    /// what `out` gives is no step.
    fn step_into(&mut self, alloc: Global, event: &Event, out: &mut Step) -> Result<(), OutOfMemory>
        requires ready { is_spent self.old ≡ false }
        requires valid { IsValidEvent event.now }
        requires empty { out.old ≡ empty_step }
        ensures gives { OnOk result (out.new ≡ gives self.old event.now) }
        ensures leaves { OnOk result (self.new ≡ leaves self.old event.now) }
        ensures valid { OnOk result (IsValidStep out.new) }
        ensures ready { OnOk result (is_spent self.new ≡ false) }
        ensures spent { OnErr result (is_spent self.new ≡ true) };

    /// The step of a message that comes, as `step_into` makes it of the event; the message is not copied.
    fn deliver_into(
        &mut self,
        alloc: Global,
        message: &Message,
        out: &mut Step,
    ) -> Result<(), OutOfMemory>
        requires ready { is_spent self.old ≡ false }
        requires valid { IsValidMessage message.now }
        requires empty { out.old ≡ empty_step }
        ensures gives { OnOk result (out.new ≡ gives self.old (events.Deliver message.now)) }
        ensures leaves { OnOk result (self.new ≡ leaves self.old (events.Deliver message.now)) }
        ensures valid { OnOk result (IsValidStep out.new) }
        ensures ready { OnOk result (is_spent self.new ≡ false) }
        ensures spent { OnErr result (is_spent self.new ≡ true) };
}
