ghost use Rattle.std.specs.Prelude.{◌≡◌, true, false, IfOk, OnOk, OnErr, IsTrue};
ghost use Rattle.std.specs.List.{fold};
ghost use Rattle.msg_wire.specs.Valid.{IsValidConfig, IsNodeOf, IsValidMessage, IsValidEvent, AreValidItems};
ghost use Rattle.msg_wire.specs.Steps.{IsValidStep, empty_step};
ghost use Rattle.node_rules.specs.Bases.{first_window};
ghost use Rattle.node_rules.specs.Names.events;
ghost use Rattle.node_rules.specs.Nodes.{restart_by};
ghost use Rattle.node_rules.specs.Turns.{turn_of};

use crate::kind::Kind;
use crate::node::{Done, Node};
use lease_window::Known;
use msg_wire::{Config, Event, Item, Items, Message, Step};
use quota_table::OutOfMemory;
use spec_base::NodeId;
use std::alloc::Global;
use std::marker::Model;

/// A node of any kind, as it takes its steps. Contracts see it as a `Core`: its node, and whether it is spent.
///
/// It is spent exactly after a step that answered want of memory; it is of no more use then than to be dropped.
#[derive(Debug, Drop)]
pub struct Living<K: Kind> {
    node: Node<K>,
    spent: bool,
}

impl<K: Kind> Model for Living<K> {
    ghost use Rattle.node_rules.specs.Nodes.{Core};

    ghost Value = { Core K };

    ghost use Rattle.std.specs.Prelude.{◌≡◌, false};

    ghost view = { λ n. record { node = n.node; spent = n.spent } };

    ghost invariant = { λ n. n.spent ≡ false → K.is_sound n.node };
}

impl<K: Kind> Living<K> {
    /// A node that has and knows nothing.
    pub fn new(alloc: Global, cfg: &Config, node: NodeId) -> Result<Living<K>, OutOfMemory>
        requires valid { IsValidConfig cfg.now }
        requires node { IsNodeOf cfg.now node }
        requires kind { IsTrue (K.is_kind node) }
        ensures node { IfOk result (λ core. core.node ≡ K.fresh_node cfg.now node) }
        ensures ready { IfOk result (λ core. core.spent ≡ false) }
    {
        Ok(Living {
            node: K::fresh(alloc, cfg, node)?,
            spent: false,
        })
    }

    /// The node that the items of a vault alone give, at a cost that is linear in them. An item that does not fit is
    /// passed over.
    pub fn restart(
        alloc: Global,
        cfg: &Config,
        node: NodeId,
        items: &Items,
    ) -> Result<Living<K>, OutOfMemory>
        requires valid { IsValidConfig cfg.now }
        requires node { IsNodeOf cfg.now node }
        requires kind { IsTrue (K.is_kind node) }
        requires items { AreValidItems items.now }
        ensures node { IfOk result (λ core. core.node ≡ restart_by K.fresh_node K.fit K.settled cfg.now node items.now) }
        ensures ready { IfOk result (λ core. core.spent ≡ false) }
    {
        let mut node = K::fresh(alloc, cfg, node)?;
        fit_all(&mut node, items.as_slice())?;
        K::settle(&mut node);
        Ok(Living { node, spent: false })
    }

    /// The step of an event: what is stored, sent and shown. After want of memory the node is spent.
    pub fn step(&mut self, alloc: Global, event: &Event) -> Result<Step, OutOfMemory>
        requires ready { self.old.spent ≡ false }
        requires valid { IsValidEvent event.now }
        ensures turn { IfOk result (λ out. turn_of self.new.node out ≡ K.step self.old.node event.now) }
        ensures valid { IfOk result (λ out. IsValidStep out) }
        ensures ready { OnOk result (self.new.spent ≡ false) }
        ensures spent { OnErr result (self.new.spent ≡ true) }
    {
        let mut out = Step::new(alloc);
        self.step_into(alloc, event, &mut out)?;
        Ok(out)
    }

    /// The step of an event, written into a step that gives nothing yet. After want of memory the node is spent, and what
    /// `out` gives is no step.
    pub fn step_into(&mut self, alloc: Global, event: &Event, out: &mut Step) -> Done
        requires ready { self.old.spent ≡ false }
        requires valid { IsValidEvent event.now }
        requires empty { out.old ≡ empty_step }
        ensures turn { OnOk result (turn_of self.new.node out.new ≡ K.step self.old.node event.now) }
        ensures valid { OnOk result (IsValidStep out.new) }
        ensures ready { OnOk result (self.new.spent ≡ false) }
        ensures spent { OnErr result (self.new.spent ≡ true) }
    {
        self.spent = true;
        K::react(&mut self.node, alloc, event, out)?;
        self.spent = false;
        Ok(())
    }

    /// The step of a message that comes, as `step_into` makes it of the event; the message is not copied.
    pub fn deliver_into(&mut self, alloc: Global, message: &Message, out: &mut Step) -> Done
        requires ready { self.old.spent ≡ false }
        requires valid { IsValidMessage message.now }
        requires empty { out.old ≡ empty_step }
        ensures turn { OnOk result (turn_of self.new.node out.new ≡ K.step self.old.node (events.Deliver message.now)) }
        ensures valid { OnOk result (IsValidStep out.new) }
        ensures ready { OnOk result (self.new.spent ≡ false) }
        ensures spent { OnErr result (self.new.spent ≡ true) }
    {
        self.spent = true;
        K::deliver(&mut self.node, alloc, message, out)?;
        self.spent = false;
        Ok(())
    }

    /// Whether a step of the node answered want of memory.
    pub fn is_spent(&self) -> bool
        ensures { result ≡ self.now.spent }
    {
        self.spent
    }

    /// The agreed entries that the node knows.
    pub fn known(&self) -> &Known
        ensures entries { result.now.entries ≡ self.now.node.base.known }
        ensures first { result.now.first ≡ first_window self.now.node.base.cfg }
    {
        self.node.base.known()
    }

    /// What the node has.
    pub fn node(&self) -> &Node<K>
        ensures { result.now ≡ self.now.node }
    {
        &self.node
    }
}

/// Takes the items of a vault in order.
fn fit_all<K: Kind>(node: &mut Node<K>, items: &[Item]) -> Done
    requires valid { AreValidItems items.now }
    requires fitting { K.is_fitting node.old }
    ensures { OnOk result (node.new ≡ fold K.fit node.old items.now) }
{
    for item in items {
        K::fit(node, item)?;
    }
    Ok(())
}
