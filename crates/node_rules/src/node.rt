ghost use Rattle.std.specs.Prelude.{◌≡◌, ◌<◌, IfOk, OnOk, OnErr, IsTrue};
ghost use Rattle.quota_table.specs.Entries.{IsValidEntry};
ghost use Rattle.cut_core.specs.Effects.{effect_of};
ghost use Rattle.msg_wire.specs.Heeded.{is_heeded};
ghost use Rattle.node_rules.specs.Bases.{agreed_by, has_slot};
ghost use Rattle.node_rules.specs.Nodes.{fit_known};
ghost use Rattle.node_rules.specs.Turns.{turn_of, store, send, show};
ghost use Rattle.node_rules.specs.Rules.{ask, ask_on, learned, tick};

use crate::base::NodeBase;
use cut_core::Effect;
use msg_wire::{Item, Mark, Message, Step, What, is_heeded};
use quota_table::{Entry, OutOfMemory};
use spec_base::NodeId;

/// What a rule answers: it is done, or it was refused memory.
pub type Done = Result<(), OutOfMemory>;

/// A node: what every node has, and what its kind has.
///
/// Its methods are the rules of every node: each changes the node, and puts what it stores, sends and shows at the end
/// of the step that is being made. Each is O(1) beyond what it sends and what an entry costs that is learned. After an
/// error the node and the step are of no more use, but where a method says otherwise.
#[derive(Debug, Drop)]
pub struct Node<S> {
    /// What every node has.
    pub base: NodeBase,
    /// What the node has of its kind.
    pub own: S,
}

impl<S> Node<S> {
    /// Whether the node takes a message that came. Any other does nothing by itself.
    #[inline(always)]
    pub fn heeds(&self, message: &Message) -> bool
        ensures { result ≡ is_heeded self.now.base.cfg self.now.base.me message.now }
    {
        is_heeded(self.base.cfg(), self.base.me(), message)
    }

    /// Stores an item.
    #[inline(always)]
    pub fn store(&self, item: Item, out: &mut Step) -> Done
        ensures { OnOk result (turn_of self.now out.new ≡ store item (turn_of self.now out.old)) }
    {
        out.stable.push(item)
    }

    /// Sends to a node.
    #[inline(always)]
    pub fn send(&self, to: NodeId, what: What, out: &mut Step) -> Done
        ensures { OnOk result (turn_of self.now out.new ≡ send to what (turn_of self.now out.old)) }
    {
        out.sends.push(Message {
            from: self.base.me(),
            to,
            what,
        })
    }

    /// Shows a mark.
    #[inline(always)]
    pub fn show(&self, mark: Mark, out: &mut Step) -> Done
        ensures { OnOk result (turn_of self.now out.new ≡ show mark (turn_of self.now out.old)) }
    {
        out.marks.push(mark)
    }

    /// Asks a sequencer for the entry that is next, where there is a slot for one more.
    pub fn ask(&self, to: NodeId, out: &mut Step) -> Done
        ensures { OnOk result (turn_of self.now out.new ≡ ask to (turn_of self.now out.old)) }
    {
        if !self.base.has_slot() {
            return Ok(());
        }
        let slot = self.base.count();
        self.send(to, What::Learn { slot }, out)
    }

    /// Asks on, where more is known elsewhere.
    pub fn ask_on(&self, from: NodeId, out: &mut Step) -> Done
        ensures { OnOk result (turn_of self.now out.new ≡ ask_on from (turn_of self.now out.old)) }
    {
        if self.base.count() < self.base.seen() {
            self.ask(from, out)
        } else {
            Ok(())
        }
    }

    /// Stores and learns the entry of the next slot, and tells what it did. What the kind of node does at a learned
    /// entry comes after it.
    pub fn learn(&mut self, entry: &Entry, out: &mut Step) -> Result<Effect, OutOfMemory>
        requires slot { IsTrue (has_slot self.old.base) }
        requires valid { IsValidEntry entry.now }
        ensures turn { OnOk result (turn_of self.new out.new ≡ learned entry.now (turn_of self.old out.old)) }
        ensures effect { IfOk result (λ effect. effect ≡ effect_of (agreed_by self.old.base) entry.now) }
    {
        out.stable.push(Item::Known {
            entry: entry.clone()?,
        })?;
        self.base.learn(entry)
    }

    /// Asks for the next entry, and counts the tick.
    pub fn tick(&mut self, out: &mut Step) -> Done
        ensures { OnOk result (turn_of self.new out.new ≡ tick (turn_of self.old out.old)) }
    {
        if let Some(to) = self.base.asked() {
            self.ask(to, out)?;
        }
        self.base.tick();
        Ok(())
    }

    /// Takes a known entry of a vault, where there is a slot for it. At an error all is as before.
    pub fn fit_known(&mut self, entry: &Entry) -> Done
        requires { IsValidEntry entry.now }
        ensures ok { OnOk result (self.new ≡ fit_known entry.now self.old) }
        ensures err { OnErr result (self.new ≡ self.old) }
    {
        if self.base.has_slot() {
            let _effect = self.base.learn(entry)?;
        }
        Ok(())
    }
}
