ghost use Rattle.std.specs.Prelude.{◌≡◌, ◌<◌, ◌≤◌, OnOk, IsTrue};
ghost use Rattle.quota_table.specs.Entries.{IsValidEntry};
ghost use Rattle.node_rules.specs.Bases.{has_slot};
ghost use Rattle.node_rules.specs.Turns.{turn_of};
ghost use Rattle.node_rules.specs.Rules.{learn, learn_next, decided};

use crate::node::{Done, Node};
use msg_wire::Step;
use quota_table::Entry;
use spec_base::NodeId;

/// What a kind of node does at a learned entry.
pub trait Learns: Drop {
    ghost use Rattle.cut_core.specs.Agreements.{Agreement};
    ghost use Rattle.node_rules.specs.Names.{Entry};
    ghost use Rattle.node_rules.specs.Turns.{Turn};

    /// What follows a learned entry, given what was agreed before it.
    ghost on_learned: { Agreement → Entry → Turn Self → Turn Self };

    /// Learns the entry of the next slot, and does what follows.
    fn learn(node: &mut Node<Self>, entry: &Entry, out: &mut Step) -> Done
        requires slot { IsTrue (has_slot node.old.base) }
        requires valid { IsValidEntry entry.now }
        ensures { OnOk result (turn_of node.new out.new ≡ learn on_learned entry.now (turn_of node.old out.old)) };
}

impl<K: Learns> Node<K> {
    /// Decided: a sequencer tells the entry of a slot, and how many it knows.
    pub fn hear_decided(
        &mut self,
        from: NodeId,
        slot: u32,
        count: u32,
        entry: &Entry,
        out: &mut Step,
    ) -> Done
        requires slot { slot < 1000000 }
        requires count { count ≤ 1000000 }
        requires entry { IsValidEntry entry.now }
        ensures { OnOk result (turn_of self.new out.new ≡ decided K.on_learned from slot count entry.now (turn_of self.old out.old)) }
    {
        self.base.see(count);
        self.learn_next(slot, entry, out)?;
        self.ask_on(from, out)
    }

    /// Learns the entry where its slot is the next.
    fn learn_next(&mut self, slot: u32, entry: &Entry, out: &mut Step) -> Done
        requires slot { slot < 1000000 }
        requires entry { IsValidEntry entry.now }
        ensures { OnOk result (turn_of self.new out.new ≡ learn_next K.on_learned slot entry.now (turn_of self.old out.old)) }
    {
        if slot == self.base.count() {
            K::learn(self, entry, out)
        } else {
            Ok(())
        }
    }
}
