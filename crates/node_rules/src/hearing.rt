ghost use Rattle.std.specs.Prelude.{◌≡◌, OnOk, IsTrue};
ghost use Rattle.msg_wire.specs.Heeded.{is_heeded};
ghost use Rattle.msg_wire.specs.Valid.{IsValidMessage};
ghost use Rattle.node_rules.specs.Turns.{turn_of};
ghost use Rattle.node_rules.specs.Rules.{heed};

use crate::learning::Learns;
use crate::node::{Done, Node};
use msg_wire::{Message, Step};

/// What a kind of node does at a message that it heeds.
pub trait Hears: Learns {
    ghost use Rattle.node_rules.specs.Names.{NodeId, What};
    ghost use Rattle.node_rules.specs.Turns.{Turn};

    /// What a message does that is heeded.
    ghost hear: { NodeId → What → Turn Self → Turn Self };

    /// What holds of a turn in which a message is heard.
    ghost is_under_way: { Turn Self → Type 0 };

    /// A message that is heeded.
    fn hear(node: &mut Node<Self>, message: &Message, out: &mut Step) -> Done
        requires under_way { is_under_way (turn_of node.old out.old) }
        requires valid { IsValidMessage message.now }
        requires heeded { IsTrue (is_heeded node.old.base.cfg node.old.base.me message.now) }
        ensures { OnOk result (turn_of node.new out.new ≡ hear message.now.from message.now.what (turn_of node.old out.old)) };
}

impl<K: Hears> Node<K> {
    /// A message that comes. One that is not heeded does nothing by itself.
    pub fn heed(&mut self, message: &Message, out: &mut Step) -> Done
        requires under_way { K.is_under_way (turn_of self.old out.old) }
        requires valid { IsValidMessage message.now }
        ensures { OnOk result (turn_of self.new out.new ≡ heed K.hear message.now (turn_of self.old out.old)) }
    {
        if self.heeds(message) {
            K::hear(self, message, out)
        } else {
            Ok(())
        }
    }
}
