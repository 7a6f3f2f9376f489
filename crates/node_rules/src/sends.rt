//! The same sent to each of several nodes, in the order of all nodes: sequencers, replicas by shard, clients,
//! consumers.

ghost use Rattle.std.specs.Prelude.{◌≡◌, ◌∷◌, [], OnOk};
ghost use Rattle.msg_wire.specs.Nodes.{sequencers_of, replicas_of, all_replicas_of, clients_of, consumers_of, nodes_of, without_node};
ghost use Rattle.node_rules.specs.Turns.{turn_of, send, send_all};

use crate::node::{Done, Node};
use msg_wire::{Step, What, same_node};
use spec_base::{NodeId, Side};

impl<S> Node<S> {
    /// Sends to each sequencer, by number.
    pub fn send_to_sequencers(&self, what: &What, out: &mut Step) -> Done
        ensures { OnOk result (turn_of self.now out.new ≡ send_all (sequencers_of self.now.base.cfg) what.now (turn_of self.now out.old)) }
    {
        for number in 0..self.base.cfg().seqs {
            self.send_copy(NodeId::Seq(number), what, out)?;
        }
        Ok(())
    }

    /// Sends to each consumer, by number.
    pub fn send_to_consumers(&self, what: &What, out: &mut Step) -> Done
        ensures { OnOk result (turn_of self.now out.new ≡ send_all (consumers_of self.now.base.cfg) what.now (turn_of self.now out.old)) }
    {
        for number in 0..self.base.cfg().consumers {
            self.send_copy(NodeId::Consumer(number), what, out)?;
        }
        Ok(())
    }

    /// Sends to a shard's primary, then to its backup.
    #[tactic(auto, using(crate::proofs::SendLemmas::send_all_append))]
    #[inline(always)]
    pub fn send_to_replicas(&self, shard: u8, what: &What, out: &mut Step) -> Done
        ensures { OnOk result (turn_of self.now out.new ≡ send_all (replicas_of shard) what.now (turn_of self.now out.old)) }
    {
        self.send_copy(NodeId::Shard(shard, Side::Primary), what, out)?;
        self.send_copy(NodeId::Shard(shard, Side::Backup), what, out)
    }

    /// Sends to each sequencer but the node itself, by number.
    pub fn send_to_other_sequencers(&self, what: &What, out: &mut Step) -> Done
        ensures { OnOk result (turn_of self.now out.new ≡ send_all (without_node self.now.base.me (sequencers_of self.now.base.cfg)) what.now (turn_of self.now out.old)) }
    {
        for number in 0..self.base.cfg().seqs {
            self.send_to_other(NodeId::Seq(number), what, out)?;
        }
        Ok(())
    }

    /// Sends to every node but the node itself, in the order of all nodes.
    #[tactic(auto, using(crate::proofs::SendLemmas::send_others_by_kind))]
    pub fn send_to_others(&self, what: &What, out: &mut Step) -> Done
        ensures { OnOk result (turn_of self.now out.new ≡ send_all (without_node self.now.base.me (nodes_of self.now.base.cfg)) what.now (turn_of self.now out.old)) }
    {
        self.send_to_other_sequencers(what, out)?;
        self.send_to_other_replicas(what, out)?;
        self.send_to_other_clients(what, out)?;
        self.send_to_other_consumers(what, out)
    }

    /// Sends a copy to a node.
    #[inline(always)]
    fn send_copy(&self, to: NodeId, what: &What, out: &mut Step) -> Done
        ensures { OnOk result (turn_of self.now out.new ≡ send to what.now (turn_of self.now out.old)) }
    {
        self.send(to, what.clone()?, out)
    }

    /// Sends to a node, unless it is the node itself.
    #[inline(always)]
    fn send_to_other(&self, to: NodeId, what: &What, out: &mut Step) -> Done
        ensures { OnOk result (turn_of self.now out.new ≡ send_all (without_node self.now.base.me (to ∷ [])) what.now (turn_of self.now out.old)) }
    {
        if same_node(to, self.base.me()) {
            return Ok(());
        }
        self.send_copy(to, what, out)
    }

    fn send_to_other_replicas(&self, what: &What, out: &mut Step) -> Done
        ensures { OnOk result (turn_of self.now out.new ≡ send_all (without_node self.now.base.me (all_replicas_of self.now.base.cfg)) what.now (turn_of self.now out.old)) }
    {
        for shard in 0..self.base.cfg().shards {
            self.send_to_other_replicas_of(shard, what, out)?;
        }
        Ok(())
    }

    #[tactic(auto, using(crate::proofs::SendLemmas::send_others_append))]
    fn send_to_other_replicas_of(&self, shard: u8, what: &What, out: &mut Step) -> Done
        ensures { OnOk result (turn_of self.now out.new ≡ send_all (without_node self.now.base.me (replicas_of shard)) what.now (turn_of self.now out.old)) }
    {
        self.send_to_other(NodeId::Shard(shard, Side::Primary), what, out)?;
        self.send_to_other(NodeId::Shard(shard, Side::Backup), what, out)
    }

    fn send_to_other_clients(&self, what: &What, out: &mut Step) -> Done
        ensures { OnOk result (turn_of self.now out.new ≡ send_all (without_node self.now.base.me (clients_of self.now.base.cfg)) what.now (turn_of self.now out.old)) }
    {
        let clients = self.base.cfg().homes.len() as u8;
        for number in 0..clients {
            self.send_to_other(NodeId::Client(number), what, out)?;
        }
        Ok(())
    }

    fn send_to_other_consumers(&self, what: &What, out: &mut Step) -> Done
        ensures { OnOk result (turn_of self.now out.new ≡ send_all (without_node self.now.base.me (consumers_of self.now.base.cfg)) what.now (turn_of self.now out.old)) }
    {
        for number in 0..self.base.cfg().consumers {
            self.send_to_other(NodeId::Consumer(number), what, out)?;
        }
        Ok(())
    }
}
