use crate::learning::learn;
use crate::restart::{fit, fresh};
use crate::state::{Sequencer, SequencerState};
use crate::steps::{deliver, hear, react};
use msg_wire::{Config, Event, Item, Message, Step};
use node_rules::{Done, Hears, Kind, Learns, Living};
use quota_table::{Entry, OutOfMemory};
use spec_base::NodeId;
use std::alloc::Global;

/// A sequencer. Contracts see it as a `Core`: its node, and whether it is spent.
///
/// A step costs O(rows + replicas + log n) plus what it reads, stores and sends, and what an entry costs that is learned.
pub type SeqNode = Living<SequencerState>;

impl Learns for SequencerState {
    ghost use Rattle.seq_node.specs.Learning as learning;

    ghost on_learned = { learning.on_learned };

    fn learn(seq: &mut Sequencer, entry: &Entry, out: &mut Step) -> Done {
        learn(seq, entry, out)
    }
}

impl Hears for SequencerState {
    ghost use Rattle.seq_node.specs.Steps as steps;
    ghost use Rattle.seq_node.specs.inside.UnderWay.{IsUnderWay};

    ghost hear = { steps.hear };

    ghost is_under_way = { IsUnderWay };

    fn hear(seq: &mut Sequencer, message: &Message, out: &mut Step) -> Done {
        hear(seq, message, out)
    }
}

impl Kind for SequencerState {
    ghost use Rattle.msg_wire.specs.Nodes.{is_sequencer};
    ghost use Rattle.seq_node.specs.Restart as vault;
    ghost use Rattle.seq_node.specs.Steps.{sequencer_step};
    ghost use Rattle.seq_node.specs.Sound.{IsSequencer};

    ghost is_kind = { is_sequencer };

    ghost fresh_node = { vault.fresh_node };

    ghost fit = { vault.fit };

    ghost settled = { λ n. n };

    ghost step = { sequencer_step };

    ghost is_sound = { IsSequencer };

    ghost is_fitting = { λ _. Unit {0} };

    fn fresh(alloc: Global, cfg: &Config, me: NodeId) -> Result<Sequencer, OutOfMemory> {
        let seq = fresh(alloc, cfg, me)?;
        Ok(seq)
    }

    fn fit(seq: &mut Sequencer, item: &Item) -> Done {
        fit(seq, item)
    }

    fn settle(_seq: &mut Sequencer) {}

    fn deliver(seq: &mut Sequencer, _alloc: Global, message: &Message, out: &mut Step) -> Done {
        deliver(seq, message, out)?;
        Ok(())
    }

    fn react(seq: &mut Sequencer, _alloc: Global, event: &Event, out: &mut Step) -> Done {
        react(seq, event, out)?;
        Ok(())
    }
}
