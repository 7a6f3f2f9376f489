//! A sequencer at its start, after a restart, and as the items of its vault give it.

ghost use Rattle.std.specs.Prelude.{◌≡◌, IfOk, OnOk};
ghost use Rattle.msg_wire.specs.Valid.{IsValidConfig, IsNodeOf, IsValidItem};
ghost use Rattle.seq_node.specs.Restart.{fresh_node, fit, reset_of};

use crate::acceptors::Acceptors;
use crate::state::{Sequencer, SequencerState};
use crate::wishes::Wishes;
use msg_wire::{Config, Item};
use node_rules::{Done, Node, NodeBase};
use quota_table::OutOfMemory;
use spec_base::NodeId;
use std::alloc::Global;

/// A sequencer that has and knows nothing.
pub fn fresh(alloc: Global, cfg: &Config, me: NodeId) -> Result<Sequencer, OutOfMemory>
    requires valid { IsValidConfig cfg.now }
    requires node { IsNodeOf cfg.now me }
    ensures { IfOk result (λ seq. seq ≡ fresh_node cfg.now me) }
{
    let base = NodeBase::new(alloc, cfg, me)?;
    let own = SequencerState {
        acceptors: Acceptors::new(alloc),
        primaries: [0; 6],
        backups: [0; 6],
        wishes: Wishes::new(alloc),
        attempt: None,
        idle: 0,
    };
    Ok(Node { base, own })
}

/// Forgets what a restart forgets: the known entries and the acceptors stay.
pub fn reset(seq: &mut Sequencer)
    ensures { seq.new ≡ reset_of seq.old }
{
    seq.base.reset();
    seq.own.primaries = [0; 6];
    seq.own.backups = [0; 6];
    seq.own.wishes.clear();
    seq.own.attempt = None;
    seq.own.idle = 0;
}

/// Takes one more item of a vault. A ballot below a promise, or an item of another kind, is passed over.
pub fn fit(seq: &mut Sequencer, item: &Item) -> Done
    requires { IsValidItem item.now }
    ensures { OnOk result (seq.new ≡ fit seq.old item.now) }
{
    match item {
        Item::Known { entry } => seq.fit_known(entry),
        Item::Promised { slot, ballot } => {
            let _answer = seq.own.acceptors.on_prepare(*slot, *ballot)?;
            Ok(())
        }
        Item::Accepted {
            slot,
            ballot,
            entry,
        } => {
            let _answer = seq.own.acceptors.on_accept(*slot, *ballot, entry.clone()?)?;
            Ok(())
        }
        _ => Ok(()),
    }
}
