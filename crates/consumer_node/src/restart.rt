//! A consumer at its start, after a restart, and as the items of its vault give it.

ghost use Rattle.std.specs.Prelude.{◌≡◌, [], IfOk, OnOk};
ghost use Rattle.msg_wire.specs.Valid.{IsValidConfig, IsNodeOf, IsValidItem};
ghost use Rattle.consumer_node.specs.Apps.{meaning};
ghost use Rattle.consumer_node.specs.Restart.{fresh_node, fit_confirmed, fit, reset_of, closed_by};

use crate::rules::close_all;
use crate::speculation::next_covered;
use crate::state::{Consumer, ConsumerOwn};
use app_law::App;
use msg_wire::{Config, Item};
use node_rules::{Done, Node, NodeBase};
use quota_table::OutOfMemory;
use record_codec::Record;
use spec_base::NodeId;
use std::alloc::Global;

/// A consumer that has and knows nothing.
pub(crate) fn fresh<A: App>(
    alloc: Global,
    cfg: &Config,
    me: NodeId,
) -> Result<Consumer<A>, OutOfMemory>
    requires valid { IsValidConfig cfg.now }
    requires node { IsNodeOf cfg.now me }
    ensures { IfOk result (λ consumer. consumer ≡ fresh_node (meaning A.fresh_state A.next_state A.output_of) cfg.now me) }
{
    Ok(Node {
        base: NodeBase::new(alloc, cfg, me)?,
        own: ConsumerOwn::new(alloc, cfg.app)?,
    })
}

/// Forgets what a restart forgets: the known entries and what is confirmed stay.
pub(crate) fn reset<A: App>(consumer: &mut Consumer<A>)
    ensures { consumer.new ≡ reset_of consumer.old }
{
    consumer.base.reset();
    consumer.own.reset();
}

/// Ends each shard that is gone, after the last item.
pub(crate) fn close<A: App>(consumer: &mut Consumer<A>)
    ensures { consumer.new ≡ closed_by consumer.old }
{
    close_all(consumer);
}

/// Takes one more item, where it fits.
pub(crate) fn fit<A: App>(consumer: &mut Consumer<A>, item: &Item) -> Done
    requires valid { IsValidItem item.now }
    requires none { consumer.old.own.pending ≡ [] }
    ensures fits { OnOk result (consumer.new ≡ fit (meaning A.fresh_state A.next_state A.output_of) consumer.old item.now) }
    ensures none { OnOk result (consumer.new.own.pending ≡ []) }
{
    match item {
        Item::Known { entry } => consumer.fit_known(entry),
        Item::Confirmed { rec, .. } => {
            fit_confirmed(consumer, rec);
            Ok(())
        }
        _ => Ok(()),
    }
}

/// Counts a record as confirmed, where the next position is covered.
fn fit_confirmed<A: App>(consumer: &mut Consumer<A>, rec: &Record)
    requires none { consumer.old.own.pending ≡ [] }
    ensures fits { consumer.new ≡ fit_confirmed (meaning A.fresh_state A.next_state A.output_of) rec.now consumer.old }
    ensures none { consumer.new.own.pending ≡ [] }
{
    if let Some(owner) = next_covered(consumer) {
        consumer.own.confirm_stored(rec, owner);
    }
}
