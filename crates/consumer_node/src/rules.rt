//! A consumer's rules: Deliver, a learned entry, and Tick.

ghost use Rattle.std.specs.Prelude.{◌≡◌, ◌+◌, ◌≤◌, ◌^◌, OnOk};
ghost use Rattle.node_rules.specs.Names.{Step as StepOf};
ghost use Rattle.node_rules.specs.Nodes.{agreed_by, with_own};
ghost use Rattle.node_rules.specs.Turns.{turn_of};
ghost use Rattle.consumer_node.specs.States.{with_lanes};
ghost use Rattle.consumer_node.specs.Rules.{undo, notice, close_all, fetch, fetch_at, fetch_some, on_tick};
ghost use Rattle.consumer_node.specs.inside.Closing.{close_shard};

use crate::state::Consumer;
use app_law::App;
use cut_core::Effect;
use fix_ante::Owner;
use msg_wire::{Mark, Step, What};
use node_rules::Done;

/// How many shards there can be.
const MOST_SHARDS: u8 = 6;

/// How many positions from the applied ones on a tick asks for.
const MOST_FETCHED: u64 = 8;

/// What follows of an entry that is learned now: a removal is noticed, and shards that are gone end.
pub(crate) fn on_learned<A: App>(consumer: &mut Consumer<A>, effect: Effect, out: &mut Step) -> Done
    ensures { OnOk result (turn_of consumer.new out.new ≡ close_all (notice effect (turn_of consumer.old out.old))) }
{
    notice(consumer, effect, out)?;
    close_all(consumer);
    Ok(())
}

/// Notices a removal, and undoes what was applied from its first failed position on.
fn notice<A: App>(consumer: &mut Consumer<A>, effect: Effect, out: &mut Step) -> Done
    ensures { OnOk result (turn_of consumer.new out.new ≡ notice effect (turn_of consumer.old out.old)) }
{
    if let Effect::Removed { first, .. } = effect {
        consumer.show(Mark::Notice { first }, out)?;
        undo(consumer, first, out)?;
    }
    Ok(())
}

/// Takes back what was applied from a position on, where anything was.
fn undo<A: App>(consumer: &mut Consumer<A>, first: u64, out: &mut Step) -> Done
    ensures { OnOk result (turn_of consumer.new out.new ≡ undo first (turn_of consumer.old out.old)) }
{
    if first >= consumer.own.applied() {
        return Ok(());
    }
    consumer.own.cut_to(first);
    consumer.show(Mark::Undo { first }, out)
}

/// Ends each shard that is gone.
pub(crate) fn close_all<A: App>(consumer: &mut Consumer<A>)
    ensures { (out : StepOf) → turn_of consumer.new out ≡ close_all (turn_of consumer.old out) }
{
    // That the node is sound, and that there are six shards.
    let (_me, _confirmed) = (consumer.base.me(), consumer.own.confirmed());
    for shard in 0..MOST_SHARDS {
        close(consumer, shard);
    }
}

/// Ends a shard, where it is gone.
fn close<A: App>(consumer: &mut Consumer<A>, shard: u8)
    requires { shard ≤ 5 }
    ensures { consumer.new ≡ with_own (with_lanes (close_shard (agreed_by consumer.old.base).gone consumer.old.own.lanes shard) consumer.old.own) consumer.old }
{
    if let Some(end) = consumer.base.agreed().gone(shard) {
        consumer.own.close(shard, end);
    }
}

/// A tick: it asks for the next entry, and for the records of the next positions.
pub(crate) fn on_tick<A: App>(consumer: &mut Consumer<A>, out: &mut Step) -> Done
    ensures { OnOk result (turn_of consumer.new out.new ≡ on_tick (turn_of consumer.old out.old)) }
{
    consumer.tick(out)?;
    fetch_some(consumer, out)
}

/// Asks for the records of the positions from the applied ones on.
fn fetch_some<A: App>(consumer: &Consumer<A>, out: &mut Step) -> Done
    ensures { OnOk result (turn_of consumer.now out.new ≡ fetch_some (turn_of consumer.now out.old)) }
{
    let applied = consumer.own.applied();
    for ahead in 0..MOST_FETCHED {
        fetch_at(consumer, applied + ahead, out)?;
    }
    Ok(())
}

/// Asks for the record of a position that has an owner.
fn fetch_at<A: App>(consumer: &Consumer<A>, position: u64, out: &mut Step) -> Done
    ensures { OnOk result (turn_of consumer.now out.new ≡ fetch_at (turn_of consumer.now out.old) position) }
{
    match consumer.base.known().owner(position) {
        Some(owner) => fetch(consumer, owner, out),
        None => Ok(()),
    }
}

/// Asks both replicas of an owner's shard for a record that is wanted.
fn fetch<A: App>(consumer: &Consumer<A>, owner: Owner, out: &mut Step) -> Done
    requires { owner.shard ≤ 5 }
    ensures { OnOk result (turn_of consumer.now out.new ≡ fetch owner (turn_of consumer.now out.old)) }
{
    let Owner { shard, local } = owner;
    if consumer.own.wants(shard, local) {
        consumer.send_to_replicas(shard, &What::Fetch { local }, out)
    } else {
        Ok(())
    }
}
