//! A consumer's step: each event with its rules, and what is applied and confirmed as the step ends.

ghost use Rattle.std.specs.Prelude.{◌≡◌, ◌≤◌, OnOk};
ghost use Rattle.msg_wire.specs.Valid.{IsValidMessage, IsValidEvent, IsValidWhat, AreValidItems};
ghost use Rattle.msg_wire.specs.Nodes.{number_of};
ghost use Rattle.node_rules.specs.Names.events;
ghost use Rattle.node_rules.specs.Turns.{turn_of, empty_step};
ghost use Rattle.consumer_node.specs.Apps.{meaning};
ghost use Rattle.consumer_node.specs.Steps.{hear, restart, consumer_step};
ghost use Rattle.consumer_node.specs.Sound.{IsConsumer};

use crate::restart::reset;
use crate::rules::on_tick;
use crate::speculation::finish;
use crate::state::Consumer;
use app_law::App;
use msg_wire::{Event, Mark, Message, Step, What, number_of};
use node_rules::Done;
use record_codec::Record;
use spec_base::NodeId;
use std::alloc::Global;

/// The step of an event, written into a step that gives nothing yet. A restart undoes what is not confirmed; any other
/// event's step ends with applying and confirming.
pub(crate) fn react<A: App>(
    consumer: &mut Consumer<A>,
    alloc: Global,
    event: &Event,
    out: &mut Step,
) -> Done
    requires sound { IsConsumer consumer.old }
    requires valid { IsValidEvent event.now }
    requires empty { out.old ≡ empty_step }
    ensures turn { OnOk result (turn_of consumer.new out.new ≡ consumer_step (meaning A.fresh_state A.next_state A.output_of) consumer.old event.now) }
    ensures stable { OnOk result (AreValidItems out.new.stable) }
{
    match event {
        Event::Deliver(message) => deliver(consumer, alloc, message, out),
        Event::Tick => tick(consumer, alloc, out),
        Event::Restart => restart(consumer, out),
        Event::Submit { .. } | Event::Command(_) => finish(consumer, alloc, out),
    }
}

/// The step of a message that comes.
pub(crate) fn deliver<A: App>(
    consumer: &mut Consumer<A>,
    alloc: Global,
    message: &Message,
    out: &mut Step,
) -> Done
    requires sound { IsConsumer consumer.old }
    requires valid { IsValidMessage message.now }
    requires empty { out.old ≡ empty_step }
    ensures turn { OnOk result (turn_of consumer.new out.new ≡ consumer_step (meaning A.fresh_state A.next_state A.output_of) consumer.old (events.Deliver message.now)) }
    ensures stable { OnOk result (AreValidItems out.new.stable) }
{
    consumer.heed(message, out)?;
    finish(consumer, alloc, out)
}

/// The step of a tick.
fn tick<A: App>(consumer: &mut Consumer<A>, alloc: Global, out: &mut Step) -> Done
    requires sound { IsConsumer consumer.old }
    requires empty { out.old ≡ empty_step }
    ensures turn { OnOk result (turn_of consumer.new out.new ≡ consumer_step (meaning A.fresh_state A.next_state A.output_of) consumer.old events.Tick) }
    ensures stable { OnOk result (AreValidItems out.new.stable) }
{
    on_tick(consumer, out)?;
    finish(consumer, alloc, out)
}

/// A restart in place: what was applied beyond the confirmed records is undone.
fn restart<A: App>(consumer: &mut Consumer<A>, out: &mut Step) -> Done
    requires { out.old ≡ empty_step }
    ensures { OnOk result (turn_of consumer.new out.new ≡ restart consumer.old) }
{
    let first = consumer.own.confirmed();
    reset(consumer);
    consumer.show(Mark::Undo { first }, out)
}

/// A message that is heeded; the other kinds go to other nodes.
pub(crate) fn hear<A: App>(
    consumer: &mut Consumer<A>,
    from: NodeId,
    what: &What,
    out: &mut Step,
) -> Done
    requires number { number_of from ≤ 5 }
    requires what { IsValidWhat what.now }
    ensures { OnOk result (turn_of consumer.new out.new ≡ hear from what.now (turn_of consumer.old out.old)) }
{
    match what {
        What::Decided { slot, count, entry } => {
            consumer.hear_decided(from, *slot, *count, entry, out)
        }
        What::Deliver { local, rec } => consumer.own.put(number_of(from), *local, rec),
        _ => Ok(()),
    }
}
