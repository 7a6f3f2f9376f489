//! A replica's step: each event with its rules, and the promises that end the step.

ghost use Rattle.std.specs.Prelude.{◌≡◌, OnOk};
ghost use Rattle.msg_wire.specs.Valid.{IsValidMessage, IsValidEvent};
ghost use Rattle.node_rules.specs.Names.events;
ghost use Rattle.node_rules.specs.Turns.{turn_of, empty_step};
ghost use Rattle.shard_node.specs.Steps.{hear, replica_step};
ghost use Rattle.shard_node.specs.Sound.{IsReplica};

use crate::logs::{hear_append, hear_fill, hear_replicate};
use crate::promises::promise_all;
use crate::restart::reset;
use crate::rules::{hear_ask_fate, hear_fetch, hear_replicated, on_tick};
use crate::state::Replica;
use msg_wire::{Event, Message, Step, What};
use node_rules::Done;

/// The step of an event, written into a step that gives nothing yet. A restart leaves what the stored items give; a
/// primary's step of any other event ends with its promises.
pub fn react(replica: &mut Replica, event: &Event, out: &mut Step) -> Done
    requires sound { IsReplica replica.old }
    requires valid { IsValidEvent event.now }
    requires empty { out.old ≡ empty_step }
    ensures { OnOk result (turn_of replica.new out.new ≡ replica_step replica.old event.now) }
{
    match event {
        Event::Deliver(message) => deliver(replica, message, out),
        Event::Tick => tick(replica, out),
        Event::Restart => {
            reset(replica);
            Ok(())
        }
        Event::Submit { .. } | Event::Command(_) => promise_all(replica, out),
    }
}

/// The step of a tick.
fn tick(replica: &mut Replica, out: &mut Step) -> Done
    requires sound { IsReplica replica.old }
    requires empty { out.old ≡ empty_step }
    ensures { OnOk result (turn_of replica.new out.new ≡ replica_step replica.old events.Tick) }
{
    on_tick(replica, out)?;
    promise_all(replica, out)
}

/// The step of a message that comes.
pub fn deliver(replica: &mut Replica, message: &Message, out: &mut Step) -> Done
    requires sound { IsReplica replica.old }
    requires valid { IsValidMessage message.now }
    requires empty { out.old ≡ empty_step }
    ensures { OnOk result (turn_of replica.new out.new ≡ replica_step replica.old (events.Deliver message.now)) }
{
    replica.heed(message, out)?;
    promise_all(replica, out)
}

/// A message that is heeded.
#[tactic(auto, using(node_rules::proofs::Limits::number_limit))]
pub fn hear(replica: &mut Replica, message: &Message, out: &mut Step) -> Done
    requires { IsValidMessage message.now }
    ensures { OnOk result (turn_of replica.new out.new ≡ hear message.now.from message.now.what (turn_of replica.old out.old)) }
{
    let from = message.from;
    match &message.what {
        What::Decided { slot, count, entry } => {
            replica.hear_decided(from, *slot, *count, entry, out)
        }
        What::Append {
            first,
            number,
            body,
        } => hear_append(replica, from, *first, *number, body, out),
        What::Fill { wanted } => hear_fill(replica, *wanted, out),
        What::Replicate { local, rec } => hear_replicate(replica, from, *local, rec, out),
        What::Replicated { len } => {
            hear_replicated(replica, *len);
            Ok(())
        }
        What::Fetch { local } => hear_fetch(replica, from, *local, out),
        What::AskFate { first, least } => hear_ask_fate(replica, from, *first, *least, out),
        _ => Ok(()),
    }
}
