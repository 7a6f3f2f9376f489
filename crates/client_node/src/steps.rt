//! A client's step: each event with its rules.

ghost use Rattle.std.specs.Prelude.{◌≡◌, ◌<◌, ◌≤◌, OnOk};
ghost use Rattle.quota_table.specs.Entries.{IsValidEntry};
ghost use Rattle.msg_wire.specs.Valid.{IsValidMessage, IsValidEvent, IsValidWhat};
ghost use Rattle.node_rules.specs.Names.events;
ghost use Rattle.node_rules.specs.Turns.{turn_of, empty_step};
ghost use Rattle.node_rules.specs.Rules.{heed, learn_next, decided};
ghost use Rattle.client_node.specs.Rules.{on_learned as on_learned_of};
ghost use Rattle.client_node.specs.Steps.{hear, client_step};

use crate::restart::reset;
use crate::rules::{hear_ack, hear_fate, on_learned, on_tick, submit};
use crate::state::Client;
use msg_wire::{Event, Message, Step, What};
use node_rules::Done;
use spec_base::NodeId;

/// The step of an event, written into a step that gives nothing yet.
pub(crate) fn react(client: &mut Client, event: &Event, out: &mut Step) -> Done
    requires valid { IsValidEvent event.now }
    requires empty { out.old ≡ empty_step }
    ensures { OnOk result (turn_of client.new out.new ≡ client_step client.old event.now) }
{
    match event {
        Event::Submit { body, .. } => submit(client, body, out),
        Event::Deliver(message) => deliver(client, message, out),
        Event::Tick => on_tick(client, out),
        Event::Restart => {
            reset(client);
            Ok(())
        }
        Event::Command(_) => Ok(()),
    }
}

/// The step of a message that comes. One that is not heeded does nothing.
pub(crate) fn deliver(client: &mut Client, message: &Message, out: &mut Step) -> Done
    requires valid { IsValidMessage message.now }
    requires empty { out.old ≡ empty_step }
    ensures { OnOk result (turn_of client.new out.new ≡ client_step client.old (events.Deliver message.now)) }
{
    if client.heeds(message) {
        hear(client, message.from, &message.what, out)
    } else {
        Ok(())
    }
}

/// A message that is heeded; the other kinds go to other nodes.
pub(crate) fn hear(client: &mut Client, from: NodeId, what: &What, out: &mut Step) -> Done
    requires { IsValidWhat what.now }
    ensures { OnOk result (turn_of client.new out.new ≡ hear from what.now (turn_of client.old out.old)) }
{
    match what {
        What::Decided { slot, count, entry } => {
            client.hear_decided(from, *slot, *count, entry, out)
        }
        What::Ack { number, position } => hear_ack(client, *number, *position, out),
        What::Fate { next } => hear_fate(client, from, *next, out),
        _ => Ok(()),
    }
}
