//! A sequencer's step: each event with its rules, and the beginning that ends the step of sequencer 0.

ghost use Rattle.std.specs.Prelude.{◌≡◌, true, IfOk, OnOk, IsTrue};
ghost use Rattle.msg_wire.specs.Nodes.{number_of};
ghost use Rattle.msg_wire.specs.Heeded.{is_heeded};
ghost use Rattle.msg_wire.specs.Valid.{IsValidMessage, IsValidEvent};
ghost use Rattle.node_rules.specs.Names.events;
ghost use Rattle.node_rules.specs.Turns.{turn_of, empty_step};
ghost use Rattle.seq_node.specs.Steps.{hear, ends_with_beginning, finish, sequencer_step};
ghost use Rattle.seq_node.specs.Sound.{IsSequencer};
ghost use Rattle.seq_node.specs.inside.UnderWay.{IsUnderWay};

use crate::attempts::{hear_acceptance, hear_promise};
use crate::beginning::begin_if_free;
use crate::restart::reset;
use crate::rules::{hear_accept, hear_learn, hear_prepare, hear_report};
use crate::state::Sequencer;
use crate::ticks::{on_tick, take_command};
use msg_wire::{Event, Message, Step, What, number_of};
use node_rules::Done;
use quota_table::{Entry, OutOfMemory};

/// The step of an event, written into a step that gives nothing yet.
pub fn react(seq: &mut Sequencer, event: &Event, out: &mut Step) -> Done
    requires sound { IsSequencer seq.old }
    requires valid { IsValidEvent event.now }
    requires empty { out.old ≡ empty_step }
    ensures { OnOk result (turn_of seq.new out.new ≡ sequencer_step seq.old event.now) }
{
    match event {
        Event::Deliver(message) => deliver(seq, message, out),
        Event::Command(command) => take_command(seq, command, out),
        Event::Tick => on_tick(seq, out),
        Event::Restart => {
            reset(seq);
            Ok(())
        }
        Event::Submit { .. } => finish(seq, out),
    }
}

/// The step of a message that comes.
pub fn deliver(seq: &mut Sequencer, message: &Message, out: &mut Step) -> Done
    requires sound { IsSequencer seq.old }
    requires valid { IsValidMessage message.now }
    requires empty { out.old ≡ empty_step }
    ensures { OnOk result (turn_of seq.new out.new ≡ sequencer_step seq.old (events.Deliver message.now)) }
{
    seq.heed(message, out)?;
    finish(seq, out)
}

/// The end of the step of an event that ends with a beginning: sequencer 0 begins where no attempt stands.
///
/// A restart does not end so, nor do a command and a tick, which have begun by their own rules.
fn finish(seq: &mut Sequencer, out: &mut Step) -> Done
    requires { IsUnderWay (turn_of seq.old out.old) }
    ensures { (event : _) → ends_with_beginning event ≡ true → OnOk result (turn_of seq.new out.new ≡ finish event (turn_of seq.old out.old)) }
{
    let is_first = number_of(seq.base.me()) == 0;
    if is_first {
        begin_if_free(seq, out)
    } else {
        Ok(())
    }
}

/// A message that is heeded.
pub fn hear(seq: &mut Sequencer, message: &Message, out: &mut Step) -> Done
    requires under_way { IsUnderWay (turn_of seq.old out.old) }
    requires valid { IsValidMessage message.now }
    requires heeded { IsTrue (is_heeded seq.old.base.cfg seq.old.base.me message.now) }
    ensures { OnOk result (turn_of seq.new out.new ≡ hear message.now.from message.now.what (turn_of seq.old out.old)) }
{
    let from = message.from;
    match &message.what {
        What::Decided { slot, count, entry } => seq.hear_decided(from, *slot, *count, entry, out),
        What::Learn { slot } => hear_learn(seq, from, *slot, out),
        What::Report { len } => {
            hear_report(seq, from, *len);
            Ok(())
        }
        What::Prepare { slot, ballot } => hear_prepare(seq, from, *slot, *ballot, out),
        What::Accept {
            slot,
            ballot,
            entry,
        } => hear_accept(seq, from, *slot, *ballot, entry, out),
        What::Promise {
            slot,
            ballot,
            accepted,
        } => {
            let report = copy_of(accepted)?;
            hear_promise(seq, number_of(from), *slot, *ballot, report, out)
        }
        What::Accepted { slot, ballot } => {
            hear_acceptance(seq, number_of(from), *slot, *ballot, out)
        }
        _ => Ok(()),
    }
}

/// A copy of what a promise reports.
fn copy_of(report: &Option<(u32, Entry)>) -> Result<Option<(u32, Entry)>, OutOfMemory>
    ensures { IfOk result (λ copy. copy ≡ report.now) }
{
    match report {
        Some((ballot, entry)) => Ok(Some((*ballot, entry.clone()?))),
        None => Ok(None),
    }
}
