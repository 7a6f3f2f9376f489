//! A sequencer's attempt: promises and acceptances that come to it.

ghost use Rattle.std.specs.Prelude.{◌≡◌, ◌<◌, None, OnOk, IfSome, IsTrue, if◌then◌else◌};
ghost use Rattle.quota_table.specs.Entries.{IsValidEntry};
ghost use Rattle.node_rules.specs.Nodes.{has_slot};
ghost use Rattle.node_rules.specs.Turns.{turn_of};
ghost use Rattle.seq_node.specs.States.{SlotAttempt as AttemptOf, attempt_for};
ghost use Rattle.seq_node.specs.Attempts.{send_value, promise_answered, promise_for, hear_promise, acceptance_for, hear_acceptance};

use crate::learning::decide;
use crate::state::Sequencer;
use majority::{AcceptedAnswer, PromiseAnswer};
use msg_wire::{Item, Step, What};
use node_rules::Done;
use quota_table::Entry;

/// Sends a value: it is accepted here, which is stored, and the others are asked to accept it.
pub fn send_value(seq: &Sequencer, slot: u32, ballot: u32, value: &Entry, out: &mut Step) -> Done
    ensures { OnOk result (turn_of seq.now out.new ≡ send_value slot ballot value.now (turn_of seq.now out.old)) }
{
    let item = Item::Accepted {
        slot,
        ballot,
        entry: value.clone()?,
    };
    seq.store(item, out)?;
    let accept = What::Accept {
        slot,
        ballot,
        entry: value.clone()?,
    };
    seq.send_to_other_sequencers(&accept, out)
}

/// Whether the attempt that stands, if any, has this slot and this ballot.
fn stands_for(seq: &Sequencer, slot: u32, ballot: u32) -> bool
    ensures { attempt_for slot ballot seq.now.own.attempt ≡ (if result then seq.now.own.attempt else None) }
{
    match &seq.own.attempt {
        Some(standing) => standing.slot == slot && standing.attempt.ballot() == ballot,
        None => false,
    }
}

/// Promise: it goes to the attempt whose slot and ballot it has.
pub fn hear_promise(
    seq: &mut Sequencer,
    replica: u8,
    slot: u32,
    ballot: u32,
    report: Option<(u32, Entry)>,
    out: &mut Step,
) -> Done
    requires { IfSome seq.old.own.attempt (λ (a : AttemptOf). replica < a.attempt.n) }
    ensures { OnOk result (turn_of seq.new out.new ≡ hear_promise replica slot ballot report (turn_of seq.old out.old)) }
{
    if stands_for(seq, slot, ballot) {
        count_promise(seq, replica, report, out)
    } else {
        Ok(())
    }
}

/// A promise for the attempt that stands. A value that is to be sent now is sent.
fn count_promise(
    seq: &mut Sequencer,
    replica: u8,
    report: Option<(u32, Entry)>,
    out: &mut Step,
) -> Done
    requires { IfSome seq.old.own.attempt (λ (a : AttemptOf). replica < a.attempt.n) }
    ensures { OnOk result (turn_of seq.new out.new ≡ promise_for seq.old.own.attempt replica report (turn_of seq.old out.old)) }
{
    let Some(mut standing) = seq.own.attempt.take() else {
        return Ok(());
    };
    let slot = standing.slot;
    let ballot = standing.attempt.ballot();
    let answer = seq
        .own
        .acceptors
        .on_promise(slot, &mut standing.attempt, replica, report)?;
    seq.own.attempt = Some(standing);
    answer_promise(seq, &answer, slot, ballot, out)
}

/// What follows of the attempt's answer to a promise.
fn answer_promise(
    seq: &Sequencer,
    answer: &PromiseAnswer<Entry>,
    slot: u32,
    ballot: u32,
    out: &mut Step,
) -> Done
    ensures { OnOk result (turn_of seq.now out.new ≡ promise_answered answer.now slot ballot (turn_of seq.now out.old)) }
{
    match answer {
        PromiseAnswer::Send { value } => send_value(seq, slot, ballot, value, out),
        PromiseAnswer::Late | PromiseAnswer::Lower { .. } | PromiseAnswer::Waiting { .. } => Ok(()),
    }
}

/// Accepted: it goes to the attempt whose slot and ballot it has.
pub fn hear_acceptance(
    seq: &mut Sequencer,
    replica: u8,
    slot: u32,
    ballot: u32,
    out: &mut Step,
) -> Done
    requires from { IfSome seq.old.own.attempt (λ (a : AttemptOf). replica < a.attempt.n) }
    requires valid { IfSome seq.old.own.attempt (λ (a : AttemptOf). IfSome a.attempt.sending IsValidEntry) }
    requires slot { IfSome seq.old.own.attempt (λ (a : AttemptOf). IsTrue (has_slot seq.old.base)) }
    ensures { OnOk result (turn_of seq.new out.new ≡ hear_acceptance replica slot ballot (turn_of seq.old out.old)) }
{
    if stands_for(seq, slot, ballot) {
        count_acceptance(seq, replica, out)
    } else {
        Ok(())
    }
}

/// An acceptance for the attempt that stands. A value that is chosen now is decided.
fn count_acceptance(seq: &mut Sequencer, replica: u8, out: &mut Step) -> Done
    requires from { IfSome seq.old.own.attempt (λ (a : AttemptOf). replica < a.attempt.n) }
    requires valid { IfSome seq.old.own.attempt (λ (a : AttemptOf). IfSome a.attempt.sending IsValidEntry) }
    requires slot { IfSome seq.old.own.attempt (λ (a : AttemptOf). IsTrue (has_slot seq.old.base)) }
    ensures { OnOk result (turn_of seq.new out.new ≡ acceptance_for seq.old.own.attempt replica (turn_of seq.old out.old)) }
{
    let Some(standing) = &mut seq.own.attempt else {
        return Ok(());
    };
    let AcceptedAnswer::Chosen = standing.attempt.on_accepted(replica) else {
        return Ok(());
    };
    let value = match standing.attempt.value() {
        Some(value) => value.clone()?,
        None => return Ok(()),
    };
    decide(seq, &value, out)
}
