//! How a sequencer begins an attempt at the next slot.

ghost use Rattle.std.specs.Prelude.{◌≡◌, ◌<◌, Some, is_some, IfOk, OnOk, IsTrue};
ghost use Rattle.std.specs.Option.{option_map_or};
ghost use Rattle.quota_table.specs.Entries.{IsValidEntry};
ghost use Rattle.msg_wire.specs.Nodes.{number_of};
ghost use Rattle.node_rules.specs.Nodes.{has_slot, with_own};
ghost use Rattle.node_rules.specs.Turns.{turn_of, started};
ghost use Rattle.seq_node.specs.States.{standing_ballot};
ghost use Rattle.seq_node.specs.Attempts.{ballot_below, new_ballot, attempt_stands, first_sends, alone, begin_with, begin};
ghost use Rattle.seq_node.specs.Rules.{begin_if_free};
ghost use Rattle.seq_node.specs.inside.UnderWay.{IsUnderWay};

use crate::attempts::{hear_acceptance, hear_promise, send_value};
use crate::state::{Sequencer, SlotAttempt};
use crate::values::{value_for, wished_value};
use msg_wire::{Item, Step, What, number_of};
use node_rules::Done;
use quota_table::{Entry, OutOfMemory};

/// Begins where no attempt stands.
pub fn begin_if_free(seq: &mut Sequencer, out: &mut Step) -> Done
    requires { IsUnderWay (turn_of seq.old out.old) }
    ensures { OnOk result (turn_of seq.new out.new ≡ begin_if_free (turn_of seq.old out.old)) }
{
    if seq.own.attempt.is_none() {
        begin(seq, out)
    } else {
        Ok(())
    }
}

/// Begins at the next slot, where there is a slot and a value.
#[inline(always)]
pub fn begin(seq: &mut Sequencer, out: &mut Step) -> Done
    requires { IsUnderWay (turn_of seq.old out.old) }
    ensures { OnOk result (turn_of seq.new out.new ≡ begin (turn_of seq.old out.old)) }
{
    if !seq.base.has_slot() {
        return Ok(());
    }
    match value_for(seq) {
        Some(value) => begin_with(seq, &value, out),
        None => Ok(()),
    }
}

/// Begins at the next slot with a value. Where no ballot below 2^31 is left nothing begins.
fn begin_with(seq: &mut Sequencer, value: &Entry, out: &mut Step) -> Done
    requires under_way { IsUnderWay (turn_of seq.old out.old) }
    requires slot { IsTrue (has_slot seq.old.base) }
    requires valid { IsValidEntry value.now }
    ensures { OnOk result (turn_of seq.new out.new ≡ begin_with (Some value.now) (turn_of seq.old out.old)) }
{
    let slot = seq.base.count();
    match stand(seq, slot, value)? {
        Some(ballot) => {
            first_sends(seq, slot, ballot, value, out)?;
            alone(seq, slot, ballot, out)
        }
        None => Ok(()),
    }
}

/// A new attempt stands, in the place of one that may stand: its ballot. None where no ballot below 2^31 is left.
fn stand(seq: &mut Sequencer, slot: u32, value: &Entry) -> Result<Option<u32>, OutOfMemory>
    requires { number_of seq.old.base.me < seq.old.base.cfg.seqs }
    ensures ballot { IfOk result (λ ballot. ballot ≡ ballot_below (new_ballot slot (started seq.old))) }
    ensures state { IfOk result (λ ballot. seq.new ≡ option_map_or (λ ballot. with_own (attempt_stands slot ballot value.now (started seq.old)) seq.old) ballot seq.old) }
{
    let replica = number_of(seq.base.me());
    let seqs = seq.base.cfg().seqs;
    let highest = standing_ballot(seq, slot);
    let wished = wished_value(seq);
    let Some(attempt) = seq
        .own
        .acceptors
        .start(slot, replica, seqs, highest, value.clone()?)?
    else {
        return Ok(None);
    };
    let ballot = attempt.ballot();
    seq.own.attempt = Some(SlotAttempt {
        slot,
        attempt,
        wished,
    });
    seq.own.idle = 0;
    Ok(Some(ballot))
}

/// The ballot of the attempt that stands for a slot, or else 0.
fn standing_ballot(seq: &Sequencer, slot: u32) -> u32
    ensures { result ≡ standing_ballot slot seq.now.own.attempt }
{
    match &seq.own.attempt {
        Some(standing) if standing.slot == slot => standing.attempt.ballot(),
        _ => 0,
    }
}

/// At ballot 0 the value is sent at once. Another ballot is promised here, which is stored, and the others are asked to
/// promise it.
fn first_sends(seq: &Sequencer, slot: u32, ballot: u32, value: &Entry, out: &mut Step) -> Done
    ensures { OnOk result (turn_of seq.now out.new ≡ first_sends slot ballot value.now (turn_of seq.now out.old)) }
{
    if ballot == 0 {
        return send_value(seq, slot, 0, value, out);
    }
    seq.store(Item::Promised { slot, ballot }, out)?;
    seq.send_to_other_sequencers(&What::Prepare { slot, ballot }, out)
}

/// A sequencer that is alone is a majority: its own promise and acceptance are heard at once.
fn alone(seq: &mut Sequencer, slot: u32, ballot: u32, out: &mut Step) -> Done
    requires { IsUnderWay (turn_of seq.old out.old) }
    ensures { OnOk result (turn_of seq.new out.new ≡ alone slot ballot (turn_of seq.old out.old)) }
{
    if seq.base.cfg().seqs != 1 {
        return Ok(());
    }
    hear_promise(seq, 0, slot, ballot, None, out)?;
    hear_acceptance(seq, 0, slot, ballot, out)
}
