//! What a sequencer does at commands and ticks.

ghost use Rattle.std.specs.Prelude.{◌≡◌, ◌+◌, ◌*◌, ◌&&◌, ◌≤◌, nat_le, is_none, is_some, OnOk};
ghost use Rattle.std.specs.List.{fold};
ghost use Rattle.msg_wire.specs.Nodes.{number_of};
ghost use Rattle.node_rules.specs.Nodes.{with_own};
ghost use Rattle.node_rules.specs.Names.{Step as StepOf};
ghost use Rattle.node_rules.specs.Turns.{turn_of};
ghost use Rattle.msg_wire.specs.Valid.{IsValidCommand};
ghost use Rattle.seq_node.specs.Rules.{with_wish, take_command, fill, fill_lagging, idle_longer, begin_when_idle, on_tick};
ghost use Rattle.seq_node.specs.inside.UnderWay.{IsUnderWay};

use crate::beginning::{begin, begin_if_free};
use crate::state::Sequencer;
use crate::values::{has_uncovered, lengths};
use lag_fix::{Wanted, lagging};
use msg_wire::{Command, Step, What, number_of};
use node_rules::Done;
use spec_base::{NodeId, Side};

/// The most wishes that stand at once.
const MOST_WISHES: usize = 16;

/// Command: a wish more, and a beginning where no attempt stands.
pub fn take_command(seq: &mut Sequencer, command: &Command, out: &mut Step) -> Done
    requires under_way { IsUnderWay (turn_of seq.old out.old) }
    requires valid { IsValidCommand command.now }
    ensures { OnOk result (turn_of seq.new out.new ≡ take_command command.now (turn_of seq.old out.old)) }
{
    put_wish(seq, command)?;
    begin_if_free(seq, out)
}

/// Puts a wish last. Where 16 stand already it is passed over.
fn put_wish(seq: &mut Sequencer, command: &Command) -> Done
    ensures { OnOk result (seq.new ≡ with_own (with_wish command.now seq.old.own) seq.old) }
{
    if seq.own.wishes.len() < MOST_WISHES {
        seq.own.wishes.push(command.clone()?)
    } else {
        Ok(())
    }
}

/// Tick: it asks for the next entry, and is idle for one more tick. Once it waited long enough it begins.
pub fn on_tick(seq: &mut Sequencer, out: &mut Step) -> Done
    requires { IsUnderWay (turn_of seq.old out.old) }
    ensures { OnOk result (turn_of seq.new out.new ≡ on_tick (turn_of seq.old out.old)) }
{
    seq.tick(out)?;
    idle_longer(seq);
    begin_when_idle(seq, out)
}

/// Without an attempt it fills and begins once it waited long enough, with one it begins anew after 3 ticks more.
fn begin_when_idle(seq: &mut Sequencer, out: &mut Step) -> Done
    requires { IsUnderWay (turn_of seq.old out.old) }
    ensures { OnOk result (turn_of seq.new out.new ≡ begin_when_idle (turn_of seq.old out.old)) }
{
    if is_due(seq) {
        fill_lagging(seq, out)?;
        begin(seq, out)
    } else if is_overdue(seq) {
        begin(seq, out)
    } else {
        Ok(())
    }
}

/// Whether no attempt stands, and it waited long enough to begin.
fn is_due(seq: &Sequencer) -> bool
    ensures { result ≡ (is_none seq.now.own.attempt && nat_le (3 * number_of seq.now.base.me) seq.now.own.idle) }
{
    seq.own.attempt.is_none() && patience(seq) <= u16::from(seq.own.idle)
}

/// Whether an attempt stands, and it waited long enough to begin anew.
fn is_overdue(seq: &Sequencer) -> bool
    ensures { result ≡ (is_some seq.now.own.attempt && nat_le (3 * number_of seq.now.base.me + 3) seq.now.own.idle) }
{
    seq.own.attempt.is_some() && patience(seq) + 3 <= u16::from(seq.own.idle)
}

/// How long it waits before it begins: 3 ticks for each sequencer before it.
fn patience(seq: &Sequencer) -> u16
    ensures ticks { result ≡ 3 * number_of seq.now.base.me }
    ensures most { result ≤ 765 }
{
    3 * u16::from(number_of(seq.base.me()))
}

/// Counts one more idle tick, up to 255.
fn idle_longer(seq: &mut Sequencer)
    ensures { (out : StepOf) → turn_of seq.new out ≡ idle_longer (turn_of seq.old out) }
{
    seq.own.idle = seq.own.idle.saturating_add(1);
}

/// Where there is need, asks the primary of each row that lags to fill its log up.
fn fill_lagging(seq: &Sequencer, out: &mut Step) -> Done
    ensures { OnOk result (turn_of seq.now out.new ≡ fill_lagging (turn_of seq.now out.old)) }
{
    if !has_uncovered(seq) {
        return Ok(());
    }
    let agreed = seq.base.agreed();
    let rows = lagging(
        agreed.current(),
        agreed.rounds_covered(),
        &lengths(&seq.own),
    );
    fill_rows(seq, rows.as_slice(), out)
}

/// Asks the primary of each row to fill its log up, in order.
fn fill_rows(seq: &Sequencer, rows: &[Wanted], out: &mut Step) -> Done
    ensures { OnOk result (turn_of seq.now out.new ≡ fold fill (turn_of seq.now out.old) rows.now) }
{
    for row in rows {
        let to = NodeId::Shard(row.shard, Side::Primary);
        seq.send(to, What::Fill { wanted: row.len }, out)?;
    }
    Ok(())
}
