//! The end of a consumer's step: records are applied as far as they are held in order, and up to three are confirmed.

ghost use Rattle.std.specs.Prelude.{◌≡◌, ◌≤◌, ◌<◌, ◌^◌, ◌-◌, ◌∷◌, [], min, length, IfOk, OnOk, IfSome};
ghost use Rattle.record_codec.specs.Records.{IsValidRecord};
ghost use Rattle.cut_core.specs.Map.{located};
ghost use Rattle.msg_wire.specs.Valid.{AreValidItems};
ghost use Rattle.node_rules.specs.Names.items.{Confirmed as ConfirmedItem};
ghost use Rattle.node_rules.specs.Names.marks.{Confirm as ConfirmMark};
ghost use Rattle.node_rules.specs.Turns.{turn_of, store, show};
ghost use Rattle.node_rules.specs.Nodes.{agreed_by};
ghost use Rattle.consumer_node.specs.Apps.{meaning};
ghost use Rattle.consumer_node.specs.States.{applied_of};
ghost use Rattle.consumer_node.specs.Sound.{IsConsumer, held_for};
ghost use Rattle.consumer_node.specs.inside.Confirming.{confirm_oldest};
ghost use Rattle.consumer_node.specs.Speculation.{apply, apply_all, show_output, confirm_some, finish};

use crate::state::Consumer;
use app_law::App;
use fix_ante::Owner;
use msg_wire::{Item, Mark, Step};
use node_rules::Done;
use output_gate::MOST_KEPT;
use quota_table::{Bytes, OutOfMemory};
use record_codec::{Output, Record};
use std::alloc::Global;

/// Applies what is held in order, then confirms what is covered, up to three records.
pub(crate) fn finish<A: App>(consumer: &mut Consumer<A>, alloc: Global, out: &mut Step) -> Done
    requires sound { IsConsumer consumer.old }
    ensures turn { OnOk result (turn_of consumer.new out.new ≡ finish (meaning A.fresh_state A.next_state A.output_of) (turn_of consumer.old out.old)) }
    ensures valid { AreValidItems out.old.stable → OnOk result (AreValidItems out.new.stable) }
    ensures sound { OnOk result (IsConsumer consumer.new) }
{
    apply_all(consumer, out)?;
    confirm_some(consumer, alloc, out)
}

/// Applies the records of the next positions, up to the first that is not held.
fn apply_all<A: App>(consumer: &mut Consumer<A>, out: &mut Step) -> Done
    requires sound { IsConsumer consumer.old }
    ensures turn { OnOk result (turn_of consumer.new out.new ≡ apply_all (turn_of consumer.old out.old)) }
    ensures sound { OnOk result (IsConsumer consumer.new) }
{
    while let Some(rec) = next_held(consumer)? {
        apply(consumer, rec, out)?;
    }
    Ok(())
}

/// A copy of the record that is held of the next position.
fn next_held<A: App>(consumer: &Consumer<A>) -> Result<Option<Record>, OutOfMemory>
    ensures { IfOk result (λ next. next ≡ held_for (agreed_by consumer.now.base) consumer.now.own (applied_of consumer.now.own)) }
{
    let Some(owner) = consumer.base.known().owner(consumer.own.applied()) else {
        return Ok(None);
    };
    match consumer.own.held(owner.shard, owner.local) {
        Some(rec) => Ok(Some(rec.clone()?)),
        None => Ok(None),
    }
}

/// Applies a record.
fn apply<A: App>(consumer: &mut Consumer<A>, rec: Record, out: &mut Step) -> Done
    requires room { length consumer.old.own.pending < 3840 }
    ensures { OnOk result (turn_of consumer.new out.new ≡ apply (turn_of consumer.old out.old) rec) }
{
    let position = consumer.own.applied();
    let shown = rec.clone()?;
    consumer.own.apply(rec)?;
    consumer.show(
        Mark::Apply {
            position,
            rec: shown,
        },
        out,
    )
}

/// Confirms up to three of the applied records that are covered and not confirmed yet.
fn confirm_some<A: App>(consumer: &mut Consumer<A>, alloc: Global, out: &mut Step) -> Done
    requires sound { IsConsumer consumer.old }
    ensures turn { OnOk result (turn_of consumer.new out.new ≡ confirm_some (meaning A.fresh_state A.next_state A.output_of) (turn_of consumer.old out.old)) }
    ensures valid { AreValidItems out.old.stable → OnOk result (AreValidItems out.new.stable) }
    ensures sound { OnOk result (IsConsumer consumer.new) }
{
    for _nth in 0..count_to_confirm(consumer) {
        confirm(consumer, alloc, out)?;
    }
    Ok(())
}

/// How many positions are covered and not confirmed, three at most.
fn count_to_confirm<A: App>(consumer: &Consumer<A>) -> u64
    ensures { result ≡ min 3 (length (agreed_by consumer.now.base).covered - consumer.now.own.confirmed) }
{
    let covered = consumer.base.agreed().covered();
    covered
        .saturating_sub(consumer.own.confirmed())
        .min(MOST_KEPT as u64)
}

/// Who has the position that is confirmed next. None where it is not covered.
pub(crate) fn next_covered<A: App>(consumer: &Consumer<A>) -> Option<Owner>
    ensures owner { result ≡ located (agreed_by consumer.now.base) consumer.now.own.confirmed }
    ensures shard { IfSome result (λ owner. owner.shard ≤ 5) }
    ensures more { IfSome result (λ _. consumer.now.own.confirmed < 2 ^ 48) }
{
    let agreed = consumer.base.agreed();
    let position = consumer.own.confirmed();
    if position < agreed.covered() {
        agreed.locate(position)
    } else {
        None
    }
}

/// Confirms the next position, where it is covered and its record is applied: it is stored with its output, and shown.
fn confirm<A: App>(consumer: &mut Consumer<A>, alloc: Global, out: &mut Step) -> Done
    requires sound { IsConsumer consumer.old }
    ensures turn { OnOk result (turn_of consumer.new out.new ≡ confirm_oldest (meaning A.fresh_state A.next_state A.output_of) (turn_of consumer.old out.old)) }
    ensures valid { AreValidItems out.old.stable → OnOk result (AreValidItems out.new.stable) }
    ensures sound { OnOk result (IsConsumer consumer.new) }
{
    let position = consumer.own.confirmed();
    let Some(owner) = next_covered(consumer) else {
        return Ok(());
    };
    let Some((rec, output)) = consumer.own.confirm(owner) else {
        return Ok(());
    };
    show_confirmed(consumer, alloc, position, rec, output, out)
}

/// Stores and shows a confirmed record with its output.
fn show_confirmed<A: App>(
    consumer: &Consumer<A>,
    alloc: Global,
    position: u64,
    rec: Record,
    output: Output,
    out: &mut Step,
) -> Done
    requires rec { IsValidRecord rec }
    ensures turn { OnOk result (turn_of consumer.now out.new ≡ show_output output (show (ConfirmMark position rec) (store (ConfirmedItem rec output) (turn_of consumer.now out.old)))) }
    ensures valid { AreValidItems out.old.stable → OnOk result (AreValidItems out.new.stable) }
{
    let shown = rec.clone()?;
    let bytes = Bytes::from_slice(alloc, output.as_slice())?;
    consumer.store(Item::Confirmed { rec, output }, out)?;
    consumer.show(
        Mark::Confirm {
            position,
            rec: shown,
        },
        out,
    )?;
    show_output(consumer, bytes, out)
}

/// Lets output go out, where there is some.
fn show_output<A: App>(consumer: &Consumer<A>, bytes: Bytes, out: &mut Step) -> Done
    ensures { OnOk result (turn_of consumer.now out.new ≡ show_output bytes (turn_of consumer.now out.old)) }
{
    if bytes.is_empty() {
        Ok(())
    } else {
        consumer.show(Mark::Out { bytes }, out)
    }
}
