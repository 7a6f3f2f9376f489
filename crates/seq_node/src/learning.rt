//! What a sequencer does at a learned entry, and as it decides one.

ghost use Rattle.std.specs.Prelude.{◌≡◌, OnOk, IsTrue};
ghost use Rattle.quota_table.specs.Entries.{IsValidEntry};
ghost use Rattle.msg_wire.specs.Entries.{same_entry, is_entry};
ghost use Rattle.node_rules.specs.Nodes.{has_slot, with_own};
ghost use Rattle.node_rules.specs.Turns.{turn_of};
ghost use Rattle.node_rules.specs.Rules.{learn};
ghost use Rattle.seq_node.specs.States.{with_idle};
ghost use Rattle.seq_node.specs.Learning.{attempt_over, on_learned, decide};

use crate::state::Sequencer;
use msg_wire::{Step, What};
use node_rules::Done;
use quota_table::Entry;

/// Deciding: the entry is learned, and told to every other node.
pub fn decide(seq: &mut Sequencer, value: &Entry, out: &mut Step) -> Done
    requires slot { IsTrue (has_slot seq.old.base) }
    requires valid { IsValidEntry value.now }
    ensures { OnOk result (turn_of seq.new out.new ≡ decide value.now (turn_of seq.old out.old)) }
{
    let slot = seq.base.count();
    learn(seq, value, out)?;
    let told = What::Decided {
        slot,
        count: slot + 1,
        entry: value.clone()?,
    };
    seq.send_to_others(&told, out)
}

/// Learns the entry of the next slot: something happened, and an attempt for the slot ends.
pub fn learn(seq: &mut Sequencer, entry: &Entry, out: &mut Step) -> Done
    requires slot { IsTrue (has_slot seq.old.base) }
    requires valid { IsValidEntry entry.now }
    ensures { OnOk result (turn_of seq.new out.new ≡ learn on_learned entry.now (turn_of seq.old out.old)) }
{
    let slot = seq.base.agreed().slots();
    let _effect = seq.learn(entry, out)?;
    seq.own.idle = 0;
    end_attempt(seq, slot, entry);
    Ok(())
}

/// An attempt for a slot ends. The first wish is dropped where the entry is what the attempt made of it.
fn end_attempt(seq: &mut Sequencer, slot: u32, entry: &Entry)
    ensures { seq.new ≡ with_own (attempt_over seq.old.own.attempt slot entry.now seq.old.own) seq.old }
{
    let Some(attempt) = &seq.own.attempt else {
        return;
    };
    if attempt.slot != slot {
        return;
    }
    let granted = is_entry(&attempt.wished, entry);
    seq.own.attempt = None;
    if granted {
        seq.own.wishes.drop_first();
    }
}

/// Whether there is an entry, and it is this one.
fn is_entry(wished: &Option<Entry>, entry: &Entry) -> bool
    ensures { result ≡ is_entry wished.now entry.now }
{
    match wished {
        Some(other) => same_entry(other, entry),
        None => false,
    }
}

/// Whether two entries are the same.
fn same_entry(first: &Entry, second: &Entry) -> bool
    ensures { result ≡ same_entry first.now second.now }
{
    match (first, second) {
        (Entry::Nothing, Entry::Nothing) => true,
        (
            Entry::Cut { window, round },
            Entry::Cut {
                window: other,
                round: at,
            },
        ) => window == other && round == at,
        (
            Entry::Table {
                after,
                rounds,
                rows,
            },
            Entry::Table {
                after: other,
                rounds: count,
                rows: others,
            },
        ) => after == other && rounds == count && rows == others,
        (
            Entry::Remove { window, shard },
            Entry::Remove {
                window: other,
                shard: gone,
            },
        ) => window == other && shard == gone,
        _ => false,
    }
}
