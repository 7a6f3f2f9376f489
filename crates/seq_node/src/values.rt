//! What a sequencer would propose in the next slot.

ghost use Rattle.std.specs.Prelude.{◌≡◌};
ghost use Rattle.node_rules.specs.Nodes.{agreed_by};
ghost use Rattle.seq_node.specs.States.{lengths_of};
ghost use Rattle.seq_node.specs.Values.{entry_of, wished_value, has_uncovered, renewal, cut, filler, value_for};

use crate::state::{Sequencer, SequencerState};
use lag_fix::{lagging, uncovered};
use msg_wire::Command;
use quota_table::Entry;

/// The first that is there: the first wish, the same table once more, the next round, and nothing where another began.
pub fn value_for(seq: &Sequencer) -> Option<Entry>
    ensures { result ≡ value_for (agreed_by seq.now.base) seq.now.own }
{
    if let Some(value) = wished_value(seq) {
        return Some(value);
    }
    if let Some(value) = renewal(seq) {
        return Some(value);
    }
    if let Some(value) = cut(seq) {
        return Some(value);
    }
    filler(seq, seq.base.agreed().slots())
}

/// Each shard's length: the lesser of what its two replicas reported.
pub fn lengths(own: &SequencerState) -> [u64; 6]
    ensures { result ≡ lengths_of own.now }
{
    let (primaries, backups) = (&own.primaries, &own.backups);
    [
        primaries[0].min(backups[0]),
        primaries[1].min(backups[1]),
        primaries[2].min(backups[2]),
        primaries[3].min(backups[3]),
        primaries[4].min(backups[4]),
        primaries[5].min(backups[5]),
    ]
}

/// Whether some shard has records past the covered rounds.
pub fn has_uncovered(seq: &Sequencer) -> bool
    ensures { result ≡ has_uncovered (agreed_by seq.now.base) seq.now.own }
{
    let agreed = seq.base.agreed();
    uncovered(
        agreed.current(),
        agreed.rounds_covered(),
        &lengths(&seq.own),
    )
}

/// The entry that the first wish asks for.
pub fn wished_value(seq: &Sequencer) -> Option<Entry>
    ensures { result ≡ wished_value (agreed_by seq.now.base) seq.now.own }
{
    match seq.own.wishes.first() {
        Some(command) => Some(entry_of(seq.base.agreed().current().number(), command)),
        None => None,
    }
}

/// The entry that a command asks for, in a window.
fn entry_of(window: u32, command: &Command) -> Entry
    ensures { result ≡ entry_of window command.now }
{
    match command {
        Command::Table { rounds, rows } => Entry::Table {
            after: window,
            rounds: *rounds,
            rows: rows.copy(),
        },
        Command::Remove { shard } => Entry::Remove {
            window,
            shard: *shard,
        },
    }
}

/// The same table once more: where none is granted, half of the rounds are covered or next, and there is need.
fn renewal(seq: &Sequencer) -> Option<Entry>
    ensures { result ≡ renewal (agreed_by seq.now.base) seq.now.own }
{
    let agreed = seq.base.agreed();
    let window = agreed.current();
    let half = window.rounds() <= 2 * (agreed.rounds_covered() + 1);
    if agreed.granted().is_some() || !half || !has_uncovered(seq) {
        return None;
    }
    Some(Entry::Table {
        after: window.number(),
        rounds: window.rounds(),
        rows: window.table(),
    })
}

/// The next round: where no row lags, there is need, and it is not the last one or a window is granted.
fn cut(seq: &Sequencer) -> Option<Entry>
    ensures { result ≡ cut (agreed_by seq.now.base) seq.now.own }
{
    let agreed = seq.base.agreed();
    let window = agreed.current();
    let round = agreed.rounds_covered();
    let lags = !lagging(window, round, &lengths(&seq.own))
        .as_slice()
        .is_empty();
    let more = round + 1 < window.rounds() || agreed.granted().is_some();
    if lags || !has_uncovered(seq) || !more {
        return None;
    }
    Some(Entry::Cut {
        window: window.number(),
        round,
    })
}

/// Nothing, to end what another began at a slot.
fn filler(seq: &Sequencer, slot: u32) -> Option<Entry>
    ensures { result ≡ filler slot seq.now.own }
{
    if seq.own.acceptors.is_touched(slot) {
        Some(Entry::Nothing)
    } else {
        None
    }
}
