//! Stamps, and a step as it stands in the journal.

ghost use Rattle.std.specs.Prelude.{◌≡◌, ◌<◌, ◌++◌, ◌∷◌, [], IfOk, OnOk, OnErr};
ghost use Rattle.net_model.specs.Journals.{IsAbove, last_stamp};

use msg_wire::{Event, Marks, Messages, Step};
use net_model::{HistoryEntry, Journal, Stamped};
use quota_table::OutOfMemory;
use std::alloc::Global;

/// One more than the greater of the last stamp and the stamp of what is taken; no memory where a stamp can't be so large.
pub fn next_stamp(journal: &Journal, came_with: u64) -> Result<u64, OutOfMemory>
    ensures above { IfOk result (λ stamp. came_with < stamp) }
    ensures rises { IfOk result (λ stamp. IsAbove stamp (last_stamp journal.now.steps)) }
{
    let last = journal.last_stamp().unwrap_or(0);
    last.max(came_with).checked_add(1).ok_or(OutOfMemory)
}

/// Puts a step at the end of the journal. What it sent and showed is moved.
pub fn note(
    alloc: Global,
    journal: &mut Journal,
    stamp: u64,
    event: Event,
    step: &mut Step,
) -> Result<(), OutOfMemory>
    requires { IsAbove stamp (last_stamp journal.old.steps) }
    ensures ok { OnOk result (journal.new ≡ record journal.old {
      steps = journal.old.steps ++ record {
        stamp = stamp;
        entry = record { node = journal.old.node; event = event; sends = step.old.sends; marks = step.old.marks };
      } ∷ [];
    }) }
    ensures err { OnErr result (journal.new ≡ journal.old) }
{
    let mut sends = Messages::new(alloc);
    sends.append(&mut step.sends)?;
    let mut marks = Marks::new(alloc);
    marks.append(&mut step.marks)?;
    let entry = HistoryEntry {
        node: journal.node(),
        event,
        sends,
        marks,
    };
    journal.push(Stamped { stamp, entry })
}
