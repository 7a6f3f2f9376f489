ghost use Rattle.std.specs.Prelude.{◌≡◌, map, length, IfOk, IsTrue};
ghost use Rattle.std.specs.List.{AllByRecursion};
ghost use Rattle.net_model.specs.Journals.{IsJournal, distinct_nodes};
ghost use Rattle.net_model.specs.Merges.{is_no_later_node, comes_first, IsMergeOf, entry_of, interleaved, values_of, AreSteps};

use crate::entry_ref::{copy_of_marks, copy_of_messages};
use crate::history::{History, HistoryEntry};
use crate::journal::{Journal, Stamped};
use quota_table::OutOfMemory;
use spec_base::NodeId;
use std::alloc::Global;

/// The entries of all journals in one history: by stamp, and where two stamps are equal by node. Each entry stands there
/// once, those of a node are in their order, and what was sent with a smaller stamp was sent before.
///
/// The journals are of distinct nodes. It takes O(n log k) for n entries of k journals.
pub fn merge(alloc: Global, journals: &[Journal]) -> Result<History, OutOfMemory>
    requires distinct { IsTrue (distinct_nodes journals.now) }
    ensures merge { IfOk result (IsMergeOf journals.now) }
    ensures journals { IfOk result (λ _. AllByRecursion IsJournal journals.now) }
{
    let steps = in_order(alloc, journals)?;
    history_of(alloc, steps.as_slice())
}

/// The steps of all journals, by stamp and then by node: those of one half and those of the other, in one list.
fn in_order<'a>(alloc: Global, journals: &'a [Journal]) -> Result<Vec<&'a Stamped>, OutOfMemory>
    ensures { IfOk result (λ steps. AreSteps journals.now (values_of steps.items)) }
{
    match journals {
        [] => Ok(Vec::new(alloc)),
        [only] => steps_of(alloc, only.steps()),
        several => {
            let (front, back) = several.split_at(several.len() / 2);
            let front = in_order(alloc, front)?;
            let back = in_order(alloc, back)?;
            interleaved(alloc, front.as_slice(), back.as_slice())
        }
    }
}

fn steps_of<'a>(alloc: Global, steps: &'a [Stamped]) -> Result<Vec<&'a Stamped>, OutOfMemory>
    ensures { IfOk result (λ all. values_of all.items ≡ steps.now) }
{
    let mut all = Vec::with_capacity(alloc, steps.len())?;
    for step in steps {
        all.push(step)?;
    }
    Ok(all)
}

/// Two lists in one, each in its order: of the two steps that are next, the one that goes first.
fn interleaved<'a>(
    alloc: Global,
    mut front: &[&'a Stamped],
    mut back: &[&'a Stamped],
) -> Result<Vec<&'a Stamped>, OutOfMemory>
    ensures { IfOk result (λ all. values_of all.items ≡ interleaved comes_first (values_of front.now) (values_of back.now)) }
{
    let mut all = Vec::with_capacity(alloc, front.len().saturating_add(back.len()))?;
    while !front.is_empty() && !back.is_empty() {
        if comes_first(front[0], back[0]) {
            all.push(front[0])?;
            front = &front[1..];
        } else {
            all.push(back[0])?;
            back = &back[1..];
        }
    }
    all.extend_from_slice(front)?;
    all.extend_from_slice(back)?;
    Ok(all)
}

/// Whether a step goes before another: by stamp, then by node.
fn comes_first(a: &Stamped, b: &Stamped) -> bool
    ensures { result ≡ comes_first a.now b.now }
{
    a.stamp < b.stamp || a.stamp == b.stamp && is_no_later_node(a.entry.node, b.entry.node)
}

fn is_no_later_node(a: NodeId, b: NodeId) -> bool
    ensures { result ≡ is_no_later_node a b }
{
    a <= b
}

fn history_of(alloc: Global, steps: &[&Stamped]) -> Result<History, OutOfMemory>
    ensures { IfOk result (λ history. history ≡ map entry_of (values_of steps.now)) }
{
    let mut history = History::new(alloc);
    for step in steps {
        history.push(copy_of_entry(alloc, &step.entry)?)?;
    }
    Ok(history)
}

fn copy_of_entry(alloc: Global, entry: &HistoryEntry) -> Result<HistoryEntry, OutOfMemory>
    ensures { IfOk result (λ copy. copy ≡ entry.now) }
{
    Ok(HistoryEntry {
        node: entry.node,
        event: entry.event.clone()?,
        sends: copy_of_messages(alloc, entry.sends.as_slice())?,
        marks: copy_of_marks(alloc, entry.marks.as_slice())?,
    })
}
