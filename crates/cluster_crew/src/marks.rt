//! The counts of a consumer's marks.
ghost use Rattle.std.specs.Prelude.{◌≡◌, IfSome};
ghost use Rattle.cluster_crew.specs.Marks.{with_mark, with_marks, with_steps};

use msg_wire::Mark;
use net_model::Stamped;

/// How many marks a consumer made, and how many of them tell of a cluster that changed.
#[derive(Clone, Copy, Debug, PartialEq)]
pub(crate) struct Counts {
    pub ops: u64,
    pub epoch: u64,
}

/// The counts with the marks of further steps; None where one of them has no room.
pub(crate) fn count_steps(from: Counts, steps: &[Stamped]) -> Option<Counts>
    ensures { IfSome result (λ counts. counts ≡ with_steps from steps.now) }
{
    match steps {
        [] => Some(from),
        [step, rest @ ..] => {
            let counts = count_marks(from, step.entry.marks.as_slice())?;
            count_steps(counts, rest)
        }
    }
}

/// The counts with further marks.
fn count_marks(from: Counts, marks: &[Mark]) -> Option<Counts>
    ensures { IfSome result (λ counts. counts ≡ with_marks from marks.now) }
{
    match marks {
        [] => Some(from),
        [mark, rest @ ..] => {
            let counts = count_mark(from, mark)?;
            count_marks(counts, rest)
        }
    }
}

/// The counts with one mark more.
fn count_mark(from: Counts, mark: &Mark) -> Option<Counts>
    ensures { IfSome result (λ counts. counts ≡ with_mark from mark.now) }
{
    let ops = from.ops.checked_add(1)?;
    match mark {
        Mark::Notice { first: _ } => {
            let epoch = from.epoch.checked_add(1)?;
            Some(Counts { ops, epoch })
        }
        _ => Some(Counts {
            ops,
            epoch: from.epoch,
        }),
    }
}
