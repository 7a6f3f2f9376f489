//! The bodies of a plan's lines, by submitter.

ghost use Rattle.std.specs.Prelude.{◌≡◌, ℕ, [], IfOk, OnOk, length, map};
ghost use Rattle.std.specs.List.{AllByRecursion};
ghost use Rattle.plan_desks.specs.Desks.{AreBodies, IsLineFor, with_line};

use msg_wire::PlanLine;
use quota_table::OutOfMemory;
use record_codec::Body;
use std::alloc::Global;
use std::collections::VecDeque;

/// The bodies of so many submitters, each's in the order of the lines.
pub(crate) fn bodies_of(
    alloc: Global,
    count: usize,
    lines: &[PlanLine],
) -> Result<Vec<VecDeque<Body>>, OutOfMemory>
    requires { AllByRecursion (IsLineFor count) lines.now }
    ensures count { IfOk result (λ all. length all.items ≡ count) }
    ensures bodies { IfOk result (λ all. AreBodies lines.now 0 (map (λ q. q.items) all.items)) }
{
    let mut all = none_of(alloc, count)?;
    for line in lines {
        add(&mut all, line)?;
    }
    Ok(all)
}

/// So many lists of no body.
fn none_of(alloc: Global, count: usize) -> Result<Vec<VecDeque<Body>>, OutOfMemory>
    ensures count { IfOk result (λ all. length all.items ≡ count) }
    ensures bodies { IfOk result (λ all. (from : ℕ) → AreBodies [] from (map (λ q. q.items) all.items)) }
{
    let mut all = Vec::with_capacity(alloc, count)?;
    for _submitter in 0..count {
        all.push(VecDeque::new(alloc))?;
    }
    Ok(all)
}

/// Puts a line's body behind those of its submitter.
fn add(all: &mut Vec<VecDeque<Body>>, line: &PlanLine) -> Result<(), OutOfMemory>
    requires { IsLineFor (length all.old.items) line.now }
    ensures count { OnOk result (length all.new.items ≡ length all.old.items) }
    ensures bodies { OnOk result (map (λ q. q.items) all.new.items ≡ with_line line.now (map (λ q. q.items) all.old.items)) }
{
    if let PlanLine::Submit { by, body } = line {
        let copy = body.clone()?;
        all[usize::from(*by)].push_back(copy)?;
    }
    Ok(())
}
