//! What `run` does with a plan that was read to its end.

ghost use Rattle.std.specs.Prelude.{◌≡◌, ◌≤◌, ℕ, List, false, [], length, None, Some, is_some, IfSome, IfOk, IfErr, OnOk, IsFalse, IsTrue};
ghost use Rattle.msg_wire.specs.Nodes.{nodes_of};
ghost use Rattle.msg_wire.specs.Valid.{IsValidPlan};
ghost use Rattle.net_model.specs.Pasts.{past_of};
ghost use Rattle.report_text.specs.Summary.{summary_of};
ghost use Rattle.runs.specs.Laws.{IsRun, IsSafe, CutsAreTrue, IsEager};
ghost use Rattle.script_text.specs.Names.{Plan};
ghost use Rattle.script_text.specs.Plans.{SpellsPlan};
ghost use Rattle.shelf_vaults.specs.Sights.{sight, TellsBytes};
ghost use Rattle.spec_base.specs.Faults.{Rose};
ghost use Rattle.speclog.specs.Answers.{status_of, has_history, is_of_whole_input, is_after_reading, refusal_in, is_write_fault, is_unwritten, CountsBlame};
ghost use Rattle.speclog.specs.Refusals.{plan_refusal_of};
ghost use Rattle.speclog.specs.Runs.{Runs, ran_in};
ghost use Rattle.speclog.specs.Shelves.{Shelves, UsesDisks};
ghost use Rattle.speclog.specs.inside.Running.{IsStop, IsBeforeWriting, fault_in};
ghost use Rattle.speclog.specs.Writes.{BeginsToWrite, Writes};
ghost use Rattle.cluster_run.specs.Running.{consumers_in};

use crate::fault::Fault;
use crate::outcome::Outcome;
use crate::output::write_all;
use cluster_run::{RunError, RunRecord, run_cluster};
use cluster_users::Open;
use msg_wire::Plan;
use quota_table::{Bytes, OutOfMemory};
use report_text::summary;
use script_text::{ScriptError, read_plan};
use spec_base::{Shelf, Sink, Stop};
use std::alloc::Global;
use std::sync::Wait;
use std::thread::Threads;

/// Runs a plan on the shelf's disks, and writes the summary once it is whole.
pub fn run_text<R: Threads + Wait + Sync, K: Sink, H: Shelf>(
    rt: &R,
    alloc: Global,
    text: &[u8],
    sink: &mut K,
    shelf: &mut H,
) -> Outcome
    requires size { length text.now ≤ 16777216 }
    requires on_shelf { (name : List ℕ) → H.is_out shelf.old name ≡ false }
    requires tells { IsTrue (H.tells shelf.old) }
    requires told { (name : List ℕ) → TellsBytes H.D.seen (H.kept shelf.old name) }
    ensures status { result.status ≡ status_of result.fault }
    ensures history { is_some result.history ≡ has_history result.fault }
    ensures looks { IsFalse (has_history result.fault) → result.looks.items ≡ [] }
    ensures quiet { IsFalse (has_history result.fault) → result.quiet ≡ false }

    ensures after_reading { IsTrue (is_after_reading result.fault) }
    ensures refused { IsTrue (is_of_whole_input result.fault) → refusal_in result.fault ≡ plan_refusal_of text.now }
    ensures sink_count { CountsBlame (is_write_fault result.fault) (K.faults sink.old) (K.faults sink.new) }
    ensures unwritten { IsTrue (is_unwritten result.fault) → sink.new ≡ sink.old }
    ensures write_fault { result.fault ≡ Some Fault.WriteFault → Rose (K.faults sink.old) (K.faults sink.new) }
    ensures written { Writes Runs result.fault (ran_in result) text.now (record { before = K.taken sink.old; after = K.taken sink.new }) }
    ensures safe { IfSome result.history (λ history. (plan : Plan) × SpellsPlan text.now plan × IsRun plan.cfg history
        × IsSafe plan.cfg (past_of history) × CutsAreTrue plan.cfg (past_of history) × IsEager plan.cfg (past_of history)
        × BeginsToWrite (record { before = K.taken sink.old; after = K.taken sink.new }) (summary_of plan.cfg history result.quiet)) }
    ensures disks { Shelves H.D.seen H.D.faults text.now result.fault (record {
      before = sight H.faults H.in_a_row H.is_out H.given H.kept shelf.old;
      after = sight H.faults H.in_a_row H.is_out H.given H.kept shelf.new;
    }) (shelf.new ≡ shelf.old) }
{
    let Ran { made, summary } = match run_whole(rt, alloc, text, shelf) {
        Ok(ran) => ran,
        Err(fault) => return Outcome::refused(alloc, fault),
    };
    match write_all(sink, summary.as_slice()) {
        Ok(()) => Outcome::ran(made, None),
        Err(Stop::Failed) => Outcome::ran(made, Some(Fault::WriteFault)),
        Err(Stop::OutOfMemory) => Outcome::refused(alloc, Fault::OutOfMemory),
    }
}

/// A run and its summary.
#[derive(Drop)]
struct Ran {
    made: RunRecord,
    summary: Bytes,
}

/// Runs the plan of a text to its end, or says which line is refused, or why else there is no run.
fn run_whole<R: Threads + Wait + Sync, H: Shelf>(
    rt: &R,
    alloc: Global,
    text: &[u8],
    shelf: &mut H,
) -> Result<Ran, Fault>
    requires size { length text.now ≤ 16777216 }
    requires on_shelf { (name : List ℕ) → H.is_out shelf.old name ≡ false }
    requires tells { IsTrue (H.tells shelf.old) }
    requires told { (name : List ℕ) → TellsBytes H.D.seen (H.kept shelf.old name) }
    ensures ran { IfOk result (λ r. Runs text.now r.made r.summary) }
    ensures accepted { OnOk result (plan_refusal_of text.now ≡ None) }
    ensures refused { IfErr result (λ fault. IsTrue (is_of_whole_input (Some fault)) → refusal_in (Some fault) ≡ plan_refusal_of text.now) }
    ensures before_writing { IfErr result (λ fault. IsBeforeWriting fault) }
    ensures disks { Shelves H.D.seen H.D.faults text.now (fault_in result) (record {
      before = sight H.faults H.in_a_row H.is_out H.given H.kept shelf.old;
      after = sight H.faults H.in_a_row H.is_out H.given H.kept shelf.new;
    }) (shelf.new ≡ shelf.old) }
{
    match read_plan(alloc, text) {
        Ok(plan) => run_plan(rt, alloc, &plan, shelf),
        Err(ScriptError::At { line, kind }) => Err(Fault::Script { line, kind }),
        Err(ScriptError::TooLong { line }) => Err(Fault::TooLong { line }),
        Err(ScriptError::OutOfMemory) => Err(Fault::OutOfMemory),
    }
}

/// Runs what a text spells.
fn run_plan<R: Threads + Wait + Sync, H: Shelf>(
    rt: &R,
    alloc: Global,
    plan: &Plan,
    shelf: &mut H,
) -> Result<Ran, Fault>
    requires valid { IsValidPlan plan.now }
    requires on_shelf { (name : List ℕ) → H.is_out shelf.old name ≡ false }
    requires tells { IsTrue (H.tells shelf.old) }
    requires told { (name : List ℕ) → TellsBytes H.D.seen (H.kept shelf.old name) }
    ensures run { IfOk result (λ r. IsRun plan.now.cfg r.made.history) }
    ensures safe { IfOk result (λ r. IsSafe plan.now.cfg (past_of r.made.history)) }
    ensures true_cuts { IfOk result (λ r. CutsAreTrue plan.now.cfg (past_of r.made.history)) }
    ensures eager { IfOk result (λ r. IsEager plan.now.cfg (past_of r.made.history)) }
    ensures readers { IfOk result (λ r. consumers_in r.made.looks.items ≡ plan.now.readers) }
    ensures summary { IfOk result (λ r. r.summary ≡ summary_of plan.now.cfg r.made.history r.made.quiet) }
    ensures stopped { IfErr result IsStop }
    ensures disks { UsesDisks H.D.seen H.D.faults (nodes_of plan.now.cfg) (fault_in result) (record {
      before = sight H.faults H.in_a_row H.is_out H.given H.kept shelf.old;
      after = sight H.faults H.in_a_row H.is_out H.given H.kept shelf.new;
    }) }
{
    let made = run_nodes(rt, alloc, plan, shelf)?;
    match summary(alloc, &plan.cfg, &made.history, made.quiet) {
        Ok(summary) => Ok(Ran { made, summary }),
        Err(OutOfMemory) => Err(Fault::OutOfMemory),
    }
}

/// The run of a plan's nodes, or why there is none.
fn run_nodes<R: Threads + Wait + Sync, H: Shelf>(
    rt: &R,
    alloc: Global,
    plan: &Plan,
    shelf: &mut H,
) -> Result<RunRecord, Fault>
    requires valid { IsValidPlan plan.now }
    requires on_shelf { (name : List ℕ) → H.is_out shelf.old name ≡ false }
    requires tells { IsTrue (H.tells shelf.old) }
    requires told { (name : List ℕ) → TellsBytes H.D.seen (H.kept shelf.old name) }
    ensures run { IfOk result (λ made. IsRun plan.now.cfg made.history) }
    ensures safe { IfOk result (λ made. IsSafe plan.now.cfg (past_of made.history)) }
    ensures true_cuts { IfOk result (λ made. CutsAreTrue plan.now.cfg (past_of made.history)) }
    ensures eager { IfOk result (λ made. IsEager plan.now.cfg (past_of made.history)) }
    ensures readers { IfOk result (λ made. consumers_in made.looks.items ≡ plan.now.readers) }
    ensures stopped { IfErr result IsStop }
    ensures disks { UsesDisks H.D.seen H.D.faults (nodes_of plan.now.cfg) (fault_in result) (record {
      before = sight H.faults H.in_a_row H.is_out H.given H.kept shelf.old;
      after = sight H.faults H.in_a_row H.is_out H.given H.kept shelf.new;
    }) }
{
    match run_cluster(rt, alloc, plan, shelf, &Open) {
        Ok(made) => Ok(made),
        Err(RunError::ShelfFault { name }) => Err(Fault::ShelfFault { name }),
        Err(RunError::OutOfMemory) => Err(Fault::OutOfMemory),
    }
}
