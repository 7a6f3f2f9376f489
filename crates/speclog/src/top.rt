//! The commands over a source, a sink and a shelf.

ghost use Rattle.std.specs.Io.KnownBytes.{prepend_known};
ghost use Rattle.std.specs.Prelude.{◌≡◌, ℕ, List, false, [], None, Some, is_some, IsSome, IfSome, IsFalse, IsTrue, map, string_bytes};
ghost use Rattle.report_text.specs.Report.{report_of};
ghost use Rattle.report_text.specs.Summary.{summary_of};
ghost use Rattle.script_text.specs.Names.{Config, Input, Plan};
ghost use Rattle.script_text.specs.Plans.{SpellsPlan};
ghost use Rattle.script_text.specs.Scripts.{SpellsScript};
ghost use Rattle.net_model.specs.Pasts.{past_of};
ghost use Rattle.runs.specs.Laws.{IsRun, IsSafe, CutsAreTrue, IsEager};
ghost use Rattle.shelf_vaults.specs.Sights.{sight, TellsBytes};
ghost use Rattle.spec_base.specs.Faults.{Rose};
ghost use Rattle.speclog.specs.Answers.{status_of, usage_of, has_history, gives_history, gives_looks, fault_of_read, is_read_fault, is_write_fault};
ghost use Rattle.speclog.specs.Answers.{is_shelf_fault, is_unwritten, CountsBlame, SpeaksOfScript, SpeaksOfPlan};
ghost use Rattle.speclog.specs.Completeness.{IsPlayedWhole, IsRunWhole};
ghost use Rattle.speclog.specs.Generates.{Generates, IsGeneratedWhole};
ghost use Rattle.speclog.specs.Runs.{ran_in};
ghost use Rattle.speclog.specs.Shelves.{Shelves};
ghost use Rattle.speclog.specs.Words.{gen_of, is_gen, is_play, is_run, place_in, play_place, run_place, usage_place};
ghost use Rattle.speclog.specs.Writes.{BeginsToWrite};
ghost use Rattle.world.specs.Playing.{history_of};

use crate::fault::Fault;
use crate::generate::write_plan;
use crate::input::{ReadError, read_all};
use crate::outcome::Outcome;
use crate::play::play_text;
use crate::run::run_text;
use crate::words::{begins_with, misplaced, seed_and_size};
use spec_base::{Shelf, Sink, Source};
use std::alloc::Global;
use std::sync::Wait;
use std::thread::Threads;

/// Runs the command that the words name: `play` reads a script, plays it and writes its report; `run` reads a plan, runs its nodes as threads and
/// writes the summary; `gen SEED SIZE` writes the plan that is generated from the two, and reads nothing.
///
/// The answers come in the order of [`Fault`]'s statuses 2, 4, 3, 7 and then 5; want of memory may come at any point.
/// At status 2 nothing is read. At the statuses 2, 3, 4 and 7 the sink isn't asked to write; at 6
/// a part of the text may be out, where the source was read to its end. The count of faults of the source rises by one at
/// status 4 and that of the sink at 5; else both stand.
///
/// `play` and `gen` leave the shelf as it was, and so does `run` at the statuses 2, 3 and 4. Else `run` leaves the disks of its nodes on the shelf
/// again, and other names as they were (`disks`). The disks must tell their bytes, for `run` alone.
///
/// At the statuses 0 and 5 of `play` (`safe`) what was read spells a script, the history is the one that its inputs make, and a run; it is safe, its
/// accepted cuts are true, and it is eager; and what was written is its report, or a beginning of it. That it is the whole report at status 0
/// is said in `answer`. At those of `run` (`run_safe`, `run_answer`) the same of a plan, whose history is a run of its cluster, and of its summary.
pub fn top<R: AllocGlobal + Threads + Wait + Sync, S: Source, K: Sink, H: Shelf>(
    rt: &R,
    words: &[String],
    source: &mut S,
    sink: &mut K,
    shelf: &mut H,
) -> Outcome
    requires on_shelf { (name : List ℕ) → H.is_out shelf.old name ≡ false }
    requires tells { IsTrue (is_run (map string_bytes words.now)) → IsTrue (H.tells shelf.old) }
    requires told { IsTrue (is_run (map string_bytes words.now)) → (name : List ℕ) → TellsBytes H.D.seen (H.kept shelf.old name) }
    ensures status { result.status ≡ status_of result.fault }
    ensures history { is_some result.history ≡ gives_history (map string_bytes words.now) result.fault }
    ensures looks { IsFalse (gives_looks (map string_bytes words.now) result.fault) → result.looks.items ≡ [] }
    ensures quiet { IsFalse (gives_looks (map string_bytes words.now) result.fault) → result.quiet ≡ false }

    ensures usage { usage_of result.fault ≡ usage_place (map string_bytes words.now) }
    ensures unread { IsSome (usage_of result.fault) → source.new ≡ source.old }
    ensures unwritten { IsTrue (is_unwritten result.fault) → sink.new ≡ sink.old }
    ensures source_count { CountsBlame (is_read_fault result.fault) (S.faults source.old) (S.faults source.new) }
    ensures sink_count { CountsBlame (is_write_fault result.fault) (K.faults sink.old) (K.faults sink.new) }
    ensures shelf_fault { IsTrue (is_shelf_fault result.fault) → IsTrue (is_run (map string_bytes words.now)) }
    ensures read_fault { result.fault ≡ Some Fault.ReadFault → Rose (S.faults source.old) (S.faults source.new) }
    ensures write_fault { result.fault ≡ Some Fault.WriteFault → Rose (K.faults sink.old) (K.faults sink.new) }
    ensures answer { IsTrue (is_play (map string_bytes words.now)) → SpeaksOfScript (record { before = S.left source.old; after = S.left source.new })
        (record { before = K.taken sink.old; after = K.taken sink.new }) result.fault result.history }
    ensures run_answer { IsTrue (is_run (map string_bytes words.now)) → SpeaksOfPlan (record { before = S.left source.old; after = S.left source.new })
        (record { before = K.taken sink.old; after = K.taken sink.new }) result.fault (ran_in result) }
    ensures safe { IsTrue (is_play (map string_bytes words.now)) → IfSome result.history (λ history.
        (read : List ℕ) × (cfg : Config) × (inputs : List Input) × (numbers : List ℕ)
        × (S.left source.old ≡ prepend_known read (S.left source.new)) × SpellsScript read cfg inputs numbers × (history ≡ history_of cfg inputs)
        × IsRun cfg history × IsSafe cfg (past_of history) × CutsAreTrue cfg (past_of history) × IsEager cfg (past_of history)
        × BeginsToWrite (record { before = K.taken sink.old; after = K.taken sink.new }) (report_of cfg history)) }
    ensures run_safe { IsTrue (is_run (map string_bytes words.now)) → IfSome result.history (λ history. (read : List ℕ) × (plan : Plan)
        × (S.left source.old ≡ prepend_known read (S.left source.new)) × SpellsPlan read plan
        × IsRun plan.cfg history × IsSafe plan.cfg (past_of history) × CutsAreTrue plan.cfg (past_of history) × IsEager plan.cfg (past_of history)
        × BeginsToWrite (record { before = K.taken sink.old; after = K.taken sink.new }) (summary_of plan.cfg history result.quiet)) }
    ensures played { IsPlayedWhole (map string_bytes words.now) (S.left source.old) result.fault (Rose (S.faults source.old) (S.faults source.new))
        (Rose (K.faults sink.old) (K.faults sink.new)) }
    ensures ran { IsRunWhole (map string_bytes words.now) (S.left source.old) result.fault (Rose (S.faults source.old) (S.faults source.new))
        (Rose (K.faults sink.old) (K.faults sink.new)) }
    ensures generated { IsTrue (is_gen (map string_bytes words.now)) → Generates (map string_bytes words.now) result.fault
        (record { before = K.taken sink.old; after = K.taken sink.new }) }
    ensures reads_nothing { IsTrue (is_gen (map string_bytes words.now)) → source.new ≡ source.old }
    ensures generated_whole { IsGeneratedWhole (map string_bytes words.now) result.fault (Rose (K.faults sink.old) (K.faults sink.new)) }
    ensures shelf { IsFalse (is_run (map string_bytes words.now)) → shelf.new ≡ shelf.old }
    ensures disks { IsTrue (is_run (map string_bytes words.now)) → (read : List ℕ) × (S.left source.old ≡ prepend_known read (S.left source.new))
        × Shelves H.D.seen H.D.faults read result.fault (record {
          before = sight H.faults H.in_a_row H.is_out H.given H.kept shelf.old;
          after = sight H.faults H.in_a_row H.is_out H.given H.kept shelf.new;
        }) (shelf.new ≡ shelf.old) }
    ensures back { (name : List ℕ) → H.is_out shelf.new name ≡ false }
{
    if begins_with("gen", words) {
        top_gen(rt.alloc(), words, source, sink)
    } else if begins_with("run", words) {
        top_run(rt, rt.alloc(), words, source, sink, shelf)
    } else {
        top_play(rt.alloc(), words, source, sink)
    }
}

/// `gen SEED SIZE`: writes the plan that is generated from the two, and reads nothing. It returns.
pub fn top_gen<S: Source, K: Sink>(
    alloc: Global,
    words: &[String],
    source: &mut S,
    sink: &mut K,
) -> Outcome
    ensures status { result.status ≡ status_of result.fault }
    ensures history { result.history ≡ None }
    ensures looks { result.looks.items ≡ [] }
    ensures quiet { result.quiet ≡ false }

    ensures usage { usage_of result.fault ≡ place_in (gen_of (map string_bytes words.now)) }
    ensures reads_nothing { source.new ≡ source.old }
    ensures unwritten { IsTrue (is_unwritten result.fault) → sink.new ≡ sink.old }
    ensures source_count { CountsBlame (is_read_fault result.fault) (S.faults source.old) (S.faults source.new) }
    ensures sink_count { CountsBlame (is_write_fault result.fault) (K.faults sink.old) (K.faults sink.new) }
    ensures write_fault { result.fault ≡ Some Fault.WriteFault → Rose (K.faults sink.old) (K.faults sink.new) }
    ensures generated { Generates (map string_bytes words.now) result.fault
        (record { before = K.taken sink.old; after = K.taken sink.new }) }
    ensures generated_whole { IsGeneratedWhole (map string_bytes words.now) result.fault (Rose (K.faults sink.old) (K.faults sink.new)) }
{
    match seed_and_size(words) {
        Ok((seed, size)) => Outcome::written(alloc, write_plan(alloc, seed, size, sink)),
        Err(word) => Outcome::refused(alloc, Fault::Usage { word }),
    }
}

/// `play`: reads a script, plays it, and writes its report. It returns.
pub fn top_play<S: Source, K: Sink>(
    alloc: Global,
    words: &[String],
    source: &mut S,
    sink: &mut K,
) -> Outcome
    ensures status { result.status ≡ status_of result.fault }
    ensures history { is_some result.history ≡ has_history result.fault }
    ensures looks { result.looks.items ≡ [] }
    ensures quiet { result.quiet ≡ false }

    ensures usage { usage_of result.fault ≡ play_place (map string_bytes words.now) }
    ensures unread { IsSome (usage_of result.fault) → source.new ≡ source.old }
    ensures unwritten { IsTrue (is_unwritten result.fault) → sink.new ≡ sink.old }
    ensures answer { SpeaksOfScript (record { before = S.left source.old; after = S.left source.new })
        (record { before = K.taken sink.old; after = K.taken sink.new }) result.fault result.history }
    ensures safe { IfSome result.history (λ history. (read : List ℕ) × (cfg : Config) × (inputs : List Input) × (numbers : List ℕ)
        × (S.left source.old ≡ prepend_known read (S.left source.new)) × SpellsScript read cfg inputs numbers × (history ≡ history_of cfg inputs)
        × IsRun cfg history × IsSafe cfg (past_of history) × CutsAreTrue cfg (past_of history) × IsEager cfg (past_of history)
        × BeginsToWrite (record { before = K.taken sink.old; after = K.taken sink.new }) (report_of cfg history)) }
    ensures played { IsPlayedWhole (map string_bytes words.now) (S.left source.old) result.fault (Rose (S.faults source.old) (S.faults source.new))
        (Rose (K.faults sink.old) (K.faults sink.new)) }
    ensures source_count { CountsBlame (is_read_fault result.fault) (S.faults source.old) (S.faults source.new) }
    ensures sink_count { CountsBlame (is_write_fault result.fault) (K.faults sink.old) (K.faults sink.new) }
    ensures shelf_fault { IsFalse (is_shelf_fault result.fault) }
    ensures read_fault { result.fault ≡ Some Fault.ReadFault → Rose (S.faults source.old) (S.faults source.new) }
    ensures write_fault { result.fault ≡ Some Fault.WriteFault → Rose (K.faults sink.old) (K.faults sink.new) }
{
    if let Some(word) = misplaced("play", words) {
        return Outcome::refused(alloc, Fault::Usage { word });
    }
    match read_all(alloc, source) {
        Ok(text) => play_text(alloc, text.as_slice(), sink),
        Err(error) => Outcome::refused(alloc, read_fault(error)),
    }
}

/// `run`: reads a plan, runs its nodes, readers and submitters as threads, on vaults on the shelf's disks, and writes the summary. It may wait.
pub fn top_run<R: Threads + Wait + Sync, S: Source, K: Sink, H: Shelf>(
    rt: &R,
    alloc: Global,
    words: &[String],
    source: &mut S,
    sink: &mut K,
    shelf: &mut H,
) -> Outcome
    requires on_shelf { (name : List ℕ) → H.is_out shelf.old name ≡ false }
    requires tells { IsTrue (H.tells shelf.old) }
    requires told { (name : List ℕ) → TellsBytes H.D.seen (H.kept shelf.old name) }
    ensures status { result.status ≡ status_of result.fault }
    ensures history { is_some result.history ≡ has_history result.fault }
    ensures looks { IsFalse (has_history result.fault) → result.looks.items ≡ [] }
    ensures quiet { IsFalse (has_history result.fault) → result.quiet ≡ false }

    ensures usage { usage_of result.fault ≡ run_place (map string_bytes words.now) }
    ensures unread { IsSome (usage_of result.fault) → source.new ≡ source.old }
    ensures unwritten { IsTrue (is_unwritten result.fault) → sink.new ≡ sink.old }
    ensures answer { SpeaksOfPlan (record { before = S.left source.old; after = S.left source.new })
        (record { before = K.taken sink.old; after = K.taken sink.new }) result.fault (ran_in result) }
    ensures safe { IfSome result.history (λ history. (read : List ℕ) × (plan : Plan)
        × (S.left source.old ≡ prepend_known read (S.left source.new)) × SpellsPlan read plan
        × IsRun plan.cfg history × IsSafe plan.cfg (past_of history) × CutsAreTrue plan.cfg (past_of history) × IsEager plan.cfg (past_of history)
        × BeginsToWrite (record { before = K.taken sink.old; after = K.taken sink.new }) (summary_of plan.cfg history result.quiet)) }
    ensures ran { IsRunWhole (map string_bytes words.now) (S.left source.old) result.fault (Rose (S.faults source.old) (S.faults source.new))
        (Rose (K.faults sink.old) (K.faults sink.new)) }
    ensures source_count { CountsBlame (is_read_fault result.fault) (S.faults source.old) (S.faults source.new) }
    ensures sink_count { CountsBlame (is_write_fault result.fault) (K.faults sink.old) (K.faults sink.new) }
    ensures read_fault { result.fault ≡ Some Fault.ReadFault → Rose (S.faults source.old) (S.faults source.new) }
    ensures write_fault { result.fault ≡ Some Fault.WriteFault → Rose (K.faults sink.old) (K.faults sink.new) }
    ensures disks { (read : List ℕ) × (S.left source.old ≡ prepend_known read (S.left source.new))
        × Shelves H.D.seen H.D.faults read result.fault (record {
          before = sight H.faults H.in_a_row H.is_out H.given H.kept shelf.old;
          after = sight H.faults H.in_a_row H.is_out H.given H.kept shelf.new;
        }) (shelf.new ≡ shelf.old) }
    ensures back { (name : List ℕ) → H.is_out shelf.new name ≡ false }
{
    if let Some(word) = misplaced("run", words) {
        return Outcome::refused(alloc, Fault::Usage { word });
    }
    match read_all(alloc, source) {
        Ok(text) => run_text(rt, alloc, text.as_slice(), sink, shelf),
        Err(error) => Outcome::refused(alloc, read_fault(error)),
    }
}

/// The fault that ends a command whose input was not read to its end.
fn read_fault(error: ReadError) -> Fault
    ensures { result ≡ fault_of_read error }
{
    match error {
        ReadError::Failed => Fault::ReadFault,
        ReadError::TooLong => Fault::InputTooLong,
        ReadError::OutOfMemory => Fault::OutOfMemory,
    }
}
