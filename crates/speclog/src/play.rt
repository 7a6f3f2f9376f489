//! What `play` does with a script that was read to its end.

ghost use Rattle.std.specs.Prelude.{◌≡◌, ◌≤◌, false, ℕ, List, [], length, Ok, Err, None, Some, is_some, IfSome, IfOk, IfErr, OnOk, IsFalse, IsTrue};
ghost use Rattle.std.specs.List.{AllByRecursion};
ghost use Rattle.spec_base.specs.Faults.{Rose};
ghost use Rattle.msg_wire.specs.Valid.{IsValidConfig};
ghost use Rattle.msg_wire.specs.Inputs.{IsInputOf};
ghost use Rattle.script_text.specs.Names.{Config, Input};
ghost use Rattle.msg_wire.specs.Steps.{AreValidMessages};
ghost use Rattle.net_model.specs.Pasts.{past_of, sent};
ghost use Rattle.script_text.specs.Reading.{script_in};
ghost use Rattle.script_text.specs.Scripts.{SpellsScript};
ghost use Rattle.runs.specs.Laws.{IsRun, IsSafe, CutsAreTrue, IsEager};
ghost use Rattle.world.specs.Playing.{history_of, play_fault};
ghost use Rattle.speclog.specs.Answers.{status_of, has_history, is_of_whole_input, is_after_reading, refusal_in, is_shelf_fault, is_write_fault};
ghost use Rattle.speclog.specs.Answers.{is_unwritten, CountsBlame};
ghost use Rattle.report_text.specs.Report.{report_of};
ghost use Rattle.speclog.specs.Plays.{Plays};
ghost use Rattle.speclog.specs.Writes.{BeginsToWrite, Writes};
ghost use Rattle.speclog.specs.Refusals.{refusal_of, fault_of_play, at_line, RefusesWith, IsWithin};

use crate::fault::Fault;
use crate::outcome::Outcome;
use crate::output::write_all;
use net_model::History;
use quota_table::{Bytes, OutOfMemory};
use report_text::report;
use script_text::{
    LineNumbers, Script, ScriptError, ScriptKind, has_head_before, read_before, read_script,
};
use spec_base::{Sink, Stop};
use std::alloc::Global;
use world::PlayError;

/// Plays a script, and writes the report once it is whole.
pub fn play_text<K: Sink>(alloc: Global, text: &[u8], sink: &mut K) -> Outcome
    requires { length text.now ≤ 16777216 }
    ensures status { result.status ≡ status_of result.fault }
    ensures history { is_some result.history ≡ has_history result.fault }
    ensures looks { result.looks.items ≡ [] }
    ensures quiet { result.quiet ≡ false }

    ensures after_reading { IsTrue (is_after_reading result.fault) }
    ensures shelf_fault { IsFalse (is_shelf_fault result.fault) }
    ensures refused { IsTrue (is_of_whole_input result.fault) → refusal_in result.fault ≡ refusal_of text.now }
    ensures sink_count { CountsBlame (is_write_fault result.fault) (K.faults sink.old) (K.faults sink.new) }
    ensures unwritten { IsTrue (is_unwritten result.fault) → sink.new ≡ sink.old }
    ensures write_fault { result.fault ≡ Some Fault.WriteFault → Rose (K.faults sink.old) (K.faults sink.new) }
    ensures written { Writes Plays result.fault result.history text.now (record { before = K.taken sink.old; after = K.taken sink.new }) }
    ensures safe { IfSome result.history (λ history. (cfg : Config) × (inputs : List Input) × (numbers : List ℕ)
        × SpellsScript text.now cfg inputs numbers × (history ≡ history_of cfg inputs)
        × IsRun cfg history × IsSafe cfg (past_of history) × CutsAreTrue cfg (past_of history) × IsEager cfg (past_of history)
        × BeginsToWrite (record { before = K.taken sink.old; after = K.taken sink.new }) (report_of cfg history)) }
{
    let Played { history, report } = match play_whole(alloc, text) {
        Ok(played) => played,
        Err(fault) => return Outcome::refused(alloc, fault),
    };
    match write_all(sink, report.as_slice()) {
        Ok(()) => Outcome::played(alloc, history, None),
        Err(Stop::Failed) => Outcome::played(alloc, history, Some(Fault::WriteFault)),
        Err(Stop::OutOfMemory) => Outcome::refused(alloc, Fault::OutOfMemory),
    }
}

/// A run and its report.
#[derive(Drop)]
struct Played {
    history: History,
    report: Bytes,
}

/// Plays a text to its end, or says which line is refused.
fn play_whole(alloc: Global, text: &[u8]) -> Result<Played, Fault>
    requires { length text.now ≤ 16777216 }
    ensures played { IfOk result (λ p. Plays text.now p.history p.report) }
    ensures accepted { OnOk result (refusal_of text.now ≡ None) }
    ensures refused { IfErr result (λ fault. RefusesWith fault (refusal_of text.now)) }
{
    match read_script(alloc, text) {
        Ok(script) => play_script(alloc, &script),
        Err(ScriptError::At { line, kind }) => Err(refused_at(alloc, text, line, kind)),
        Err(ScriptError::TooLong { .. }) => unreachable!(),
        Err(ScriptError::OutOfMemory) => Err(Fault::OutOfMemory),
    }
}

/// Plays what a text spells.
fn play_script(alloc: Global, script: &Script) -> Result<Played, Fault>
    requires valid { IsValidConfig script.now.cfg }
    requires within { AllByRecursion (IsInputOf script.now.cfg) script.now.inputs }
    requires lines { length script.now.lines ≡ length script.now.inputs }
    ensures history { IfOk result (λ p. p.history ≡ history_of script.now.cfg script.now.inputs) }
    ensures run { IfOk result (λ p. IsRun script.now.cfg p.history) }
    ensures safe { IfOk result (λ p. IsSafe script.now.cfg (past_of p.history)) }
    ensures true_cuts { IfOk result (λ p. CutsAreTrue script.now.cfg (past_of p.history)) }
    ensures eager { IfOk result (λ p. IsEager script.now.cfg (past_of p.history)) }
    ensures report { IfOk result (λ p. p.report ≡ report_of script.now.cfg p.history) }
    ensures accepted { OnOk result (play_fault script.now.cfg script.now.inputs ≡ None) }
    ensures refused { IfErr result (λ fault. RefusesWith fault (fault_of_play script.now.cfg script.now.inputs script.now.lines)) }
{
    let history = play_inputs(alloc, script)?;
    match report(alloc, &script.cfg, &history) {
        Ok(report) => Ok(Played { history, report }),
        Err(OutOfMemory) => Err(Fault::OutOfMemory),
    }
}

/// The history of a script, or the fault of its first input that is refused.
fn play_inputs(alloc: Global, script: &Script) -> Result<History, Fault>
    requires valid { IsValidConfig script.now.cfg }
    requires within { AllByRecursion (IsInputOf script.now.cfg) script.now.inputs }
    requires lines { length script.now.lines ≡ length script.now.inputs }
    ensures history { IfOk result (λ history. history ≡ history_of script.now.cfg script.now.inputs) }
    ensures run { IfOk result (λ history. IsRun script.now.cfg history) }
    ensures safe { IfOk result (λ history. IsSafe script.now.cfg (past_of history)) }
    ensures true_cuts { IfOk result (λ history. CutsAreTrue script.now.cfg (past_of history)) }
    ensures eager { IfOk result (λ history. IsEager script.now.cfg (past_of history)) }
    ensures messages { IfOk result (λ history. AreValidMessages (sent (past_of history))) }
    ensures accepted { OnOk result (play_fault script.now.cfg script.now.inputs ≡ None) }
    ensures refused { IfErr result (λ fault. RefusesWith fault (fault_of_play script.now.cfg script.now.inputs script.now.lines)) }
{
    match world::play(alloc, &script.cfg, script.inputs.as_slice()) {
        Ok(history) => {
            world::laws(&script.cfg, &history);
            Ok(history)
        }
        Err(error) => Err(fault_at(&script.lines, error)),
    }
}

/// Why an input is refused, told by its line.
fn fault_at(lines: &LineNumbers, error: PlayError) -> Fault
    requires { IsWithin (length lines.now) error }
    ensures { RefusesWith result (at_line lines.now error) }
{
    match error {
        PlayError::NoMessage { at, number, sent } => match lines.get(at as u64) {
            Some(line) => Fault::NoMessage {
                line: *line,
                number,
                sent,
            },
            None => unreachable!(),
        },
        PlayError::TooLong { at } => match lines.get(at as u64) {
            Some(line) => Fault::TooLong { line: *line },
            None => unreachable!(),
        },
        PlayError::OutOfMemory => Fault::OutOfMemory,
    }
}

/// The fault of a text that the grammar refuses at a line: that of an input before it, if one is refused, or else the
/// grammar's.
fn refused_at(alloc: Global, text: &[u8], line: u32, kind: ScriptKind) -> Fault
    requires size { length text.now ≤ 16777216 }
    requires refused { script_in text.now ≡ Err (line, kind) }
    ensures { RefusesWith result (refusal_of text.now) }
{
    if !has_head_before(text, line) {
        return Fault::Script { line, kind };
    }
    match read_before(alloc, text, line) {
        Ok(script) => match play_inputs(alloc, &script) {
            Ok(_) => Fault::Script { line, kind },
            Err(fault) => fault,
        },
        Err(OutOfMemory) => Fault::OutOfMemory,
    }
}
