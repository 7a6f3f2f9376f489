//! Whole scripts.

ghost use Rattle.std.specs.Prelude.{◌≡◌, ◌≤◌, ◌↔◌, IsTrue, ℕ, List, length, drop, [], ◌∷◌, IfOk, IfErr, Ok, Err, MatchResult};
ghost use Rattle.msg_wire.specs.Valid.{IsValidConfig};
ghost use Rattle.script_text.specs.Names.{Config, Input};
ghost use Rattle.script_text.specs.Lines.{numbers_of, counted_lines, left_of, end_of};
ghost use Rattle.script_text.specs.Spelled.{script_word};
ghost use Rattle.script_text.specs.Scripts.{SpellsScript, SpellsLines, lines_before};
ghost use Rattle.script_text.specs.Judged.{version_in, seqs_in, shards_in, window_in, clients_in, consumers_in};
ghost use Rattle.script_text.specs.Reading.{script_in, IsRefusedAt, head_in, inputs_in, due_line};
ghost use Rattle.script_text.specs.Answers.{Gives, Reads, placed};

use crate::errors::{LineError, ScriptError};
use crate::head::{
    clients_line, consumers_line, seqs_line, shards_line, version_line, window_line,
};
use crate::inputs::input_line;
use crate::kind::ScriptKind;
use crate::lines::{Line, Lines, text_before};
use msg_wire::{Config, Homes, Inputs};
use quota_table::{Listed, OutOfMemory, Table};
use record_codec::AppKind;
use std::alloc::Global;

/// The number of each input's line, in order, counted from 1 over all lines of the text.
pub type LineNumbers = Listed<u32>;

/// What a text spells.
#[derive(Clone, Debug, Drop, PartialEq)]
pub struct Script {
    pub cfg: Config,
    pub inputs: Inputs,
    /// As many as there are inputs.
    pub lines: LineNumbers,
}

/// Reads a script. A text is refused exactly where one of its lines is, with the first such line and the first kind that
/// fits it. Its lines are gone through once.
pub fn read_script(alloc: Global, text: &[u8]) -> Result<Script, ScriptError>
    requires { length text.now ≤ 16777216 }
    // What is read is what the text spells.
    ensures found { IfOk result (λ s. SpellsScript text.now s.cfg s.inputs s.lines) }
    // What the text spells is read, unless memory runs out.
    ensures only { (c : Config) (inputs : List Input) (numbers : List ℕ) → SpellsScript text.now c inputs numbers → Reads c inputs numbers result }
    // Which line is refused, and why.
    ensures exact { Gives (λ s. (s.cfg, s.inputs)) result (script_in text.now) }
{
    whole_script(alloc, text)
}

/// The script of the lines before the one at which `read_script` refuses a text, where the head stands before it.
pub fn read_before(alloc: Global, text: &[u8], line: u32) -> Result<Script, OutOfMemory>
    requires size { length text.now ≤ 16777216 }
    requires refused { IsRefusedAt line text.now }
    requires head { 6 ≤ length (lines_before line text.now) }
    // What is read is what the lines before spell.
    ensures { IfOk result (λ s. SpellsLines (lines_before line text.now) s.cfg s.inputs s.lines) }
{
    match read_script(alloc, text_before(text, line)) {
        Ok(script) => Ok(script),
        Err(ScriptError::OutOfMemory) => Err(OutOfMemory),
        Err(ScriptError::At { .. }) => unreachable!(),
        Err(ScriptError::TooLong { .. }) => unreachable!(),
    }
}

/// Whether six lines that count, as many as a head has, stand before a line. It takes no memory.
#[tactic(auto, unfolding(crate::specs::Lines::left_of))]
pub fn has_head_before(text: &[u8], line: u32) -> bool
    requires { length text.now ≤ 16777216 }
    ensures { IsTrue result ↔ (6 ≤ length (lines_before line text.now)) }
{
    has_six_lines(text_before(text, line))
}

fn has_six_lines(text: &[u8]) -> bool
    requires { length text.now ≤ 16777216 }
    ensures { IsTrue result ↔ (6 ≤ length (counted_lines text.now)) }
{
    let mut lines = Lines::new(text);
    for _count in 0..6u8 {
        if lines.next().is_none() {
            return false;
        }
    }
    true
}

#[tactic(auto, unfolding(crate::specs::Reading::lines_in))]
fn whole_script(alloc: Global, text: &[u8]) -> Result<Script, ScriptError>
    requires { length text.now ≤ 16777216 }
    ensures exact { Gives (λ s. (s.cfg, s.inputs)) result (script_in text.now) }
    ensures numbers { IfOk result (λ s. s.lines ≡ numbers_of (drop 6 (counted_lines text.now))) }
{
    let mut lines = Lines::new(text);
    let cfg = read_head(alloc, &mut lines, b"belfast")?;
    let (inputs, numbers) = read_inputs(alloc, &cfg, &mut lines)?;
    Ok(Script {
        cfg,
        inputs,
        lines: numbers,
    })
}

/// The cluster that the six lines of its head spell, of which the first begins with the due word.
pub(crate) fn read_head(
    alloc: Global,
    lines: &mut Lines<'_>,
    word: &[u8],
) -> Result<Config, ScriptError>
    ensures head { Gives (λ cfg. (cfg, left_of lines.new)) result (head_in word.now (end_of lines.old) (left_of lines.old)) }
    ensures end { end_of lines.new ≡ end_of lines.old }
    ensures valid { IfOk result IsValidConfig }
    ensures rest { IfOk result (λ _. left_of lines.new ≡ drop 6 (left_of lines.old)) }
{
    six_lines(alloc, lines, word)
}

#[tactic(auto, unfolding(crate::specs::Reading::head_in))]
fn six_lines(alloc: Global, lines: &mut Lines<'_>, word: &[u8]) -> Result<Config, ScriptError>
    ensures head { Gives (λ cfg. (cfg, left_of lines.new)) result (head_in word.now (end_of lines.old) (left_of lines.old)) }
    ensures end { end_of lines.new ≡ end_of lines.old }
{
    due_version(lines, word)?;
    let seqs = due_seqs(lines)?;
    let shards = due_shards(lines)?;
    let (rounds, table) = due_window(alloc, lines, shards)?;
    let homes = due_clients(alloc, lines, &table)?;
    let (consumers, app) = due_consumers(lines)?;
    Ok(Config {
        seqs,
        shards,
        rounds,
        table,
        homes,
        consumers,
        app,
    })
}

fn due_version(lines: &mut Lines<'_>, word: &[u8]) -> Result<u8, ScriptError>
    ensures line { Gives (λ x. (x, left_of lines.new)) result (due_line (end_of lines.old) (version_in word.now) (left_of lines.old)) }
    ensures end { end_of lines.new ≡ end_of lines.old }
{
    let line = due(lines)?;
    at(line.number, version_line(line.bytes, word))
}

fn due_seqs(lines: &mut Lines<'_>) -> Result<u8, ScriptError>
    ensures line { Gives (λ x. (x, left_of lines.new)) result (due_line (end_of lines.old) seqs_in (left_of lines.old)) }
    ensures end { end_of lines.new ≡ end_of lines.old }
{
    let line = due(lines)?;
    at(line.number, seqs_line(line.bytes))
}

fn due_shards(lines: &mut Lines<'_>) -> Result<u8, ScriptError>
    ensures line { Gives (λ x. (x, left_of lines.new)) result (due_line (end_of lines.old) shards_in (left_of lines.old)) }
    ensures end { end_of lines.new ≡ end_of lines.old }
{
    let line = due(lines)?;
    at(line.number, shards_line(line.bytes))
}

fn due_window(alloc: Global, lines: &mut Lines<'_>, shards: u8) -> Result<(u16, Table), ScriptError>
    ensures line { Gives (λ x. (x, left_of lines.new)) result (due_line (end_of lines.old) (window_in shards) (left_of lines.old)) }
    ensures end { end_of lines.new ≡ end_of lines.old }
{
    let line = due(lines)?;
    at(line.number, window_line(alloc, line.bytes, shards))
}

fn due_clients(alloc: Global, lines: &mut Lines<'_>, table: &Table) -> Result<Homes, ScriptError>
    ensures line { Gives (λ x. (x, left_of lines.new)) result (due_line (end_of lines.old) (clients_in table.now) (left_of lines.old)) }
    ensures end { end_of lines.new ≡ end_of lines.old }
{
    let line = due(lines)?;
    at(line.number, clients_line(alloc, line.bytes, table))
}

fn due_consumers(lines: &mut Lines<'_>) -> Result<(u8, AppKind), ScriptError>
    ensures line { Gives (λ x. (x, left_of lines.new)) result (due_line (end_of lines.old) consumers_in (left_of lines.old)) }
    ensures end { end_of lines.new ≡ end_of lines.old }
{
    let line = due(lines)?;
    at(line.number, consumers_line(line.bytes))
}

/// The next line of a head. Where none is left, the line after the text's last one is refused.
pub(crate) fn due<'a>(lines: &mut Lines<'a>) -> Result<Line<'a>, ScriptError>
    ensures line { MatchResult result
        (λ l. left_of lines.old ≡ record { number = l.number; bytes = l.bytes.now } ∷ left_of lines.new)
        (λ e. (left_of lines.old ≡ []) × (e ≡ ScriptError.At (end_of lines.old) ScriptKind.Header)) }
    ensures end { end_of lines.new ≡ end_of lines.old }
{
    match lines.next() {
        Some(line) => Ok(line),
        None => Err(ScriptError::At {
            line: lines.number(),
            kind: ScriptKind::Header,
        }),
    }
}

/// What was read of a line, with the line's number at an error.
pub(crate) fn at<T>(number: u32, judged: Result<T, LineError>) -> Result<T, ScriptError>
    ensures ok { IfOk judged (λ x. result ≡ Ok x) }
    ensures err { IfErr judged (λ e. result ≡ Err (placed number e)) }
{
    match judged {
        Ok(value) => Ok(value),
        Err(LineError::Refused(kind)) => Err(ScriptError::At { line: number, kind }),
        Err(LineError::OutOfMemory) => Err(ScriptError::OutOfMemory),
    }
}

/// The inputs of the lines that are left, and the number of each line.
fn read_inputs(
    alloc: Global,
    cfg: &Config,
    lines: &mut Lines<'_>,
) -> Result<(Inputs, LineNumbers), ScriptError>
    requires { IsValidConfig cfg.now }
    ensures inputs { Gives (λ read. read.0) result (inputs_in cfg.now (left_of lines.old)) }
    ensures numbers { IfOk result (λ read. read.1 ≡ numbers_of (left_of lines.old)) }
{
    let mut inputs = Listed::new(alloc);
    let mut numbers = Listed::new(alloc);
    let plain = lines.are_plain();
    while let Some(line) = lines.next() {
        inputs.push(at(line.number, input_line(alloc, cfg, line.bytes, plain))?)?;
        numbers.push(line.number)?;
    }
    Ok((inputs, numbers))
}
