//! The lines of a plan's head after those of its cluster.

ghost use Rattle.std.specs.Prelude.{◌≡◌, ◌+◌, ◌≤◌, length, IfOk};
ghost use Rattle.script_text.specs.Words.{words_of};
ghost use Rattle.script_text.specs.Judged.{each, number_below};
ghost use Rattle.script_text.specs.JudgedPlans.{few_of, readers_in, submitters_in, percent_in, whole_of, faults_of, faults_in, limits_in};
ghost use Rattle.script_text.specs.Answers.{Says};

use crate::decimal::{number_below, number_within};
use crate::errors::LineError;
use crate::head::count_words;
use crate::kind::ScriptKind;
use crate::words::{after_due, both_words, first_word, next_word};
use msg_wire::Homes;
use quota_table::Listed;
use std::alloc::Global;

/// The most readers, and the most submitters.
const MOST_OF_A_KIND: usize = 8;

/// The greatest seed.
const MOST_SEED: u64 = 4_294_967_295;

/// The greatest limit of the drain.
const MOST_LIMIT: u64 = 200_000;

/// The greatest number of times that every node ticks in the drain.
const MOST_SETTLE: u64 = 10_000;

/// What the line of faults says: a seed, and four percentages.
#[derive(Clone, Copy)]
pub(crate) struct Faults {
    pub seed: u32,
    pub lose: u8,
    pub repeat: u8,
    pub late: u8,
    pub cut: u8,
}

/// `readers k ..`: the consumer of each reader.
#[tactic(auto, unfolding(crate::specs::JudgedPlans::readers_in))]
pub(crate) fn readers_line(alloc: Global, line: &[u8], consumers: u8) -> Result<Homes, LineError>
    ensures judged { Says result (readers_in consumers line.now) }
    ensures few { IfOk result (λ readers. length readers ≤ 8) }
{
    let rest = after_due(line, b"readers")?;
    few(alloc, rest, consumers)
}

/// At most eight numbers, each below a limit.
#[tactic(auto, unfolding(crate::specs::JudgedPlans::few_of))]
fn few(alloc: Global, rest: &[u8], limit: u8) -> Result<Homes, LineError>
    ensures judged { Says result (few_of limit (words_of rest.now)) }
    ensures few { IfOk result (λ numbers. length numbers ≤ 8) }
{
    if count_words(rest) > MOST_OF_A_KIND {
        return Err(LineError::Refused(ScriptKind::Word));
    }
    each_below(alloc, rest, limit)
}

/// `submitters c ..`: the client of each submitter.
#[tactic(auto, unfolding(crate::specs::JudgedPlans::submitters_in))]
pub(crate) fn submitters_line(alloc: Global, line: &[u8], clients: u8) -> Result<Homes, LineError>
    ensures judged { Says result (submitters_in clients line.now) }
    ensures few { IfOk result (λ submitters. length submitters ≤ 8) }
{
    let rest = after_due(line, b"submitters")?;
    few(alloc, rest, clients)
}

fn each_below(alloc: Global, line: &[u8], limit: u8) -> Result<Homes, LineError>
    ensures judged { Says result (each (number_below limit) (words_of line.now)) }
    ensures size { IfOk result (λ numbers. length numbers ≡ length (words_of line.now)) }
{
    let mut numbers = Listed::new(alloc);
    let mut left = line;
    while let Some((word, rest)) = next_word(left) {
        numbers.push(number_below(word, u64::from(limit))? as u8)?;
        left = rest;
    }
    Ok(numbers)
}

/// `faults SEED LOSE REPEAT LATE CUT`.
#[tactic(auto, unfolding(crate::specs::JudgedPlans::faults_in))]
pub(crate) fn faults_line(line: &[u8]) -> Result<Faults, LineError>
    ensures { Says result (faults_in line.now) }
{
    let rest = after_due(line, b"faults")?;
    Ok(seed_and_percentages(rest)?)
}

/// A seed and four percentages, word by word, and at last the percentages together.
#[tactic(auto, unfolding(crate::specs::JudgedPlans::faults_of))]
fn seed_and_percentages(rest: &[u8]) -> Result<Faults, ScriptKind>
    ensures { result ≡ faults_of (words_of rest.now) }
{
    let (seed, rest) = first_word(rest)?;
    let (lose, rest) = first_word(rest)?;
    let (repeat, rest) = first_word(rest)?;
    let (late, cut) = both_words(rest)?;
    let seed = number_within(seed, 0, MOST_SEED)?;
    let lose = percentage(lose)?;
    let repeat = percentage(repeat)?;
    let late = percentage(late)?;
    let cut = percentage(cut)?;
    whole(Faults {
        seed: seed as u32,
        lose,
        repeat,
        late,
        cut,
    })
}

/// The four percentages are 100 together at most.
fn whole(faults: Faults) -> Result<Faults, ScriptKind>
    ensures { result ≡ whole_of faults }
{
    if percentages(&faults) > 100 {
        return Err(ScriptKind::Range);
    }
    Ok(faults)
}

/// A percentage by itself.
#[tactic(auto, unfolding(crate::specs::JudgedPlans::percent_in))]
fn percentage(word: &[u8]) -> Result<u8, ScriptKind>
    ensures judged { result ≡ percent_in word.now }
    ensures most { IfOk result (λ percent. percent ≤ 100) }
{
    Ok(number_within(word, 0, 100)? as u8)
}

/// The four percentages together.
fn percentages(faults: &Faults) -> u16
    ensures { result ≡ faults.now.lose + faults.now.repeat + faults.now.late + faults.now.cut }
{
    u16::from(faults.lose)
        + u16::from(faults.repeat)
        + u16::from(faults.late)
        + u16::from(faults.cut)
}

/// `drain LIMIT SETTLE`: the most inputs of the drain, and how often every node ticks in it.
#[tactic(auto, unfolding(crate::specs::JudgedPlans::limits_in))]
pub(crate) fn limits_line(line: &[u8]) -> Result<(u32, u32), LineError>
    ensures { Says result (limits_in line.now) }
{
    let rest = after_due(line, b"drain")?;
    let (limit, settle) = both_words(rest)?;
    let limit = number_within(limit, 0, MOST_LIMIT)?;
    let settle = number_within(settle, 0, MOST_SETTLE)?;
    Ok((limit as u32, settle as u32))
}
