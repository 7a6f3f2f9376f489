//! The lines after the head of a plan.

ghost use Rattle.std.specs.Prelude.{◌≡◌, ◌≤◌, ◌∷◌, drop, length, IsTrue, IfOk};
ghost use Rattle.msg_wire.specs.Valid.{IsValidConfig};
ghost use Rattle.script_text.specs.Words.{is_printable, words_of, after_word};
ghost use Rattle.script_text.specs.JudgedPlans.{HasFewTurns, episode_of, plan_form_of, plan_line_in};
ghost use Rattle.script_text.specs.Answers.{Says};

use crate::decimal::number_within;
use crate::errors::LineError;
use crate::inputs::{only_node, remove, submit, table};
use crate::kind::ScriptKind;
use crate::words::{is_printable, next_word, only_word};
use msg_wire::{Config, Plan, PlanLine};
use std::alloc::Global;

/// What a line says, of a plan whose head is known. With `plain` the line is known to be printable.
#[tactic(auto, unfolding(crate::specs::JudgedPlans::plan_line_in))]
pub(crate) fn plan_line(
    alloc: Global,
    plan: &Plan,
    line: &[u8],
    plain: bool,
) -> Result<PlanLine, LineError>
    requires valid { IsValidConfig plan.now.cfg }
    requires few { length plan.now.submitters ≤ 8 }
    requires plain { IsTrue plain → IsTrue (is_printable line.now) }
    ensures judged { Says result (plan_line_in plan.now line.now) }
    ensures turns { IfOk result HasFewTurns }
{
    if !plain && !is_printable(line) {
        return Err(LineError::Refused(ScriptKind::Byte));
    }
    match next_word(line) {
        Some((word, rest)) => form(alloc, &plan.cfg, plan.submitters.len(), word, rest),
        None => Err(LineError::Refused(ScriptKind::Word)),
    }
}

/// By the first word, and what follows it.
#[tactic(auto, unfolding(crate::specs::Judged::of_node))]
fn form(
    alloc: Global,
    cfg: &Config,
    submitters: usize,
    word: &[u8],
    rest: &[u8],
) -> Result<PlanLine, LineError>
    requires valid { IsValidConfig cfg.now }
    requires few { submitters ≤ 8 }
    ensures judged { Says result (plan_form_of cfg.now submitters (drop 1 (after_word rest.now)) (word.now ∷ words_of rest.now)) }
    ensures turns { IfOk result HasFewTurns }
{
    if word == b"submit".as_slice() {
        let (by, body) = submit(alloc, submitters, rest)?;
        return Ok(PlanLine::Submit { by, body });
    }
    if word == b"episode".as_slice() {
        return Ok(episode(rest)?);
    }
    if word == b"restart".as_slice() {
        return Ok(PlanLine::Restart {
            node: only_node(cfg, rest)?,
        });
    }
    if word == b"table".as_slice() {
        let (node, command) = table(alloc, cfg, rest)?;
        return Ok(PlanLine::Command { node, command });
    }
    if word == b"remove".as_slice() {
        let (node, command) = remove(cfg, rest)?;
        return Ok(PlanLine::Command { node, command });
    }
    Err(LineError::Refused(ScriptKind::Word))
}

/// The most turns of an episode.
const MOST_TURNS: u64 = 2_000;

/// `episode TURNS`.
#[tactic(auto, unfolding(crate::specs::JudgedPlans::episode_of))]
fn episode(rest: &[u8]) -> Result<PlanLine, ScriptKind>
    ensures judged { result ≡ episode_of (words_of rest.now) }
    ensures turns { IfOk result HasFewTurns }
{
    let word = only_word(rest)?;
    let turns = number_within(word, 1, MOST_TURNS)?;
    Ok(PlanLine::Episode {
        turns: turns as u32,
    })
}
