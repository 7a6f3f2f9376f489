//! Whole plans.

ghost use Rattle.std.specs.Prelude.{◌≡◌, ◌≤◌, length, IfOk};
ghost use Rattle.msg_wire.specs.Valid.{IsValidConfig, node_count, line_entries};
ghost use Rattle.script_text.specs.Names.{Plan};
ghost use Rattle.script_text.specs.Lines.{left_of, end_of};
ghost use Rattle.script_text.specs.Plans.{SpellsPlan};
ghost use Rattle.script_text.specs.Reading.{due_line};
ghost use Rattle.script_text.specs.JudgedPlans.{HasFewTurns, readers_in, submitters_in, faults_in, limits_in};
ghost use Rattle.script_text.specs.ReadingPlans.{plan_head_in, within_limit, plan_lines_in, plan_in, Answers, ReadsPlan};
ghost use Rattle.script_text.specs.Answers.{Gives};

use crate::errors::ScriptError;
use crate::lines::Lines;
use crate::plan_head::{Faults, faults_line, limits_line, readers_line, submitters_line};
use crate::plan_lines::plan_line;
use crate::script::{at, due, read_head};
use msg_wire::{Config, Homes, Plan, PlanLine, PlanLines};
use quota_table::Listed;
use std::alloc::Global;

/// The most entries that a plan may bring.
const MOST_ENTRIES: u32 = 200_000;

/// Reads a plan. A text is refused exactly where one of its lines is, with the first such line. Of a line the grammar is judged
/// first, by the first kind that fits it; `TooLong` is the answer at the first line with which the limit of the drain, the turns
/// of all nodes in all episodes so far, and the other lines so far that are no `submit` are above 200,000 together. Its lines are
/// gone through once.
pub fn read_plan(alloc: Global, text: &[u8]) -> Result<Plan, ScriptError>
    requires { length text.now ≤ 16777216 }
    // What is read is what the text spells.
    ensures found { IfOk result (λ plan. SpellsPlan text.now plan) }
    // What the text spells is read, unless memory runs out.
    ensures only { (p : Plan) → SpellsPlan text.now p → ReadsPlan p result }
    // Which line is refused, and why.
    ensures exact { Answers (λ plan. plan) result (plan_in text.now) }
{
    whole_plan(alloc, text)
}

#[tactic(auto, unfolding(crate::specs::ReadingPlans::whole_plan_in))]
fn whole_plan(alloc: Global, text: &[u8]) -> Result<Plan, ScriptError>
    requires { length text.now ≤ 16777216 }
    ensures { Answers (λ plan. plan) result (plan_in text.now) }
{
    let mut lines = Lines::new(text);
    let mut plan = read_plan_head(alloc, &mut lines)?;
    plan.lines = read_lines(alloc, &plan, &mut lines)?;
    Ok(plan)
}

/// The plan without lines that the ten lines of the head spell.
fn read_plan_head(alloc: Global, lines: &mut Lines<'_>) -> Result<Plan, ScriptError>
    ensures head { Gives (λ plan. (plan, left_of lines.new)) result (plan_head_in (end_of lines.old) (left_of lines.old)) }
    ensures valid { IfOk result (λ plan. IsValidConfig plan.cfg) }
    ensures few { IfOk result (λ plan. length plan.submitters ≤ 8) }
    ensures limit { IfOk result (λ plan. plan.limit ≤ 200000) }
{
    ten_lines(alloc, lines)
}

#[tactic(auto, unfolding(crate::specs::ReadingPlans::plan_head_in))]
fn ten_lines(alloc: Global, lines: &mut Lines<'_>) -> Result<Plan, ScriptError>
    ensures { Gives (λ plan. (plan, left_of lines.new)) result (plan_head_in (end_of lines.old) (left_of lines.old)) }
{
    let cfg = read_head(alloc, lines, b"belfast-plan")?;
    let readers = due_readers(alloc, lines, cfg.consumers)?;
    let submitters = due_submitters(alloc, lines, cfg.homes.len() as u8)?;
    let faults = due_faults(lines)?;
    let (limit, settle) = due_limits(lines)?;
    Ok(Plan {
        cfg,
        readers,
        submitters,
        seed: faults.seed,
        lose: faults.lose,
        repeat: faults.repeat,
        late: faults.late,
        cut: faults.cut,
        limit,
        settle,
        lines: Listed::new(alloc),
    })
}

fn due_readers(alloc: Global, lines: &mut Lines<'_>, consumers: u8) -> Result<Homes, ScriptError>
    ensures line { Gives (λ x. (x, left_of lines.new)) result (due_line (end_of lines.old) (readers_in consumers) (left_of lines.old)) }
    ensures end { end_of lines.new ≡ end_of lines.old }
{
    let line = due(lines)?;
    at(line.number, readers_line(alloc, line.bytes, consumers))
}

fn due_submitters(alloc: Global, lines: &mut Lines<'_>, clients: u8) -> Result<Homes, ScriptError>
    ensures line { Gives (λ x. (x, left_of lines.new)) result (due_line (end_of lines.old) (submitters_in clients) (left_of lines.old)) }
    ensures end { end_of lines.new ≡ end_of lines.old }
{
    let line = due(lines)?;
    at(line.number, submitters_line(alloc, line.bytes, clients))
}

fn due_faults(lines: &mut Lines<'_>) -> Result<Faults, ScriptError>
    ensures line { Gives (λ x. (x, left_of lines.new)) result (due_line (end_of lines.old) faults_in (left_of lines.old)) }
    ensures end { end_of lines.new ≡ end_of lines.old }
{
    let line = due(lines)?;
    at(line.number, faults_line(line.bytes))
}

fn due_limits(lines: &mut Lines<'_>) -> Result<(u32, u32), ScriptError>
    ensures line { Gives (λ x. (x, left_of lines.new)) result (due_line (end_of lines.old) limits_in (left_of lines.old)) }
    ensures end { end_of lines.new ≡ end_of lines.old }
{
    let line = due(lines)?;
    at(line.number, limits_line(line.bytes))
}

/// What the lines that are left say, of a plan whose head is known.
fn read_lines(alloc: Global, plan: &Plan, lines: &mut Lines<'_>) -> Result<PlanLines, ScriptError>
    requires valid { IsValidConfig plan.now.cfg }
    requires few { length plan.now.submitters ≤ 8 }
    requires limit { plan.now.limit ≤ 200000 }
    ensures { Answers (λ read. read) result (plan_lines_in plan.now plan.now.limit (left_of lines.old)) }
{
    let mut read = Listed::new(alloc);
    let plain = lines.are_plain();
    let nodes = node_count(&plan.cfg);
    let mut entries = plan.limit;
    while let Some(line) = lines.next() {
        let said = at(line.number, plan_line(alloc, plan, line.bytes, plain))?;
        entries = within_limit(line.number, entries + line_entries(nodes, &said))?;
        read.push(said)?;
    }
    Ok(read)
}

/// How many nodes the cluster has.
fn node_count(cfg: &Config) -> u32
    requires { IsValidConfig cfg.now }
    ensures count { result ≡ node_count cfg.now }
    ensures few { result ≤ 27 }
{
    u32::from(cfg.seqs)
        + 2 * u32::from(cfg.shards)
        + cfg.homes.len() as u32
        + u32::from(cfg.consumers)
}

/// How many entries a line may bring, at so many nodes.
fn line_entries(nodes: u32, line: &PlanLine) -> u32
    requires nodes { nodes ≤ 27 }
    requires turns { HasFewTurns line.now }
    ensures entries { result ≡ line_entries nodes line.now }
    ensures few { result ≤ 54000 }
{
    match line {
        PlanLine::Submit { .. } => 0,
        PlanLine::Episode { turns } => nodes * *turns,
        PlanLine::Restart { .. } | PlanLine::Command { .. } => 1,
    }
}

/// So many entries with this line, where a plan may bring as many.
fn within_limit(line: u32, entries: u32) -> Result<u32, ScriptError>
    ensures limit { result ≡ within_limit line entries }
    ensures within { IfOk result (λ all. all ≤ 200000) }
{
    if entries > MOST_ENTRIES {
        return Err(ScriptError::TooLong { line });
    }
    Ok(entries)
}
