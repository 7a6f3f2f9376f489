//! Plans of the cluster of tests.

ghost use Rattle.std.specs.Prelude.{◌≡◌, ◌≤◌, ◌+◌, ◌∷◌, [], IfOk, IfSome, IsTrue};
ghost use Rattle.std.specs.List.{AllByRecursion};
ghost use Rattle.msg_wire.specs.Valid.{IsValidConfig, IsValidLine, IsValidPlan, lines_entries, line_entries, node_count};

use life_tables::clusters::SINGLE;
use msg_wire::{Command, Homes, Plan, PlanLine, PlanLines, is_node_of};
use quota_table::OutOfMemory;
use spec_base::NodeId;
use std::alloc::Global;
use std::test::Fail;

/// A plan with one reader, two submitters of the client and these lines.
pub(super) fn plan_of(alloc: Global, lines: PlanLines, limit: u32) -> Result<Plan, Fail>
    ensures valid { IfOk result IsValidPlan }
    ensures readers { IfOk result (λ plan. plan.readers ≡ 0 ∷ []) }
    ensures submitters { IfOk result (λ plan. plan.submitters ≡ 0 ∷ 0 ∷ []) }
{
    let plan = Plan {
        cfg: SINGLE.config(alloc)?,
        readers: one(alloc)?,
        submitters: two(alloc)?,
        seed: 1,
        lose: 0,
        repeat: 0,
        late: 0,
        cut: 0,
        limit,
        settle: 0,
        lines,
    };
    if !are_valid(&plan, plan.lines.as_slice()) || !are_few(&plan) {
        return Err(Fail::new("no such lines"));
    }
    Ok(plan)
}

fn one(alloc: Global) -> Result<Homes, OutOfMemory>
    ensures { IfOk result (λ all. all ≡ 0 ∷ []) }
{
    let mut all = Homes::new(alloc);
    all.push(0)?;
    Ok(all)
}

fn two(alloc: Global) -> Result<Homes, OutOfMemory>
    ensures { IfOk result (λ all. all ≡ 0 ∷ 0 ∷ []) }
{
    let mut all = one(alloc)?;
    all.push(0)?;
    Ok(all)
}

/// How many nodes the plan's cluster has.
fn nodes_of(plan: &Plan) -> u64
    requires { IsValidConfig plan.now.cfg }
    ensures { result ≡ node_count plan.now.cfg }
{
    let cfg = &plan.cfg;
    u64::from(cfg.seqs)
        + 2 * u64::from(cfg.shards)
        + cfg.homes.len() as u64
        + u64::from(cfg.consumers)
}

/// How many entries lines may bring, at so many nodes; None where the count has no room.
fn entries(nodes: u64, lines: &[PlanLine]) -> Option<u64>
    ensures { IfSome result (λ count. count ≡ lines_entries nodes lines.now) }
{
    match lines {
        [] => Some(0),
        [line, rest @ ..] => {
            let first = line_entries(nodes, line)?;
            first.checked_add(entries(nodes, rest)?)
        }
    }
}

fn line_entries(nodes: u64, line: &PlanLine) -> Option<u64>
    ensures { IfSome result (λ count. count ≡ line_entries nodes line.now) }
{
    match line {
        PlanLine::Submit { by: _, body: _ } => Some(0),
        PlanLine::Episode { turns } => nodes.checked_mul(u64::from(*turns)),
        _ => Some(1),
    }
}

/// Whether the plan brings few entries.
fn are_few(plan: &Plan) -> bool
    requires { IsValidConfig plan.now.cfg }
    ensures { IsTrue result → plan.now.limit + lines_entries (node_count plan.now.cfg) plan.now.lines ≤ 200000 }
{
    match entries(nodes_of(plan), plan.lines.as_slice()) {
        Some(count) => count <= 100_000 && plan.limit <= 100_000,
        None => false,
    }
}

/// Whether these lines can be of a plan.
fn are_valid(plan: &Plan, lines: &[PlanLine]) -> bool
    ensures { IsTrue result → AllByRecursion (IsValidLine plan.now) lines.now }
{
    match lines {
        [] => true,
        [line, rest @ ..] => is_valid(plan, line) && are_valid(plan, rest),
    }
}

fn is_valid(plan: &Plan, line: &PlanLine) -> bool
    ensures { IsTrue result → IsValidLine plan.now line.now }
{
    match line {
        PlanLine::Submit { by: _, body: _ } => false,
        PlanLine::Episode { turns } => 1 <= *turns && *turns <= 2000,
        PlanLine::Restart { node } => is_node_of(&plan.cfg, *node),
        PlanLine::Command {
            node: NodeId::Seq(number),
            command: Command::Remove { shard },
        } => *number < plan.cfg.seqs && *shard < plan.cfg.shards,
        PlanLine::Command {
            node: _,
            command: _,
        } => false,
    }
}

/// The lines of a text: an episode of as many turns as a digit says, a restart of the sequencer, the client or the consumer, or a command.
pub(super) fn lines_of(alloc: Global, text: &[u8]) -> Result<PlanLines, OutOfMemory> {
    let mut lines = PlanLines::new(alloc);
    for letter in text {
        lines.push(line_of(*letter))?;
    }
    Ok(lines)
}

fn line_of(letter: u8) -> PlanLine {
    match letter {
        b's' => PlanLine::Restart {
            node: NodeId::Seq(0),
        },
        b'c' => PlanLine::Restart {
            node: NodeId::Client(0),
        },
        b'v' => PlanLine::Restart {
            node: NodeId::Consumer(0),
        },
        b'x' => PlanLine::Command {
            node: NodeId::Seq(0),
            command: Command::Remove { shard: 0 },
        },
        digit => PlanLine::Episode {
            turns: u32::from(digit.saturating_sub(b'0')),
        },
    }
}
