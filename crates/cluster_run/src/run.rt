//! A run of a plan.
ghost use Rattle.std.specs.Prelude.{◌≡◌, ℕ, List, IfOk, IfErr, OnOk, OnErr, IsTrue, length};
ghost use Rattle.msg_wire.specs.Nodes.{nodes_of};
ghost use Rattle.msg_wire.specs.Valid.{IsValidConfig, IsValidPlan};
ghost use Rattle.net_model.specs.Pasts.{past_of};
ghost use Rattle.runs.specs.Laws.{IsRun, IsSafe, CutsAreTrue, IsEager};
ghost use Rattle.shelf_vaults.specs.Sights.{sight, AllTell, AreOn, IsNameOfNone};
ghost use Rattle.cluster_run.specs.Answers.{AllHaveEntries, IsRunFault, LeavesEntries};
ghost use Rattle.cluster_run.specs.Beginning.{AreNodesOf, AreUsersOf, HaveRoom};
ghost use Rattle.cluster_run.specs.Running.{MakeRuns, consumers_in};

use crate::errors::RunError;
use crate::ready::{Nodes, Rooms, Users, nodes_for, rooms_for, users_for};
use crate::record::RunRecord;
use crate::running::{Ran, run_nodes};
use cluster_users::{Gate, Looks};
use msg_wire::{Config, Plan};
use net_model::{History, Journal, NodeModel, merge};
use node_order::nodes_in_order;
use node_runs::laws::seated_nodes_are_a_run;
use quota_table::OutOfMemory;
use shelf_vaults::{format_all, give_back};
use spec_base::{NodeId, Shelf};
use std::alloc::Global;
use std::sync::Wait;
use std::thread::Threads;
use world::AnyNode;

/// Runs a plan: its nodes, readers and submitters take their turns as threads, episode by episode, on vaults that are made on the shelf's
/// disks of the nodes' names. What they did is one history: a run of the plan's cluster, safe, with true cuts, and eager.
///
/// `ShelfFault` comes only where calls for that name's disk failed twice, one after the other. The answer comes once all disks lie on the
/// shelf again. Where vaults were made, each disk's file stands for entries that decode. It may wait.
pub fn run_cluster<R: Threads + Wait + Sync, H: Shelf, G: Gate + Sync>(
    rt: &R,
    alloc: Global,
    plan: &Plan,
    shelf: &mut H,
    gate: &G,
) -> Result<RunRecord, RunError>
    requires valid { IsValidPlan plan.now }
    requires tells { IsTrue (H.tells shelf.old) }
    requires on_shelf { AreOn (sight H.faults H.in_a_row H.is_out H.given H.kept shelf.old) (nodes_of plan.now.cfg) }
    requires told { AllTell H.D.seen (sight H.faults H.in_a_row H.is_out H.given H.kept shelf.old) (nodes_of plan.now.cfg) }
    ensures run { IfOk result (λ made. IsRun plan.now.cfg made.history) }
    ensures safe { IfOk result (λ made. IsSafe plan.now.cfg (past_of made.history)) }
    ensures true_cuts { IfOk result (λ made. CutsAreTrue plan.now.cfg (past_of made.history)) }
    ensures eager { IfOk result (λ made. IsEager plan.now.cfg (past_of made.history)) }
    ensures looks { IfOk result (λ made. consumers_in made.looks.items ≡ plan.now.readers) }
    ensures others { (name : List ℕ) → IsNameOfNone (nodes_of plan.now.cfg) name → sight H.faults H.in_a_row H.is_out H.given H.kept shelf.new name
        ≡ sight H.faults H.in_a_row H.is_out H.given H.kept shelf.old name }
    ensures tells { H.tells shelf.new ≡ H.tells shelf.old }
    ensures back { AreOn (sight H.faults H.in_a_row H.is_out H.given H.kept shelf.new) (nodes_of plan.now.cfg) }
    ensures stored { OnOk result (AllHaveEntries H.D.seen (nodes_of plan.now.cfg) (sight H.faults H.in_a_row H.is_out H.given H.kept shelf.new)) }
    ensures leaves { OnErr result (LeavesEntries H.D.seen (nodes_of plan.now.cfg) (sight H.faults H.in_a_row H.is_out H.given H.kept shelf.old)
        (sight H.faults H.in_a_row H.is_out H.given H.kept shelf.new)) }
    ensures fault { IfErr result (IsRunFault H.D.faults (nodes_of plan.now.cfg) (sight H.faults H.in_a_row H.is_out H.given H.kept shelf.old)
        (sight H.faults H.in_a_row H.is_out H.given H.kept shelf.new)) }
{
    let names = nodes_in_order(alloc, &plan.cfg)?;
    let nodes = nodes_for(alloc, plan, names.as_slice())?;
    let users = users_for(rt, alloc, plan)?;
    let rooms = rooms_for(alloc, plan, names.len())?;
    let went = run_on_shelf(
        rt,
        alloc,
        plan,
        gate,
        names.as_slice(),
        nodes,
        users,
        rooms,
        shelf,
    )?;
    let Went {
        journals,
        looks,
        quiet,
    } = went;
    let history = history_of(alloc, &plan.cfg, journals.as_slice())?;
    Ok(RunRecord {
        history,
        looks,
        quiet,
    })
}

/// A run whose nodes all went on to its end.
#[derive(Drop)]
struct Went {
    journals: Vec<Journal>,
    looks: Vec<Looks>,
    quiet: bool,
}

/// Runs what is ready on vaults that are made on the shelf's disks, and gives the disks back.
fn run_on_shelf<R, H, P, G>(
    rt: &R,
    alloc: Global,
    plan: &Plan,
    gate: &G,
    names: &[NodeId],
    nodes: Nodes,
    users: Users<P>,
    rooms: Rooms<H::D, P>,
    shelf: &mut H,
) -> Result<Went, RunError>
where
    R: Threads + Wait + Sync,
    H: Shelf,
    P: Wait + Drop + Send,
    G: Gate + Sync,
    requires valid { IsValidPlan plan.now }
    requires names { names.now ≡ nodes_of plan.now.cfg }
    requires nodes { AreNodesOf ⟦<AnyNode as NodeModel>⟧ plan.now nodes }
    requires users { AreUsersOf plan.now users }
    requires rooms { HaveRoom (length (nodes_of plan.now.cfg)) (length plan.now.readers) (length plan.now.submitters) rooms }
    requires tells { IsTrue (H.tells shelf.old) }
    requires on_shelf { AreOn (sight H.faults H.in_a_row H.is_out H.given H.kept shelf.old) (nodes_of plan.now.cfg) }
    requires told { AllTell H.D.seen (sight H.faults H.in_a_row H.is_out H.given H.kept shelf.old) (nodes_of plan.now.cfg) }
    ensures journals { IfOk result (λ went. MakeRuns plan.now.cfg went.journals.items) }
    ensures looks { IfOk result (λ went. consumers_in went.looks.items ≡ plan.now.readers) }
    ensures others { (name : List ℕ) → IsNameOfNone (nodes_of plan.now.cfg) name → sight H.faults H.in_a_row H.is_out H.given H.kept shelf.new name
        ≡ sight H.faults H.in_a_row H.is_out H.given H.kept shelf.old name }
    ensures tells { H.tells shelf.new ≡ H.tells shelf.old }
    ensures back { AreOn (sight H.faults H.in_a_row H.is_out H.given H.kept shelf.new) (nodes_of plan.now.cfg) }
    ensures stored { OnOk result (AllHaveEntries H.D.seen (nodes_of plan.now.cfg) (sight H.faults H.in_a_row H.is_out H.given H.kept shelf.new)) }
    ensures leaves { OnErr result (LeavesEntries H.D.seen (nodes_of plan.now.cfg) (sight H.faults H.in_a_row H.is_out H.given H.kept shelf.old)
        (sight H.faults H.in_a_row H.is_out H.given H.kept shelf.new)) }
    ensures fault { IfErr result (IsRunFault H.D.faults (nodes_of plan.now.cfg) (sight H.faults H.in_a_row H.is_out H.given H.kept shelf.old)
        (sight H.faults H.in_a_row H.is_out H.given H.kept shelf.new)) }
{
    let vaults = format_all(alloc, shelf, names)?;
    let ran = run_nodes(rt, alloc, plan, gate, nodes, users, rooms, vaults);
    let Ran {
        journals,
        disks,
        looks,
        quiet,
        stop,
    } = ran;
    give_back(shelf, names, disks);
    seated_nodes_are_a_run::<H::D>();
    match stop {
        Some(error) => Err(error),
        None => Ok(Went {
            journals,
            looks,
            quiet,
        }),
    }
}

/// The history of these journals.
fn history_of(alloc: Global, cfg: &Config, journals: &[Journal]) -> Result<History, OutOfMemory>
    requires valid { IsValidConfig cfg.now }
    requires runs { MakeRuns cfg.now journals.now }
    ensures run { IfOk result (IsRun cfg.now) }
    ensures safe { IfOk result (λ history. IsSafe cfg.now (past_of history)) }
    ensures true_cuts { IfOk result (λ history. CutsAreTrue cfg.now (past_of history)) }
    ensures eager { IfOk result (λ history. IsEager cfg.now (past_of history)) }
{
    let history = merge(alloc, journals)?;
    world::laws(cfg, &history);
    Ok(history)
}
