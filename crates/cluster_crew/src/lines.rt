//! The lines of a plan, one after the other: episodes, and what is done between them on the calling thread.
ghost use Rattle.std.specs.Prelude.{◌≡◌, true, IsTrue, IsFalse, OnOk};
ghost use Rattle.msg_wire.specs.Valid.{IsValidConfig, IsValidPlan, IsValidLine};
ghost use Rattle.cluster_crew.specs.Crews.{CanFollow, CanTakeTurns, CrewStays, AreFaultless, NoneStopped, HaveNoEpisode, IsSomewhere, is_episode};

use crate::crew::{Crew, has_stopped, is_wanting};
use cluster_users::{Environment, Gate};
use msg_wire::{Plan, PlanLine};
use net_model::{NodeModel, Viewed};
use quota_table::OutOfMemory;
use scoped_turns::episode;
use spec_base::Disk;
use std::alloc::Global;
use std::sync::Wait;
use std::thread::Threads;
use submit_desk::Desk;

impl<N, D, P> Crew<N, D, P>
where
    N: NodeModel + Viewed + Drop + Send,
    D: Disk + Drop + Send,
    P: Wait + Drop + Send,
{
    /// Does what the lines of a plan say, with the desk of each client at its number. All bodies are with the submitters already.
    ///
    /// It ends after the line at which a node stopped or memory was wanted. Messages have faults until the last episode has ended; with
    /// no episode they have none.
    pub fn follow<R: Threads + Wait + Sync, G: Gate + Sync>(
        self,
        rt: &R,
        alloc: Global,
        plan: &Plan,
        gate: &G,
        desks: &[Desk],
    ) -> (Crew<N, D, P>, Result<(), OutOfMemory>)
        requires valid { IsValidPlan plan.now }
        requires places { CanFollow ⟦<N as NodeModel>⟧ ⟦<D as Disk>⟧ plan.now desks.now self }
        ensures stays { CrewStays ⟦<N as NodeModel>⟧ ⟦<D as Disk>⟧ self result.0 }
        ensures ended { OnOk result.1 (NoneStopped result.0.members.items → AreFaultless result.0.members.items) }
    {
        let lines = plan.lines.as_slice();
        let mut crew = self.begun(lines);
        for place in 0..lines.len() {
            if is_wanting(&crew.members) {
                return (crew, Err(OutOfMemory));
            }
            if has_stopped(&crew.members) {
                return (crew, Ok(()));
            }
            let line = &lines[place];
            let is_last = have_no_episode(&lines[place + 1..]);
            let (next, result) = crew.do_line(rt, alloc, plan, gate, desks, line, is_last);
            crew = next;
            match result {
                Ok(()) => {}
                Err(error) => return (crew, Err(error)),
            }
        }
        if is_wanting(&crew.members) {
            return (crew, Err(OutOfMemory));
        }
        (crew, Ok(()))
    }

    /// With no episode the faults end before the first line.
    fn begun(self, lines: &[PlanLine]) -> Crew<N, D, P>
        requires { IsSomewhere ⟦<N as NodeModel>⟧ ⟦<D as Disk>⟧ self }
        ensures stays { CrewStays ⟦<N as NodeModel>⟧ ⟦<D as Disk>⟧ self result }
        ensures ended { HaveNoEpisode lines.now → AreFaultless result.members.items }
    {
        if have_no_episode(lines) {
            self.without_faults()
        } else {
            self
        }
    }

    /// Does what one line says. `is_last` says whether no later line is an episode.
    fn do_line<R: Threads + Wait + Sync, G: Gate + Sync>(
        self,
        rt: &R,
        alloc: Global,
        plan: &Plan,
        gate: &G,
        desks: &[Desk],
        line: &PlanLine,
        is_last: bool,
    ) -> (Crew<N, D, P>, Result<(), OutOfMemory>)
        requires places { CanFollow ⟦<N as NodeModel>⟧ ⟦<D as Disk>⟧ plan.now desks.now self }
        requires cfg { IsValidConfig plan.now.cfg }
        requires valid { IsValidLine plan.now line.now }
        ensures stays { CrewStays ⟦<N as NodeModel>⟧ ⟦<D as Disk>⟧ self result.0 }
        ensures ended { is_episode line.now ≡ true → IsTrue is_last → AreFaultless result.0.members.items }
    {
        match line {
            PlanLine::Submit { by: _, body: _ } => (self, Ok(())),
            PlanLine::Episode { turns } => {
                let (crew, result) = self.take_turns(rt, alloc, plan, gate, desks, *turns);
                if is_last {
                    (crew.without_faults(), result)
                } else {
                    (crew, result)
                }
            }
            PlanLine::Restart { node } => (self.restarted(*node), Ok(())),
            PlanLine::Command { node, command } => self.commanded(*node, command),
        }
    }

    /// All take so many turns beside one another; then each reader learns what its consumer published last.
    fn take_turns<R: Threads + Wait + Sync, G: Gate + Sync>(
        self,
        rt: &R,
        alloc: Global,
        plan: &Plan,
        gate: &G,
        desks: &[Desk],
        turns: u32,
    ) -> (Crew<N, D, P>, Result<(), OutOfMemory>)
        requires { CanFollow ⟦<N as NodeModel>⟧ ⟦<D as Disk>⟧ plan.now desks.now self }
        ensures { CrewStays ⟦<N as NodeModel>⟧ ⟦<D as Disk>⟧ self result.0 }
    {
        let (crew, taken) = self.run_episode(rt, alloc, gate, desks, turns);
        match taken {
            Ok(()) => crew.told(plan.readers.as_slice()),
            Err(error) => (crew, Err(error)),
        }
    }

    /// All take so many turns beside one another.
    fn run_episode<R: Threads + Wait + Sync, G: Gate + Sync>(
        self,
        rt: &R,
        alloc: Global,
        gate: &G,
        desks: &[Desk],
        turns: u32,
    ) -> (Crew<N, D, P>, Result<(), OutOfMemory>)
        requires places { CanTakeTurns ⟦<N as NodeModel>⟧ ⟦<D as Disk>⟧ desks.now self }
        ensures { CrewStays ⟦<N as NodeModel>⟧ ⟦<D as Disk>⟧ self result.0 }
    {
        let env = Environment {
            rt,
            alloc,
            gate,
            desks,
        };
        let Crew {
            members,
            readers,
            submitters,
        } = self;
        let (members, readers, submitters, taken) = episode(
            rt, alloc, &env, turns, members, readers, submitters,
        );
        (
            Crew {
                members,
                readers,
                submitters,
            },
            taken,
        )
    }
}

/// Whether none of these lines is an episode.
fn have_no_episode(lines: &[PlanLine]) -> bool
    ensures yes { IsTrue result → HaveNoEpisode lines.now }
    ensures no { IsFalse result → HaveNoEpisode lines.now → ⊥ }
{
    for place in 0..lines.len() {
        if matches!(lines[place], PlanLine::Episode { turns: _ }) {
            return false;
        }
    }
    true
}
