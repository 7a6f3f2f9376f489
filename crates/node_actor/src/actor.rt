ghost use Rattle.std.specs.Prelude.{◌≡◌, ◌<◌, ◌≤◌, None, IsTrue, IsFalse, IsSome, OnOk, length, get_or};
ghost use Rattle.msg_wire.specs.Nodes.{is_client, is_sequencer};
ghost use Rattle.msg_wire.specs.Valid.{IsValidCommand};
ghost use Rattle.net_model.specs.Names.events;
ghost use Rattle.node_links.specs.Links.{Receiving};
ghost use Rattle.node_actor.specs.Cores.{IsReady, StepsSafely, TookOne, stable_of};
ghost use Rattle.node_actor.specs.Actors.{CanGoOn, EndedFaults, Moved};
ghost use Rattle.node_actor.specs.Turns.{AreStepsOf, AreTurns, IsStepOf, IsTurn, TookSteps, is_tick_due};
ghost use Rattle.node_actor.specs.declared.taken.Taken.TheVariants.{Input};
ghost use Rattle.node_actor.specs.inside.Alone.{ComesAlone};
ghost use Rattle.node_actor.specs.inside.Reacting.{Reacted};

use crate::links::{pull_at, pull_first, push_all};
use crate::node_core::NodeCore;
use crate::stopped::Stopped;
use crate::taken::Taken;
use msg_wire::{Command, Event};
use net_model::{Journal, NodeModel};
use node_links::{Frame, LinkIn, LinkOut};
use record_codec::Body;
use spec_base::{Disk, NodeId};

/// A node as it takes turns: its core, and the ends of its links from and to all nodes, in their order.
///
/// Where a step is stopped, it takes no further one.
#[derive(Drop)]
pub struct NodeActor<N, D> {
    pub(crate) core: NodeCore<N, D>,
    pub(crate) outs: Vec<LinkOut>,
    pub(crate) ins: Vec<LinkIn>,
    /// The place of the link that is asked first.
    pub(crate) next: usize,
    pub(crate) stopped: Option<Stopped>,
}

impl<N: NodeModel + Drop, D: Disk + Drop> NodeActor<N, D> {
    /// The link to the node at a place is `outs[place]`, and the link from it `ins[place]`.
    pub fn new(core: NodeCore<N, D>, outs: Vec<LinkOut>, ins: Vec<LinkIn>) -> NodeActor<N, D>
        ensures core { result.core ≡ core }
        ensures outs { result.outs ≡ outs }
        ensures ins { result.ins ≡ ins }
        ensures going { result.stopped ≡ None }
    {
        NodeActor {
            core,
            outs,
            ins,
            next: 0,
            stopped: None,
        }
    }

    /// Why it takes no further step; None where it does.
    pub fn stopped(&self) -> Option<Stopped>
        ensures { result ≡ self.now.stopped }
    {
        self.stopped
    }

    /// Which node it is.
    pub fn name(&self) -> NodeId
        ensures { result ≡ self.now.core.name }
    {
        self.core.name()
    }

    /// What the node is.
    pub fn node(&self) -> &N
        ensures { result.now ≡ self.now.core.node }
    {
        self.core.node()
    }

    /// The steps that it took.
    pub fn journal(&self) -> &Journal
        ensures { result.now ≡ self.now.core.journal }
    {
        self.core.journal()
    }

    /// How many frames are known to wait on the link from the node at a place.
    pub fn waiting(&self, from: usize) -> usize
        requires { from < length self.now.ins.items }
        ensures { (into : Receiving) → result ≡ length (get_or self.now.ins.items from into).waiting }
    {
        self.ins[from].waiting()
    }

    /// Its core and its links.
    pub fn into_parts(self) -> (NodeCore<N, D>, Vec<LinkOut>, Vec<LinkIn>)
        ensures { result ≡ (self.core, self.outs, self.ins) }
    {
        let NodeActor {
            core,
            outs,
            ins,
            next: _,
            stopped: _,
        } = self;
        (core, outs, ins)
    }

    /// So many turns of an episode, with neither a desk nor a view: in a turn that is due a tick, in another what the first link gives.
    pub fn take_turns(&mut self, turns: u32)
        requires going { CanGoOn ⟦<N as NodeModel>⟧ self.old }
        ensures moved { Moved ⟦<N as NodeModel>⟧ ⟦<D as Disk>⟧ self.old self.new }
        ensures steps { TookSteps (AreTurns turns turns) self.old self.new }
    {
        for turn in 0..turns {
            self.take_turn(turn, turns);
        }
    }

    /// The turn of this number, from 0, of so many.
    fn take_turn(&mut self, turn: u32, turns: u32)
        requires going { CanGoOn ⟦<N as NodeModel>⟧ self.old }
        ensures moved { Moved ⟦<N as NodeModel>⟧ ⟦<D as Disk>⟧ self.old self.new }
        ensures steps { TookSteps (IsTurn (is_tick_due turn turns)) self.old self.new }
    {
        if is_tick_due(turn, turns) {
            let _stepped = self.tick();
        } else {
            let _taken = self.take_frame();
        }
    }

    /// A step of a tick, after which it pushes what fits. Whether it was taken: it wasn't exactly where the node is stopped.
    pub fn tick(&mut self) -> bool
        requires going { CanGoOn ⟦<N as NodeModel>⟧ self.old }
        ensures moved { Moved ⟦<N as NodeModel>⟧ ⟦<D as Disk>⟧ self.old self.new }
        ensures steps { TookSteps (IsStepOf events.Tick) self.old self.new }
        ensures taken { IsTrue result → self.new.stopped ≡ None }
        ensures stopped { IsFalse result → IsSome self.new.stopped }
    {
        self.step(Event::Tick)
    }

    /// A step of a body that a submitter, 0 to 7, has for this client, as `tick` is one.
    pub fn submit(&mut self, by: u8, body: Body) -> bool
        requires going { CanGoOn ⟦<N as NodeModel>⟧ self.old }
        requires client { IsTrue (is_client self.old.core.name) }
        requires by { by ≤ 7 }
        ensures moved { Moved ⟦<N as NodeModel>⟧ ⟦<D as Disk>⟧ self.old self.new }
        ensures steps { TookSteps (IsStepOf (events.Submit by body)) self.old self.new }
        ensures taken { IsTrue result → self.new.stopped ≡ None }
        ensures stopped { IsFalse result → IsSome self.new.stopped }
    {
        self.step(Event::Submit { by, body })
    }

    /// A step in which this sequencer is told what to propose, as `tick` is one.
    pub fn command(&mut self, command: Command) -> bool
        requires going { CanGoOn ⟦<N as NodeModel>⟧ self.old }
        requires sequencer { IsTrue (is_sequencer self.old.core.name) }
        requires valid { IsValidCommand command }
        ensures moved { Moved ⟦<N as NodeModel>⟧ ⟦<D as Disk>⟧ self.old self.new }
        ensures steps { TookSteps (IsStepOf (events.Command command)) self.old self.new }
        ensures taken { IsTrue result → self.new.stopped ≡ None }
        ensures stopped { IsFalse result → IsSome self.new.stopped }
    {
        self.step(Event::Command(command))
    }

    /// A step in which the node comes back with what its vault gives, as `tick` is one. The vault is read anew.
    pub fn restart(&mut self) -> bool
        requires going { CanGoOn ⟦<N as NodeModel>⟧ self.old }
        ensures moved { Moved ⟦<N as NodeModel>⟧ ⟦<D as Disk>⟧ self.old self.new }
        ensures steps { TookSteps (IsStepOf events.Restart) self.old self.new }
        ensures taken { IsTrue result → self.new.stopped ≡ None }
        ensures stopped { IsFalse result → IsSome self.new.stopped }
    {
        self.step(Event::Restart)
    }

    /// A step of what comes to the node on no link, after which it pushes what fits. Whether it was taken.
    fn step(&mut self, event: Event) -> bool
        requires going { CanGoOn ⟦<N as NodeModel>⟧ self.old }
        requires comes { ComesAlone self.old.core.name event }
        ensures moved { Moved ⟦<N as NodeModel>⟧ ⟦<D as Disk>⟧ self.old self.new }
        ensures steps { TookSteps (IsStepOf event) self.old self.new }
        ensures taken { IsTrue result → self.new.stopped ≡ None }
        ensures stopped { IsFalse result → IsSome self.new.stopped }
    {
        if self.stopped.is_some() {
            return false;
        }
        match step_core(&mut self.core, event, &mut self.outs) {
            Ok(()) => {
                push_all(&mut self.outs);
                true
            }
            Err(stopped) => {
                self.stopped = Some(stopped);
                false
            }
        }
    }

    /// The faults of its links end: what is held is queued, and from now on no message is lost, repeated, held or cut.
    /// The node is stopped where memory is refused.
    pub fn end_faults(&mut self)
        requires going { CanGoOn ⟦<N as NodeModel>⟧ self.old }
        ensures { EndedFaults ⟦<N as NodeModel>⟧ ⟦<D as Disk>⟧ self.old self.new }
    {
        if self.stopped.is_some() {
            return;
        }
        match self.core.end_faults(&mut self.outs) {
            Ok(()) => {}
            Err(stopped) => self.stopped = Some(stopped),
        }
    }

    /// Takes the first frame that a link gives, asked round from the one after the link that gave last: a step of its message, after
    /// which the node pushes what fits, where it brings one.
    pub fn take_frame(&mut self) -> Taken
        requires going { CanGoOn ⟦<N as NodeModel>⟧ self.old }
        ensures moved { Moved ⟦<N as NodeModel>⟧ ⟦<D as Disk>⟧ self.old self.new }
        ensures steps { TookSteps (AreStepsOf result) self.old self.new }
        ensures going { result ≡ Input → self.new.stopped ≡ None }
    {
        if self.stopped.is_some() {
            return Taken::Nothing;
        }
        match pull_first(&mut self.ins, self.next) {
            None => Taken::Nothing,
            Some((from, frame)) => {
                self.next = from.saturating_add(1);
                self.receive_from(from, &frame)
            }
        }
    }

    /// Takes the next frame of the link from the node at this place, as `take_frame` takes one.
    pub fn take_frame_from(&mut self, from: usize) -> Taken
        requires going { CanGoOn ⟦<N as NodeModel>⟧ self.old }
        requires within { from < length self.old.ins.items }
        ensures moved { Moved ⟦<N as NodeModel>⟧ ⟦<D as Disk>⟧ self.old self.new }
        ensures steps { TookSteps (AreStepsOf result) self.old self.new }
        ensures going { result ≡ Input → self.new.stopped ≡ None }
    {
        if self.stopped.is_some() {
            return Taken::Nothing;
        }
        match pull_at(&mut self.ins, from) {
            None => Taken::Nothing,
            Some(frame) => self.receive_from(from, &frame),
        }
    }

    /// What a frame brings that came on the link from the node at this place.
    fn receive_from(&mut self, from: usize, frame: &Frame) -> Taken
        requires ready { IsReady ⟦<N as NodeModel>⟧ self.old.core }
        requires going { self.old.stopped ≡ None }
        ensures { Reacted ⟦<N as NodeModel>⟧ ⟦<D as Disk>⟧ from frame.now result self.old self.new }
    {
        match self.core.receive(from, frame, &mut self.outs) {
            Ok(true) => {
                push_all(&mut self.outs);
                Taken::Input
            }
            Ok(false) => Taken::NoInput,
            Err(stopped) => {
                self.stopped = Some(stopped);
                Taken::NoInput
            }
        }
    }
}

/// The core's step of what comes to the node on no link.
fn step_core<N: NodeModel + Drop, D: Disk + Drop>(
    core: &mut NodeCore<N, D>,
    event: Event,
    outs: &mut [LinkOut],
) -> Result<(), Stopped>
    requires ready { IsReady ⟦<N as NodeModel>⟧ core.old }
    requires comes { ComesAlone core.old.name event }
    ensures ok { OnOk result (TookOne ⟦<N as NodeModel>⟧ ⟦<D as Disk>⟧ event 0 core.old core.new outs.old outs.new) }
    ensures safely { StepsSafely ⟦<D as Disk>⟧ (stable_of ⟦<N as NodeModel>⟧ core.old event) result core.old core.new outs.old outs.new }
{
    match event {
        Event::Tick => core.tick(outs),
        Event::Submit { by, body } => core.submit(by, body, outs),
        Event::Command(command) => core.command(command, outs),
        Event::Restart => core.restart(outs),
        Event::Deliver(_) => unreachable!(),
    }
}

/// Whether the turn of this number, from 0, of so many is a tick: each sixteenth is, and the last.
pub fn is_tick_due(turn: u32, turns: u32) -> bool
    ensures { result ≡ is_tick_due turn turns }
{
    turn % 16 == 15 || u64::from(turn) + 1 == u64::from(turns)
}
