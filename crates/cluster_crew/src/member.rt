//! A node as it takes turns with what it has beside its links.
ghost use Rattle.std.specs.Prelude.{◌≡◌, ◌≤◌, true, None, IfOk, IfSome, IsTrue, IsFalse};
ghost use Rattle.msg_wire.specs.Nodes.{is_client, is_sequencer};
ghost use Rattle.node_actor.specs.Turns.{is_tick_due};
ghost use Rattle.msg_wire.specs.Valid.{IsValidCommand};
ghost use Rattle.cluster_crew.specs.Watching.{IsWatchedBy, StaysReader};
ghost use Rattle.cluster_crew.specs.Crews.{StaysUnless};
ghost use Rattle.cluster_crew.specs.Ending.{ReturnsTo};
ghost use Rattle.cluster_crew.specs.Posts.{CanSubmit, CanTurn, CanAct, HasActed, Stays, Acts, CatchesUp, TicksWhere, IsFaultless, IsNote, IsWanting};

use crate::showing::Showing;
use cluster_users::Reader;
use msg_wire::Command;
use net_model::{NodeModel, Viewed};
use node_actor::{NodeActor, Taken, is_tick_due};
use quota_table::OutOfMemory;
use record_codec::Body;
use spec_base::{Disk, NodeId};
use std::sync::Wait;
use submit_desk::{Desk, DeskItem, DeskPass};
use view_cell::Told;

/// What a node has beside its links.
#[derive(Drop)]
pub enum Side<P: Wait + Drop> {
    /// Nothing.
    None,
    /// A client has the taking pass of its desk.
    Client(DeskPass),
    /// A consumer has the end on which it publishes its view.
    Consumer(Showing<P>),
}

/// A node as it takes turns with its side. Once it has stopped it takes no step.
#[derive(Drop)]
pub struct Member<N, D, P: Wait + Drop> {
    /// The node, its vault and its links.
    pub actor: NodeActor<N, D>,
    pub side: Side<P>,
}

impl<N: NodeModel + Viewed + Drop, D: Disk + Drop, P: Wait + Drop> Member<N, D, P> {
    /// Whether it takes a further step: its node has not stopped, and no memory was wanted for its view.
    pub fn goes_on(&self) -> bool
        ensures { IsFalse result → self.now.actor.stopped ≡ None → IsWanting self.now.side }
    {
        self.actor.stopped().is_none() && !self.is_wanting()
    }

    /// Whether memory was wanted for its view.
    pub fn is_wanting(&self) -> bool
        ensures { IsTrue result → IsWanting self.now.side }
    {
        match &self.side {
            Side::Consumer(showing) => showing.is_wanting(),
            _ => false,
        }
    }

    /// The turn of this number, from 0, of so many: a tick where one is due; else the first frame that a link gives; else, of a client,
    /// a body from its desk.
    pub(crate) fn take_turn<R: Wait>(&mut self, rt: &R, desks: &[Desk], turn: u32, turns: u32)
        requires { CanTurn ⟦<N as NodeModel>⟧ ⟦<D as Disk>⟧ desks.now self.old }
        ensures stays { Stays ⟦<N as NodeModel>⟧ ⟦<D as Disk>⟧ self.old self.new }
        ensures ticks { TicksWhere (is_tick_due turn turns) self.old self.new }
    {
        if !self.goes_on() {
            return;
        }
        if is_tick_due(turn, turns) {
            self.tick();
        } else {
            self.take_input(rt, desks);
        }
    }

    /// A step of a tick.
    fn tick(&mut self)
        requires { CanAct ⟦<N as NodeModel>⟧ ⟦<D as Disk>⟧ self.old }
        ensures stays { Stays ⟦<N as NodeModel>⟧ ⟦<D as Disk>⟧ self.old self.new }
        ensures ticks { TicksWhere true self.old self.new }
    {
        let _stepped = self.actor.tick();
        self.show();
    }

    /// A step of the first frame that a link gives; where none gives one, of a body from a client's desk.
    fn take_input<R: Wait>(&mut self, rt: &R, desks: &[Desk])
        requires { CanTurn ⟦<N as NodeModel>⟧ ⟦<D as Disk>⟧ desks.now self.old }
        ensures { Stays ⟦<N as NodeModel>⟧ ⟦<D as Disk>⟧ self.old self.new }
    {
        let taken = self.actor.take_frame();
        self.show();
        if taken == Taken::Nothing {
            let _taken = self.take_body(rt, desks);
        }
    }

    /// A step of a body from a client's desk. False where there is none.
    pub(crate) fn take_body<R: Wait>(&mut self, rt: &R, desks: &[Desk]) -> bool
        requires { CanTurn ⟦<N as NodeModel>⟧ ⟦<D as Disk>⟧ desks.now self.old }
        ensures { Stays ⟦<N as NodeModel>⟧ ⟦<D as Disk>⟧ self.old self.new }
    {
        match self.next_body(rt, desks) {
            Some(item) => {
                let DeskItem {
                    by,
                    number: _,
                    body,
                } = item;
                self.submit(by, body);
                true
            }
            None => false,
        }
    }

    /// A step of a body that a submitter has for this client.
    pub(crate) fn submit(&mut self, by: u8, body: Body)
        requires at { CanSubmit ⟦<N as NodeModel>⟧ ⟦<D as Disk>⟧ self.old }
        requires by { by ≤ 7 }
        ensures { Stays ⟦<N as NodeModel>⟧ ⟦<D as Disk>⟧ self.old self.new }
    {
        let _stepped = self.actor.submit(by, body);
        self.show();
    }

    /// A submitter's pass comes back, where this is the client with this number. Else it is dropped.
    pub(crate) fn join<R: Wait>(&mut self, rt: &R, desks: &[Desk], client: u8, other: DeskPass)
        requires at { CanTurn ⟦<N as NodeModel>⟧ ⟦<D as Disk>⟧ desks.now self.old }
        requires pass { ReturnsTo desks.now client other }
        ensures { Stays ⟦<N as NodeModel>⟧ ⟦<D as Disk>⟧ self.old self.new }
    {
        let NodeId::Client(number) = self.actor.name() else {
            return;
        };
        if number != client {
            return;
        }
        if let (Side::Client(pass), Some(desk)) = (&mut self.side, desks.get(usize::from(number))) {
            desk.join(rt, pass, other);
        }
    }

    /// The next body of a client's desk.
    fn next_body<R: Wait>(&mut self, rt: &R, desks: &[Desk]) -> Option<DeskItem>
        requires { CanTurn ⟦<N as NodeModel>⟧ ⟦<D as Disk>⟧ desks.now self.old }
        ensures stays { Stays ⟦<N as NodeModel>⟧ ⟦<D as Disk>⟧ self.old self.new }
        ensures node { self.new.actor ≡ self.old.actor }
        ensures client { IfSome result (λ item. IsTrue (is_client self.old.actor.core.name) × (item.by ≤ 7)) }
    {
        let NodeId::Client(number) = self.actor.name() else {
            return None;
        };
        let Side::Client(pass) = &mut self.side else {
            return None;
        };
        let desk = desks.get(usize::from(number))?;
        desk.take(rt, pass)
    }

    /// A note of the look that was published last, if it is a consumer. It takes no memory, and the answer is always Ok.
    fn tell(&mut self) -> Result<Option<Told>, OutOfMemory>
        ensures kept { self.new ≡ self.old }
        ensures told { IfOk result (λ told. IfSome told (IsNote self.old.side)) }
    {
        match &mut self.side {
            Side::Consumer(showing) => Ok(Some(showing.tell()?)),
            _ => Ok(None),
        }
    }

    /// Where this is the node of that name, it comes back with what its vault keeps.
    pub(crate) fn restart_if(&mut self, node: NodeId)
        requires { CanAct ⟦<N as NodeModel>⟧ ⟦<D as Disk>⟧ self.old }
        ensures stays { Stays ⟦<N as NodeModel>⟧ ⟦<D as Disk>⟧ self.old self.new }
        ensures others { StaysUnless node self.old self.new }
    {
        if self.actor.name() == node {
            self.restart();
        }
    }

    /// Where this is the sequencer of that name, it is told what to propose. Memory is wanted for a copy of the command.
    pub(crate) fn command_if(&mut self, node: NodeId, command: &Command) -> Result<(), OutOfMemory>
        requires acts { CanAct ⟦<N as NodeModel>⟧ ⟦<D as Disk>⟧ self.old }
        requires sequencer { IsTrue (is_sequencer node) }
        requires valid { IsValidCommand command.now }
        ensures stays { Stays ⟦<N as NodeModel>⟧ ⟦<D as Disk>⟧ self.old self.new }
        ensures others { StaysUnless node self.old self.new }
    {
        if self.actor.name() == node {
            let copy = command.clone()?;
            self.command(copy);
        }
        Ok(())
    }

    /// Where this is the consumer with this number, a reader learns what it published last, and looks once more.
    pub(crate) fn tell_to(&mut self, consumer: u8, reader: &mut Reader) -> Result<(), OutOfMemory>
        requires { IsWatchedBy ⟦<N as NodeModel>⟧ ⟦<D as Disk>⟧ consumer self.old reader.old }
        ensures member { Stays ⟦<N as NodeModel>⟧ ⟦<D as Disk>⟧ self.old self.new }
        ensures reader { StaysReader reader.old reader.new }
    {
        if self.actor.name() != (NodeId::Consumer(consumer)) {
            return Ok(());
        }
        match self.tell()? {
            Some(told) => reader.end_episode(told),
            None => Ok(()),
        }
    }

    /// The node comes back with what its vault keeps.
    fn restart(&mut self)
        requires { CanAct ⟦<N as NodeModel>⟧ ⟦<D as Disk>⟧ self.old }
        ensures { Stays ⟦<N as NodeModel>⟧ ⟦<D as Disk>⟧ self.old self.new }
    {
        let _stepped = self.actor.restart();
        self.show();
    }

    /// A sequencer is told what to propose.
    fn command(&mut self, command: Command)
        requires acts { CanAct ⟦<N as NodeModel>⟧ ⟦<D as Disk>⟧ self.old }
        requires sequencer { IsTrue (is_sequencer self.old.actor.core.name) }
        requires valid { IsValidCommand command }
        ensures { Stays ⟦<N as NodeModel>⟧ ⟦<D as Disk>⟧ self.old self.new }
    {
        let _stepped = self.actor.command(command);
        self.show();
    }

    /// What is held on its links is queued, and from now on its messages have no faults.
    pub(crate) fn end_faults(&mut self)
        requires { CanAct ⟦<N as NodeModel>⟧ ⟦<D as Disk>⟧ self.old }
        ensures stays { Stays ⟦<N as NodeModel>⟧ ⟦<D as Disk>⟧ self.old self.new }
        ensures ended { IsFaultless self.new }
    {
        self.actor.end_faults();
    }

    /// Publishes a consumer's view, where its steps made marks that weren't shown.
    fn show(&mut self)
        requires { HasActed ⟦<N as NodeModel>⟧ ⟦<D as Disk>⟧ self.old }
        ensures shown { CatchesUp ⟦<N as NodeModel>⟧ ⟦<D as Disk>⟧ self.old self.new }
        ensures node { self.new.actor ≡ self.old.actor }
    {
        if self.actor.stopped().is_some() {
            return;
        }
        if let Side::Consumer(showing) = &mut self.side {
            showing.show(self.actor.node(), self.actor.journal().steps());
        }
    }
}
