ghost use Rattle.std.specs.Prelude.{◌≡◌, ◌<◌, [], length, reverse, slice_get, Some, IfOk};
ghost use Rattle.net_model.specs.Pasts.{past_of, sent};
ghost use Rattle.msg_wire.specs.Inputs.{IsInputOf};
ghost use Rattle.msg_wire.specs.Nodes.{nodes_of};
ghost use Rattle.msg_wire.specs.Steps.{AreValidMessages};
ghost use Rattle.msg_wire.specs.Valid.{IsValidConfig, IsBody, IsSequencerOf, IsCommandOf};
ghost use Rattle.runs.specs.Names.nodes;
ghost use Rattle.runs.specs.Names.events;
ghost use Rattle.world.specs.Playing.{nothing_played};
ghost use Rattle.world.specs.inside.PlayerSteps.{kept_of, happens, settles, delivers, ticks_next, drains_once, drains, plays, IsSentBefore, CanTake};
ghost use Rattle.runs.specs.Runs.{IsRun};

use crate::any_node::AnyNode;
use crate::cluster::{deliver_at, fresh_nodes, step_at};
use crate::copies::{copy_of, copy_of_command};
use crate::outbox::Outbox;
use msg_wire::{Command, Config, Event, Input, Step};
use net_model::History;
use node_order::{nodes_in_order, rank_of};
use quota_table::OutOfMemory;
use record_codec::Body;
use spec_base::NodeId;
use std::alloc::Global;
use std::marker::Model;

/// A script as it is played: the nodes, the entries so far, and what a drain needs.
///
/// A call that makes entries is linear in what their steps read, send and show; any other is O(1).
/// After want of memory a player is gone.
#[derive(Drop)]
pub(crate) struct Player {
    /// In a box, so that a call that takes the player and gives it back moves one pointer.
    parts: Box<Parts>,
}

/// What a player has.
#[derive(Drop)]
struct Parts {
    cfg: Config,
    /// The nodes' names in their order.
    order: Vec<NodeId>,
    /// The nodes in the same order.
    nodes: Vec<AnyNode>,
    /// The entries so far, the oldest first.
    history: History,
    /// Which of the messages that these sent are settled.
    outbox: Outbox,
    /// The place of the node that a drain ticks next.
    turn: usize,
    /// Each step is written into this one, and moved from it into the history; between calls it is empty.
    step: Step,
}

impl Model for Player {
    ghost use Rattle.world.specs.inside.PlayerSteps.{PlayerState};

    ghost Value = { PlayerState };

    ghost use Rattle.world.specs.inside.Kept.{player_of, IsPlayer};

    ghost view = { player_of };

    ghost invariant = { IsPlayer };
}

impl Player {
    /// Nothing is played yet.
    pub fn new(alloc: Global, cfg: &Config) -> Result<Player, OutOfMemory>
        requires { IsValidConfig cfg.now }
        ensures { IfOk result (λ player. player ≡ kept_of cfg.now nothing_played) }
    {
        let order = nodes_in_order(alloc, cfg)?;
        let nodes = fresh_nodes(alloc, cfg, order.as_slice())?;
        let parts = Parts {
            cfg: copy_of(cfg)?,
            order,
            nodes,
            history: History::new(alloc),
            outbox: Outbox::new(alloc),
            turn: 0,
            step: Step::new(alloc),
        };
        let parts = Box::new(alloc, parts)?;
        Ok(Player { parts })
    }

    /// How many entries there are.
    pub fn entries(&self) -> usize
        ensures { result ≡ length self.now.past }
    {
        self.parts.history.len()
    }

    /// How many messages were sent.
    pub fn sent(&self) -> usize
        ensures { result ≡ length (sent self.now.past) }
    {
        self.parts.history.messages().len()
    }

    /// The entries, the oldest first.
    pub fn into_history(self) -> History
        ensures history { result ≡ reverse self.past }
        ensures run { IsRun self.cfg result }
        ensures messages { AreValidMessages (sent (past_of result)) }
    {
        Box::into_inner(self.parts).history
    }

    /// An input is played.
    pub fn play(self, alloc: Global, input: &Input) -> Result<Player, OutOfMemory>
        requires given { IsInputOf self.cfg input.now }
        requires sent { IsSentBefore (length (sent self.past)) input.now }
        ensures { IfOk result (λ player. player ≡ plays self input.now) }
    {
        match input {
            Input::Submit { client, body } => self.submit(alloc, *client, body),
            Input::Deliver { number } => self.deliver(alloc, *number as usize),
            Input::Lose { number } => Ok(self.settle(*number as usize)),
            Input::Tick { node } => self.happen(alloc, *node, Event::Tick),
            Input::Restart { node } => self.happen(alloc, *node, Event::Restart),
            Input::Command { node, command } => self.command(alloc, *node, command),
            Input::Drain { count } => self.drain(alloc, *count),
        }
    }
}

impl Player {
    /// A node takes an event.
    fn happen(self, alloc: Global, node: NodeId, event: Event) -> Result<Player, OutOfMemory>
        requires { CanTake self.cfg self.past node event }
        ensures { IfOk result (λ player. player ≡ happens node event self) }
    {
        self.happen_here(alloc, node, event)
    }

    /// As `happen`, in place: a drain, which knows that the event is a tick, passes over what other events need.
    #[inline(always)]
    fn happen_here(self, alloc: Global, node: NodeId, event: Event) -> Result<Player, OutOfMemory>
        requires { CanTake self.cfg self.past node event }
        ensures { IfOk result (λ player. player ≡ happens node event self) }
    {
        let Player { mut parts } = self;
        let inside = &mut *parts;
        let place = rank_of(&inside.cfg, node);
        let step = &mut inside.step;
        step_at(&mut inside.nodes, place, alloc, &event, step)?;
        inside.outbox.push(step.sends.len())?;
        inside.history.push_step(node, event, step)?;
        step.stable.clear();
        Ok(Player { parts })
    }

    /// A client is given a body.
    fn submit(self, alloc: Global, client: u8, body: &Body) -> Result<Player, OutOfMemory>
        requires client { client < length self.cfg.homes }
        requires body { IsBody body.now }
        ensures { IfOk result (λ player. player ≡ happens (nodes.Client client) (events.Submit 0 body.now) self) }
    {
        let event = Event::Submit {
            by: 0,
            body: body.clone()?,
        };
        self.happen(alloc, NodeId::Client(client), event)
    }

    /// A sequencer is told what to propose.
    fn command(self, alloc: Global, node: NodeId, command: &Command) -> Result<Player, OutOfMemory>
        requires node { IsSequencerOf self.cfg node }
        requires command { IsCommandOf self.cfg command.now }
        ensures { IfOk result (λ player. player ≡ happens node (events.Command command.now) self) }
    {
        let event = Event::Command(copy_of_command(command)?);
        self.happen(alloc, node, event)
    }

    /// The node that the message of a number was sent to takes it.
    #[inline(always)]
    fn take_message(self, alloc: Global, number: usize) -> Result<Player, OutOfMemory>
        requires { number < length (sent self.past) }
        ensures { (message : _) → slice_get (sent self.past) number ≡ Some message → IfOk result (λ player. player ≡ happens message.to (events.Deliver message) self) }
    {
        let Player { mut parts } = self;
        let inside = &mut *parts;
        let message = &inside.history.messages()[number];
        let node = message.to;
        let place = rank_of(&inside.cfg, node);
        let step = &mut inside.step;
        deliver_at(&mut inside.nodes, place, alloc, message, step)?;
        inside.outbox.push(step.sends.len())?;
        inside.history.push_delivery(node, number, step)?;
        step.stable.clear();
        Ok(Player { parts })
    }

    /// The message of a number is delivered or passed over from now on.
    fn settle(mut self, number: usize) -> Player
        requires { number < length (sent self.past) }
        ensures { result ≡ settles number self }
    {
        self.parts.outbox.settle(number);
        self
    }

    /// The message of a number comes to the node that it was sent to.
    #[inline(always)]
    fn deliver(self, alloc: Global, number: usize) -> Result<Player, OutOfMemory>
        requires { number < length (sent self.past) }
        ensures { IfOk result (λ player. player ≡ delivers number self) }
    {
        self.settle(number).take_message(alloc, number)
    }

    /// The node whose turn it is ticks, and the turn goes on.
    fn tick_next(self, alloc: Global) -> Result<Player, OutOfMemory>
        ensures { IfOk result (λ player. player ≡ ticks_next self) }
    {
        let parts = &*self.parts;
        let node = parts.order[parts.turn];
        let next = (parts.turn + 1) % parts.order.len();
        self.turn_to(next).happen_here(alloc, node, Event::Tick)
    }

    /// The turn goes to the node at a place.
    fn turn_to(mut self, turn: usize) -> Player
        requires { turn < length (nodes_of self.cfg) }
        ensures { result ≡ record self { turn = turn } }
    {
        self.parts.turn = turn;
        self
    }

    /// One input of a drain: the least open message is delivered, or else a node ticks.
    fn drain_once(mut self, alloc: Global) -> Result<Player, OutOfMemory>
        ensures { IfOk result (λ player. player ≡ drains_once self) }
    {
        match self.parts.outbox.next_open() {
            Some(number) => self.deliver(alloc, number),
            None => self.tick_next(alloc),
        }
    }

    /// So many inputs of a drain.
    fn drain(self, alloc: Global, count: u32) -> Result<Player, OutOfMemory>
        ensures { IfOk result (λ player. player ≡ drains count self) }
    {
        let mut player = self;
        for _ in 0..count {
            player = player.drain_once(alloc)?;
        }
        Ok(player)
    }
}
