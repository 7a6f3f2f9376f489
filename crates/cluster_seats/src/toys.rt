//! Nodes for tests: a small kind of node, and a cluster of five of them.

ghost use Rattle.std.specs.Prelude.{◌≡◌, ◌≤◌, ◌^◌, [], length, true, false, IsTrue, IfOk, OnOk, OnErr};
ghost use Rattle.std.specs.List.{AllByRecursion};
ghost use Rattle.msg_wire.specs.Steps.{empty_step, IsValidStep};
ghost use Rattle.msg_wire.specs.Valid.{IsValidMessage};
ghost use Rattle.spec_base.specs.Spelling.{IsValidNode};
ghost use Rattle.cluster_seats.specs.Seatings.{AreSitting, KeepsNone};
ghost use Rattle.cluster_seats.specs.Toys.{answers, asks, is_named, wanted_of};

use crate::blank::blanks;
use crate::seating::seat_all;
use gate_vault::Vault;
use life_tables::clusters::SINGLE;
use link_faults::FaultPlan;
use link_rows::links_between;
use msg_wire::{Config, Event, Items, Message, Step, What};
use net_model::NodeModel;
use node_actor::NodeActor;
use node_order::nodes_in_order;
use quota_table::OutOfMemory;
use spec_base::{Disk, MemDisk, NodeId};
use std::alloc::Global;
use std::test::Fail;

/// At a tick it asks the first sequencer for 2; whoever is asked for some asks back for one less.
#[derive(Drop)]
pub struct Toy {
    name: NodeId,
    spent: bool,
}

impl NodeModel for Toy {
    ghost use Rattle.std.specs.Prelude.{false};
    ghost use Rattle.cluster_seats.specs.Toys.{toy_gives};

    ghost fresh = { λ cfg node. record { name = node; spent = false } };

    ghost restarted = { λ cfg node items. record { name = node; spent = false } };

    ghost gives = { λ toy event. toy_gives toy.name event };

    ghost leaves = { λ toy event. toy };

    ghost is_spent = { λ toy. toy.spent };

    fn new(_alloc: Global, _cfg: &Config, node: NodeId) -> Result<Toy, OutOfMemory> {
        Ok(Toy {
            name: node,
            spent: false,
        })
    }

    fn restart(
        _alloc: Global,
        _cfg: &Config,
        node: NodeId,
        _items: &Items,
    ) -> Result<Toy, OutOfMemory> {
        Ok(Toy {
            name: node,
            spent: false,
        })
    }

    fn step(&mut self, alloc: Global, event: &Event) -> Result<Step, OutOfMemory> {
        let mut out = Step::new(alloc);
        self.step_into(alloc, event, &mut out)?;
        Ok(out)
    }

    fn step_into(
        &mut self,
        alloc: Global,
        event: &Event,
        out: &mut Step,
    ) -> Result<(), OutOfMemory> {
        match event {
            Event::Tick => {
                if is_named(self.name) {
                    self.ask(self.name, NodeId::Seq(0), 2, out)?;
                }
                Ok(())
            }
            Event::Deliver(message) => self.deliver_into(alloc, message, out),
            _ => Ok(()),
        }
    }

    fn deliver_into(
        &mut self,
        _alloc: Global,
        message: &Message,
        out: &mut Step,
    ) -> Result<(), OutOfMemory> {
        let wanted = wanted_of(&message.what);
        if wanted > 0 {
            self.ask(message.to, message.from, wanted - 1, out)?;
        }
        Ok(())
    }
}

impl Toy {
    /// Sends one question; the toy is spent where memory is refused.
    fn ask(
        &mut self,
        from: NodeId,
        to: NodeId,
        wanted: u64,
        out: &mut Step,
    ) -> Result<(), OutOfMemory>
        requires ready { self.old.spent ≡ false }
        requires empty { out.old ≡ empty_step }
        requires from { IsValidNode from }
        requires to { IsValidNode to }
        requires wanted { wanted ≤ 2 ^ 48 }
        ensures gives { OnOk result (out.new ≡ asks from to wanted) }
        ensures valid { OnOk result (IsValidStep out.new) }
        ensures leaves { OnOk result (self.new ≡ self.old) }
        ensures spent { OnErr result (self.new.spent ≡ true) }
    {
        self.spent = true;
        out.sends.push(Message {
            from,
            to,
            what: What::Fill { wanted },
        })?;
        self.spent = false;
        Ok(())
    }
}

/// What a message asks for.
fn wanted_of(what: &What) -> u64
    ensures { result ≡ wanted_of what.now }
{
    match what {
        What::Fill { wanted } => *wanted,
        _ => 0,
    }
}

/// Whether a message may have this name.
fn is_named(name: NodeId) -> bool
    ensures test { result ≡ is_named name }
    ensures named { IsTrue result → IsValidNode name }
{
    match name {
        NodeId::Seq(number) => number < 5,
        NodeId::Shard(number, _) => number < 6,
        NodeId::Client(number) => number < 6,
        NodeId::Consumer(number) => number < 4,
    }
}

/// No message is lost, repeated, held or cut.
const FAULTLESS: FaultPlan = FaultPlan {
    lose: 0,
    repeat: 0,
    late: 0,
    cut: 0,
};

/// The five nodes of the least cluster in their order, each a toy with an empty vault in memory: a sequencer, two replicas, a client and a
/// consumer.
pub fn toys(alloc: Global) -> Result<Vec<NodeActor<Toy, MemDisk>>, Fail>
    ensures { IfOk result (λ actors. (cfg : _) × (nodes : _) × (counts : _)
        × AreSitting ⟦<Toy as NodeModel>⟧ ⟦<MemDisk as Disk>⟧ cfg nodes counts actors.items) }
{
    let cfg = SINGLE.config(alloc)?;
    let nodes = nodes_in_order(alloc, &cfg)?;
    let count = nodes.len();
    let blanks = blanks(alloc, &cfg, nodes.as_slice(), 1)?;
    let vaults = vaults(alloc, count)?;
    let (outs, ins) = links_between(alloc, count)?;
    let room = Vec::with_capacity(alloc, count)?;
    Ok(seat_all(alloc, blanks, vaults, outs, ins, FAULTLESS, room))
}

/// So many empty vaults.
fn vaults(alloc: Global, count: usize) -> Result<Vec<Vault<MemDisk>>, Fail>
    ensures count { IfOk result (λ vaults. length vaults.items ≡ count) }
    ensures empty { IfOk result (λ vaults. AllByRecursion (KeepsNone ⟦<MemDisk as Disk>⟧) vaults.items) }
{
    let mut vaults = Vec::with_capacity(alloc, count)?;
    for _ in 0..count {
        vaults.push(vault(alloc)?)?;
    }
    Ok(vaults)
}

/// An empty vault on a disk in memory that does not fail.
fn vault(alloc: Global) -> Result<Vault<MemDisk>, Fail>
    ensures { IfOk result (KeepsNone ⟦<MemDisk as Disk>⟧) }
{
    let disk = MemDisk::new(alloc, &[])?;
    match Vault::format(alloc, disk) {
        Ok(vault) => Ok(vault),
        Err((_, error)) => Err(Fail::from(error)),
    }
}
