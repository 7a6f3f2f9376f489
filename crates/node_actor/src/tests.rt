//! A toy node on a disk in memory: what is stored, sent and noted, with disks that fail and frames that bring nothing.

ghost use Rattle.std.specs.Prelude.{◌≡◌, None, IfOk};
ghost use Rattle.node_actor.specs.Actors.{CanGoOn};
ghost use Rattle.spec_base.specs.Spelling.{IsValidNode};
ghost use Rattle.node_actor.specs.Cores.{IsReady};

use crate::{NodeActor, NodeCore, Stopped, Taken};
use gate_vault::Vault;
use life_tables::clusters::SINGLE;
use link_faults::{FaultPlan, LinkFaults};
use msg_wire::{Config, Event, Item, Items, Message, Step, What, encode, is_node_of};
use net_model::NodeModel;
use node_links::{Frame, LinkIn, LinkOut, pair};
use quota_table::{Bytes, OutOfMemory};
use spec_base::{MemDisk, NodeId};
use std::alloc::Global;
use std::process::Abort;
use std::test::Fail;

/// At each tick it stores one item, and asks the first sequencer for the first entry.
#[derive(Drop)]
struct Toy {
    /// How many items its vault gave.
    kept: u64,
    spent: bool,
}

impl NodeModel for Toy {
    ghost use Rattle.std.specs.Prelude.{false, length};
    ghost use Rattle.node_actor.specs.inside.Toys.{toy_gives};

    ghost fresh = { λ cfg node. record { kept = 0; spent = false } };

    ghost restarted = { λ cfg node items. record { kept = length items; spent = false } };

    ghost gives = { λ toy event. toy_gives event };

    ghost leaves = { λ toy event. toy };

    ghost is_spent = { λ toy. toy.spent };

    fn new(_alloc: Global, _cfg: &Config, _node: NodeId) -> Result<Toy, OutOfMemory> {
        Ok(Toy {
            kept: 0,
            spent: false,
        })
    }

    fn restart(
        _alloc: Global,
        _cfg: &Config,
        _node: NodeId,
        items: &Items,
    ) -> Result<Toy, OutOfMemory> {
        Ok(Toy {
            kept: items.len() as u64,
            spent: false,
        })
    }

    fn step(&mut self, alloc: Global, event: &Event) -> Result<Step, OutOfMemory> {
        let mut out = Step::new(alloc);
        self.step_into(alloc, event, &mut out)?;
        Ok(out)
    }

    fn step_into(
        &mut self,
        _alloc: Global,
        event: &Event,
        out: &mut Step,
    ) -> Result<(), OutOfMemory> {
        if matches!(event, Event::Tick) {
            self.spent = true;
            out.stable.push(Item::Acked)?;
            out.sends.push(Message {
                from: NodeId::Client(0),
                to: NodeId::Seq(0),
                what: What::Learn { slot: 0 },
            })?;
            self.spent = false;
        }
        Ok(())
    }

    fn deliver_into(
        &mut self,
        _alloc: Global,
        _message: &Message,
        _out: &mut Step,
    ) -> Result<(), OutOfMemory> {
        Ok(())
    }
}

/// How many nodes the cluster has: a sequencer, two replicas, a client and a consumer, in this order.
const NODES: usize = 5;

/// The client's core, on a disk that fails at these calls: 0 and 1 are those of the format.
fn core_of(alloc: Global, fails: &[u64]) -> Result<NodeCore<Toy, MemDisk>, Fail>
    ensures { IfOk result (IsReady ⟦<Toy as NodeModel>⟧) }
{
    let cfg = SINGLE.config(alloc)?;
    let name = NodeId::Client(0);
    if !is_node_of(&cfg, name) {
        return Err(Fail::new("no such node"));
    }
    let node = Toy::new(alloc, &cfg, name)?;
    let disk = MemDisk::new(alloc, fails)?;
    let vault = Vault::format(alloc, disk).map_err(|refused| refused.1)?;
    let mut faults = Vec::new(alloc);
    for place in 0..NODES {
        faults.push(LinkFaults::new(1, 3, place))?;
    }
    let plan = FaultPlan {
        lose: 0,
        repeat: 0,
        late: 0,
        cut: 0,
    };
    Ok(NodeCore::new(alloc, cfg, name, node, vault, faults, plan))
}

/// Links: those of the list of sending ends, and their other ends.
fn links(alloc: Global) -> Result<(Vec<LinkOut>, Vec<LinkIn>), OutOfMemory> {
    let mut outs = Vec::new(alloc);
    let mut ins = Vec::new(alloc);
    for _ in 0..NODES {
        let (out, into) = pair(alloc, 2)?;
        outs.push(out)?;
        ins.push(into)?;
    }
    Ok((outs, ins))
}

/// The client, with the other ends of the links from it and to it.
fn actor_of(
    alloc: Global,
    fails: &[u64],
) -> Result<(NodeActor<Toy, MemDisk>, Vec<LinkIn>, Vec<LinkOut>), Fail>
    ensures { IfOk result (λ all. CanGoOn ⟦<Toy as NodeModel>⟧ all.0) }
{
    let core = core_of(alloc, fails)?;
    let (outs, others) = links(alloc)?;
    let (feeders, ins) = links(alloc)?;
    Ok((NodeActor::new(core, outs, ins), others, feeders))
}

/// How many frames come out of the links, with this stamp and these bytes, and whether these are all.
fn count_frames(others: &mut [LinkIn], stamp: u64, bytes: &[u8]) -> (u32, bool) {
    let mut count = 0u32;
    let mut all_right = true;
    for other in others {
        if let Some(frame) = other.pull() {
            count = count.saturating_add(1);
            all_right = all_right && frame.stamp == stamp && frame.bytes.as_slice() == bytes;
        }
    }
    (count, all_right)
}

/// The version, the client, the sequencer, the kind of a question, and the slot.
const QUESTION: &[u8] = &[1, 3, 0, 0, 0, 16, 0, 0, 0, 0];

/// A head, a frame of the item that says that a body was acknowledged, and a closed gate.
const STORED: &[u8] = b"BELVAULT\x01\x00\x01\x07\x00";

#[test]
fn a_step_is_stored_sent_and_noted(rt: HostRuntime) -> Result<(), Fail> {
    let (mut actor, mut others, _feeders) = actor_of(rt.alloc(), &[])?;
    assert!(rt; actor.tick());
    assert!(rt; actor.stopped().is_none());
    assert_eq!(rt; count_frames(&mut others, 1, QUESTION), (1, true));
    let (core, _, _) = actor.into_parts();
    let (journal, disk) = core.into_parts();
    assert_eq!(rt; journal.steps().len(), 1);
    assert_eq!(rt; journal.last_stamp(), Some(1));
    assert_eq!(rt; disk.content(), STORED);
    Ok(())
}

/// A disk that fails at these calls, and whether the step is stopped: a call that fails is made once more.
const DISKS: [(&[u64], bool); 4] = [
    (&[2], false),
    (&[2, 3], true),
    (&[5, 6], true),
    (&[2, 4], false),
];

fn disk_row(rt: &impl Abort, alloc: Global, fails: &[u64], stops: bool) -> Result<(), Fail> {
    let (mut actor, mut others, _feeders) = actor_of(alloc, fails)?;
    assert_eq!(rt; actor.tick(), !stops);
    let count = if stops { 0 } else { 1 };
    assert_eq!(rt; actor.stopped() == Some(Stopped::Disk), stops);
    assert_eq!(rt; count_frames(&mut others, 1, QUESTION), (count, true));
    let (core, _, _) = actor.into_parts();
    let (journal, _disk) = core.into_parts();
    assert_eq!(rt; journal.steps().len() == 1, !stops);
    Ok(())
}

#[test]
fn nothing_is_sent_or_noted_after_a_disk_fault(rt: HostRuntime) -> Result<(), Fail> {
    for (fails, stops) in DISKS {
        disk_row(&rt, rt.alloc(), fails, stops)?;
    }
    Ok(())
}

/// A message that wants a record filled up, from the sequencer to a node, cut by so many bytes.
fn fill(alloc: Global, to: NodeId, cut: usize) -> Result<Frame, OutOfMemory>
    requires { IsValidNode to }
{
    let message = Message {
        from: NodeId::Seq(0),
        to,
        what: What::Fill { wanted: 2 },
    };
    let mut bytes = Bytes::new(alloc);
    encode(&message, &mut bytes)?;
    let len = bytes.len().saturating_sub(cut);
    bytes.truncate(len);
    Ok(Frame { stamp: 7, bytes })
}

/// What comes on the link from a place, whether it names the client and not the consumer, how much is cut off, and the stamps of the steps after it.
const FRAMES: [(usize, bool, usize, Option<u64>); 4] = [
    (0, true, 0, Some(8)),
    (0, false, 0, None),
    (1, true, 0, None),
    (0, true, 1, None),
];

fn frame_row(
    rt: &impl Abort,
    alloc: Global,
    place: usize,
    frame: Frame,
    stamp: Option<u64>,
) -> Result<(), Fail> {
    let (mut actor, _others, mut feeders) = actor_of(alloc, &[])?;
    if let Some(feeder) = feeders.get_mut(place) {
        feeder.queue(frame)?;
        assert_eq!(rt; feeder.push_some(), 1);
    }
    assert_eq!(rt; actor.take_frame() == Taken::Input, stamp.is_some());
    let (core, _, _) = actor.into_parts();
    assert_eq!(rt; core.journal().last_stamp(), stamp);
    Ok(())
}

#[test]
fn a_frame_is_a_step_where_it_is_for_the_node(rt: HostRuntime) -> Result<(), Fail> {
    let alloc = rt.alloc();
    for (place, to, cut, stamp) in FRAMES {
        let frame = if to {
            fill(alloc, NodeId::Client(0), cut)?
        } else {
            fill(alloc, NodeId::Consumer(0), cut)?
        };
        frame_row(&rt, alloc, place, frame, stamp)?;
    }
    let (mut actor, _others, _feeders) = actor_of(alloc, &[])?;
    assert_eq!(rt; actor.take_frame(), Taken::Nothing);
    Ok(())
}

#[test]
fn a_restart_takes_what_the_vault_gives(rt: HostRuntime) -> Result<(), Fail> {
    let alloc = rt.alloc();
    let mut core = core_of(alloc, &[])?;
    let (mut outs, _others) = links(alloc)?;
    core.tick(&mut outs)?;
    core.tick(&mut outs)?;
    assert_eq!(rt; core.node().kept, 0);
    core.restart(&mut outs)?;
    assert_eq!(rt; core.node().kept, 2);
    assert_eq!(rt; core.journal().last_stamp(), Some(3));
    Ok(())
}
