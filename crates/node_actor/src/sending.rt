//! The sends of a step, on the links to their nodes.

ghost use Rattle.std.specs.Prelude.{◌≡◌, map, IfOk, OnOk};
ghost use Rattle.msg_wire.specs.Steps.{AreValidMessages};
ghost use Rattle.msg_wire.specs.Valid.{IsValidConfig, IsValidMessage};
ghost use Rattle.node_actor.specs.Lanes.{frame_of, links_of, lanes, at_place, passed, released, send_message, send_messages};

use link_faults::{FaultPlan, LinkFaults};
use msg_wire::{Config, Message, What, encode, is_node_of};
use node_links::{Frame, LinkOut};
use node_order::rank_of;
use quota_table::{Bytes, OutOfMemory};
use record_codec::Record;
use std::alloc::Global;

/// The most bytes of a message beside those of its body.
const MOST_FIELDS: usize = 40;

/// Queues the messages that a step with this stamp sends, in order, each on the link to its node.
pub fn send_all(
    alloc: Global,
    cfg: &Config,
    plan: Option<FaultPlan>,
    faults: &mut [LinkFaults],
    outs: &mut [LinkOut],
    stamp: u64,
    sends: &[Message],
) -> Result<(), OutOfMemory>
    requires valid { IsValidConfig cfg.now }
    requires sends { AreValidMessages sends.now }
    ensures links { links_of outs.new ≡ links_of outs.old }
    ensures ok { OnOk result (lanes outs.new faults.new ≡ send_messages cfg.now plan stamp sends.now (lanes outs.old faults.old)) }
{
    for message in sends {
        send(alloc, cfg, plan, faults, outs, stamp, message)?;
    }
    Ok(())
}

/// Queues the frames that are held.
pub fn release_all(faults: &mut [LinkFaults], outs: &mut [LinkOut]) -> Result<(), OutOfMemory>
    ensures links { links_of outs.new ≡ links_of outs.old }
    ensures ok { OnOk result (lanes outs.new faults.new ≡ map released (lanes outs.old faults.old)) }
{
    let count = outs.len().min(faults.len());
    for place in 0..count {
        faults[place].release(&mut outs[place])?;
    }
    Ok(())
}

fn send(
    alloc: Global,
    cfg: &Config,
    plan: Option<FaultPlan>,
    faults: &mut [LinkFaults],
    outs: &mut [LinkOut],
    stamp: u64,
    message: &Message,
) -> Result<(), OutOfMemory>
    requires valid { IsValidConfig cfg.now }
    requires message { IsValidMessage message.now }
    ensures links { links_of outs.new ≡ links_of outs.old }
    ensures ok { OnOk result (lanes outs.new faults.new ≡ send_message cfg.now plan stamp message.now (lanes outs.old faults.old)) }
{
    // No step table sends to a node that the cluster doesn't have, which no link goes to.
    if !is_node_of(cfg, message.to) {
        return Ok(());
    }
    let frame = frame_of(alloc, stamp, message)?;
    queue_at(plan, faults, outs, rank_of(cfg, message.to), frame)
}

/// Queues a frame on the link to the node at a place, as the faults of that link have it.
fn queue_at(
    plan: Option<FaultPlan>,
    faults: &mut [LinkFaults],
    outs: &mut [LinkOut],
    place: usize,
    frame: Frame,
) -> Result<(), OutOfMemory>
    ensures links { links_of outs.new ≡ links_of outs.old }
    ensures ok { OnOk result (lanes outs.new faults.new ≡ at_place place (passed plan frame) (lanes outs.old faults.old)) }
{
    if place >= outs.len() || place >= faults.len() {
        return Ok(());
    }
    match plan {
        Some(plan) => faults[place].send(&plan, &mut outs[place], frame),
        None => outs[place].queue(frame),
    }
}

/// A message as a frame. Its bytes are written into room that is taken at once.
fn frame_of(alloc: Global, stamp: u64, message: &Message) -> Result<Frame, OutOfMemory>
    requires { IsValidMessage message.now }
    ensures { IfOk result (λ frame. frame ≡ frame_of stamp message.now) }
{
    let mut bytes = Bytes::with_capacity(alloc, room_for(&message.what))?;
    encode(message, &mut bytes)?;
    Ok(Frame { stamp, bytes })
}

/// Room for a message's bytes.
fn room_for(what: &What) -> usize {
    let body = match what {
        What::Append { body, .. } => body.len(),
        What::Replicate { rec, .. } | What::Deliver { rec, .. } => match rec {
            Record::Data { body, .. } => body.len(),
            Record::Noop => 0,
        },
        _ => 0,
    };
    MOST_FIELDS.saturating_add(body)
}
