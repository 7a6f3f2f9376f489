ghost use Rattle.std.specs.Prelude.{◌≡◌, ◌<◌, [], ◌++◌, IfOk, OnOk};
ghost use mathlib.Core.List.{IsPrefix};
ghost use Rattle.rtrb.specs.Ring.{sent, received, known_items, producer_capacity, IsPair, SameProducer, SameConsumer};
ghost use Rattle.node_links.specs.Links.{queued};
ghost use Rattle.node_links.specs.inside.Passes.{Passes};

use crate::frame::Frame;
use crate::link_in::LinkIn;
use crate::link_out::{LinkOut, fill};
use quota_table::OutOfMemory;
use rtrb::{Consumer, Producer, RingBuffer};
use std::alloc::Global;
use std::collections::VecDeque;

/// The two ends of a new link whose ring has room for so many frames.
pub fn pair(alloc: Global, capacity: usize) -> Result<(LinkOut, LinkIn), OutOfMemory>
    requires { 0 < capacity }
    ensures link { IfOk result (λ ends. ends.0.link ≡ ends.1.link) }
    ensures out { IfOk result (λ ends. (ends.0.free ≡ capacity) × (ends.0.pushed ≡ []) × (ends.0.waiting ≡ [])) }
    ensures into { IfOk result (λ ends. (ends.1.received ≡ []) × (ends.1.waiting ≡ [])) }
{
    let (producer, consumer) = RingBuffer::new(alloc, capacity)?;
    let out = LinkOut {
        ring: producer,
        waiting: VecDeque::new(alloc),
    };
    let into = LinkIn {
        ring: consumer,
        ready: VecDeque::new(alloc),
    };
    Ok((out, into))
}

/// Brings all that was queued to the receiving end, with both ends in one thread. At an error no frame is lost: what was not pulled
/// is in the two ends, and a further call goes on.
pub fn settle(out: &mut LinkOut, into: &mut LinkIn) -> Result<(), OutOfMemory>
    requires { out.old.link ≡ into.old.link }
    ensures link { (out.new.link ≡ out.old.link) × (into.new.link ≡ into.old.link) }
    ensures queued { queued out.new ≡ queued out.old }
    ensures received { into.new.received ≡ into.old.received }
    ensures waits { IsPrefix into.old.waiting into.new.waiting }
    ensures in_order { into.new.received ++ into.new.waiting ≡ out.new.pushed }
    ensures all { OnOk result (into.new.received ++ into.new.waiting ≡ queued out.new) }
    ensures none_left { OnOk result (out.new.waiting ≡ []) }
{
    carry(
        &mut out.ring,
        &mut out.waiting,
        &mut into.ring,
        &mut into.ready,
    )
}

/// Moves all frames through the ring, and out of it to those that are ready.
fn carry(
    out: &mut Producer<Frame>,
    waiting: &mut VecDeque<Frame>,
    into: &mut Consumer<Frame>,
    ready: &mut VecDeque<Frame>,
) -> Result<(), OutOfMemory>
    requires pair { IsPair out.old into.old }
    requires capacity { 0 < producer_capacity out.old }
    ensures out { SameProducer out.old out.new }
    ensures into { SameConsumer into.old into.new }
    ensures queued { sent out.new ++ waiting.new.items ≡ sent out.old ++ waiting.old.items }
    ensures passes { Passes (received into.old) ready.old.items (received into.new) ready.new.items }
    ensures waits { IsPrefix (ready.old.items ++ known_items into.old) (ready.new.items ++ known_items into.new) }
    ensures in_order { received into.new ++ known_items into.new ≡ sent out.new }
    ensures all { OnOk result (waiting.new.items ≡ []) }
{
    empty(out, into, ready)?;
    while !waiting.is_empty() {
        let free = out.slots_beside(into);
        fill(out, waiting, free);
        empty(out, into, ready)?;
    }
    Ok(())
}

/// Takes all frames out of the ring.
fn empty(
    out: &mut Producer<Frame>,
    into: &mut Consumer<Frame>,
    ready: &mut VecDeque<Frame>,
) -> Result<(), OutOfMemory>
    requires { IsPair out.old into.old }
    ensures out { SameProducer out.old out.new × (sent out.new ≡ sent out.old) }
    ensures into { SameConsumer into.old into.new }
    ensures passes { Passes (received into.old) ready.old.items (received into.new) ready.new.items }
    ensures waits { IsPrefix (ready.old.items ++ known_items into.old) (ready.new.items ++ known_items into.new) }
    ensures in_order { received into.new ++ known_items into.new ≡ sent out.new }
    ensures all { OnOk result ((received into.new ≡ sent out.new) × (known_items into.new ≡ [])) }
{
    let count = into.slots_beside(out);
    ready.reserve(count)?;
    for _ in 0..count {
        ready.push_back_reserved(into.pop_known());
    }
    Ok(())
}
