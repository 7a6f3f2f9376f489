ghost use Rattle.std.specs.Prelude.{◌≡◌, ◌+◌, ◌<◌, ◌≤◌, [], ◌∷◌, ◌++◌, length, take, drop, min, OnOk, OnErr};
ghost use Rattle.std.specs.VecDeque.{deque_len};
ghost use Rattle.rtrb.specs.Ring.{sent, known_free, SameProducer};
ghost use Rattle.node_links.specs.Links.{queued};

use crate::frame::Frame;
use quota_table::OutOfMemory;
use rtrb::Producer;
use std::collections::VecDeque;
use std::marker::Model;

/// The sending end of a link. Contracts see which link it is, the free slots that it knows of, what it pushed and what waits here.
#[derive(Drop)]
pub struct LinkOut {
    pub(crate) ring: Producer<Frame>,
    // Queued, and not yet in the ring.
    pub(crate) waiting: VecDeque<Frame>,
}

impl Model for LinkOut {
    ghost use Rattle.std.specs.Prelude.{◌<◌};
    ghost use Rattle.rtrb.specs.Ring.{sent, known_free, producer_capacity};
    ghost use Rattle.node_links.specs.Links.{Sending, link_of};

    ghost Value = { Sending };

    ghost view = { λ o. record { link = link_of o.ring.end; free = known_free o.ring; pushed = sent o.ring; waiting = o.waiting.items } };

    ghost invariant = { λ o. 0 < producer_capacity o.ring };
}

impl LinkOut {
    /// Puts a frame behind all that were queued. It waits here until the ring has room for it. At an error the frame is dropped, and
    /// the link is as it was.
    pub fn queue(&mut self, frame: Frame) -> Result<(), OutOfMemory>
        ensures link { self.new.link ≡ self.old.link }
        ensures ring { (self.new.free ≡ self.old.free) × (self.new.pushed ≡ self.old.pushed) }
        ensures ok { OnOk result (self.new.waiting ≡ self.old.waiting ++ frame ∷ []) }
        ensures err { OnErr result (self.new.waiting ≡ self.old.waiting) }
    {
        self.waiting.push_back(frame)?;
        Ok(())
    }

    /// Moves the frames that were queued first into the ring, as many as it has room for, and tells how many. It takes no memory.
    pub fn push_some(&mut self) -> usize
        ensures link { self.new.link ≡ self.old.link }
        ensures count { result ≤ length self.old.waiting }
        ensures pushed { self.new.pushed ≡ self.old.pushed ++ take result self.old.waiting }
        ensures rest { self.new.waiting ≡ drop result self.old.waiting }
        ensures queued { queued self.new ≡ queued self.old }
        ensures free { self.old.free ≤ self.new.free + result }
        ensures full { result < length self.old.waiting → self.new.free ≡ 0 }
    {
        let free = self.ring.slots();
        fill(&mut self.ring, &mut self.waiting, free)
    }
}

/// Moves the frames that wait first into the ring, at most as many as slots are known to be free.
pub(crate) fn fill(ring: &mut Producer<Frame>, waiting: &mut VecDeque<Frame>, free: usize) -> usize
    requires { free ≡ known_free ring.old }
    ensures ring { SameProducer ring.old ring.new }
    ensures count { result ≡ min free (deque_len waiting.old) }
    ensures pushed { sent ring.new ≡ sent ring.old ++ take result waiting.old.items }
    ensures rest { waiting.new.items ≡ drop result waiting.old.items }
    ensures free { known_free ring.new + result ≡ known_free ring.old }
{
    let count = free.min(waiting.len());
    for _ in 0..count {
        let Some(frame) = waiting.pop_front() else {
            unreachable!()
        };
        ring.push_reserved(frame);
    }
    count
}
