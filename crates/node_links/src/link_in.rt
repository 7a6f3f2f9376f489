ghost use Rattle.std.specs.Prelude.{◌≡◌, ◌+◌, ◌<◌, [], ◌∷◌, ◌++◌, length, IfSome, IfNone, OnOk, OnErr};
ghost use mathlib.Core.List.{IsPrefix};

use crate::frame::Frame;
use quota_table::OutOfMemory;
use rtrb::Consumer;
use std::collections::VecDeque;
use std::marker::Model;

/// The receiving end of a link. Contracts see which link it is, what was pulled and what waits, as far as this end knows.
#[derive(Drop)]
pub struct LinkIn {
    pub(crate) ring: Consumer<Frame>,
    // Out of the ring, and not yet pulled.
    pub(crate) ready: VecDeque<Frame>,
}

impl Model for LinkIn {
    ghost use Rattle.std.specs.Prelude.{◌≡◌, ◌++◌};
    ghost use Rattle.rtrb.specs.Ring.{received, known_items};
    ghost use Rattle.node_links.specs.Links.{Receiving, link_of, gone_on};

    ghost Value = { Receiving };

    ghost view = { λ i.
        record { link = link_of i.ring.end; received = gone_on (received i.ring) i.ready.items; waiting = i.ready.items ++ known_items i.ring } };

    ghost invariant = { λ i. received i.ring ≡ gone_on (received i.ring) i.ready.items ++ i.ready.items };
}

impl LinkIn {
    /// The oldest frame that was not pulled yet. None only where no frame is known to wait. It takes no memory.
    pub fn pull(&mut self) -> Option<Frame>
        ensures link { self.new.link ≡ self.old.link }
        ensures some { IfSome result (λ frame. self.new.received ≡ self.old.received ++ frame ∷ []) }
        ensures known { IfSome result (λ frame. IsPrefix self.old.waiting (frame ∷ self.new.waiting)) }
        ensures exact { IfSome result (λ frame. 0 < length self.old.waiting → self.old.waiting ≡ frame ∷ self.new.waiting) }
        ensures none { IfNone result ((self.new.received ≡ self.old.received) × (self.old.waiting ≡ []) × (self.new.waiting ≡ [])) }
    {
        if let Some(frame) = self.ready.pop_front() {
            return Some(frame);
        }
        if self.ring.cached_slots() > 0 {
            return Some(self.ring.pop_known());
        }
        self.ring.pop().ok()
    }

    /// Pulls all frames that are known to wait, and puts them at the end of `frames`, in order. At an error none was pulled.
    pub fn pull_waiting(&mut self, frames: &mut Vec<Frame>) -> Result<(), OutOfMemory>
        ensures link { self.new.link ≡ self.old.link }
        ensures frames { OnOk result (frames.new.items ≡ frames.old.items ++ self.old.waiting) }
        ensures received { OnOk result (self.new.received ≡ self.old.received ++ self.old.waiting) }
        ensures none_left { OnOk result (self.new.waiting ≡ []) }
        ensures err { OnErr result ((self.new ≡ self.old) × (frames.new.items ≡ frames.old.items)) }
    {
        let count = self.waiting();
        frames.reserve(count)?;
        for _ in 0..count {
            let Some(frame) = self.pull() else {
                unreachable!()
            };
            frames.push_reserved(frame);
        }
        Ok(())
    }

    /// How many frames are known to wait: so many pulls give one each. More may have come since this end last looked.
    pub fn waiting(&self) -> usize
        ensures { result ≡ length self.now.waiting }
    {
        self.ready.len() + self.ring.cached_slots()
    }
}
