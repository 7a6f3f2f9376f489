ghost use Rattle.std.specs.Prelude.{◌≡◌, ◌<◌, ◌++◌, ◌∷◌, [], None, IfOk, OnOk, OnErr};
ghost use Rattle.node_links.specs.Links.{queued};
ghost use Rattle.link_faults.specs.Faults.{cut_frame, held_frames, queued_by, held_by, words_of, next_fate, after_word, what_is_queued, IsBegun, all_before, AreAmong};

use crate::fate::{Fate, fate_of};
use crate::plan::FaultPlan;
use node_links::{Frame, LinkOut};
use quota_table::OutOfMemory;
use rand_core::SeedableRng;
use rand_core::utils::NextWord;
use rand_pcg::Pcg32;
use std::marker::Model;

/// What stands between a node and one of its links: the words of that link, and the frame that is held. Contracts see the two.
#[derive(Drop)]
pub struct LinkFaults {
    words: Pcg32,
    held: Option<Frame>,
}

impl Model for LinkFaults {
    ghost use Rattle.link_faults.specs.Faults.{Holding};

    ghost Value = { Holding };

    ghost view = { λ f. record { words = f.words; held = f.held } };
}

impl LinkFaults {
    /// The faults of the link from the node at a place of the order of nodes to the one at another, both below 32: nothing is
    /// held, and the words begin.
    pub fn new(seed: u32, from: usize, to: usize) -> LinkFaults
        requires from { from < 32 }
        requires to { to < 32 }
        ensures { result ≡ record { words = words_of seed from to; held = None } }
    {
        let number = u64::from(seed) * 1024 + 32 * from as u64 + to as u64;
        LinkFaults {
            words: Pcg32::seed_from_u64(number),
            held: None,
        }
    }

    /// Takes the link's next word, and does with the frame what it says: it is lost, queued once, twice or cut, or held. Then the
    /// frame that was held is queued.
    ///
    /// At an error only a beginning of these is queued, and the others are lost. Whatever is queued or held then is one of the frames
    /// that were there before, or this one, whole or cut.
    pub fn send(
        &mut self,
        plan: &FaultPlan,
        out: &mut LinkOut,
        frame: Frame,
    ) -> Result<(), OutOfMemory>
        ensures link { out.new.link ≡ out.old.link }
        ensures words { self.new.words ≡ after_word self.old.words }
        ensures held { self.new.held ≡ held_by (next_fate plan.now self.old) frame }
        ensures ok { OnOk result (queued out.new ≡ queued out.old ++ what_is_queued (next_fate plan.now self.old) frame self.old.held) }
        ensures begun { IsBegun (queued out.old) (queued out.new) (what_is_queued (next_fate plan.now self.old) frame self.old.held) }
        ensures among { AreAmong (all_before (queued out.old) self.old.held frame) (queued out.new ++ held_frames self.new.held) }
    {
        let fate = fate_of(plan, self.words.next_word());
        let held = self.held.take();
        self.held = queue_by(fate, out, frame)?;
        queue_held(out, held)
    }

    /// Queues the frame that is held, if there is one, and holds none. At an error it is lost.
    pub fn release(&mut self, out: &mut LinkOut) -> Result<(), OutOfMemory>
        ensures link { out.new.link ≡ out.old.link }
        ensures none { self.new ≡ record self.old { held = None } }
        ensures ok { OnOk result (queued out.new ≡ queued out.old ++ held_frames self.old.held) }
        ensures err { OnErr result (queued out.new ≡ queued out.old) }
    {
        queue_held(out, self.held.take())
    }
}

/// Queues a frame as often as its fate says, and gives it back where it is to be held.
fn queue_by(fate: Fate, out: &mut LinkOut, frame: Frame) -> Result<Option<Frame>, OutOfMemory>
    ensures link { out.new.link ≡ out.old.link }
    ensures ok { OnOk result (queued out.new ≡ queued out.old ++ queued_by fate frame) }
    ensures held { IfOk result (λ held. held ≡ held_by fate frame) }
    ensures none_held { OnErr result (held_by fate frame ≡ None) }
    ensures begun { IsBegun (queued out.old) (queued out.new) (queued_by fate frame) }
{
    match fate {
        Fate::Lost => Ok(None),
        Fate::Late => Ok(Some(frame)),
        Fate::Once => queue(out, frame),
        Fate::Cut => queue(out, cut(frame)),
        Fate::Twice => {
            let again = frame.clone()?;
            queue(out, frame)?;
            queue(out, again)
        }
    }
}

/// Queues a frame, and holds none.
#[tactic(auto, using(std::proofs::Common::append_assoc))]
fn queue(out: &mut LinkOut, frame: Frame) -> Result<Option<Frame>, OutOfMemory>
    ensures link { out.new.link ≡ out.old.link }
    ensures ok { OnOk result (queued out.new ≡ queued out.old ++ frame ∷ []) }
    ensures none { IfOk result (λ held. held ≡ None) }
    ensures err { OnErr result (queued out.new ≡ queued out.old) }
{
    out.queue(frame)?;
    Ok(None)
}

/// Queues the frame that was held, if there is one.
fn queue_held(out: &mut LinkOut, held: Option<Frame>) -> Result<(), OutOfMemory>
    ensures link { out.new.link ≡ out.old.link }
    ensures ok { OnOk result (queued out.new ≡ queued out.old ++ held_frames held) }
    ensures err { OnErr result (queued out.new ≡ queued out.old) }
    ensures begun { IsBegun (queued out.old) (queued out.new) (held_frames held) }
{
    if let Some(frame) = held {
        let _none = queue(out, frame)?;
    }
    Ok(())
}

/// A frame without its last byte.
fn cut(mut frame: Frame) -> Frame
    ensures { result ≡ cut_frame frame }
{
    let len = frame.bytes.len();
    frame.bytes.truncate(len.saturating_sub(1));
    frame
}
