//! The ends of a node's links, in a turn.

ghost use Rattle.std.specs.Prelude.{◌≡◌, ◌<◌, ◌≤◌, List, length, IfSome, IfNone};
ghost use Rattle.link_faults.specs.Faults.{Holding};
ghost use Rattle.node_actor.specs.Lanes.{links_of, lanes};
ghost use Rattle.node_actor.specs.inside.Reacting.{IsPulled};

use node_links::{Frame, LinkIn, LinkOut};

/// Moves into each ring what it has room for.
pub fn push_all(outs: &mut [LinkOut])
    ensures links { links_of outs.new ≡ links_of outs.old }
    ensures queued { (faults : List Holding) → lanes outs.new faults ≡ lanes outs.old faults }
{
    for place in 0..outs.len() {
        let _moved = outs[place].push_some();
    }
}

/// The first frame that a link gives, and the place of the node that it is from: the links are asked in the order of nodes, round
/// from this place. None where no link gives one.
pub fn pull_first(ins: &mut [LinkIn], next: usize) -> Option<(usize, Frame)>
    ensures some { IfSome result (λ pulled. IsPulled ins.old ins.new pulled.0 pulled.1) }
    ensures none { IfNone result (ins.new ≡ ins.old) }
{
    let count = ins.len();
    let first = if next < count { next } else { 0 };
    if let Some(pulled) = pull_between(ins, first, count) {
        return Some(pulled);
    }
    pull_between(ins, 0, first)
}

/// The first frame that a link from a node at these places gives.
fn pull_between(ins: &mut [LinkIn], from: usize, end: usize) -> Option<(usize, Frame)>
    requires { end ≤ length ins.old }
    ensures some { IfSome result (λ pulled. IsPulled ins.old ins.new pulled.0 pulled.1) }
    ensures none { IfNone result (ins.new ≡ ins.old) }
{
    for place in from..end {
        match pull_at(ins, place) {
            Some(frame) => return Some((place, frame)),
            None => {}
        }
    }
    None
}

/// The next frame of the link from the node at a place.
pub fn pull_at(ins: &mut [LinkIn], place: usize) -> Option<Frame>
    requires { place < length ins.old }
    ensures some { IfSome result (λ frame. IsPulled ins.old ins.new place frame) }
    ensures none { IfNone result (ins.new ≡ ins.old) }
{
    ins[place].pull()
}
