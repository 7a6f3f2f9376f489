ghost use Rattle.std.specs.Prelude.{◌≡◌, ◌<◌, ◌≤◌, ◌-◌, length, None, IsTrue, IsFalse};
ghost use Rattle.node_seats.specs.Seats.{AreGoing};
ghost use Rattle.cluster_drain.specs.Drains.{CanDrain, Drains, EndsSo, TookInputs, TookTicks};
ghost use Rattle.cluster_drain.specs.inside.Runs.{CanRun, GoesOn, IsCounted, IsLinkIn, Runs, at_only, each, ticks_told};

use crate::drained::{Drained, Early};
use crate::links::settle_link;
use net_model::NodeModel;
use node_actor::{NodeActor, Taken};
use spec_base::Disk;

/// Takes all frames, node by node in order and link by link, until none is left; then `settle` times a tick of each node in order,
/// and all frames as before. It takes at most `limit` inputs, which are steps: a frame that brings no message is none.
/// Where a node is stopped it ends at once.
pub fn drain<N: NodeModel + Drop, D: Disk + Drop>(
    actors: &mut [NodeActor<N, D>],
    limit: u32,
    settle: u32,
) -> Drained
    requires { CanDrain ⟦<N as NodeModel>⟧ actors.old }
    ensures drains { Drains ⟦<N as NodeModel>⟧ ⟦<D as Disk>⟧ actors.old actors.new }
    ensures inputs { TookInputs result.inputs actors.old actors.new }
    ensures at_most { result.inputs ≤ limit }
    ensures ends { EndsSo result.early (limit - result.inputs) actors.new }
    ensures ticks { result.early ≡ None → TookTicks settle actors.old actors.new }
{
    let mut left = limit;
    let early = match drain_left(actors, settle, &mut left) {
        Ok(()) => None,
        Err(early) => Some(early),
    };
    Drained {
        inputs: limit - left,
        early,
    }
}

/// Whether no node is stopped.
fn are_going<N: NodeModel + Drop, D: Disk + Drop>(actors: &[NodeActor<N, D>]) -> bool
    ensures going { IsTrue result → AreGoing actors.now }
    ensures stopped { IsFalse result → AreGoing actors.now → ⊥ }
{
    for place in 0..actors.len() {
        match actors[place].stopped() {
            None => {}
            Some(_) => return false,
        }
    }
    true
}

/// The same, where so many inputs are left.
fn drain_left<N: NodeModel + Drop, D: Disk + Drop>(
    actors: &mut [NodeActor<N, D>],
    settle: u32,
    left: &mut u32,
) -> Result<(), Early>
    requires { CanDrain ⟦<N as NodeModel>⟧ actors.old }
    ensures { Runs ⟦<N as NodeModel>⟧ ⟦<D as Disk>⟧ (each settle) result left.old left.new actors.old actors.new }
{
    if *left == 0 {
        return Err(Early::Limit);
    }
    if !are_going(actors) {
        return Err(Early::Stopped);
    }
    drain_all(actors, settle, left)
}

/// The same, where no node is stopped and an input is left.
fn drain_all<N: NodeModel + Drop, D: Disk + Drop>(
    actors: &mut [NodeActor<N, D>],
    settle: u32,
    left: &mut u32,
) -> Result<(), Early>
    requires { CanRun ⟦<N as NodeModel>⟧ left.old actors.old }
    ensures { Runs ⟦<N as NodeModel>⟧ ⟦<D as Disk>⟧ (each settle) result left.old left.new actors.old actors.new }
{
    take_frames(actors, left)?;
    for _round in 0..settle {
        take_round(actors, left)?;
    }
    Ok(())
}

/// A tick of each node, and all frames.
fn take_round<N: NodeModel + Drop, D: Disk + Drop>(
    actors: &mut [NodeActor<N, D>],
    left: &mut u32,
) -> Result<(), Early>
    requires { CanRun ⟦<N as NodeModel>⟧ left.old actors.old }
    ensures { Runs ⟦<N as NodeModel>⟧ ⟦<D as Disk>⟧ (each 1) result left.old left.new actors.old actors.new }
{
    at_all(actors, Part::Tick, left)?;
    take_frames(actors, left)
}

/// Takes all frames. A pass over the links that takes no input leaves none, since then no node sends.
fn take_frames<N: NodeModel + Drop, D: Disk + Drop>(
    actors: &mut [NodeActor<N, D>],
    left: &mut u32,
) -> Result<(), Early>
    requires { CanRun ⟦<N as NodeModel>⟧ left.old actors.old }
    ensures { Runs ⟦<N as NodeModel>⟧ ⟦<D as Disk>⟧ (each 0) result left.old left.new actors.old actors.new }
{
    loop {
        let before = *left;
        at_all(actors, Part::Frames, left)?;
        if *left == before {
            return Ok(());
        }
    }
}

/// What nodes are told in turn.
#[derive(Clone, Copy)]
enum Part {
    /// To take a tick.
    Tick,
    /// To take all frames that are queued for them.
    Frames,
}

/// Each node does its part, in order.
fn at_all<N: NodeModel + Drop, D: Disk + Drop>(
    actors: &mut [NodeActor<N, D>],
    part: Part,
    left: &mut u32,
) -> Result<(), Early>
    requires { CanRun ⟦<N as NodeModel>⟧ left.old actors.old }
    ensures { Runs ⟦<N as NodeModel>⟧ ⟦<D as Disk>⟧ (each (ticks_told part)) result left.old left.new actors.old actors.new }
{
    for place in 0..actors.len() {
        at_one(actors, place, part, left)?;
    }
    Ok(())
}

/// One node does its part.
fn at_one<N: NodeModel + Drop, D: Disk + Drop>(
    actors: &mut [NodeActor<N, D>],
    place: usize,
    part: Part,
    left: &mut u32,
) -> Result<(), Early>
    requires can { CanRun ⟦<N as NodeModel>⟧ left.old actors.old }
    requires place { place < length actors.old }
    ensures { Runs ⟦<N as NodeModel>⟧ ⟦<D as Disk>⟧ (at_only (ticks_told part) place) result left.old left.new actors.old actors.new }
{
    match part {
        Part::Tick => tick_one(actors, place, left),
        Part::Frames => take_from_all(actors, place, left),
    }
}

/// Takes all frames that are queued for one node, link by link.
fn take_from_all<N: NodeModel + Drop, D: Disk + Drop>(
    actors: &mut [NodeActor<N, D>],
    to: usize,
    left: &mut u32,
) -> Result<(), Early>
    requires can { CanRun ⟦<N as NodeModel>⟧ left.old actors.old }
    requires to { to < length actors.old }
    ensures { Runs ⟦<N as NodeModel>⟧ ⟦<D as Disk>⟧ (each 0) result left.old left.new actors.old actors.new }
{
    for from in 0..actors.len() {
        take_link(actors, Link { from, to }, left)?;
    }
    Ok(())
}

/// The link from the node at a place to the one at another.
#[derive(Clone, Copy)]
struct Link {
    from: usize,
    to: usize,
}

/// Takes all frames that are queued on one link.
fn take_link<N: NodeModel + Drop, D: Disk + Drop>(
    actors: &mut [NodeActor<N, D>],
    link: Link,
    left: &mut u32,
) -> Result<(), Early>
    requires can { CanRun ⟦<N as NodeModel>⟧ left.old actors.old }
    requires link { IsLinkIn actors.old link }
    ensures { Runs ⟦<N as NodeModel>⟧ ⟦<D as Disk>⟧ (each 0) result left.old left.new actors.old actors.new }
{
    let Link { from, to } = link;
    if settle_link(actors, from, to).is_err() {
        return Err(Early::Memory);
    }
    let count = actors[to].waiting(from);
    for _frame in 0..count {
        take_frame(actors, link, left)?;
    }
    Ok(())
}

/// Takes the next frame of a link.
fn take_frame<N: NodeModel + Drop, D: Disk + Drop>(
    actors: &mut [NodeActor<N, D>],
    link: Link,
    left: &mut u32,
) -> Result<(), Early>
    requires can { CanRun ⟦<N as NodeModel>⟧ left.old actors.old }
    requires link { IsLinkIn actors.old link }
    ensures { Runs ⟦<N as NodeModel>⟧ ⟦<D as Disk>⟧ (each 0) result left.old left.new actors.old actors.new }
{
    match actors[link.to].take_frame_from(link.from) {
        Taken::Input => count_input(left),
        Taken::NoInput | Taken::Nothing => go_on(&actors[link.to]),
    }
}

/// Whether a node is not stopped.
fn go_on<N: NodeModel + Drop, D: Disk + Drop>(actor: &NodeActor<N, D>) -> Result<(), Early>
    ensures { GoesOn result actor.now }
{
    match actor.stopped() {
        None => Ok(()),
        Some(_) => Err(Early::Stopped),
    }
}

fn tick_one<N: NodeModel + Drop, D: Disk + Drop>(
    actors: &mut [NodeActor<N, D>],
    place: usize,
    left: &mut u32,
) -> Result<(), Early>
    requires can { CanRun ⟦<N as NodeModel>⟧ left.old actors.old }
    requires place { place < length actors.old }
    ensures { Runs ⟦<N as NodeModel>⟧ ⟦<D as Disk>⟧ (at_only 1 place) result left.old left.new actors.old actors.new }
{
    if !actors[place].tick() {
        return Err(Early::Stopped);
    }
    count_input(left)
}

/// One input was taken.
fn count_input(left: &mut u32) -> Result<(), Early>
    requires { 0 < left.old }
    ensures { IsCounted result left.old left.new }
{
    *left -= 1;
    if *left == 0 {
        return Err(Early::Limit);
    }
    Ok(())
}
