//! Drains of five toys: what each node took and in which order, how many inputs were counted, and why a drain ended.

ghost use Rattle.std.specs.Prelude.{IfOk};
ghost use Rattle.cluster_drain.specs.Drains.{CanDrain};

use crate::{Early, drain};
use cluster_seats::toys::{Toy, toys};
use life_tables::tell_node;
use msg_wire::Event;
use net_model::{Journal, NodeModel};
use node_actor::NodeActor;
use spec_base::MemDisk;
use std::alloc::Global;
use std::fmt::Write;
use std::test::Fail;

/// The nodes: q0, s0p, s0b, c0 and k0.
///
/// At a tick each asks q0 for 2; q0 asks back for 1; the node asks q0 for 0. So a tick brings three frames.
fn nodes(alloc: Global) -> Result<Vec<NodeActor<Toy, MemDisk>>, Fail>
    ensures { IfOk result (λ actors. CanDrain ⟦<Toy as NodeModel>⟧ actors.items) }
{
    toys(alloc)
}

/// What a node took, in its order: t for a tick, and the sender of a message.
fn tell_steps(text: &mut String, journal: &Journal) -> Result<(), Fail> {
    for step in journal.steps() {
        match &step.entry.event {
            Event::Tick => write!(text, "t ")?,
            Event::Deliver(message) => {
                tell_node(text, message.from)?;
                write!(text, " ")?;
            }
            _ => write!(text, "? ")?,
        }
    }
    write!(text, "| ")?;
    Ok(())
}

fn tell_all(text: &mut String, actors: &[NodeActor<Toy, MemDisk>]) -> Result<(), Fail> {
    for actor in actors {
        tell_steps(text, actor.journal())?;
    }
    Ok(())
}

/// Drains, and tells how many inputs it took, why it ended early, and what each node took so far.
fn drained(
    text: &mut String,
    actors: &mut [NodeActor<Toy, MemDisk>],
    limit: u32,
    settle: u32,
) -> Result<(), Fail>
    requires { CanDrain ⟦<Toy as NodeModel>⟧ actors.old }
    ensures { CanDrain ⟦<Toy as NodeModel>⟧ actors.new }
{
    let drained = drain(actors, limit, settle);
    let end = match drained.early {
        None => "quiet",
        Some(Early::Limit) => "limit",
        Some(Early::Stopped) => "stopped",
        Some(Early::Memory) => "memory",
    };
    write!(text, "{} {}: ", drained.inputs, end)?;
    tell_all(text, actors)
}

/// A limit, how many rounds, and what is then told of nodes that took nothing before.
const DRAINS: [(u32, u32, &str); 9] = [
    (9, 0, "0 quiet: | | | | | "),
    (0, 0, "0 limit: | | | | | "),
    (0, 1, "0 limit: | | | | | "),
    (3, 1, "3 limit: t | t | t | | | "),
    (5, 1, "5 limit: t | t | t | t | t | "),
    // all that is queued for q0 on the link from a node is taken before the link from the next one
    (8, 1, "8 limit: t q0 s0p s0b | t | t | t | t | "),
    // the last input is the limit, though it leaves no frame
    (
        20,
        1,
        "20 limit: t q0 s0p s0b c0 k0 q0 s0p s0b c0 k0 q0 | t q0 | t q0 | t q0 | t q0 | ",
    ),
    (
        21,
        1,
        "20 quiet: t q0 s0p s0b c0 k0 q0 s0p s0b c0 k0 q0 | t q0 | t q0 | t q0 | t q0 | ",
    ),
    (
        41,
        2,
        "40 quiet: t q0 s0p s0b c0 k0 q0 s0p s0b c0 k0 q0 t q0 s0p s0b c0 k0 q0 s0p s0b c0 k0 q0 | t q0 t q0 | t q0 t q0 | t q0 t q0 | t q0 t q0 | ",
    ),
];

#[test]
fn frames_are_taken_node_by_node_and_link_by_link(rt: HostRuntime) -> Result<(), Fail> {
    let alloc = rt.alloc();
    for (limit, settle, wanted) in DRAINS {
        let mut actors = nodes(alloc)?;
        let mut text = String::new(alloc);
        drained(&mut text, &mut actors, limit, settle)?;
        assert_eq!(rt; text.as_str(), wanted);
    }
    Ok(())
}

#[test]
fn a_drain_takes_what_an_earlier_one_left(rt: HostRuntime) -> Result<(), Fail> {
    let alloc = rt.alloc();
    let mut actors = nodes(alloc)?;
    let mut text = String::new(alloc);
    drained(&mut text, &mut actors, 5, 1)?;
    text.clear();
    drained(&mut text, &mut actors, 99, 0)?;
    assert_eq!(rt;
        text.as_str(),
        "15 quiet: t q0 s0p s0b c0 k0 q0 s0p s0b c0 k0 q0 | t q0 | t q0 | t q0 | t q0 | "
    );
    Ok(())
}
