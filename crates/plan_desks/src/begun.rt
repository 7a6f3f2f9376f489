//! Desks, and submitters of them.

ghost use Rattle.std.specs.Prelude.{◌≡◌, ◌<◌, ◌≤◌, ℕ, IfOk, OnOk, length, map};
ghost use Rattle.std.specs.List.{AllByRecursion, AllZip};
ghost use Rattle.msg_wire.specs.Valid.{IsValidPlan};
ghost use Rattle.plan_desks.specs.Desks.{AreBegun, AreBodies, AreOfClients, HasRoom, IsTaking};

use crate::bodies::bodies_of;
use cluster_users::Submitter;
use msg_wire::Plan;
use quota_table::OutOfMemory;
use record_codec::Body;
use std::alloc::Global;
use std::collections::VecDeque;
use std::sync::Wait;
use submit_desk::{Desk, DeskPass};

/// So many bodies lie on a desk at most.
pub const ROOM: usize = 64;

/// The pass that takes from a client's desk.
#[derive(Drop)]
pub struct Taker {
    /// The client's number, 0 to 5.
    pub client: u8,
    pub pass: DeskPass,
}

/// The desks of a plan's clients and the submitters, as a run begins.
#[derive(Drop)]
pub struct Begun {
    /// The desk of each client, at its number.
    pub desks: Vec<Desk>,
    /// The taking pass of each.
    pub takers: Vec<Taker>,
    /// The submitters, by their numbers, each with all its bodies and its pass.
    pub submitters: Vec<Submitter>,
}

/// The desks and the submitters of a plan's run.
pub fn begin<R: Wait>(rt: &R, alloc: Global, plan: &Plan) -> Result<Begun, OutOfMemory>
    requires { IsValidPlan plan.now }
    ensures desks { IfOk result (λ begun. length begun.desks.items ≡ length plan.now.cfg.homes) }
    ensures room { IfOk result (λ begun. AllByRecursion HasRoom begun.desks.items) }
    ensures takers { IfOk result (λ begun. AllZip (IsTaking (length plan.now.submitters)) begun.desks.items begun.takers.items) }
    ensures clients { IfOk result (λ begun. AreOfClients 0 begun.takers.items) }
    ensures submitters { IfOk result (λ begun. AreBegun begun.desks.items plan.now.lines 0 plan.now.submitters begun.submitters.items) }
{
    let bodies = bodies_of(alloc, plan.submitters.len(), plan.lines.as_slice())?;
    let (desks, mut takers) = desks_for(alloc, plan.cfg.homes.len() as u8)?;
    let submitters = submitters_of(
        rt,
        alloc,
        plan.submitters.as_slice(),
        desks.as_slice(),
        takers.as_mut_slice(),
        bodies,
    )?;
    Ok(Begun {
        desks,
        takers,
        submitters,
    })
}

/// So many desks with their taking passes.
fn desks_for(alloc: Global, clients: u8) -> Result<(Vec<Desk>, Vec<Taker>), OutOfMemory>
    ensures count { IfOk result (λ made. length made.0.items ≡ clients) }
    ensures room { IfOk result (λ made. AllByRecursion HasRoom made.0.items) }
    ensures takers { IfOk result (λ made. AllZip (IsTaking 0) made.0.items made.1.items) }
    ensures clients { IfOk result (λ made. AreOfClients 0 made.1.items) }
{
    let mut desks = Vec::with_capacity(alloc, usize::from(clients))?;
    let mut takers = Vec::with_capacity(alloc, usize::from(clients))?;
    for client in 0..clients {
        let (desk, pass) = Desk::new(alloc, ROOM)?;
        desks.push(desk)?;
        takers.push(Taker { client, pass })?;
    }
    Ok((desks, takers))
}

/// The submitters of these clients, with their bodies. Each has a pass of its client's desk.
fn submitters_of<R: Wait>(
    rt: &R,
    alloc: Global,
    clients: &[u8],
    desks: &[Desk],
    takers: &mut [Taker],
    bodies: Vec<VecDeque<Body>>,
) -> Result<Vec<Submitter>, OutOfMemory>
    requires few { length clients.now ≤ 8 }
    requires each { length bodies.items ≡ length clients.now }
    requires clients { AllByRecursion (λ client. client < length desks.now) clients.now }
    requires takers { AllZip (IsTaking 0) desks.now takers.old }
    ensures takers { OnOk result (AllZip (IsTaking (length clients.now)) desks.now takers.new) }
    ensures same { OnOk result ((number : ℕ) → AreOfClients number takers.old → AreOfClients number takers.new) }
    ensures submitters { IfOk result (λ all. (lines : _) → AreBodies lines 0 (map (λ q. q.items) bodies.items)
        → AreBegun desks.now lines 0 clients.now all.items) }
{
    let mut submitters = Vec::with_capacity(alloc, clients.len())?;
    for held in bodies {
        let number = submitters.len();
        let client = clients[number];
        let place = usize::from(client);
        let pass = desks[place].split(rt, &mut takers[place].pass, number as u8);
        submitters.push(Submitter::new(number as u8, client, pass, held))?;
    }
    Ok(submitters)
}
