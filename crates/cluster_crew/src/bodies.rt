//! The bodies that clients take as the drain begins.
ghost use Rattle.std.specs.Prelude.{◌≡◌, ◌⊎◌, ◌+◌, ◌<◌, ◌≤◌, [], None, length};
ghost use Rattle.cluster_crew.specs.Posts.{CanSubmit, CanTurn, IsWanting, Stays};
ghost use Rattle.cluster_crew.specs.Crews.{CanJoin, MembersStay};

use crate::member::Member;
use net_model::{NodeModel, Viewed};
use record_codec::Body;
use spec_base::{Disk, NodeId};
use std::collections::VecDeque;
use std::sync::Wait;
use submit_desk::Desk;

/// Each client takes its bodies: at most so many inputs. How many are left. It ends where a node stops. `clients` has the client of each
/// submitter, and `held` what it still holds.
pub(crate) fn take_bodies<R: Wait, N: NodeModel + Viewed + Drop, D: Disk + Drop, P: Wait + Drop>(
    rt: &R,
    members: &mut [Member<N, D, P>],
    desks: &[Desk],
    clients: &[u8],
    held: &mut [VecDeque<Body>],
    limit: u32,
) -> u32
    requires at { CanJoin ⟦<N as NodeModel>⟧ ⟦<D as Disk>⟧ desks.now members.old }
    requires few { length held.old ≤ 8 }
    ensures members { MembersStay ⟦<N as NodeModel>⟧ ⟦<D as Disk>⟧ members.old members.new }
    ensures left { result ≤ limit }
{
    let mut left = limit;
    for place in 0..members.len() {
        if !members[place].goes_on() {
            return left;
        }
        left = members[place].take_all(rt, desks, clients, held, left);
    }
    left
}

impl<N: NodeModel + Viewed + Drop, D: Disk + Drop, P: Wait + Drop> Member<N, D, P> {
    /// A client takes all that lies on its desk, and then what its submitters still hold: at most so many inputs. How many are left.
    fn take_all<R: Wait>(
        &mut self,
        rt: &R,
        desks: &[Desk],
        clients: &[u8],
        held: &mut [VecDeque<Body>],
        most: u32,
    ) -> u32
        requires at { CanTurn ⟦<N as NodeModel>⟧ ⟦<D as Disk>⟧ desks.now self.old }
        requires few { length held.old ≤ 8 }
        ensures stays { Stays ⟦<N as NodeModel>⟧ ⟦<D as Disk>⟧ self.old self.new }
        ensures left { result ≤ most }
    {
        let NodeId::Client(number) = self.actor.name() else {
            return most;
        };
        let mut left = self.empty_desk(rt, desks, most);
        for by in 0..held.len() {
            if clients.get(by) == Some(&number) {
                left = self.take_held(by as u8, &mut held[by], left);
            }
        }
        left
    }

    /// A client takes all that lies on its desk, at most so many bodies. How many are left to it.
    fn empty_desk<R: Wait>(&mut self, rt: &R, desks: &[Desk], most: u32) -> u32
        requires { CanTurn ⟦<N as NodeModel>⟧ ⟦<D as Disk>⟧ desks.now self.old }
        ensures stays { Stays ⟦<N as NodeModel>⟧ ⟦<D as Disk>⟧ self.old self.new }
        ensures left { result ≤ most }
    {
        for taken in 0..most {
            if !self.goes_on() {
                return most - taken;
            }
            if !self.take_body(rt, desks) {
                return most - taken;
            }
        }
        0
    }

    /// A client takes what a submitter still holds, at most so many bodies. How many are left to it.
    fn take_held(&mut self, by: u8, held: &mut VecDeque<Body>, most: u32) -> u32
        requires at { CanSubmit ⟦<N as NodeModel>⟧ ⟦<D as Disk>⟧ self.old }
        requires by { by ≤ 7 }
        ensures stays { Stays ⟦<N as NodeModel>⟧ ⟦<D as Disk>⟧ self.old self.new }
        ensures left { result ≤ most }
        ensures count { result + length held.old.items ≡ most + length held.new.items }
        ensures all { (self.new.actor.stopped ≡ None) → 0 < result → IsWanting self.new.side ⊎ (held.new.items ≡ []) }
    {
        for taken in 0..most {
            if !self.goes_on() {
                return most - taken;
            }
            let Some(body) = held.pop_front() else {
                return most - taken;
            };
            self.submit(by, body);
        }
        0
    }
}
