ghost use Rattle.std.specs.Prelude.{◌≡◌, []};
ghost use Rattle.submit_desk.specs.Passes.{submitter};
ghost use Rattle.cluster_users.specs.Submitting.{Submits, submitting};

use crate::gate::{Actor, Environment, Gate};
use record_codec::Body;
use scoped_turns::TakesTurns;
use std::collections::VecDeque;
use std::marker::Model;
use std::sync::Wait;
use submit_desk::{Desk, DeskItem, DeskPass, Full};

/// Submits bodies to the desk of one client, in order, one a turn. It needs no memory.
#[derive(Drop)]
pub struct Submitter {
    number: u8,
    client: u8,
    pass: DeskPass,
    /// How many it has submitted.
    count: u64,
    /// What it still holds, the next one first.
    held: VecDeque<Body>,
}

impl Model for Submitter {
    ghost use Rattle.std.specs.VecDeque.{deque_len};
    ghost use Rattle.cluster_users.specs.Submitting.{Submitting};
    ghost use Rattle.cluster_users.specs.inside.Submitters.{IsSubmitter};

    ghost Value = { Submitting };

    ghost view = { λ s. record { number = s.number; client = s.client; desk = s.pass.desk; put = s.pass.knows.put; held = s.held.items } };

    ghost invariant = { λ s. IsSubmitter s.number s.pass.knows s.count (deque_len s.held) };
}

impl Submitter {
    /// A submitter of a client, with its pass, which has submitted nothing, and all its bodies in order.
    pub fn new(number: u8, client: u8, pass: DeskPass, bodies: VecDeque<Body>) -> Submitter
        requires { pass.knows ≡ submitter number [] }
        ensures { result ≡ submitting number client pass.desk bodies.items }
    {
        Submitter {
            number,
            client,
            pass,
            count: 0,
            held: bodies,
        }
    }

    /// Submits the next body, if one is left. Where the desk is full it keeps the body.
    fn submit_next<R: Wait>(&mut self, rt: &R, desk: &Desk)
        requires { self.old.desk ≡ desk.now.desk }
        ensures { Submits 1 self.old self.new }
    {
        let Some(body) = self.held.pop_front() else {
            return;
        };
        let item = DeskItem {
            by: self.number,
            number: self.count,
            body,
        };
        match desk.submit(rt, &mut self.pass, item) {
            Ok(()) => self.count += 1,
            Err(Full(item)) => {
                let DeskItem {
                    by: _,
                    number: _,
                    body,
                } = item;
                self.held.push_front_reserved(body);
            }
        }
    }

    /// What it still holds, in order, and its pass.
    pub fn into_parts(self) -> (DeskPass, VecDeque<Body>)
        ensures pass { (result.0.desk ≡ self.desk) × (result.0.knows ≡ submitter self.number self.put) }
        ensures held { result.1.items ≡ self.held }
    {
        let Self {
            number: _,
            client: _,
            pass,
            count: _,
            held,
        } = self;
        (pass, held)
    }
}

impl<'a, R: Wait, G: Gate> TakesTurns<Environment<'a, R, G>> for Submitter {
    ghost use Rattle.cluster_users.specs.Submitting.{Submits, HasDesk};

    ghost ready = { λ env s. HasDesk env.desks.now s };

    ghost took = { λ env turns before after. Submits turns before after };

    fn take_turns(mut self, env: &Environment<'a, R, G>, turns: u32) -> Submitter {
        let Some(desk) = env.desk(self.client) else {
            unreachable!()
        };
        for turn in 0..turns {
            env.gate.pass(
                Actor::Submitter {
                    number: self.number,
                },
                turn,
            );
            self.submit_next(env.rt, desk);
        }
        self
    }
}
