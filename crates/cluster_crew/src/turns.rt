//! The turns of members in an episode.

use crate::member::Member;
use cluster_users::{Actor, Environment, Gate};
use net_model::{NodeModel, Viewed};
use scoped_turns::TakesTurns;
use spec_base::Disk;
use std::sync::Wait;

impl<'a, N, D, P, R, G> TakesTurns<Environment<'a, R, G>> for Member<N, D, P>
where
    N: NodeModel + Viewed + Drop,
    D: Disk + Drop,
    P: Wait + Drop,
    R: Wait,
    G: Gate,
{
    ghost use Rattle.cluster_crew.specs.Posts.{CanTurn, Stays};

    ghost ready = { λ env member. CanTurn ⟦<N as NodeModel>⟧ ⟦<D as Disk>⟧ env.desks.now member };

    ghost took = { λ env turns before after. Stays ⟦<N as NodeModel>⟧ ⟦<D as Disk>⟧ before after };

    fn take_turns(mut self, env: &Environment<'a, R, G>, turns: u32) -> Member<N, D, P> {
        let node = self.actor.name();
        for turn in 0..turns {
            env.gate.pass(Actor::Node { node }, turn);
            self.take_turn(env.rt, env.desks, turn, turns);
        }
        self
    }
}
