//! One actor in a thread of a scope.
ghost use Rattle.scoped_turns.specs.Started.{IsOwed, Keeps};

use crate::takes_turns::TakesTurns;
use std::snapshot::Snapshot;
use std::thread::{Promise, PromisedHandle, Scope, Threads};

/// What a thread promises: that its actor comes back after its turns.
pub(crate) struct Turns<E, A> {
    pub env: Snapshot<E>,
    pub turns: u32,
    pub before: Snapshot<A>,
}

impl<E, A> Drop for Turns<E, A> {
    fn drop(self) {
        let Self {
            env,
            turns: _,
            before,
        } = self;
        drop(env);
        drop(before);
    }
}

impl<E, A: TakesTurns<E>> Promise<A> for Turns<E, A> {
    ghost kept_by = { λ p after. A.took p.env.value p.turns p.before.value after };
}

/// An actor that takes its turns in a thread, or took them here since no thread was to be had.
pub(crate) enum Started<A, P: Promise<A>> {
    There(PromisedHandle<A, P>),
    Here(A),
}

impl<A, P: Promise<A>> Started<A, P> {
    /// The actor, once its turns are over.
    pub fn finish<R: Threads>(self, rt: &R) -> A
        ensures { Keeps P.kept_by self result }
    {
        match self {
            Started::There(handle) => handle.join(rt),
            Started::Here(actor) => actor,
        }
    }
}

impl<A: Drop, P: Promise<A>> Drop for Started<A, P> {
    fn drop(self) {
        match self {
            Started::There(handle) => drop(handle),
            Started::Here(actor) => drop(actor),
        }
    }
}

/// Starts an actor's turns.
pub(crate) fn start<'s, S: 's, E: Sync + 's, A: TakesTurns<E> + Send + Drop + 's>(
    scope: &Scope<'s, S>,
    env: &'s E,
    turns: u32,
    actor: A,
) -> Started<A, Turns<E, A>>
    requires { A.ready env.now actor }
    ensures { IsOwed A.took env.now turns actor result }
{
    let promise = Turns {
        env: Snapshot::of(env),
        turns,
        before: Snapshot::of(&actor),
    };
    match scope.spawn_with(promise, move || actor.take_turns(env, turns)) {
        Ok(handle) => Started::There(handle),
        Err(refused) => Started::Here((refused.value)()),
    }
}
