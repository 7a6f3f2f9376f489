//! A list of actors in threads of a scope.
ghost use Rattle.std.specs.Prelude.{ℕ, List, ◌≡◌, ◌≤◌, [], vec_len, vec_capacity, IfOk};
ghost use Rattle.std.specs.List.{AllZip};
ghost use Rattle.scoped_turns.specs.Started.{IsOwed, Keeps};
ghost use Rattle.scoped_turns.specs.Room.{IsRoomFor, IsReady, IsFilled};

use crate::started::{Started, Turns, start};
use crate::takes_turns::TakesTurns;
use quota_table::OutOfMemory;
use std::alloc::Global;
use std::thread::{Promise, Scope, Threads};

/// Room for what is started of a list of actors, and for the actors that come back.
pub(crate) struct Room<E, A: TakesTurns<E>> {
    pub started: Vec<Started<A, Turns<E, A>>>,
    pub back: Vec<A>,
}

impl<E, A: TakesTurns<E> + Drop> Room<E, A> {
    /// Room for so many actors. It takes all the memory that they ever need.
    pub fn new(alloc: Global, count: usize) -> Result<Room<E, A>, OutOfMemory>
        ensures { IfOk result (IsRoomFor count) }
    {
        Ok(Room {
            started: Vec::with_capacity(alloc, count)?,
            back: Vec::with_capacity(alloc, count)?,
        })
    }

    /// Starts the turns of a list of actors, in their order.
    pub fn start_all<'s, S: 's>(
        self,
        scope: &Scope<'s, S>,
        env: &'s E,
        turns: u32,
        actors: Vec<A>,
    ) -> Room<E, A>
    where
        E: Sync + 's,
        A: Send + 's,
        requires { IsReady (A.ready env.now) actors self }
        ensures each { AllZip (IsOwed A.took env.now turns) actors.items result.started.items }
        ensures filled { IsFilled result }
    {
        let Self { mut started, back } = self;
        for actor in actors {
            started.push_reserved(start(scope, env, turns, actor));
        }
        Room { started, back }
    }

    /// The actors, in their order, once the turns of all are over.
    pub fn finish_all<R: Threads>(self, rt: &R) -> Vec<A>
        requires { IsFilled self }
        ensures { (env : E) (turns : ℕ) (before : List A) → AllZip (IsOwed A.took env turns) before self.started.items
            → AllZip (A.took env turns) before result.items }
    {
        let Self { started, back } = self;
        finish_list(rt, started, back)
    }
}

impl<E, A: TakesTurns<E> + Drop> Drop for Room<E, A> {
    fn drop(self) {
        let Self { started, back } = self;
        drop(started);
        drop(back);
    }
}

/// What comes back of all that was started, in its order. There is room for it.
fn finish_list<R: Threads, A: Drop, P: Promise<A>>(
    rt: &R,
    started: Vec<Started<A, P>>,
    mut back: Vec<A>,
) -> Vec<A>
    requires none { back.items ≡ [] }
    requires room { vec_len started ≤ vec_capacity back }
    ensures { AllZip (Keeps P.kept_by) started.items result.items }
{
    for one in started {
        back.push_reserved(one.finish(rt));
    }
    back
}
