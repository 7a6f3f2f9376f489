//! The turns of three lists of actors, beside one another.
ghost use Rattle.std.specs.Prelude.{◌≡◌, OnOk, OnErr, IfOk};
ghost use Rattle.std.specs.List.{All, AllZip};
ghost use Rattle.scoped_turns.specs.Room.{IsRoomFor, IsReady};

use crate::room::Room;
use crate::takes_turns::TakesTurns;
use quota_table::OutOfMemory;
use std::alloc::Global;
use std::sync::Wait;
use std::thread;
use std::thread::Threads;

/// Each actor of three lists takes so many turns, all of them beside one another, and comes back in its place.
///
/// All memory is taken before the first of them starts: where it is refused, each list is as it was, and no turn was taken. An
/// actor for which no thread can be had takes its turns on the calling thread, before the next one starts.
pub fn episode<
    R: Threads + Wait,
    E: Sync,
    A: TakesTurns<E> + Send + Drop,
    B: TakesTurns<E> + Send + Drop,
    C: TakesTurns<E> + Send + Drop,
>(
    rt: &R,
    alloc: Global,
    env: &E,
    turns: u32,
    first: Vec<A>,
    second: Vec<B>,
    third: Vec<C>,
) -> (Vec<A>, Vec<B>, Vec<C>, Result<(), OutOfMemory>)
    requires first { All (A.ready env.now) first.items }
    requires second { All (B.ready env.now) second.items }
    requires third { All (C.ready env.now) third.items }
    ensures first { OnOk result.3 (AllZip (A.took env.now turns) first.items result.0.items) }
    ensures second { OnOk result.3 (AllZip (B.took env.now turns) second.items result.1.items) }
    ensures third { OnOk result.3 (AllZip (C.took env.now turns) third.items result.2.items) }
    ensures err { OnErr result.3 ((result.0.items ≡ first.items) × (result.1.items ≡ second.items) × (result.2.items ≡ third.items)) }
{
    match rooms(alloc, first.len(), second.len(), third.len()) {
        Ok((a, b, c)) => {
            let (first, second, third) = beside(
                rt,
                env,
                turns,
                (first, a),
                (second, b),
                (third, c),
            );
            (first, second, third, Ok(()))
        }
        Err(error) => (first, second, third, Err(error)),
    }
}

/// A list of actors, and room for them.
type Crew<E, A> = (Vec<A>, Room<E, A>);

/// All take their turns, in threads of one scope.
fn beside<
    R: Threads + Wait,
    E: Sync,
    A: TakesTurns<E> + Send + Drop,
    B: TakesTurns<E> + Send + Drop,
    C: TakesTurns<E> + Send + Drop,
>(
    rt: &R,
    env: &E,
    turns: u32,
    first: Crew<E, A>,
    second: Crew<E, B>,
    third: Crew<E, C>,
) -> (Vec<A>, Vec<B>, Vec<C>)
    requires first { IsReady (A.ready env.now) first.0 first.1 }
    requires second { IsReady (B.ready env.now) second.0 second.1 }
    requires third { IsReady (C.ready env.now) third.0 third.1 }
    ensures first { AllZip (A.took env.now turns) first.0.items result.0.items }
    ensures second { AllZip (B.took env.now turns) second.0.items result.1.items }
    ensures third { AllZip (C.took env.now turns) third.0.items result.2.items }
{
    thread::scope(
        thread::scope_env(),
        rt,
        move |scope| -> (Vec<A>, Vec<B>, Vec<C>)
            requires first { IsReady (A.ready env.now) first.0 first.1 }
            requires second { IsReady (B.ready env.now) second.0 second.1 }
            requires third { IsReady (C.ready env.now) third.0 third.1 }
            ensures first { AllZip (A.took env.entry.now turns) first.0.items result.0.items }
            ensures second { AllZip (B.took env.entry.now turns) second.0.items result.1.items }
            ensures third { AllZip (C.took env.entry.now turns) third.0.items result.2.items }
        {
            let ((first, a), (second, b), (third, c)) = (first, second, third);
            let a = a.start_all(scope, env, turns, first);
            let b = b.start_all(scope, env, turns, second);
            let c = c.start_all(scope, env, turns, third);
            (a.finish_all(rt), b.finish_all(rt), c.finish_all(rt))
        },
    )
}

/// Room for the actors of three lists.
fn rooms<E, A: TakesTurns<E> + Drop, B: TakesTurns<E> + Drop, C: TakesTurns<E> + Drop>(
    alloc: Global,
    first: usize,
    second: usize,
    third: usize,
) -> Result<(Room<E, A>, Room<E, B>, Room<E, C>), OutOfMemory>
    ensures { IfOk result (λ rooms. IsRoomFor first rooms.0 × IsRoomFor second rooms.1 × IsRoomFor third rooms.2) }
{
    Ok((
        Room::new(alloc, first)?,
        Room::new(alloc, second)?,
        Room::new(alloc, third)?,
    ))
}
