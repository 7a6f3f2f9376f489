ghost use Rattle.std.specs.Prelude.{◌≡◌, vec_len, IfOk, OnOk};
ghost use Rattle.std.specs.List.{All, AllZip};

use crate::{TakesTurns, episode};
use quota_table::OutOfMemory;
use std::alloc::Global;
use std::sync::Wait;
use std::sync::atomic::{AtomicU64, Ordering};
use std::test::Fail;
use std::thread;
use std::thread::Threads;

/// How many turns each actor takes.
const TURNS: u32 = 4;

/// How often an actor looks whether all others have come to its turn, at most, so that the test ends where they can't.
const PATIENCE: u32 = 10_000_000;

/// What the actors share.
#[derive(Drop)]
struct Hall {
    /// How many actors there are.
    all: u64,
    /// How many of them have come to each turn.
    come: [AtomicU64; 4],
    /// How many turns were taken together.
    turns: AtomicU64,
    /// How many actors waited in vain. From then on nobody waits.
    alone: AtomicU64,
}

impl Hall {
    fn for_all(all: u64) -> Hall {
        Hall {
            all,
            come: [
                AtomicU64::new(0),
                AtomicU64::new(0),
                AtomicU64::new(0),
                AtomicU64::new(0),
            ],
            turns: AtomicU64::new(0),
            alone: AtomicU64::new(0),
        }
    }

    /// Comes to a turn, and waits for the others. False where they don't come.
    fn meets(&self, turn: u32) -> bool {
        let Some(come) = self.come.get(turn as usize) else {
            return false;
        };
        come.fetch_add(1, Ordering::SeqCst);
        for _ in 0..PATIENCE {
            if self.alone.load(Ordering::SeqCst) > 0 {
                return false;
            }
            if come.load(Ordering::SeqCst) == self.all {
                self.turns.fetch_add(1, Ordering::SeqCst);
                return true;
            }
            thread::yield_now();
        }
        self.alone.fetch_add(1, Ordering::SeqCst);
        false
    }
}

/// An actor that counts its turns, and those that it took together with all others.
#[derive(Drop)]
struct Walker {
    number: u32,
    steps: u64,
    together: u64,
}

impl TakesTurns<Hall> for Walker {
    ghost use Rattle.std.specs.Prelude.{◌≡◌};

    ghost ready = { λ _ walker. walker.steps ≡ 0 };

    ghost took = { λ _ turns before after. (after.number ≡ before.number) × (after.steps ≡ turns) };

    fn take_turns(mut self, env: &Hall, turns: u32) -> Walker {
        for turn in 0..turns {
            if env.meets(turn) {
                self.together = self.together.saturating_add(1);
            }
            self.steps += 1;
        }
        self
    }
}

/// An actor that comes back as it was.
#[derive(Drop)]
struct Guest {
    number: u32,
}

impl TakesTurns<Hall> for Guest {
    ghost use Rattle.std.specs.Prelude.{◌≡◌, ⊤};

    ghost ready = { λ _ _. ⊤ };

    ghost took = { λ _ _ before after. after ≡ before };

    fn take_turns(self, env: &Hall, turns: u32) -> Guest {
        for turn in 0..turns {
            env.meets(turn);
        }
        self
    }
}

/// So many walkers, which have taken no step.
fn walkers(alloc: Global, first: u32, last: u32) -> Result<Vec<Walker>, OutOfMemory>
    ensures { IfOk result (λ walkers. All (λ walker. walker.steps ≡ 0) walkers.items) }
{
    let mut all = Vec::new(alloc);
    for number in first..=last {
        all.push(Walker {
            number,
            steps: 0,
            together: 0,
        })?;
    }
    Ok(all)
}

/// The numbers of all that come back, in order, with the steps of each and those that it took with all others.
fn numbers(
    alloc: Global,
    walkers: &[Walker],
    guests: &[Guest],
    others: &[Walker],
) -> Result<Vec<(u32, u64, u64)>, OutOfMemory> {
    let mut all = Vec::new(alloc);
    for walker in walkers {
        all.push((walker.number, walker.steps, walker.together))?;
    }
    for guest in guests {
        all.push((guest.number, 0, 0))?;
    }
    for walker in others {
        all.push((walker.number, walker.steps, walker.together))?;
    }
    Ok(all)
}

/// Three walkers, two guests and one more walker take turns.
fn take_turns<R: Threads + Wait>(
    rt: &R,
    alloc: Global,
    hall: &Hall,
) -> Result<Vec<(u32, u64, u64)>, OutOfMemory> {
    let mut guests = Vec::new(alloc);
    guests.push(Guest { number: 4 })?;
    guests.push(Guest { number: 5 })?;
    let (first, second) = (walkers(alloc, 1, 3)?, walkers(alloc, 6, 6)?);
    let (first, guests, second, done) = episode(rt, alloc, hall, TURNS, first, guests, second);
    done?;
    numbers(
        alloc,
        first.as_slice(),
        guests.as_slice(),
        second.as_slice(),
    )
}

/// No actor begins a turn before all have come to it: of what runs on one thread, one after the other, the first waits in vain.
#[test]
fn all_come_to_each_turn(rt: HostRuntime) -> Result<(), Fail> {
    let hall = Hall::for_all(6);
    let all = take_turns(&rt, rt.alloc(), &hall)?;
    let wanted = [
        (1, 4, 4),
        (2, 4, 4),
        (3, 4, 4),
        (4, 0, 0),
        (5, 0, 0),
        (6, 4, 4),
    ];
    assert!(rt; all.as_slice() == wanted.as_slice());
    assert_eq!(rt; hall.turns.load(Ordering::SeqCst), 24);
    Ok(())
}
