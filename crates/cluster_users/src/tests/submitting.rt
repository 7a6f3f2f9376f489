ghost use Rattle.std.specs.Prelude.{◌≡◌, true, IfOk};

use crate::{Actor, Environment, Gate, Submitter};
use quota_table::OutOfMemory;
use record_codec::Body;
use scoped_turns::TakesTurns;
use std::alloc::Global;
use std::collections::VecDeque;
use std::sync::Wait;
use std::sync::atomic::{AtomicU64, Ordering};
use std::test::Fail;
use submit_desk::{Desk, DeskPass};

/// A gate that keeps a bit for each turn of submitter 3, and counts all other calls.
#[derive(Drop)]
struct Marks {
    turns: AtomicU64,
    others: AtomicU64,
}

impl Gate for Marks {
    fn pass(&self, actor: Actor, turn: u32) {
        if actor == (Actor::Submitter { number: 3 }) && turn < 64 {
            self.turns.fetch_or(1 << turn, Ordering::SeqCst);
        } else {
            self.others.fetch_add(1, Ordering::SeqCst);
        }
    }
}

/// The bodies of one letter each.
pub(super) fn bodies(alloc: Global, letters: &[u8]) -> Result<VecDeque<Body>, OutOfMemory> {
    let mut all = VecDeque::new(alloc);
    for letter in letters {
        all.push_back(Body::of(alloc, &[*letter])?)?;
    }
    Ok(all)
}

/// What was taken: the submitter, the number and the letter.
pub(super) type Taken = (u8, u64, u8);

/// Takes so many items at most.
pub(super) fn take_some<R: Wait>(
    rt: &R,
    desk: &Desk,
    taking: &mut DeskPass,
    most: u32,
    taken: &mut Vec<Taken>,
) -> Result<(), OutOfMemory>
    requires desk { taking.old.desk ≡ desk.now.desk }
    requires takes { taking.old.knows.takes ≡ true }
    ensures desk { taking.new.desk ≡ desk.now.desk }
    ensures takes { taking.new.knows.takes ≡ true }
{
    for _ in 0..most {
        let Some(item) = desk.take(rt, taking) else {
            return Ok(());
        };
        let letter = match item.body.as_slice() {
            [letter] => *letter,
            _ => 0,
        };
        taken.push((item.by, item.number, letter))?;
    }
    Ok(())
}

/// A submitter of the second of two clients, whose desk has room for two. It has four bodies.
fn life<R: Wait>(
    rt: &R,
    alloc: Global,
    marks: &Marks,
) -> Result<(Vec<Taken>, VecDeque<Body>), OutOfMemory> {
    let (other, _) = Desk::new(alloc, 1)?;
    let (own, mut taking) = Desk::new(alloc, 2)?;
    let pass = own.split(rt, &mut taking, 3);
    let desks = [other, own];
    let env = Environment {
        rt,
        alloc,
        gate: marks,
        desks: &desks,
    };
    let mut taken = Vec::new(alloc);
    let submitter = Submitter::new(3, 1, pass, bodies(alloc, b"abcd")?);
    // a and b are submitted, and c twice comes back.
    let submitter = submitter.take_turns(&env, 4);
    take_some(rt, &desks[1], &mut taking, 1, &mut taken)?;
    // c is submitted, and d comes back.
    let submitter = submitter.take_turns(&env, 2);
    take_some(rt, &desks[1], &mut taking, 9, &mut taken)?;
    let (pass, held) = submitter.into_parts();
    desks[1].join(rt, &mut taking, pass);
    Ok((taken, held))
}

#[test]
fn keeps_what_has_no_room(rt: HostRuntime) -> Result<(), Fail> {
    let marks = Marks {
        turns: AtomicU64::new(0),
        others: AtomicU64::new(0),
    };
    let (taken, held) = life(&rt, rt.alloc(), &marks)?;
    let wanted = [(3, 0, b'a'), (3, 1, b'b'), (3, 2, b'c')];
    assert!(rt; taken.as_slice() == wanted.as_slice());
    assert!(rt; held == bodies(rt.alloc(), b"d")?);
    assert_eq!(rt; marks.turns.load(Ordering::SeqCst), 0b1111);
    assert_eq!(rt; marks.others.load(Ordering::SeqCst), 0);
    Ok(())
}
