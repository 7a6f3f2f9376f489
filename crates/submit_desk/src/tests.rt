ghost use Rattle.std.specs.Prelude.{◌≡◌, ◌≤◌, ◌+◌, ◌++◌, ◌∷◌, [], true, length, IfOk};
ghost use Rattle.submit_desk.specs.Passes.{submitter, IsFresh, IsSubmitting};
ghost use Rattle.submit_desk.specs.inside.Several.{TwoAreFresh, FourAreFresh, TwoSubmit, FourSubmit};

use crate::{Desk, DeskItem, DeskPass, Full};
use quota_table::OutOfMemory;
use record_codec::Body;
use std::alloc::Global;
use std::sync::Wait;
use std::test::Fail;
use std::thread;
use std::thread::Threads;

/// How many items each of the eight submitters has.
const EACH: u64 = 2_000;

/// How often the taker looks, at most, so that a lost item fails the test.
const LOOKS: u64 = 1 << 32;

/// A submitter's item of a number, whose body tells both.
fn item(alloc: Global, by: u8, number: u64) -> Result<DeskItem, OutOfMemory>
    ensures { IfOk result (λ item. (item.by ≡ by) × (item.number ≡ number)) }
{
    let [a, b, c, d, e, f, g, h] = number.to_be_bytes();
    let body = Body::of(alloc, &[by, a, b, c, d, e, f, g, h])?;
    Ok(DeskItem { by, number, body })
}

/// Submits an item to a desk that has room.
fn put<R: Wait>(rt: &R, desk: &Desk, pass: &mut DeskPass, item: DeskItem)
    requires desk { pass.old.desk ≡ desk.now.desk }
    requires submits { pass.old.knows.submits ≡ true }
    requires by { item.by ≡ pass.old.knows.by }
    requires number { item.number ≡ length pass.old.knows.put }
    ensures desk { pass.new.desk ≡ desk.now.desk }
    ensures put { pass.new.knows ≡ submitter pass.old.knows.by (pass.old.knows.put ++ item ∷ []) }
{
    let mut next = item;
    for _ in rt.forever() {
        match desk.submit(rt, pass, next) {
            Ok(()) => return,
            Err(Full(back)) => {
                next = back;
                thread::yield_now();
            }
        }
    }
    unreachable!()
}

#[test]
fn gives_back_where_full(rt: HostRuntime) -> Result<(), Fail> {
    let (desk, mut taking) = Desk::new(rt.alloc(), 1)?;
    let mut pass = desk.split(&rt, &mut taking, 0);
    put(&rt, &desk, &mut pass, item(rt.alloc(), 0, 0)?);
    let second = desk.submit(&rt, &mut pass, item(rt.alloc(), 0, 1)?);
    assert_eq!(rt; second, Err(Full(item(rt.alloc(), 0, 1)?)));
    assert_eq!(rt; desk.take(&rt, &mut taking), Some(item(rt.alloc(), 0, 0)?));
    assert_eq!(rt; desk.take(&rt, &mut taking), None);
    desk.join(&rt, &mut taking, pass);
    assert_eq!(rt; desk.take(&rt, &mut taking), None);
    Ok(())
}

/// Submits the items of one submitter, one after another. It stops early where memory is refused.
fn submit_all<R: Wait>(rt: &R, alloc: Global, desk: &Desk, by: u8, pass: DeskPass) -> DeskPass
    requires { IsFresh desk.now.desk by pass }
    ensures { IsSubmitting desk.now.desk result }
{
    let mut pass = pass;
    for number in 0..EACH {
        let Ok(next) = item(alloc, by, number) else {
            return pass;
        };
        put(rt, desk, &mut pass, next);
    }
    pass
}

type Two = (DeskPass, DeskPass);

/// Two submitters, from number `first` on, each in a thread.
fn two<R: Threads + Wait + Sync>(rt: &R, alloc: Global, desk: &Desk, first: u8, passes: Two) -> Two
    requires first { first ≤ 6 }
    requires fresh { TwoAreFresh desk.now.desk first passes }
    ensures { TwoSubmit desk.now.desk result }
{
    let (one, other) = passes;
    let second = first + 1;
    thread::join(
        rt,
        move ||
            requires { IsFresh desk.now.desk first one }
            ensures { IsSubmitting desk.entry.now.desk result }
        { submit_all(rt, alloc, desk, first, one) },
        move ||
            requires { IsFresh desk.now.desk second other }
            ensures { IsSubmitting desk.entry.now.desk result }
        { submit_all(rt, alloc, desk, second, other) },
    )
}

type Four = (Two, Two);

/// Four submitters, from number `first` on.
fn four<R: Threads + Wait + Sync>(
    rt: &R,
    alloc: Global,
    desk: &Desk,
    first: u8,
    passes: Four,
) -> Four
    requires first { first ≤ 4 }
    requires fresh { FourAreFresh desk.now.desk first passes }
    ensures { FourSubmit desk.now.desk result }
{
    let (low, high) = passes;
    let third = first + 2;
    thread::join(
        rt,
        move ||
            requires { (first ≤ 6) × TwoAreFresh desk.now.desk first low }
            ensures { TwoSubmit desk.entry.now.desk result }
        { two(rt, alloc, desk, first, low) },
        move ||
            requires { (third ≤ 6) × TwoAreFresh desk.now.desk third high }
            ensures { TwoSubmit desk.entry.now.desk result }
        { two(rt, alloc, desk, third, high) },
    )
}

/// Eight submitters.
fn eight<R: Threads + Wait + Sync>(
    rt: &R,
    alloc: Global,
    desk: &Desk,
    low: Four,
    high: Four,
) -> (Four, Four)
    requires low { FourAreFresh desk.now.desk 0 low }
    requires high { FourAreFresh desk.now.desk 4 high }
    ensures low { FourSubmit desk.now.desk result.0 }
    ensures high { FourSubmit desk.now.desk result.1 }
{
    thread::join(
        rt,
        move ||
            requires { FourAreFresh desk.now.desk 0 low }
            ensures { FourSubmit desk.entry.now.desk result }
        { four(rt, alloc, desk, 0, low) },
        move ||
            requires { FourAreFresh desk.now.desk 4 high }
            ensures { FourSubmit desk.entry.now.desk result }
        { four(rt, alloc, desk, 4, high) },
    )
}

/// Makes the passes of two submitters, from number `first` on.
fn split_two<R: Wait>(rt: &R, desk: &Desk, taking: &mut DeskPass, first: u8) -> Two
    requires first { first ≤ 6 }
    requires desk { taking.old.desk ≡ desk.now.desk }
    requires takes { (taking.old.knows.takes ≡ true) × (taking.old.knows.next ≤ first) }
    ensures desk { taking.new.desk ≡ desk.now.desk }
    ensures takes { (taking.new.knows.takes ≡ true) × (taking.new.knows.next ≡ first + 2) }
    ensures fresh { TwoAreFresh desk.now.desk first result }
{
    let one = desk.split(rt, taking, first);
    let other = desk.split(rt, taking, first + 1);
    (one, other)
}

/// Makes the passes of four submitters, from number `first` on.
fn split_four<R: Wait>(rt: &R, desk: &Desk, taking: &mut DeskPass, first: u8) -> Four
    requires first { first ≤ 4 }
    requires desk { taking.old.desk ≡ desk.now.desk }
    requires takes { (taking.old.knows.takes ≡ true) × (taking.old.knows.next ≤ first) }
    ensures desk { taking.new.desk ≡ desk.now.desk }
    ensures takes { (taking.new.knows.takes ≡ true) × (taking.new.knows.next ≡ first + 4) }
    ensures fresh { FourAreFresh desk.now.desk first result }
{
    let low = split_two(rt, desk, taking, first);
    let high = split_two(rt, desk, taking, first + 2);
    (low, high)
}

fn join_four<R: Wait>(rt: &R, desk: &Desk, taking: &mut DeskPass, passes: Four)
    requires desk { taking.old.desk ≡ desk.now.desk }
    requires takes { taking.old.knows.takes ≡ true }
    requires submit { FourSubmit desk.now.desk passes }
    ensures desk { taking.new.desk ≡ desk.now.desk }
    ensures takes { taking.new.knows.takes ≡ true }
{
    let ((a, b), (c, d)) = passes;
    desk.join(rt, taking, a);
    desk.join(rt, taking, b);
    desk.join(rt, taking, c);
    desk.join(rt, taking, d);
}

/// What a taker has seen: the number that each submitter's next item must have, and how many items were others.
#[derive(Drop)]
struct Seen {
    next: [u64; 8],
    differ: u64,
}

impl Seen {
    fn note(&mut self, alloc: Global, taken: &DeskItem) {
        let Some(next) = self.next.get_mut(usize::from(taken.by)) else {
            self.differ = 1;
            return;
        };
        match item(alloc, taken.by, *next) {
            Ok(wanted) if *taken == wanted => *next = next.saturating_add(1),
            _ => self.differ = 1,
        }
    }
}

/// Takes until all items of the eight have come, or there were too many looks.
fn take_all<R: Wait>(rt: &R, alloc: Global, desk: &Desk, pass: DeskPass) -> (DeskPass, Seen)
    requires desk { pass.desk ≡ desk.now.desk }
    requires takes { pass.knows.takes ≡ true }
    ensures desk { result.0.desk ≡ desk.now.desk }
    ensures takes { result.0.knows.takes ≡ true }
{
    let mut pass = pass;
    let mut seen = Seen {
        next: [0; 8],
        differ: 0,
    };
    let mut left = 8 * EACH;
    for _ in 0..LOOKS {
        if left == 0 {
            break;
        }
        match desk.take(rt, &mut pass) {
            Some(item) => {
                seen.note(alloc, &item);
                left -= 1;
            }
            None => thread::yield_now(),
        }
    }
    (pass, seen)
}

/// What a taker saw of eight submitters in threads, over a desk of 64, and what lay on the desk when all were back.
fn through<R: Threads + Wait + Sync>(
    rt: &R,
    alloc: Global,
) -> Result<(Seen, Option<DeskItem>), OutOfMemory> {
    let (made, mut taking) = Desk::new(alloc, 64)?;
    let desk = &made;
    let low = split_four(rt, desk, &mut taking, 0);
    let high = split_four(rt, desk, &mut taking, 4);
    let ((low, high), (mut taking, seen)) = thread::join(
        rt,
        move ||
            requires low { FourAreFresh desk.now.desk 0 low }
            requires high { FourAreFresh desk.now.desk 4 high }
            ensures low { FourSubmit desk.entry.now.desk result.0 }
            ensures high { FourSubmit desk.entry.now.desk result.1 }
        { eight(rt, alloc, desk, low, high) },
        move ||
            requires { (taking.desk ≡ desk.now.desk) × (taking.knows.takes ≡ true) }
            ensures { (result.0.desk ≡ desk.entry.now.desk) × (result.0.knows.takes ≡ true) }
        { take_all(rt, alloc, desk, taking) },
    );
    join_four(rt, desk, &mut taking, low);
    join_four(rt, desk, &mut taking, high);
    let rest = desk.take(rt, &mut taking);
    Ok((seen, rest))
}

#[test]
fn eight_submitters_in_threads(rt: HostRuntime) -> Result<(), Fail> {
    let (seen, rest) = through(&rt, rt.alloc())?;
    assert_eq!(rt; seen.next, [EACH; 8]);
    assert_eq!(rt; seen.differ, 0);
    assert_eq!(rt; rest, None);
    Ok(())
}
