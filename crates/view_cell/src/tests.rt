ghost use Rattle.std.specs.Prelude.{◌≡◌, IfSome};
ghost use Rattle.std.specs.List.{All};
ghost use Rattle.view_cell.specs.Ends.{watching_at};

use crate::{Look, Publisher, ReaderPass, ReaderPasses, Told, view};
use quota_table::OutOfMemory;
use record_codec::Shown;
use std::sync::Wait;
use std::sync::atomic::{AtomicU64, Ordering};
use std::test::Fail;
use std::thread;
use std::thread::Threads;

/// How many looks are published beside the readers.
const MOST: u64 = 10_000;

/// So often the publisher asks whether a reader saw something in the middle.
const PATIENCE: u32 = 100_000_000;

/// The look with a number, which tells all of its other parts.
fn look_at(ops: u64) -> Look
    ensures { result.ops ≡ ops }
{
    let mut shown = Shown::new();
    shown.extend_from_slice(&ops.to_be_bytes());
    Look {
        ops,
        epoch: ops / 1000,
        applied: ops / 2,
        confirmed: ops / 3,
        shown,
    }
}

/// One of the passes of a new view.
fn one_of<R: Wait + Drop>(
    publisher: &Publisher<R>,
    mut passes: ReaderPasses,
    opening: &Look,
) -> Option<ReaderPass>
    requires { All (λ pass. pass ≡ watching_at publisher.now.cell opening.now) passes.items }
    ensures { IfSome result (λ pass. pass ≡ watching_at publisher.now.cell opening.now) }
{
    let _ = publisher;
    let _ = opening;
    passes.pop()
}

/// The number of a look, where it is one that was published, and whether the cell handed something out.
fn seen_by(pass: &mut ReaderPass) -> (Option<u64>, bool)
    ensures { pass.new.cell ≡ pass.old.cell }
{
    let look = pass.look();
    let ops = look.ops;
    (
        if look == look_at(ops) {
            Some(ops)
        } else {
            None
        },
        pass.met(),
    )
}

/// What a pass sees beside three publishes, of which it learns one.
fn looks_and_learns<R: Wait + Drop>(
    mut publisher: Publisher<R>,
    mut pass: ReaderPass,
) -> Result<[(Option<u64>, bool); 5], OutOfMemory>
    requires cell { pass.cell ≡ publisher.cell }
    requires opening { publisher.newest.ops ≡ 0 }
{
    let opened = seen_by(&mut pass);
    publisher.publish(look_at(3))?;
    pass.learn(publisher.tell()?);
    let learned = seen_by(&mut pass);
    publisher.publish(look_at(4))?;
    let note = publisher.tell()?;
    publisher.publish(look_at(9))?;
    let newest = seen_by(&mut pass);
    pass.learn(note);
    let older_note = seen_by(&mut pass);
    drop(publisher);
    Ok([opened, learned, newest, older_note, seen_by(&mut pass)])
}

#[test]
fn what_is_learned_is_seen(rt: HostRuntime) -> Result<(), Fail> {
    let opening = look_at(0);
    let (publisher, passes) = view(&rt, rt.alloc(), 2, opening.copy())?;
    let Some(pass) = one_of(&publisher, passes, &opening) else {
        return Err(Fail::from("a pass"));
    };
    let seen = looks_and_learns(publisher, pass)?;
    let wanted = [
        (Some(0), true),
        (Some(3), true),
        (Some(9), true),
        (Some(9), true),
        (Some(9), false),
    ];
    assert!(rt; seen == wanted);
    Ok(())
}

/// The look that a note tells: its numbers, and the last byte that it shows.
fn told_by(note: &Told) -> (u64, u64, u64, u64, Option<u8>) {
    let look = note.newest();
    (
        look.ops,
        look.epoch,
        look.applied,
        look.confirmed,
        look.shown.as_slice().last().copied(),
    )
}

/// What notes tell: before any publish, after one, and after another, where the note before stays as it is.
fn notes_of<R: Wait + Drop>(
    mut publisher: Publisher<R>,
) -> Result<[(u64, u64, u64, u64, Option<u8>); 4], OutOfMemory>
    requires opening { publisher.newest.ops ≡ 0 }
{
    let opening = publisher.tell()?;
    publisher.publish(look_at(5))?;
    let first = publisher.tell()?;
    publisher.publish(look_at(2009))?;
    let second = publisher.tell()?;
    Ok([
        told_by(&opening),
        told_by(&first),
        told_by(&second),
        told_by(&first),
    ])
}

#[test]
fn a_note_tells_the_newest(rt: HostRuntime) -> Result<(), Fail> {
    let (publisher, _) = view(&rt, rt.alloc(), 1, look_at(0))?;
    let told = notes_of(publisher)?;
    let wanted = [
        (0, 0, 0, 0, Some(0)),
        (5, 0, 2, 1, Some(5)),
        (2009, 2, 1004, 669, Some(217)), // 2009 is 7 * 256 + 217
        (5, 0, 2, 1, Some(5)),
    ];
    assert!(rt; told == wanted);
    Ok(())
}

/// For no reader there is a publisher all the same.
#[test]
fn a_view_without_readers(rt: HostRuntime) -> Result<(), Fail> {
    let (mut publisher, passes) = view(&rt, rt.alloc(), 0, look_at(0))?;
    assert!(rt; passes.is_empty());
    publisher.publish(look_at(1))?;
    publisher.publish(look_at(2))?;
    Ok(())
}

/// Looks until the last look comes, and says whether each was one that was published, and none went back.
fn watches<R: Wait>(rt: &R, mut pass: ReaderPass, middle: &AtomicU64) -> bool {
    let mut before = 0;
    for _ in rt.forever() {
        let look = pass.look();
        if look.ops < before || look.ops > MOST || look != look_at(look.ops) {
            return false;
        }
        before = look.ops;
        if before == MOST {
            return true;
        }
        if before > 0 {
            middle.store(before, Ordering::SeqCst);
        }
        thread::yield_now();
    }
    false
}

/// Publishes all looks. In the middle it waits for a reader to see one.
fn publishes<R: Wait + Drop>(publisher: &mut Publisher<R>, middle: &AtomicU64) -> bool {
    for ops in 1..=MOST {
        if publisher.newest() >= ops || publisher.publish(look_at(ops)).is_err() {
            return false;
        }
        if ops == MOST / 2 {
            for _ in 0..PATIENCE {
                if middle.load(Ordering::SeqCst) > 0 {
                    break;
                }
                thread::yield_now();
            }
        }
    }
    true
}

/// Readers look beside all publishes. The publisher stays until each reader has come to the last look.
fn looks_beside<R: Threads + Wait + Sync>(
    rt: &R,
    publisher: &mut Publisher<&R>,
    passes: ReaderPasses,
) -> (bool, u64, u64) {
    let (middle, good) = (AtomicU64::new(0), AtomicU64::new(0));
    let (seen, count) = (&middle, &good);
    let published = thread::scope(thread::scope_env(), rt, |scope| {
        for pass in passes {
            let watcher = move || {
                if watches(rt, pass, seen) {
                    count.fetch_add(1, Ordering::SeqCst);
                }
            };
            if scope.spawn(watcher).is_err() {
                return false;
            }
        }
        publishes(publisher, seen)
    });
    (
        published,
        good.load(Ordering::SeqCst),
        middle.load(Ordering::SeqCst),
    )
}

#[test]
fn readers_beside_a_publisher(rt: HostRuntime) -> Result<(), Fail> {
    let (mut publisher, passes) = view(&rt, rt.alloc(), 4, look_at(0))?;
    let (published, good, middle) = looks_beside(&rt, &mut publisher, passes);
    assert!(rt; published);
    assert_eq!(rt; good, 4);
    assert!(rt; 0 < middle && middle < MOST);
    Ok(())
}
