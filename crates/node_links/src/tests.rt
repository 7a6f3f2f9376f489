//! Frames through links: in one thread, and from one thread to another.

ghost use Rattle.std.specs.Prelude.{◌≡◌, ◌<◌, ◌≤◌, ◌++◌, IfOk};
ghost use Rattle.node_links.specs.Links.{queued};

use crate::{Frame, LinkIn, LinkOut, pair, settle};
use quota_table::{Bytes, OutOfMemory};
use std::alloc::Global;
use std::process::Abort;
use std::sync::Wait;
use std::test::Fail;
use std::thread;
use std::thread::Threads;

/// What the bytes of the frames are cut from.
const TEXT: &[u8; 64] = b"0123456789abcdefghijklmnopqrstuvwxyzABCDEFGHIJKLMNOPQRSTUVWXYZ+-";

/// How many frames go from one thread to the other.
const MANY: u64 = 10_000;

/// The bytes of the frame with a stamp: their length changes, and so does where they begin.
fn body(stamp: u64) -> &'static [u8] {
    let start = (stamp % 13) as usize;
    let len = (stamp % 50) as usize;
    let text: &[u8] = TEXT;
    &text[start..start + len]
}

fn frame(alloc: Global, stamp: u64) -> Result<Frame, OutOfMemory> {
    Ok(Frame {
        stamp,
        bytes: Bytes::from_slice(alloc, body(stamp))?,
    })
}

fn is_frame(frame: &Frame, stamp: u64) -> bool {
    frame.stamp == stamp && frame.bytes.as_slice() == body(stamp)
}

/// Queues the frames with these stamps.
fn queue_all(alloc: Global, out: &mut LinkOut, first: u64, last: u64) -> Result<(), OutOfMemory>
    ensures { out.new.link ≡ out.old.link }
{
    for stamp in first..=last {
        out.queue(frame(alloc, stamp)?)?;
    }
    Ok(())
}

/// Pulls the frames with these stamps, which are known to wait.
fn pull_all(rt: &impl Abort, into: &mut LinkIn, first: u64, last: u64)
    ensures { into.new.link ≡ into.old.link }
{
    for stamp in first..=last {
        let pulled = into.pull();
        assert!(rt;
            pulled.is_some_and(|frame| is_frame(&frame, stamp)),
            "stamp {stamp}"
        );
    }
}

#[test]
fn frames_wait_in_order(rt: HostRuntime) -> Result<(), Fail> {
    let (mut out, mut into) = pair(rt.alloc(), 2)?;
    queue_all(rt.alloc(), &mut out, 1, 5)?;
    assert_eq!(rt; out.push_some(), 2);
    assert_eq!(rt; out.push_some(), 0);
    assert_eq!(rt; into.waiting(), 0);
    pull_all(&rt, &mut into, 1, 2);
    settle(&mut out, &mut into)?;
    assert_eq!(rt; out.push_some(), 0);
    assert_eq!(rt; into.waiting(), 3);
    pull_all(&rt, &mut into, 3, 5);
    assert_eq!(rt; into.waiting(), 0);
    assert_eq!(rt; into.pull(), None);
    queue_all(rt.alloc(), &mut out, 6, 8)?;
    assert_eq!(rt; out.push_some(), 2);
    pull_all(&rt, &mut into, 6, 6);
    settle(&mut out, &mut into)?;
    let mut frames = Vec::new(rt.alloc());
    into.pull_waiting(&mut frames)?;
    assert_eq!(rt; frames.len(), 2);
    assert!(rt; is_frame(&frames[0], 7) && is_frame(&frames[1], 8));
    assert_eq!(rt; frames[0].clone()?, frames[0]);
    Ok(())
}

/// Queues the frames with the stamps below `count` and pushes all. One that memory is refused for is made again.
fn send<R: Wait>(rt: &R, alloc: Global, mut out: LinkOut, count: u64) -> LinkOut
    ensures { result.link ≡ out.link }
{
    let mut next = 0;
    let mut moved = 0u64;
    for _ in rt.forever() {
        if next < count && queue_all(alloc, &mut out, next, next).is_ok() {
            next += 1;
        }
        moved = moved.saturating_add(out.push_some() as u64);
        if moved >= count {
            break;
        }
        thread::yield_now();
    }
    out
}

/// Pulls so many frames, and tells whether each was the next one.
fn receive<R: Wait>(rt: &R, mut into: LinkIn, count: u64) -> (LinkIn, bool)
    ensures { result.0.link ≡ into.link }
{
    let mut next = 0;
    let mut all_right = true;
    for _ in rt.forever() {
        if next >= count {
            break;
        }
        match into.pull() {
            Some(frame) => {
                all_right = all_right && is_frame(&frame, next);
                next += 1;
            }
            None => thread::yield_now(),
        }
    }
    (into, all_right)
}

/// One thread sends and another receives. Back in one thread, all that was queued was received or waits, in order.
fn across<R: Threads + Wait + Sync>(
    rt: &R,
    alloc: Global,
    count: u64,
) -> Result<(LinkOut, LinkIn, bool), OutOfMemory>
    ensures { IfOk result (λ r. r.1.received ++ r.1.waiting ≡ queued r.0) }
{
    let (out, into) = pair(alloc, 3)?;
    let (mut out, (mut into, all_right)) = thread::join(
        rt,
        move || send(rt, alloc, out, count),
        move || receive(rt, into, count),
    );
    settle(&mut out, &mut into)?;
    Ok((out, into, all_right))
}

#[test]
fn two_threads_move_many_frames(rt: HostRuntime) -> Result<(), Fail> {
    let (_, mut into, all_right) = across(&rt, rt.alloc(), MANY)?;
    assert!(rt; all_right);
    assert_eq!(rt; into.waiting(), 0);
    assert_eq!(rt; into.pull(), None);
    Ok(())
}
