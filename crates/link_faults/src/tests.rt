//! What becomes of messages, by rows that were worked out by hand. A letter stands for a message and its fate: `l` lost, `t` twice,
//! `h` held, `c` cut, `o` once; `r` releases what is held. The messages have the stamps 1, 2 and so on, and two bytes each.

ghost use Rattle.std.specs.Prelude.{◌≡◌};

use crate::{Fate, FaultPlan, LinkFaults, fate_of};
use node_links::{Frame, LinkOut, pair, settle};
use quota_table::{Bytes, OutOfMemory};
use std::alloc::Global;
use std::process::Abort;
use std::test::Fail;

/// So many of a hundred are lost, sent twice, late and cut.
fn plan(lose: u8, repeat: u8, late: u8, cut: u8) -> FaultPlan {
    FaultPlan {
        lose,
        repeat,
        late,
        cut,
    }
}

/// Words, and what they say where 5 of a hundred are lost, 2 sent twice, 2 late and 1 is cut.
const WORDS: [(u32, Fate); 12] = [
    (0, Fate::Lost),
    (4, Fate::Lost),
    (5, Fate::Twice),
    (6, Fate::Twice),
    (7, Fate::Late),
    (8, Fate::Late),
    (9, Fate::Cut),
    (10, Fate::Once),
    (99, Fate::Once),
    (104, Fate::Lost),
    (4_294_967_208, Fate::Late),
    (4_294_967_295, Fate::Once),
];

#[test]
fn fates_go_by_the_word(rt: HostRuntime) -> Result<(), Fail> {
    let plan = plan(5, 2, 2, 1);
    for (word, fate) in WORDS {
        assert!(rt; fate_of(&plan, word) == fate, "word {word}");
    }
    Ok(())
}

/// The plan by which each message has the fate of a letter.
fn plan_of(letter: u8) -> FaultPlan {
    match letter {
        b'l' => plan(100, 0, 0, 0),
        b't' => plan(0, 100, 0, 0),
        b'h' => plan(0, 0, 100, 0),
        b'c' => plan(0, 0, 0, 100),
        _ => plan(0, 0, 0, 0),
    }
}

fn frame(alloc: Global, stamp: u64) -> Result<Frame, OutOfMemory> {
    Ok(Frame {
        stamp,
        bytes: Bytes::from_slice(alloc, b"ab")?,
    })
}

/// Sends a message for each letter, by its fate.
fn send_all(
    alloc: Global,
    faults: &mut LinkFaults,
    out: &mut LinkOut,
    letters: &[u8],
) -> Result<(), OutOfMemory>
    ensures { out.new.link ≡ out.old.link }
{
    let mut stamp = 0u64;
    for letter in letters {
        if *letter == b'r' {
            faults.release(out)?;
        } else {
            stamp = stamp.saturating_add(1);
            faults.send(&plan_of(*letter), out, frame(alloc, stamp)?)?;
        }
    }
    Ok(())
}

/// Sends so many messages by one plan.
fn send_by(
    alloc: Global,
    faults: &mut LinkFaults,
    out: &mut LinkOut,
    plan: &FaultPlan,
    count: u64,
) -> Result<(), OutOfMemory>
    ensures { out.new.link ≡ out.old.link }
{
    for stamp in 1..=count {
        faults.send(plan, out, frame(alloc, stamp)?)?;
    }
    Ok(())
}

/// Whether the frames have these stamps and lengths.
fn are(frames: &[Frame], wanted: &[(u64, usize)]) -> bool {
    if frames.len() != wanted.len() {
        return false;
    }
    for (frame, (stamp, len)) in frames.iter().zip(wanted) {
        if frame.stamp != *stamp || frame.bytes.len() != *len {
            return false;
        }
    }
    true
}

/// What letters bring to a link: stamps and lengths, in order.
const ROWS: [(&[u8], &[(u64, usize)]); 12] = [
    (b"ooo", &[(1, 2), (2, 2), (3, 2)]),
    (b"olo", &[(1, 2), (3, 2)]),
    (b"to", &[(1, 2), (1, 2), (2, 2)]),
    (b"co", &[(1, 1), (2, 2)]),
    (b"ho", &[(2, 2), (1, 2)]),
    (b"ht", &[(2, 2), (2, 2), (1, 2)]),
    (b"hl", &[(1, 2)]),
    (b"hc", &[(2, 1), (1, 2)]),
    (b"hhho", &[(1, 2), (2, 2), (4, 2), (3, 2)]),
    (b"hh", &[(1, 2)]),
    (b"hhr", &[(1, 2), (2, 2)]),
    (b"orhro", &[(1, 2), (2, 2), (3, 2)]),
];

fn row_holds(
    rt: &impl Abort,
    alloc: Global,
    letters: &[u8],
    wanted: &[(u64, usize)],
) -> Result<(), Fail> {
    let (mut out, mut into) = pair(alloc, 2)?;
    let mut faults = LinkFaults::new(1, 0, 1);
    send_all(alloc, &mut faults, &mut out, letters)?;
    settle(&mut out, &mut into)?;
    let mut frames = Vec::new(alloc);
    into.pull_waiting(&mut frames)?;
    assert!(rt; are(frames.as_slice(), wanted));
    Ok(())
}

#[test]
fn messages_have_their_fates(rt: HostRuntime) -> Result<(), Fail> {
    for (letters, wanted) in ROWS {
        row_holds(&rt, rt.alloc(), letters, wanted)?;
    }
    Ok(())
}

/// Twelve messages of the link from place 0 to place 1 with seed 7, whose words modulo 100 are 50, 62, 64, 19, 56, 7, 99, 18, 62,
/// 46, 37 and 70, where 19 of a hundred are lost, 1 is sent twice, 40 are late and 5 cut.
#[test]
fn words_are_those_of_the_link(rt: HostRuntime) -> Result<(), Fail> {
    let alloc = rt.alloc();
    let (mut out, mut into) = pair(alloc, 2)?;
    let mut faults = LinkFaults::new(7, 0, 1);
    send_by(alloc, &mut faults, &mut out, &plan(19, 1, 40, 5), 12)?;
    settle(&mut out, &mut into)?;
    let mut frames = Vec::new(alloc);
    into.pull_waiting(&mut frames)?;
    let wanted = [
        (2, 1),
        (1, 2),
        (3, 1),
        (4, 2),
        (4, 2),
        (5, 2),
        (7, 2),
        (9, 1),
        (10, 2),
        (12, 2),
        (11, 2),
    ];
    assert!(rt; are(frames.as_slice(), &wanted));
    Ok(())
}
