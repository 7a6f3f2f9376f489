//! Runs on disks of which calls fail.

use crate::RunError;
use crate::tests::meeting::Meeting;
use crate::tests::plans::{TWO_RECORDS, plan_of};
use crate::tests::shelves::{FailingCall, entries_at, run_on, shelf_of};
use crate::tests::shows::{BOTH, told_of};
use cluster_users::Open;
use msg_wire::{Item, decode_items};
use spec_base::{NodeId, Side};
use std::alloc::Global;
use std::test::Fail;

/// No call after this one of a disk is tried in turn.
const LAST_CALL: u64 = 40;

/// The disks of which one call fails in turn.
const NAMES: [&str; 3] = ["s0p", "q0", "k0"];

/// Calls of which each is made again, so that all is as without them.
const REPEATED: [&[FailingCall]; 3] = [
    &[("s0p", 2), ("s0p", 4)],
    &[("s0p", 2), ("s0p", 40)],
    &[("s0p", 0), ("s0b", 1), ("q0", 3), ("c0", 5), ("k0", 2)],
];

/// Calls of which one and its repeat fail, and the node at whose disk.
const TWICE: [(&[FailingCall], NodeId); 7] = [
    (&[("s0b", 0), ("s0b", 1)], NodeId::Shard(0, Side::Backup)),
    (&[("q0", 0), ("q0", 1)], NodeId::Seq(0)),
    (&[("s0p", 2), ("s0p", 3)], NodeId::Shard(0, Side::Primary)),
    (&[("s0p", 3), ("s0p", 4)], NodeId::Shard(0, Side::Primary)),
    (&[("s0p", 4), ("s0p", 5)], NodeId::Shard(0, Side::Primary)),
    (&[("s0p", 5), ("s0p", 6)], NodeId::Shard(0, Side::Primary)),
    // The client stops at its second record, and the sequencer later: when both replicas have told it of the first. It comes first in the
    // order of nodes.
    (
        &[("c0", 6), ("c0", 7), ("q0", 2), ("q0", 3)],
        NodeId::Seq(0),
    ),
];

#[test]
fn a_call_that_fails_once_is_made_again(rt: HostRuntime) -> Result<(), Fail> {
    let alloc = rt.alloc();
    let plan = plan_of(alloc, &TWO_RECORDS)?;
    for name in NAMES {
        for call in 0..=LAST_CALL {
            let mut shelf = shelf_of(alloc, &[(name, call)])?;
            let record = run_on(&rt, alloc, &plan, &mut shelf, &Open)?;
            assert_eq!(rt; told_of(alloc, &record)?.as_str(), BOTH, "{name} {call}");
        }
    }
    for calls in REPEATED {
        let mut shelf = shelf_of(alloc, calls)?;
        let record = run_on(&rt, alloc, &plan, &mut shelf, &Open)?;
        assert_eq!(rt; told_of(alloc, &record)?.as_str(), BOTH);
    }
    Ok(())
}

#[test]
fn a_call_that_fails_twice_ends_the_run(rt: HostRuntime) -> Result<(), Fail> {
    let alloc = rt.alloc();
    let plan = plan_of(alloc, &TWO_RECORDS)?;
    for (calls, name) in TWICE {
        let mut shelf = shelf_of(alloc, calls)?;
        let meeting = Meeting::new();
        let result = run_on(&rt, alloc, &plan, &mut shelf, &meeting);
        assert_eq!(rt; result.err(), Some(RunError::ShelfFault { name }));
    }
    Ok(())
}

/// Whether an entry is one item, of a record that was taken.
fn is_one_taken(alloc: Global, entry: &[u8]) -> Result<bool, Fail> {
    let items = decode_items(alloc, entry)?;
    Ok(matches!(items.as_slice(), [Item::Taken { .. }]))
}

/// What was never told is nowhere stored: a length that the primary can't keep, and a decision that the sequencer can't.
#[test]
fn other_disks_keep_what_was_done(rt: HostRuntime) -> Result<(), Fail> {
    let alloc = rt.alloc();
    let plan = plan_of(alloc, &TWO_RECORDS)?;
    let mut shelf = shelf_of(alloc, &[("s0p", 2), ("s0p", 3)])?;
    let result = run_on(&rt, alloc, &plan, &mut shelf, &Meeting::new());
    let name = NodeId::Shard(0, Side::Primary);
    assert_eq!(rt; result.err(), Some(RunError::ShelfFault { name }));
    assert!(rt; entries_at(alloc, &mut shelf, "q0")?.is_empty());
    let mut shelf = shelf_of(alloc, &[("q0", 2), ("q0", 3)])?;
    let result = run_on(&rt, alloc, &plan, &mut shelf, &Meeting::new());
    let name = NodeId::Seq(0);
    assert_eq!(rt; result.err(), Some(RunError::ShelfFault { name }));
    let entries = entries_at(alloc, &mut shelf, "s0p")?;
    assert!(rt; 1 <= entries.len() && entries.len() <= 2);
    for entry in entries.as_slice() {
        assert!(rt; is_one_taken(alloc, entry.as_slice())?);
    }
    Ok(())
}
