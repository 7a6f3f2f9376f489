//! Where the readers of two views begin.
ghost use Rattle.std.specs.Prelude.{◌≡◌, IfOk, length};
ghost use Rattle.std.specs.List.{AllByRecursion};
ghost use Rattle.plan_views.specs.Views.{IsOpening};

use crate::begin_views;
use cluster_users::{Environment, Open, Reader};
use quota_table::OutOfMemory;
use record_codec::Shown;
use scoped_turns::TakesTurns;
use std::alloc::Global;
use std::sync::Wait;
use std::test::Fail;
use view_cell::Look;

/// An opening look that is told apart by the positions that were applied.
fn opening(applied: u64) -> Look
    ensures { IsOpening result }
{
    Look {
        ops: 0,
        epoch: 0,
        applied,
        confirmed: 3,
        shown: Shown::new(),
    }
}

/// The openings of two consumers.
fn openings(alloc: Global) -> Result<Vec<Look>, OutOfMemory>
    ensures count { IfOk result (λ all. length all.items ≡ 2) }
    ensures openings { IfOk result (λ all. AllByRecursion IsOpening all.items) }
{
    Ok(vec![in alloc; opening(10), opening(20)]?)
}

/// Whether a reader that looks once has this number and consumer, and keeps this opening alone.
fn looks<R: Wait>(
    rt: &R,
    alloc: Global,
    reader: Reader,
    number: u8,
    consumer: u8,
    applied: u64,
) -> bool {
    let env = Environment {
        rt,
        alloc,
        gate: &Open,
        desks: &[],
    };
    let looks = reader.take_turns(&env, 1).into_looks();
    looks.reader == number
        && looks.consumer == consumer
        && looks.list.as_slice() == [opening(applied)].as_slice()
}

#[test]
fn first_looks_are_openings(rt: HostRuntime) -> Result<(), Fail> {
    let alloc = rt.alloc();
    let begun = begin_views(&rt, alloc, &[1, 0, 1], openings(alloc)?)?;
    assert_eq!(rt; begun.publishers.len(), 2);
    let mut wanted = [(0, 1, 20), (1, 0, 10), (2, 1, 20)].iter();
    for reader in begun.readers {
        let Some((number, consumer, applied)) = wanted.next() else {
            return Err(Fail::from("three readers"));
        };
        assert!(rt; looks(&rt, alloc, reader, *number, *consumer, *applied));
    }
    assert!(rt; wanted.next().is_none());
    Ok(())
}

/// A consumer without a reader has a view too.
#[test]
fn a_view_without_readers(rt: HostRuntime) -> Result<(), Fail> {
    let alloc = rt.alloc();
    let begun = begin_views(&rt, alloc, &[], openings(alloc)?)?;
    assert_eq!(rt; begun.publishers.len(), 2);
    assert!(rt; begun.readers.is_empty());
    Ok(())
}
