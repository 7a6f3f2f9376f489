//! Whose bodies lie where as a run begins.
ghost use Rattle.std.specs.Prelude.{◌≡◌, [], ◌∷◌, IfOk};
ghost use Rattle.msg_wire.specs.Valid.{IsValidPlan};
ghost use Rattle.plan_desks.specs.inside.Plans.{IsSmall};

use crate::begin;
use msg_wire::{Config, Homes, Plan, PlanLine, PlanLines};
use quota_table::{Asked, Listed, OutOfMemory, check};
use record_codec::{AppKind, Body};
use std::alloc::Global;
use std::collections::VecDeque;
use std::test::Fail;

/// A body of one letter for a submitter.
fn line(alloc: Global, by: u8, letter: u8) -> Result<PlanLine, OutOfMemory>
    ensures { IfOk result (λ line. line ≡ PlanLine.Submit by (letter ∷ [])) }
{
    let body = Body::of(alloc, &[letter])?;
    Ok(PlanLine::Submit { by, body })
}

/// Five bodies, and an episode among them.
fn lines(alloc: Global) -> Result<PlanLines, OutOfMemory>
    ensures { IfOk result (λ all. all ≡ PlanLine.Submit 2 (112 ∷ []) ∷ PlanLine.Episode 3 ∷ PlanLine.Submit 0 (97 ∷ [])
        ∷ PlanLine.Submit 2 (113 ∷ []) ∷ PlanLine.Submit 0 (98 ∷ []) ∷ PlanLine.Submit 2 (114 ∷ []) ∷ []) }
{
    let mut all = Listed::new(alloc);
    all.push(line(alloc, 2, b'p')?)?;
    all.push(PlanLine::Episode { turns: 3 })?;
    all.push(line(alloc, 0, b'a')?)?;
    all.push(line(alloc, 2, b'q')?)?;
    all.push(line(alloc, 0, b'b')?)?;
    all.push(line(alloc, 2, b'r')?)?;
    Ok(all)
}

/// The shard at home of two clients.
fn homes(alloc: Global) -> Result<Homes, OutOfMemory>
    ensures { IfOk result (λ all. all ≡ 0 ∷ 0 ∷ []) }
{
    let mut all = Listed::new(alloc);
    all.push(0)?;
    all.push(0)?;
    Ok(all)
}

/// The clients of three submitters: the second one has the first and the last of them.
fn clients(alloc: Global) -> Result<Homes, OutOfMemory>
    ensures { IfOk result (λ all. all ≡ 1 ∷ 0 ∷ 1 ∷ []) }
{
    let mut all = Listed::new(alloc);
    all.push(1)?;
    all.push(0)?;
    all.push(1)?;
    Ok(all)
}

/// A cluster of one shard with two clients.
fn config(alloc: Global) -> Result<Config, Fail>
    ensures { IfOk result IsSmall }
{
    let Ok(table) = check(&[Asked { shard: 0, quota: 1 }]) else {
        return Err(Fail::from("a table"));
    };
    Ok(Config {
        seqs: 1,
        shards: 1,
        rounds: 1,
        table,
        homes: homes(alloc)?,
        consumers: 1,
        app: AppKind::Tally,
    })
}

/// A plan of that cluster without faults.
fn plan(alloc: Global) -> Result<Plan, Fail>
    ensures { IfOk result IsValidPlan }
{
    Ok(Plan {
        cfg: config(alloc)?,
        readers: Listed::new(alloc),
        submitters: clients(alloc)?,
        seed: 0,
        lose: 0,
        repeat: 0,
        late: 0,
        cut: 0,
        limit: 0,
        settle: 0,
        lines: lines(alloc)?,
    })
}

/// A body of each letter, in order.
fn bodies(alloc: Global, letters: &[u8]) -> Result<VecDeque<Body>, OutOfMemory> {
    let mut all = VecDeque::new(alloc);
    for letter in letters {
        all.push_back(Body::of(alloc, &[*letter])?)?;
    }
    Ok(all)
}

#[test]
fn bodies_in_the_order_of_lines(rt: HostRuntime) -> Result<(), Fail> {
    let alloc = rt.alloc();
    let begun = begin(&rt, alloc, &plan(alloc)?)?;
    assert_eq!(rt; begun.desks.len(), 2);
    let letters = [b"ab".as_slice(), b"".as_slice(), b"pqr".as_slice()];
    let mut wanted = letters.iter();
    for submitter in begun.submitters {
        let Some(letters) = wanted.next() else {
            return Err(Fail::from("three submitters"));
        };
        let (_, held) = submitter.into_parts();
        assert!(rt; held == bodies(alloc, letters)?);
    }
    assert!(rt; wanted.next().is_none());
    Ok(())
}

#[test]
fn a_taker_for_each_client(rt: HostRuntime) -> Result<(), Fail> {
    let begun = begin(&rt, rt.alloc(), &plan(rt.alloc())?)?;
    assert_eq!(rt; begun.takers.len(), 2);
    let mut client = 0;
    for taker in begun.takers {
        assert_eq!(rt; taker.client, client);
        client = 1;
    }
    assert_eq!(rt; client, 1);
    Ok(())
}
