ghost use Rattle.std.specs.Prelude.{◌≤◌, ◌<◌};
ghost use Rattle.quota_table.specs.Rows.{IsTable};
ghost use Rattle.cut_core.specs.Fold.{HasValidTable};

use crate::{Known, LearnError, Lease};
use cut_core::{Effect, Reason};
use fix_ante::{Owner, first};
use quota_table::{Asked, Entry, OutOfMemory, Table, check};
use std::alloc::Global;
use std::process::Abort;
use std::test::Fail;

/// Windows of the large test, of four rounds each.
const WINDOWS: u32 = 25_000;

/// Rounds of the large test, each a cut.
const ROUNDS: u32 = 100_000;

fn asked(shard: u8, quota: u32) -> Asked {
    Asked { shard, quota }
}

/// A table of these shards and quotas.
fn table(rt: &impl Abort, rows: &[Asked]) -> Table
    ensures { IsTable result }
{
    let table = check(rows).expect(rt, "a valid table");
    let _rows = table.rows();
    table
}

/// What knows only a first window of four rounds.
fn fresh(rt: &impl Abort, alloc: Global, rows: &[Asked]) -> Result<Known, OutOfMemory> {
    Known::new(alloc, first(4, &table(rt, rows)))
}

/// A table of four rounds.
fn granting(rt: &impl Abort, after: u32, rows: &[Asked]) -> Entry
    ensures { HasValidTable result }
{
    Entry::Table {
        after,
        rounds: 4,
        rows: table(rt, rows),
    }
}

fn cut(window: u32, round: u16) -> Entry
    ensures { HasValidTable result }
{
    Entry::Cut { window, round }
}

/// A shard's local, with the number of its window and its position.
#[derive(Drop)]
struct Place(u8, u64, u32, u64);

/// Whether the local is leased so, and the position is the local's.
fn is_leased(known: &Known, place: &Place) -> bool {
    let Place(shard, local, window, position) = *place;
    known.leased(shard, local) == Some(Lease { window, position })
        && known.owner(position) == Some(Owner { shard, local })
}

/// A place as its shard, its local, its window and its position.
fn read_place(text: &str) -> Option<Place> {
    let (shard, rest) = text.split_once(' ')?;
    let (local, rest) = rest.split_once(' ')?;
    let (window, position) = rest.split_once(' ')?;
    Some(Place(
        shard.parse().ok()?,
        local.parse().ok()?,
        window.parse().ok()?,
        position.parse().ok()?,
    ))
}

/// Whether the locals of these places are leased so.
fn are_leased(known: &Known, places: &str) -> bool {
    places.split(", ").all(|text| read_place(text).is_some_and(|place| is_leased(known, &place)))
}

fn none_is_leased(known: &Known, locals: &[(u8, u64)]) -> bool {
    locals
        .iter()
        .all(|(shard, local)| known.leased(*shard, *local).is_none())
}

/// Two shards, and a table that turns them round.
fn turned(rt: &impl Abort, alloc: Global) -> Result<Known, Fail> {
    let mut known = fresh(rt, alloc, &[asked(0, 2), asked(1, 3)])?;
    known.learn(0, &granting(rt, 0, &[asked(1, 1), asked(0, 1)]))?;
    Ok(known)
}

/// Three shards, of which a round is covered, and a table of the same.
fn renewed(rt: &impl Abort, alloc: Global) -> Result<Known, Fail> {
    let rows = [asked(0, 2), asked(1, 3), asked(2, 1)];
    let mut known = fresh(rt, alloc, &rows)?;
    known.learn(0, &cut(0, 0))?;
    known.learn(1, &granting(rt, 0, &rows))?;
    Ok(known)
}

#[test]
fn a_lease_waits_for_the_table(rt: HostRuntime) -> Result<(), Fail> {
    let known = fresh(&rt, rt.alloc(), &[asked(0, 2), asked(1, 3)])?;
    assert!(rt; are_leased(&known, "1 4 0 8, 1 11 0 19"));
    assert!(rt; none_is_leased(&known, &[(1, 12), (0, 8), (2, 0), (6, 0), (255, 0)]));
    assert_eq!(rt; known.owner(20), None);
    Ok(())
}

#[test]
fn a_table_leases_its_window(rt: HostRuntime) -> Result<(), Fail> {
    let known = turned(&rt, rt.alloc())?;
    let granted = known.agreed().granted().expect(&rt, "a granted window");
    assert_eq!(rt; (granted.number(), granted.base()), (1, 20));
    assert!(rt;
        are_leased(
            &known,
            "1 11 0 19, 1 12 1 20, 0 8 1 21, 1 15 1 26, 0 11 1 27"
        )
    );
    assert!(rt; none_is_leased(&known, &[(1, 16), (0, 12)]));
    assert_eq!(rt; known.owner(28), None);
    Ok(())
}

#[test]
fn effects_are_told(rt: HostRuntime) -> Result<(), Fail> {
    let mut known = renewed(&rt, rt.alloc())?;
    let remove = Entry::Remove {
        window: 0,
        shard: 1,
    };
    assert_eq!(rt;
        known.learn(2, &remove)?,
        Effect::Removed { shard: 1, first: 8 }
    );
    let wrong = Reason::WrongWindow { current: 3 };
    assert_eq!(rt; known.learn(3, &cut(0, 1))?, Effect::Void { reason: wrong });
    assert_eq!(rt; known.learn(4, &Entry::Nothing)?, Effect::Still);
    assert!(rt; known.entry(2) == Some(&remove));
    Ok(())
}

#[test]
fn slots_come_in_order(rt: HostRuntime) -> Result<(), Fail> {
    let mut known = turned(&rt, rt.alloc())?;
    let old = known.learn(0, &Entry::Nothing);
    assert_eq!(rt; old, Err(LearnError::Old { count: 1 }));
    for slot in [2, 999_999] {
        let gap = known.learn(slot, &Entry::Nothing);
        assert_eq!(rt; gap, Err(LearnError::Gap { expected: 1 }), "{slot}");
    }
    assert_eq!(rt; known.count(), 1);
    assert!(rt; known.entry(1).is_none());
    Ok(())
}

#[test]
fn a_grant_goes_with_a_removal(rt: HostRuntime) -> Result<(), Fail> {
    let mut known = renewed(&rt, rt.alloc())?;
    assert!(rt;
        are_leased(
            &known,
            "0 1 0 1, 1 2 0 4, 1 3 0 8, 0 8 2 24, 1 12 2 26, 2 4 2 29"
        )
    );
    known.learn(
        2,
        &Entry::Remove {
            window: 0,
            shard: 1,
        },
    )?;
    assert!(rt;
        are_leased(
            &known,
            "0 1 0 1, 1 2 0 4, 0 2 3 6, 0 3 3 7, 2 1 3 8, 0 8 3 15, 2 4 3 17"
        )
    );
    assert!(rt; none_is_leased(&known, &[(1, 3), (0, 10), (2, 5)]));
    assert_eq!(rt; known.owner(18), None);
    Ok(())
}

/// The number of a window of the large test, counted from 0: its table stands before the cuts of the window before it.
fn number_of(index: u32) -> u32
    requires { index ≤ 25000 }
    ensures { result ≤ 125000 }
{
    if index == 0 {
        return 0;
    }
    5 * (index - 1) + 1
}

/// Learns a table, and then the cuts of the window before the table's.
fn learn_window(
    rt: &impl Abort,
    known: &mut Known,
    index: u32,
    rows: &[Asked],
) -> Result<Effect, LearnError>
    requires { index < 25000 }
{
    let slot = 5 * index;
    let window = number_of(index);
    known.learn(slot, &granting(rt, window, rows))?;
    for round in 0..3 {
        known.learn(slot + 1 + u32::from(round), &cut(window, round))?;
    }
    known.learn(slot + 4, &cut(window, 3))
}

/// Whether a round of the large test is located, leased and owned as its cut covered it.
fn is_covered(known: &Known, round: u32) -> bool
    requires { round < 100000 }
{
    let window = number_of(round / 4);
    let (base, turn) = (5 * u64::from(round), u64::from(round));
    known.agreed().locate(base)
        == Some(Owner {
            shard: 0,
            local: 2 * turn,
        })
        && is_leased(known, &Place(0, 2 * turn + 1, window, base + 1))
        && is_leased(known, &Place(1, 3 * turn + 2, window, base + 4))
}

#[test]
fn many_windows_end_in_time(rt: HostRuntime) -> Result<(), Fail> {
    let rows = [asked(0, 2), asked(1, 3)];
    let mut known = fresh(&rt, rt.alloc(), &rows)?;
    for index in 0..WINDOWS {
        let effect = learn_window(&rt, &mut known, index, &rows)?;
        assert_eq!(rt;
            effect,
            Effect::Opened {
                window: 5 * index + 1
            }
        );
    }
    assert_eq!(rt;
        (known.count(), known.agreed().covered()),
        (125_000, 500_000)
    );
    for round in 0..ROUNDS {
        assert!(rt; is_covered(&known, round), "{round}");
    }
    Ok(())
}
