ghost use Rattle.std.specs.Prelude.{◌≡◌, ◌≤◌, ◌<◌, ◌*◌};
ghost use Rattle.quota_table.specs.Rows.{IsTable};
ghost use Rattle.cut_core.specs.Fold.{HasValidTable};
ghost use Rattle.cut_core.specs.Soundness.{IsFirst};

use crate::{Agreed, Effect, Reason};
use fix_ante::{Owner, Spot, Window, first};
use quota_table::{Asked, Entry, OutOfMemory, Table, check};
use std::process::Abort;
use std::test::Fail;

fn table(rt: &impl Abort, rows: &[(u8, u32)]) -> Table
    ensures { IsTable result }
{
    let mut asked = [Asked { shard: 0, quota: 0 }; 6];
    assert!(rt; rows.len() <= asked.len());
    for (i, row) in rows.iter().enumerate() {
        asked[i] = Asked {
            shard: row.0,
            quota: row.1,
        };
    }
    check(&asked[..rows.len()]).expect(rt, "a valid table")
}

/// The first window, of this many rounds.
fn first_window(rt: &impl Abort, rounds: u16, rows: &[(u8, u32)]) -> Window
    requires some { 1 ≤ rounds }
    requires most { rounds ≤ 1024 }
    ensures { IsFirst result }
{
    first(rounds, &table(rt, rows))
}

/// A table's entry.
fn grant(rt: &impl Abort, after: u32, rounds: u16, rows: &[(u8, u32)]) -> Entry
    requires some { 1 ≤ rounds }
    requires most { rounds ≤ 1024 }
    ensures { HasValidTable result }
{
    Entry::Table {
        after,
        rounds,
        rows: table(rt, rows),
    }
}

/// Applies the entry at the next slot.
fn apply_next(rt: &impl Abort, agreed: &mut Agreed, entry: &Entry) -> Result<Effect, OutOfMemory>
    requires { HasValidTable entry.now }
{
    let slot = agreed.slots();
    assert!(rt; slot < 1_000_000);
    agreed.apply(slot, entry)
}

fn cut(
    rt: &impl Abort,
    agreed: &mut Agreed,
    window: u32,
    round: u16,
) -> Result<Effect, OutOfMemory> {
    apply_next(rt, agreed, &Entry::Cut { window, round })
}

fn remove(
    rt: &impl Abort,
    agreed: &mut Agreed,
    window: u32,
    shard: u8,
) -> Result<Effect, OutOfMemory> {
    apply_next(rt, agreed, &Entry::Remove { window, shard })
}

fn void(reason: Reason) -> Effect {
    Effect::Void { reason }
}

/// Number, base, rounds and rows of a window, in one comparison.
fn is_window(window: &Window, number: u32, base: u64, rounds: u16, rows: &[(u8, u8, u64)]) -> bool {
    window.number() == number
        && window.base() == base
        && window.rounds() == rounds
        && has_spots(window.spots(), rows)
}

fn has_spots(spots: &[Spot], rows: &[(u8, u8, u64)]) -> bool {
    if spots.len() != rows.len() {
        return false;
    }
    for (spot, row) in spots.iter().zip(rows) {
        if spot.shard != row.0 || spot.quota != row.1 || spot.start != row.2 {
            return false;
        }
    }
    true
}

/// The rows of most tests: three shards.
const THREE: [(u8, u32); 3] = [(0, 2), (1, 3), (2, 1)];

#[test]
fn a_table_follows(rt: HostRuntime) -> Result<(), Fail> {
    let mut agreed = Agreed::new(rt.alloc(), first_window(&rt, 4, &[(0, 2), (1, 3)]))?;
    let turned = grant(&rt, 0, 4, &[(1, 1), (0, 1)]);
    assert_eq!(rt;
        apply_next(&rt, &mut agreed, &turned)?,
        Effect::Granted { window: 1 }
    );
    assert!(rt; is_window(agreed.current(), 0, 0, 4, &[(0, 2, 0), (1, 3, 0)]));
    assert!(rt;
        agreed.granted().is_some_and(|window| is_window(window, 1, 20, 4, &[(1, 1, 12), (0, 1, 8)]))
    );
    for round in 0..3 {
        assert_eq!(rt;
            cut(&rt, &mut agreed, 0, round)?,
            Effect::Covered { rounds: round + 1 }
        );
    }
    assert_eq!(rt; agreed.covered(), 15);
    assert_eq!(rt; agreed.place(1, 4), Some(8));
    assert_eq!(rt; agreed.place(1, 9), None);
    assert_eq!(rt; cut(&rt, &mut agreed, 0, 3)?, Effect::Opened { window: 1 });
    assert!(rt; is_window(agreed.current(), 1, 20, 4, &[(1, 1, 12), (0, 1, 8)]));
    assert!(rt; agreed.granted().is_none());
    assert_eq!(rt; agreed.place(1, 11), Some(19));
    assert_eq!(rt; agreed.place(1, 12), None);
    assert_eq!(rt; cut(&rt, &mut agreed, 1, 0)?, Effect::Covered { rounds: 1 });
    for (position, shard, local, number) in [
        (8, 1, 4, 0),
        (19, 1, 11, 0),
        (20, 1, 12, 1),
        (21, 0, 8, 1),
    ] {
        assert_eq!(rt;
            agreed.locate(position),
            Some(Owner { shard, local }),
            "{position}"
        );
        assert_eq!(rt; agreed.place(shard, local), Some(position), "{position}");
        assert_eq!(rt; agreed.number_at(position), Some(number), "{position}");
    }
    assert_eq!(rt; agreed.locate(22), None);
    assert_eq!(rt; agreed.number_at(22), None);
    assert_eq!(rt;
        (agreed.locals(0), agreed.locals(1), agreed.locals(2)),
        (9, 13, 0)
    );
    assert_eq!(rt; agreed.slots(), 6);
    Ok(())
}

#[test]
fn a_shard_leaves(rt: HostRuntime) -> Result<(), Fail> {
    let mut agreed = Agreed::new(rt.alloc(), first_window(&rt, 4, &THREE))?;
    assert_eq!(rt; cut(&rt, &mut agreed, 0, 0)?, Effect::Covered { rounds: 1 });
    assert_eq!(rt; agreed.rounds_covered(), 1);
    assert_eq!(rt;
        remove(&rt, &mut agreed, 0, 1)?,
        Effect::Removed { shard: 1, first: 8 }
    );
    assert!(rt; is_window(agreed.current(), 2, 6, 4, &[(0, 2, 2), (2, 1, 1)]));
    assert_eq!(rt; agreed.rounds_covered(), 0);
    assert_eq!(rt; agreed.gone(1), Some(3));
    assert_eq!(rt; agreed.gone(0), None);
    assert_eq!(rt; agreed.gone(6), None);
    assert_eq!(rt; agreed.covered(), 6);
    assert_eq!(rt; cut(&rt, &mut agreed, 2, 0)?, Effect::Covered { rounds: 1 });
    for (position, shard, local) in [
        (0, 0, 0),
        (4, 1, 2),
        (5, 2, 0),
        (6, 0, 2),
        (7, 0, 3),
        (8, 2, 1),
    ] {
        assert_eq!(rt;
            agreed.locate(position),
            Some(Owner { shard, local }),
            "{position}"
        );
        assert_eq!(rt; agreed.place(shard, local), Some(position), "{position}");
    }
    assert_eq!(rt; agreed.place(1, 3), None);
    assert_eq!(rt; agreed.place(9, 0), None);
    assert_eq!(rt; agreed.locals(9), 0);
    Ok(())
}

#[test]
fn a_removal_cancels_a_grant(rt: HostRuntime) -> Result<(), Fail> {
    let mut agreed = Agreed::new(rt.alloc(), first_window(&rt, 4, &THREE))?;
    assert_eq!(rt; cut(&rt, &mut agreed, 0, 0)?, Effect::Covered { rounds: 1 });
    let same = grant(&rt, 0, 4, &THREE);
    assert_eq!(rt;
        apply_next(&rt, &mut agreed, &same)?,
        Effect::Granted { window: 2 }
    );
    assert_eq!(rt;
        remove(&rt, &mut agreed, 0, 1)?,
        Effect::Removed { shard: 1, first: 8 }
    );
    assert!(rt; agreed.granted().is_none());
    assert_eq!(rt;
        cut(&rt, &mut agreed, 0, 1)?,
        void(Reason::WrongWindow { current: 3 })
    );
    assert_eq!(rt;
        apply_next(&rt, &mut agreed, &Entry::Nothing)?,
        Effect::Still
    );
    assert_eq!(rt; agreed.slots(), 5);
    Ok(())
}

#[test]
fn reasons_come_in_order(rt: HostRuntime) -> Result<(), Fail> {
    let mut agreed = Agreed::new(rt.alloc(), first_window(&rt, 2, &[(0, 2), (1, 3)]))?;
    assert_eq!(rt;
        cut(&rt, &mut agreed, 5, 9)?,
        void(Reason::WrongWindow { current: 0 })
    );
    assert_eq!(rt;
        cut(&rt, &mut agreed, 0, 1)?,
        void(Reason::WrongRound { covered: 0 })
    );
    assert_eq!(rt; cut(&rt, &mut agreed, 0, 0)?, Effect::Covered { rounds: 1 });
    assert_eq!(rt;
        cut(&rt, &mut agreed, 0, 0)?,
        void(Reason::WrongRound { covered: 1 })
    );
    assert_eq!(rt; cut(&rt, &mut agreed, 0, 1)?, void(Reason::NoGrant));
    assert_eq!(rt;
        remove(&rt, &mut agreed, 3, 4)?,
        void(Reason::WrongWindow { current: 0 })
    );
    assert_eq!(rt;
        remove(&rt, &mut agreed, 0, 4)?,
        void(Reason::NotARow { shard: 4 })
    );
    assert_eq!(rt;
        remove(&rt, &mut agreed, 0, 1)?,
        Effect::Removed { shard: 1, first: 7 }
    );
    // The removal's entry had slot 7, so its window has number 8.
    assert_eq!(rt; remove(&rt, &mut agreed, 8, 0)?, void(Reason::LastShard));
    let gone = grant(&rt, 8, 2, &[(0, 1), (1, 1)]);
    assert_eq!(rt;
        apply_next(&rt, &mut agreed, &gone)?,
        void(Reason::GoneShard { shard: 1 })
    );
    let alone = grant(&rt, 8, 2, &[(0, 1)]);
    assert_eq!(rt;
        apply_next(&rt, &mut agreed, &alone)?,
        Effect::Granted { window: 11 }
    );
    assert_eq!(rt;
        apply_next(&rt, &mut agreed, &gone)?,
        void(Reason::AlreadyGranted { window: 11 })
    );
    let late = grant(&rt, 7, 2, &[(0, 1), (1, 1)]);
    assert_eq!(rt;
        apply_next(&rt, &mut agreed, &late)?,
        void(Reason::WrongWindow { current: 8 })
    );
    Ok(())
}

#[test]
fn the_only_row_stays(rt: HostRuntime) -> Result<(), Fail> {
    let mut agreed = Agreed::new(rt.alloc(), first_window(&rt, 1, &[(0, 1), (1, 2)]))?;
    let alone = grant(&rt, 0, 2, &[(1, 1)]);
    assert_eq!(rt;
        apply_next(&rt, &mut agreed, &alone)?,
        Effect::Granted { window: 1 }
    );
    assert_eq!(rt; cut(&rt, &mut agreed, 0, 0)?, Effect::Opened { window: 1 });
    assert_eq!(rt; (agreed.gone(0), agreed.gone(1)), (Some(1), None));
    assert_eq!(rt; remove(&rt, &mut agreed, 1, 1)?, void(Reason::LastShard));
    assert_eq!(rt;
        remove(&rt, &mut agreed, 1, 0)?,
        void(Reason::NotARow { shard: 0 })
    );
    Ok(())
}

/// The windows of the large test, of four rounds each, and its cuts.
const WINDOWS: u32 = 25_000;

/// Who has a position of the large test, whose windows all have quotas 2 and 3: locals go on from round to round.
fn expected(position: u64) -> Owner {
    let (round, at) = (position / 5, position % 5);
    if at < 2 {
        Owner {
            shard: 0,
            local: round * 2 + at,
        }
    } else {
        Owner {
            shard: 1,
            local: round * 3 + at - 2,
        }
    }
}

#[test]
fn many_cuts_end_in_time(rt: HostRuntime) -> Result<(), Fail> {
    let rows = [(0, 2), (1, 3)];
    let mut agreed = Agreed::new(rt.alloc(), first_window(&rt, 4, &rows))?;
    // Five entries a window: a table, and four cuts.
    for done in 0..WINDOWS {
        let number = if done == 0 { 0 } else { 5 * (done - 1) + 1 };
        let renewed = grant(&rt, number, 4, &rows);
        let window = 5 * done + 1;
        assert_eq!(rt;
            apply_next(&rt, &mut agreed, &renewed)?,
            Effect::Granted { window }
        );
        for round in 0..3 {
            assert_eq!(rt;
                cut(&rt, &mut agreed, number, round)?,
                Effect::Covered { rounds: round + 1 }
            );
        }
        assert_eq!(rt;
            cut(&rt, &mut agreed, number, 3)?,
            Effect::Opened { window }
        );
    }
    assert_eq!(rt; agreed.covered(), 500_000);
    for i in 0..100_000 {
        let position = 5 * i + i % 5;
        let owner = expected(position);
        assert_eq!(rt; agreed.locate(position), Some(owner), "{position}");
        assert_eq!(rt;
            agreed.place(owner.shard, owner.local),
            Some(position),
            "{position}"
        );
    }
    assert_eq!(rt; agreed.locate(500_000), None);
    Ok(())
}
