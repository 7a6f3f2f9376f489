use crate::{Owner, Spot, Window, first, next, owner, place, without};
use quota_table::{Asked, Table, check};
use std::process::Abort;

/// A table of these shards and quotas.
fn table(rt: &impl Abort, rows: &[Asked]) -> Table {
    check(rows).expect(rt, "a valid table")
}

fn asked(shard: u8, quota: u32) -> Asked {
    Asked { shard, quota }
}

fn spot(shard: u8, quota: u8, start: u64) -> Spot {
    Spot {
        shard,
        quota,
        start,
    }
}

/// Number, base, rounds and rows of a window, in one comparison.
fn is_window(window: &Window, number: u32, base: u64, rounds: u16, spots: &[Spot]) -> bool {
    window.number() == number
        && window.base() == base
        && window.rounds() == rounds
        && window.spots() == spots
}

#[test]
fn places_and_owners(rt: HostRuntime) {
    let window = first(4, &table(&rt, &[asked(0, 2), asked(1, 3)]));
    assert!(rt; is_window(&window, 0, 0, 4, &[spot(0, 2, 0), spot(1, 3, 0)]));
    assert_eq!(rt; window.width(), 5);
    assert_eq!(rt; window.end(), 20);
    assert!(rt; window.table() == table(&rt, &[asked(0, 2), asked(1, 3)]));
    for (shard, local, position) in [
        (0, 0, 0),
        (0, 1, 1),
        (1, 0, 2),
        (1, 2, 4),
        (0, 2, 5),
        (0, 3, 6),
        (1, 3, 7),
        (1, 4, 8),
        (1, 5, 9),
        (0, 7, 16),
        (1, 11, 19),
    ] {
        assert_eq!(rt;
            place(&window, shard, local),
            Some(position),
            "{shard} {local}"
        );
        assert_eq!(rt;
            owner(&window, position),
            Some(Owner { shard, local }),
            "{position}"
        );
    }
    for (shard, local) in [(0, 8), (1, 12), (2, 0)] {
        assert_eq!(rt; place(&window, shard, local), None, "{shard} {local}");
    }
    assert_eq!(rt; owner(&window, 20), None);
    assert!(rt; window.is_row(1));
    assert!(rt; !window.is_row(2));
    assert!(rt; window.copy() == window);
}

#[test]
fn a_table_follows(rt: HostRuntime) {
    let window = first(4, &table(&rt, &[asked(0, 2), asked(1, 3)]));
    assert!(rt; window.end() <= 1 << 48);
    let after = next(&window, 1, 4, &table(&rt, &[asked(1, 1), asked(0, 1)]));
    assert!(rt; is_window(&after, 1, 20, 4, &[spot(1, 1, 12), spot(0, 1, 8)]));
    assert_eq!(rt; place(&after, 1, 12), Some(20));
    assert_eq!(rt; place(&after, 0, 8), Some(21));
    assert_eq!(rt; place(&after, 1, 11), None);
    assert_eq!(rt; owner(&after, 19), None);
    assert!(rt; after != window);
    assert!(rt; window.end() <= 1 << 48);
    let grown = next(&window, 5, 1, &table(&rt, &[asked(3, 64), asked(0, 2)]));
    assert!(rt; is_window(&grown, 5, 20, 1, &[spot(3, 64, 0), spot(0, 2, 8)]));
}

#[test]
fn a_shard_leaves(rt: HostRuntime) {
    let window = first(4, &table(&rt, &[asked(0, 2), asked(1, 3), asked(2, 1)]));
    assert!(rt; window.end() <= 1 << 48);
    assert!(rt; window.is_row(1));
    assert!(rt; window.spots().len() >= 2);
    assert!(rt; 1 < window.rounds());
    let after = without(&window, 2, 1, 1);
    assert!(rt; is_window(&after, 2, 6, 4, &[spot(0, 2, 2), spot(2, 1, 1)]));
    for (position, shard, local) in [(6, 0, 2), (7, 0, 3), (8, 2, 1), (9, 0, 4), (17, 2, 4)] {
        assert_eq!(rt;
            owner(&after, position),
            Some(Owner { shard, local }),
            "{position}"
        );
    }
    assert_eq!(rt; owner(&after, 5), None);
    assert_eq!(rt; owner(&after, 18), None);
}
