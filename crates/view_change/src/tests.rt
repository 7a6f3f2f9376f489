use crate::{first_failed, remap, surviving};
use fix_ante::{Owner, first, without};
use quota_table::{Asked, check};

/// Rows (0, 2), (1, 3) and (2, 1): shard 1 leaves where one round is covered.
#[test]
fn a_removal_moves(rt: HostRuntime) {
    let rows = [
        Asked { shard: 0, quota: 2 },
        Asked { shard: 1, quota: 3 },
        Asked { shard: 2, quota: 1 },
    ];
    let table = check(&rows).expect(&rt, "a valid table");
    let window = first(4, &table);
    assert!(rt; window.end() <= 1 << 48);
    assert!(rt; window.is_row(1));
    assert!(rt; window.spots().len() >= 2);
    assert!(rt; 1 < window.rounds());
    let after = without(&window, 2, 1, 1);
    assert_eq!(rt; first_failed(&window, 1, 1), 8);
    assert_eq!(rt; surviving(11, 8), 8);
    assert_eq!(rt; surviving(5, 8), 5);
    let owner = |shard, local| Some(Owner { shard, local });
    for (position, was, now) in [
        (6, owner(0, 2), owner(0, 2)),
        (7, owner(0, 3), owner(0, 3)),
        (8, owner(1, 3), owner(2, 1)),
        (23, owner(2, 3), None),
        (24, None, None),
    ] {
        let moved = remap(&window, &after, position);
        assert_eq!(rt; moved.was, was, "{position}");
        assert_eq!(rt; moved.now, now, "{position}");
    }
}
