use crate::{Wanted, lagging, uncovered};
use fix_ante::first;
use quota_table::{Asked, check};

/// Rows (0, 2) and (1, 3), round 1: it begins at locals 2 and 3, and ends at 4 and 6.
#[test]
fn rows_short_of_a_round(rt: HostRuntime) {
    let rows = [Asked { shard: 0, quota: 2 }, Asked { shard: 1, quota: 3 }];
    let table = check(&rows).expect(&rt, "a valid table");
    let window = first(4, &table);
    assert!(rt; 1 < window.rounds());
    let short = |shard, len| Wanted { shard, len };
    for (zero, one, wanted, is_uncovered) in [
        (0, 0, &[short(0, 4), short(1, 6)] as &[Wanted], false),
        (2, 3, &[short(0, 4), short(1, 6)], false),
        (3, 3, &[short(0, 4), short(1, 6)], true),
        (2, 4, &[short(0, 4), short(1, 6)], true),
        (4, 5, &[short(1, 6)], true),
        (3, 7, &[short(0, 4)], true),
        (4, 6, &[], true),
    ] {
        let lengths = [zero, one, 0, 0, 0, 0];
        assert!(rt;
            lagging(&window, 1, &lengths).as_slice() == wanted,
            "{zero} {one}"
        );
        assert!(rt;
            uncovered(&window, 1, &lengths) == is_uncovered,
            "{zero} {one}"
        );
    }
}
