//! Two lives of clients of a larger cluster, step by step as an independent model of the protocol has them.

use life_tables::Life;
use life_tables::agreed::{FIRST_WINDOW, NEXT_WINDOW};
use life_tables::clusters::TRIO;

/// The first client submits.
const WAITS: &str = r#"
submit set k31 v29 | item submitted "set k31 v29" | to s2p append 0 0 "set k31 v29"
"#;

/// The second client submits.
const SENDS: &str = r#"
submit | item submitted "" | to s2p append 0 0 ""
"#;

/// The home of both goes.
const REMOVALS: &str = r#"
q0 decided 0 1 remove 0 2 | item known remove 0 2 | to s2p s2b ask 0 0
q0 decided 1 2 remove 1 2 | item known remove 1 2 | to s2p s2b ask 0 0
"#;

/// The first client's record goes to its second home.
const MOVES: &str = r#"
s2p fate 0 | item moved 1 0 | to s1p append 0 0 "set k31 v29"
s2b fate 0
s2p fate 0
s2b fate 0
"#;

/// And waits there.
const WAITS_ON: &str = r#"
tick | to q0 learn 10 | to s1p append 0 0 "set k31 v29"
q0 decided 10 11 cut 5 1 | item known cut 5 1
tick | to q1 learn 11 | to s1p append 0 0 "set k31 v29"
q0 decided 11 12 cut 5 2 | item known cut 5 2
tick | to q2 learn 12 | to s1p append 0 0 "set k31 v29"
now | home 1, 0 acknowledged, 12 known
"#;

/// The second client's record goes to another home.
const GOES: &str = r#"
s2p fate 0 | item moved 0 0 | to s0p append 0 0 ""
s2b fate 0
s2p fate 0
s2b fate 0
"#;

/// And is covered there.
const ACKED: &str = r#"
s0p ack 0 7 | item acked | mark ack 0 7
"#;

/// It has nothing to send any more.
const RESTS: &str = r#"
tick | to q0 learn 10
q0 decided 10 11 cut 5 1 | item known cut 5 1
tick | to q1 learn 11
q0 decided 11 12 cut 5 2 | item known cut 5 2
tick | to q2 learn 12
now | home 0, 1 acknowledged, 12 known
"#;

pub(super) const LIVES: &[Life] = &[
    // A client whose home goes.
    (
        TRIO,
        "c0",
        &[],
        &[WAITS, REMOVALS, MOVES, FIRST_WINDOW, NEXT_WINDOW, WAITS_ON],
    ),
    // A client that is acknowledged at its second home.
    (
        TRIO,
        "c1",
        &[],
        &[
            SENDS,
            REMOVALS,
            GOES,
            FIRST_WINDOW,
            ACKED,
            NEXT_WINDOW,
            RESTS,
        ],
    ),
];
