//! Two shards, of which the first is removed: the one that goes, and the one that is left.

use super::single::{PROMISED, TAKEN};
use life_tables::Life;
use life_tables::clusters::PAIR;

/// The first shard goes after the second one has promised a record.
const LEFT: &str = r#"
c1 append 0 0 7 | item taken 1 0 "7" | to s1b replicate 0 1 0 "7" | to q0 report 1
s1b replicated 1 | to k0 deliver 0 1 0 "7" | mark promise 1 1 0 "7"
q0 decided 0 1 remove 0 0 | item known remove 0 0 | to k0 deliver 0 1 0 "7" | mark notice 0 | mark promise 0 1 0 "7"
# The other client comes, whose home is gone.
c0 append 0 0 5 | item taken 0 0 "5" | to s1b replicate 1 0 0 "5" | to q0 report 2
q0 decided 1 2 cut 1 0 | item known cut 1 0 | to c1 ack 0 0 | mark confirm 0 1 0 "7"
q0 decided 2 3 table 1 4 1:1 | item known table 1 4 1:1
# The cut covers it before the backup has told of it, so that it is promised too.
q0 decided 3 4 cut 1 1 | item known cut 1 1 | to c0 ack 0 1 | to k0 deliver 1 0 0 "5" | mark confirm 1 0 0 "5" | mark promise 1 0 0 "5"
# This shard is not gone, and has no fate to tell.
c1 ask 0 1
now | 2 records, 2 durable, 4 known
"#;

/// The first shard goes with a record that is covered and one that is not.
const GONE: &str = r#"
q0 decided 0 1 cut 0 0 | item known cut 0 0 | to c0 ack 0 0 | mark confirm 0 0 0 "5"
c0 append 0 1 9 | item taken 0 1 "9" | to s0b replicate 1 0 1 "9" | to q0 report 2
c0 ask 0 0
q0 decided 1 2 remove 0 0 | item known remove 0 0 | mark notice 2
c0 ask 0 0 | to c0 ack 0 0
c0 ask 0 1 | to c0 fate 1
c1 ask 0 0 | to c1 fate 0
# It takes nothing any more, and what isn't covered has no position.
c0 append 0 2 1
q0 fill 9
s0b replicated 2
k0 fetch 1 | to k0 deliver 1 0 1 "9"
now | 2 records, 2 durable, 2 known
"#;

/// It goes before its backup has the covered record.
const LATE: &str = r#"
q0 decided 0 1 cut 0 0 | item known cut 0 0
q0 decided 1 2 remove 0 0 | item known remove 0 0 | mark notice 2
c0 ask 0 0
s0p replicate 0 0 0 5 | item taken 0 0 "5" | to s0p replicated 1 | to q0 report 1
c0 ask 0 0 | to c0 ack 0 0
c0 ask 0 1 | to c0 fate 1
now | 1 records, 1 durable, 2 known
"#;

pub(super) const LIVES: &[Life] = &[
    // Promises begin anew after a removal.
    (PAIR, "s1p", &[], &[LEFT]),
    // A primary that is gone answers for its records.
    (PAIR, "s0p", &[], &[TAKEN, PROMISED, GONE]),
    // A backup that is gone answers once it has the records.
    (PAIR, "s0b", &[], &[LATE]),
];
