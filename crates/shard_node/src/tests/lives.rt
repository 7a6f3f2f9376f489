//! Two lives of replicas of a larger cluster, step by step as an independent model of the protocol has them.

use life_tables::Life;
use life_tables::agreed::{FIRST_WINDOW, NEXT_WINDOW};
use life_tables::clusters::TRIO;

/// Shard 2 goes, with a record that it has promised.
const GOES: &str = r#"
c1 append 0 0 | item taken 1 0 "" | to s2b replicate 0 1 0 "" | to q0 q1 q2 report 1
s2b replicated 1 | to k0 deliver 0 1 0 "" | mark promise 1 1 0 ""
q0 decided 0 1 remove 0 2 | item known remove 0 2 | mark notice 1
c0 append 0 0 set k31 v29
c0 ask 0 0 | to c0 fate 0
c1 ask 0 0 | to c1 fate 0
q0 decided 1 2 remove 1 2 | item known remove 1 2
c0 ask 0 0 | to c0 fate 0
c1 ask 0 0 | to c1 fate 0
"#;

/// It tells of its record all the same.
const GONE: &str = r#"
tick | to q0 learn 10 | to q0 q1 q2 report 1
q0 decided 10 11 cut 5 1 | item known cut 5 1
tick | to q1 learn 11 | to q0 q1 q2 report 1
q0 decided 11 12 cut 5 2 | item known cut 5 2
tick | to q2 learn 12 | to q0 q1 q2 report 1
now | 1 records, 1 durable, 12 known
"#;

/// Shard 0 stays, and takes the record of a client whose shard went.
const LEFT: &str = r#"
c3 append 0 0 set k44 v16 | item taken 3 0 "set k44 v16" | to s0b replicate 0 3 0 "set k44 v16" | to q0 q1 q2 report 1
q0 decided 0 1 remove 0 2 | item known remove 0 2 | mark notice 1
c3 append 0 1 1 | item taken 3 1 "1" | to s0b replicate 1 3 1 "1" | to q0 q1 q2 report 2
c3 append 0 2 ? ~ x | item taken 3 2 "? ~ x" | to s0b replicate 2 3 2 "? ~ x" | to q0 q1 q2 report 3
q0 decided 1 2 remove 1 2 | item known remove 1 2
s0b replicated 1 | to k0 deliver 0 3 0 "set k44 v16" | mark promise 1 3 0 "set k44 v16"
s0b replicated 2 | to k0 deliver 1 3 1 "1" | mark promise 3 3 1 "1"
s0b replicated 3 | to k0 deliver 2 3 2 "? ~ x" | mark promise 5 3 2 "? ~ x"
c1 append 0 0 | item taken 1 0 "" | to s0b replicate 3 1 0 "" | to q0 q1 q2 report 4
q0 decided 2 3 remove 1 2 | item known remove 1 2
s0b replicated 4 | to k0 deliver 3 1 0 "" | mark promise 7 1 0 ""
q0 decided 3 4 cut 1 0 | item known cut 1 0 | to c3 ack 0 1 | mark confirm 1 3 0 "set k44 v16"
q0 decided 4 5 table 1 4 1:1 0:1 | item known table 1 4 1:1 0:1
q0 decided 5 6 cut 1 1 | item known cut 1 1 | to c3 ack 1 3 | mark confirm 3 3 1 "1"
q0 decided 6 7 cut 1 2 | item known cut 1 2 | to c3 ack 2 5 | mark confirm 5 3 2 "? ~ x"
q0 decided 7 8 cut 1 3 | item known cut 1 3 | to c1 ack 0 7 | mark confirm 7 1 0 ""
q0 fill 5 | item noops 1 | to s0b replicate 4 noop | to q0 q1 q2 report 5
s0b replicated 5 | to k0 deliver 4 noop | mark promise 9 noop
q0 decided 8 9 cut 5 0 | item known cut 5 0 | mark confirm 9 noop
q0 decided 9 10 table 5 4 1:1 0:1 | item known table 5 4 1:1 0:1
tick | to q0 learn 10 | to q0 q1 q2 report 5
k0 fetch 5
k0 fetch 6
k0 fetch 7
k0 fetch 8
q0 fill 6 | item noops 1 | to s0b replicate 5 noop | to q0 q1 q2 report 6
s0b replicated 6 | to k0 deliver 5 noop | mark promise 11 noop
now | 6 records, 6 durable, 10 known
"#;

pub(super) const LIVES: &[Life] = &[
    // A primary whose shard goes.
    (TRIO, "s2p", &[], &[GOES, FIRST_WINDOW, NEXT_WINDOW, GONE]),
    // A primary that is left.
    (TRIO, "s0p", &[], &[LEFT]),
];
