//! Clusters with one sequencer, by which all is decided at once.

use life_tables::Life;
use life_tables::clusters::{ONE_AT_TWO, SINGLE};

/// A round is cut once both replicas have it.
const CUTS: &str = r#"
s0p report 1
# Half of the window is covered or next: the same table once more.
s0b report 1 | item accepted 0 0 table 0 2 0:1 | item known table 0 2 0:1 | to s0p s0b c0 k0 decided 0 1 table 0 2 0:1
tick | item accepted 1 0 cut 0 0 | item known cut 0 0 | to s0p s0b c0 k0 decided 1 2 cut 0 0
# A tick with no need.
tick
c0 learn 1 | to c0 decided 1 2 cut 0 0
c0 learn 2
# A client reports nothing, and a sequencer delivers nothing.
c0 report 9
k0 fetch 0
"#;

/// A row that lags is filled.
const FILLS: &str = r#"
s0p report 1
s0b report 1
tick | to s1p fill 1
s1p report 1
tick | to s1p fill 1
s1b report 1 | item accepted 0 0 cut 0 0 | item known cut 0 0 | to s0p s0b s1p s1b c0 k0 decided 0 1 cut 0 0
s1b report 0
# It forgets the reports: what shard 0 reports alone is none of both.
restart
s0p report 2
tick
"#;

/// Commands are proposed.
const PROPOSES: &str = r#"
submit 5
table 4 0:1 | item accepted 0 0 table 0 4 0:1 | item known table 0 4 0:1 | to s0p s0b c0 k0 decided 0 1 table 0 4 0:1
# The last shard stays: the entry is void, and the wish is granted all the same.
remove 0 | item accepted 1 0 remove 0 0 | item known remove 0 0 | to s0p s0b c0 k0 decided 1 2 remove 0 0
tick
"#;

pub(super) const LIVES: &[Life] = &[
    (SINGLE, "q0", &[], &[CUTS]),
    (ONE_AT_TWO, "q0", &[], &[FILLS]),
    (SINGLE, "q0", &[], &[PROPOSES]),
];
