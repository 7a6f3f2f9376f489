//! What an independent model of the protocol gave in a longer history: the steps of the last of five sequencers.

use life_tables::Life;
use life_tables::clusters::SIX_SHARDS;

/// A sequencer that only listens.
const LISTENS: &str = r#"
s5p report 1
s5p report 1
s5b report 1
s5p report 2
s1p report 1
q0 accept 0 0 table 0 1 0:6 5:7 2:1 3:2 4:3 1:8 | item accepted 0 0 table 0 1 0:6 5:7 2:1 3:2 4:3 1:8 | to q0 accepted 0 0
s5b report 2
s1b report 1
q0 decided 0 1 table 0 1 0:6 5:7 2:1 3:2 4:3 1:8 | item known table 0 1 0:6 5:7 2:1 3:2 4:3 1:8
s0p report 6
s5p report 7
s2p report 1
s3p report 2
s4p report 3
s1p report 8
s0b report 1
s0b report 2
s0b report 3
s0b report 4
s0b report 5
s0b report 6
s5b report 3
s5b report 4
s5b report 5
s5b report 6
s5b report 7
s2b report 1
s3b report 1
s3b report 2
s4b report 1
s4b report 2
s4b report 3
s1b report 2
s1b report 3
s1b report 4
s1b report 5
s1b report 6
s1b report 7
s1b report 8
q0 accept 1 0 cut 0 0 | item accepted 1 0 cut 0 0 | to q0 accepted 1 0
q0 decided 1 2 cut 0 0 | item known cut 0 0
q3 learn 2
tick | to q0 learn 2
s0p report 6
s0b report 6
s1p report 8
s1b report 8
s2p report 1
s2b report 1
s3p report 2
s3b report 2
s4p report 3
s4b report 3
s5p report 7
s5b report 7
q3 learn 2
tick | to q0 learn 2
"#;

pub(super) const LIVES: &[Life] = &[(SIX_SHARDS, "q4", &[], &[LISTENS])];
