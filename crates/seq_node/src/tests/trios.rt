//! Clusters with three sequencers.

use life_tables::Life;
use life_tables::clusters::{EIGHT_ROUNDS, THREE_AT_TWO};

/// The first sequencer sends at ballot zero.
const SENDS: &str = r#"
table 2 0:1 1:1 | item accepted 0 0 table 0 2 0:1 1:1 | to q1 q2 accept 0 0 table 0 2 0:1 1:1
# An attempt stands.
remove 1
q1 prepare 0 1 | item promised 0 1 | to q1 promise 0 1 0 table 0 2 0:1 1:1
# It asks on, and begins with the next wish.
q1 decided 0 2 table 0 2 0:1 1:1 | item known table 0 2 0:1 1:1 | item accepted 1 0 remove 0 1 | to q1 learn 1
  | to q1 q2 accept 1 0 remove 0 1
"#;

/// A later ballot takes what was accepted.
const TAKES: &str = r#"
remove 0 | item promised 0 1 | to q0 q2 prepare 0 1
# Its own message.
q1 prepare 0 7
# Nothing is sent yet.
q2 accepted 0 1
# Another ballot.
q2 promise 0 4
q0 promise 0 1 0 table 0 2 0:1 1:1 | item accepted 0 1 table 0 2 0:1 1:1 | to q0 q2 accept 0 1 table 0 2 0:1 1:1
q2 promise 0 1
q2 accepted 0 0
q2 accepted 0 1 | item known table 0 2 0:1 1:1 | to q0 q2 s0p s0b s1p s1b c0 k0 decided 0 1 table 0 2 0:1 1:1
tick | to q2 learn 1
tick | to q2 learn 1
# The wish is not granted yet.
tick | item promised 1 1 | to q2 learn 1 | to q0 q2 prepare 1 1
"#;

/// An attempt is begun anew.
const BEGINS_ANEW: &str = r#"
remove 0 | item promised 0 1 | to q0 q2 prepare 0 1
tick | to q2 learn 0
tick | to q2 learn 0
tick | to q2 learn 0
tick | to q2 learn 0
tick | to q2 learn 0
tick | item promised 0 4 | to q2 learn 0 | to q0 q2 prepare 0 4
q0 promise 0 1
q0 promise 0 4 | item accepted 0 4 remove 0 0 | to q0 q2 accept 0 4 remove 0 0
"#;

/// An acceptor keeps its promise.
const KEEPS: &str = r#"
q1 accept 0 1 table 0 2 0:1 1:1 | item accepted 0 1 table 0 2 0:1 1:1 | to q1 accepted 0 1
q0 accept 0 0 table 0 2 0:1 1:1
q0 prepare 0 0
q0 prepare 0 3 | item promised 0 3 | to q0 promise 0 3 1 table 0 2 0:1 1:1
restart
q1 accept 0 1 table 0 2 0:1 1:1
q1 decided 0 1 table 0 2 0:1 1:1 | item known table 0 2 0:1 1:1
q0 prepare 0 6 | to q0 decided 0 1 table 0 2 0:1 1:1
q0 accept 0 6 nothing | to q0 decided 0 1 table 0 2 0:1 1:1
q1 decided 2 3 cut 0 0 | to q1 learn 1
"#;

/// A proposer that restarts ends what another began.
const ENDS: &str = r#"
table 4 0:1 | item accepted 0 0 table 0 4 0:1 | to q1 q2 accept 0 0 table 0 4 0:1
restart
q1 accept 0 1 table 0 8 0:2 | item accepted 0 1 table 0 8 0:2 | item promised 0 3 | to q1 accepted 0 1 | to q1 q2 prepare 0 3
q1 decided 0 1 table 0 8 0:2 | item known table 0 8 0:2
"#;

/// Another proposer passes it.
const PASSES: &str = r#"
table 8 0:2 | item promised 0 1 | to q0 q2 prepare 0 1
q2 promise 0 1 | item accepted 0 1 table 0 8 0:2 | to q0 q2 accept 0 1 table 0 8 0:2
q2 accepted 0 1 | item known table 0 8 0:2 | to q0 q2 s0p s0b c0 k0 decided 0 1 table 0 8 0:2
"#;

/// The third makes the majority.
const MAKES: &str = r#"
q1 prepare 0 1 | item promised 0 1 | to q1 promise 0 1
q1 accept 0 1 table 0 8 0:2 | item accepted 0 1 table 0 8 0:2 | to q1 accepted 0 1
"#;

pub(super) const LIVES: &[Life] = &[
    (THREE_AT_TWO, "q0", &[], &[SENDS]),
    (THREE_AT_TWO, "q1", &[], &[TAKES]),
    (THREE_AT_TWO, "q1", &[], &[BEGINS_ANEW]),
    (THREE_AT_TWO, "q2", &[], &[KEEPS]),
    (EIGHT_ROUNDS, "q0", &[], &[ENDS]),
    (EIGHT_ROUNDS, "q1", &[], &[PASSES]),
    (EIGHT_ROUNDS, "q2", &[], &[MAKES]),
];
