//! Consumers of the tally.

use life_tables::clusters::{PAIR, SINGLE};
use life_tables::{Cluster, Life};

/// One shard of one place, 3 consumers.
const THREE_CONSUMERS: Cluster = Cluster {
    seqs: 5,
    consumers: 3,
    ..SINGLE
};

/// The same with 4 places.
const FOUR_PLACES: Cluster = Cluster {
    rows: "0:4",
    ..THREE_CONSUMERS
};

const A_REMOVAL_TAKES_BACK: &str = r#"
s0p deliver 0 0 0 5 | mark apply 0 0 0 "5"
now | sum 5 count 1; 1 applied, 0 confirmed, 0 known
q0 decided 0 1 remove 0 0 | item known remove 0 0 | mark notice 0 | mark undo 0
now | sum 0 count 0; 0 applied, 0 confirmed, 1 known
s0p deliver 0 0 0 5
# The other shard goes on.
s1p deliver 0 0 1 7 | mark apply 0 0 1 "7"
q0 decided 1 2 cut 1 0 | item known cut 1 0 | item confirmed 0 1 "7", output "7\n" | mark confirm 0 0 1 "7" | mark out "7\n"
now | sum 7 count 1; 1 applied, 1 confirmed, 2 known
"#;

const A_RECORD_WAITS_FOR_ITS_TURN: &str = r#"
s1b deliver 0 0 1 7
now | sum 0 count 0; 0 applied, 0 confirmed, 0 known, holds 1:0
s0p deliver 0 0 0 5 | mark apply 0 0 0 "5" | mark apply 1 0 1 "7"
s0b deliver 0 0 0 5
q0 decided 0 1 cut 0 0 | item known cut 0 0 | item confirmed 0 0 "5", output "5\n" | item confirmed 0 1 "7", output "12\n"
  | mark confirm 0 0 0 "5" | mark out "5\n" | mark confirm 1 0 1 "7" | mark out "12\n"
now | sum 12 count 2; 2 applied, 2 confirmed, 1 known
"#;

const THREE_ARE_CONFIRMED_IN_A_STEP: &str = r#"
q0 decided 0 1 cut 0 0 | item known cut 0 0
s0p deliver 1 0 1 x
s0p deliver 2 0 2 x
s0p deliver 3 0 3 x
# The first fills the gap.
s0p deliver 0 0 0 x | item confirmed 0 0 "x", output "?\n" | item confirmed 0 1 "x", output "?\n" | item confirmed 0 2 "x", output "?\n"
  | mark apply 0 0 0 "x" | mark apply 1 0 1 "x" | mark apply 2 0 2 "x" | mark apply 3 0 3 "x" | mark confirm 0 0 0 "x" | mark out "?\n"
  | mark confirm 1 0 1 "x" | mark out "?\n" | mark confirm 2 0 2 "x" | mark out "?\n"
# A command is not for consumers, and a step all the same.
remove 0 | item confirmed 0 3 "x", output "?\n" | mark confirm 3 0 3 "x" | mark out "?\n"
remove 0
"#;

const A_TICK_ASKS_FOR_WHAT_IS_WANTED: &str = r#"
tick | to q0 learn 0 | to s0p s0b s1p s1b fetch 0
s1b deliver 0 0 1 7
tick | to q0 learn 0 | to s0p s0b fetch 0
# A later entry is none yet, and a client delivers nothing.
q0 decided 1 2 nothing | to q0 learn 0
c0 deliver 0 0 0 5
"#;

const A_RESTART_KEEPS_THE_CONFIRMED: &str = r#"
s0p deliver 0 0 0 5 | mark apply 0 0 0 "5"
s0p deliver 1 0 1 7 | mark apply 1 0 1 "7"
q0 decided 0 1 cut 0 0 | item known cut 0 0 | item confirmed 0 0 "5", output "5\n" | mark confirm 0 0 0 "5" | mark out "5\n"
now | sum 12 count 2; 2 applied, 1 confirmed, 1 known
restart | mark undo 1
now | sum 5 count 1; 1 applied, 1 confirmed, 1 known
tick | to q0 learn 1 | to s0p s0b fetch 1
s0p deliver 0 0 0 5
s0p deliver 1 0 1 7 | mark apply 1 0 1 "7"
now | sum 12 count 2; 2 applied, 1 confirmed, 1 known
"#;

/// A covered position, and a record before it and one too many after it.
const VAULT: &[u8] = &[
    9, 1, 0, 0, 0, 0, 0, 0, 0, 0, 0, 0, 0, 0, 0, 1, b'3', 0, //
    3, 1, 0, 0, 0, 0, 0, 0, //
    9, 1, 0, 0, 0, 0, 0, 0, 0, 0, 0, 0, 0, 0, 0, 1, b'5', 0, //
    9, 1, 0, 0, 0, 0, 0, 0, 0, 0, 0, 0, 0, 1, 0, 1, b'7', 0,
];

const A_VAULT_GIVES_THE_CONFIRMED: &str = r#"
now | sum 5 count 1; 1 applied, 1 confirmed, 1 known
"#;

pub(super) const LIVES: &[Life] = &[
    (PAIR, "k0", &[], &[A_REMOVAL_TAKES_BACK]),
    (PAIR, "k0", &[], &[A_RECORD_WAITS_FOR_ITS_TURN]),
    (FOUR_PLACES, "k0", &[], &[THREE_ARE_CONFIRMED_IN_A_STEP]),
    (
        Cluster { rounds: 1, ..PAIR },
        "k0",
        &[],
        &[A_TICK_ASKS_FOR_WHAT_IS_WANTED],
    ),
    (THREE_CONSUMERS, "k0", &[], &[A_RESTART_KEEPS_THE_CONFIRMED]),
    (THREE_CONSUMERS, "k2", VAULT, &[A_VAULT_GIVES_THE_CONFIRMED]),
];
