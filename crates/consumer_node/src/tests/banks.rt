//! One consumer's part of a drawn run, as an independent model of the whole cluster gave it: a bank over two windows.

use life_tables::clusters::SINGLE;
use life_tables::{Cluster, Life};
use record_codec::AppKind;

/// Five sequencers, and a window of one round of two places.
const ONE_ROUND: Cluster = Cluster {
    seqs: 5,
    rounds: 1,
    rows: "0:2",
    consumers: 3,
    app: AppKind::Bank,
    ..SINGLE
};

const TRANSFERS: &str = r#"
# Two transfers that no account can pay.
tick | to q0 learn 0 | to s0p s0b fetch 0 | to s0p s0b fetch 1
restart | mark undo 0
s0p deliver 0 1 0 t 4 3 47 | mark apply 0 1 0 "t 4 3 47"
s0p deliver 1 0 0 t 5 7 19 | mark apply 1 0 0 "t 5 7 19"
tick | to q0 learn 0
q0 decided 0 1 table 0 1 0:2 | item known table 0 1 0:2
tick | to q1 learn 1 | to s0p s0b fetch 2 | to s0p s0b fetch 3
q0 decided 0 1 table 0 1 0:2
s0b deliver 0 1 0 t 4 3 47
q0 decided 1 2 cut 0 0 | item known cut 0 0 | item confirmed 1 0 "t 4 3 47", output "no\n" | item confirmed 0 0 "t 5 7 19", output "no\n"
  | mark confirm 0 1 0 "t 4 3 47" | mark out "no\n" | mark confirm 1 0 0 "t 5 7 19" | mark out "no\n"
"#;

const DEPOSITS: &str = r#"
# Two deposits.
s0p deliver 2 1 1 d 7 7 | mark apply 2 1 1 "d 7 7"
s0p deliver 3 1 2 d 7 16 | mark apply 3 1 2 "d 7 16"
q0 decided 2 3 table 1 1 0:2 | item known table 1 1 0:2
q0 decided 3 4 cut 1 0 | item known cut 1 0 | item confirmed 1 1 "d 7 7", output "ok\n" | item confirmed 1 2 "d 7 16", output "ok\n"
  | mark confirm 2 1 1 "d 7 7" | mark out "ok\n" | mark confirm 3 1 2 "d 7 16" | mark out "ok\n"
tick | to q2 learn 4 | to s0p s0b fetch 4 | to s0p s0b fetch 5
now | 0 0 0 0 0 0 0 23; 4 applied, 4 confirmed, 4 known
"#;

pub(super) const LIVES: &[Life] = &[(ONE_ROUND, "k0", &[], &[TRANSFERS, DEPOSITS])];
