//! What a node of the cluster `TRIO` learns in one history of an independent model, in parts that several lives share.

/// Slots 2 to 7: after shard 2 has gone, the first window without it is renewed and covered.
pub const FIRST_WINDOW: &str = r#"
q0 decided 2 3 remove 1 2 | item known remove 1 2
q0 decided 3 4 cut 1 0 | item known cut 1 0
q0 decided 4 5 table 1 4 1:1 0:1 | item known table 1 4 1:1 0:1
q0 decided 5 6 cut 1 1 | item known cut 1 1
q0 decided 6 7 cut 1 2 | item known cut 1 2
q0 decided 7 8 cut 1 3 | item known cut 1 3
"#;

/// Slots 8 and 9: a round of the window after it, which is renewed too.
pub const NEXT_WINDOW: &str = r#"
q0 decided 8 9 cut 5 0 | item known cut 5 0
q0 decided 9 10 table 5 4 1:1 0:1 | item known table 5 4 1:1 0:1
"#;
