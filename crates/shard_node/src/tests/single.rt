//! The smallest cluster: a record's way, filled places, and restarts.

use super::Lived;
use life_tables::clusters::SINGLE;
use life_tables::{Life, lived};
use std::alloc::{AllocError, Global};
use std::fmt::Write;
use std::test::Fail;

/// A record comes to its primary.
pub(super) const TAKEN: &str = r#"
c0 append 0 0 5 | item taken 0 0 "5" | to s0b replicate 0 0 0 "5" | to q0 report 1
"#;

/// The backup has it.
pub(super) const PROMISED: &str = r#"
s0b replicated 1 | to k0 deliver 0 0 0 "5" | mark promise 0 0 0 "5"
"#;

/// What comes between the two.
const WAITS: &str = r#"
# It is there and not covered yet; another number leaves a gap.
c0 append 0 0 5
c0 append 0 2 5
k0 fetch 0
# A client that the cluster doesn't have, a node of the wrong class, the node itself.
c1 append 0 0 5
q0 replicated 1
s0p replicate 1 0 1 7
tick | to q0 learn 0 | to q0 report 1 | to s0b replicate 0 0 0 "5"
"#;

/// And after them.
const COVERED: &str = r#"
s0b replicated 1
k0 fetch 0 | to k0 deliver 0 0 0 "5"
k0 fetch 1
# An entry that isn't the next one is asked for.
q0 decided 1 2 cut 0 1 | to q0 learn 0
q0 decided 0 1 cut 0 0 | item known cut 0 0 | to c0 ack 0 0 | to q0 learn 1 | mark confirm 0 0 0 "5"
c0 append 0 0 5 | to c0 ack 0 0
now | 1 records, 1 durable, 1 known
"#;

/// The way of a record at the backup.
const BACKUP: &str = r#"
s0p replicate 0 0 0 5 | item taken 0 0 "5" | to s0p replicated 1 | to q0 report 1
# Neither an earlier local nor a later one is taken.
s0p replicate 0 0 0 5 | to s0p replicated 1
s0p replicate 2 0 2 7 | to s0p replicated 1
# What is a primary's does nothing.
c0 append 0 1 7
q0 fill 2
s0b replicated 1
tick | to q0 learn 0 | to q0 report 1
q0 decided 0 1 cut 0 0 | item known cut 0 0 | mark confirm 0 0 0 "5"
k0 fetch 0 | to k0 deliver 0 0 0 "5"
k0 fetch 1
restart
tick | to q0 learn 1 | to q0 report 1
now | 1 records, 1 durable, 1 known
"#;

/// What the first 64 of the wanted places bring.
fn filled(alloc: Global) -> Result<String, AllocError> {
    let mut text = String::from_str(alloc, "q0 fill 100 | item noops 64")?;
    for local in 0..64 {
        write!(text, " | to s0b replicate {local} noop")?;
    }
    text.push_str(" | to q0 report 64\nnow | 64 records, 0 durable, 0 known\n")?;
    Ok(text)
}

#[test]
fn places_are_filled_64_at_once(rt: HostRuntime) -> Result<(), Fail> {
    let text = filled(rt.alloc())?;
    let parts = [text.as_str()];
    let (told, text) = lived::<Lived>(rt.alloc(), &(SINGLE, "s0p", &[], &parts))?;
    assert_eq!(rt; told, text);
    Ok(())
}

/// Two more places are filled; the backup has all of them then, and two have a position.
const FILLS: &str = r#"
q0 fill 66 | item noops 2 | to s0b replicate 64 noop | to s0b replicate 65 noop | to q0 report 66
q0 fill 66
tick | to q0 learn 0 | to q0 report 66 | to s0b replicate 0 noop | to s0b replicate 1 noop | to s0b replicate 2 noop
  | to s0b replicate 3 noop | to s0b replicate 4 noop | to s0b replicate 5 noop | to s0b replicate 6 noop | to s0b replicate 7 noop
s0b replicated 200 | to k0 deliver 0 noop | to k0 deliver 1 noop | mark promise 0 noop | mark promise 1 noop
tick | to q0 learn 0 | to q0 report 66
now | 66 records, 66 durable, 0 known
"#;

/// The first place is covered, and the second is promised.
const BEFORE: &str = r#"
k0 fetch 0 | to k0 deliver 0 noop
k0 fetch 1
s0b replicated 2 | to k0 deliver 1 noop | mark promise 1 noop
k0 fetch 1 | to k0 deliver 1 noop
"#;

/// What is past the covered place is durable no longer after a restart, and promised once more.
const RESTARTS: &str = r#"
restart
k0 fetch 0 | to k0 deliver 0 noop
k0 fetch 1
s0b replicated 2 | to k0 deliver 1 noop | mark promise 1 noop
now | 2 records, 2 durable, 1 known
"#;

pub(super) const LIVES: &[Life] = &[
    // A primary takes promises and confirms.
    (SINGLE, "s0p", &[], &[TAKEN, WAITS, PROMISED, COVERED]),
    // A backup copies and confirms.
    (SINGLE, "s0b", &[], &[BACKUP]),
    // Places are sent again by 8.
    // 64 filled places.
    (SINGLE, "s0p", &[5, 64], &[FILLS]),
    // A restart keeps what is stored.
    // Two filled places, and the first cut.
    (
        SINGLE,
        "s0p",
        &[5, 2, 3, 1, 0, 0, 0, 0, 0, 0],
        &[BEFORE, RESTARTS],
    ),
];
