//! Runs in threads at an open gate.

use crate::tests::plans::{Case, TWO_RECORDS, plan_of};
use crate::tests::shelves::{run_on, shelf_of};
use crate::tests::shows::{BOTH, marks_to_tick, told_of};
use cluster_users::Open;
use std::test::Fail;

/// Plans of which both records come to all: whatever the links lost in the episodes, the drain's ticks bring. All have 32 turns.
const PLANS: [Case; 9] = [
    TWO_RECORDS,
    Case {
        readers: "readers",
        ..TWO_RECORDS
    },
    // Each message without its last byte: none decodes.
    Case {
        faults: "faults 1 0 0 0 100",
        ..TWO_RECORDS
    },
    // Each is lost, comes twice, or comes late.
    Case {
        faults: "faults 1 100 0 0 0",
        ..TWO_RECORDS
    },
    Case {
        faults: "faults 1 0 100 0 0",
        ..TWO_RECORDS
    },
    Case {
        faults: "faults 1 0 0 100 0",
        ..TWO_RECORDS
    },
    Case {
        faults: "faults 7 25 25 25 25",
        ..TWO_RECORDS
    },
    // Two episodes, between which nodes come back and a further window is asked for.
    Case {
        lines: "episode 16\nrestart s0p\nrestart k0\ntable q0 2 0:1\nepisode 16",
        ..TWO_RECORDS
    },
    // All come back from what their vaults keep.
    Case {
        lines: "episode 32\nrestart q0\nrestart s0p\nrestart s0b\nrestart c0\nrestart k0",
        ..TWO_RECORDS
    },
];

#[test]
fn both_records_come_to_all(rt: HostRuntime) -> Result<(), Fail> {
    let alloc = rt.alloc();
    for case in &PLANS {
        let plan = plan_of(alloc, case)?;
        let mut shelf = shelf_of(alloc, &[])?;
        let record = run_on(&rt, alloc, &plan, &mut shelf, &Open)?;
        assert_eq!(rt; told_of(alloc, &record)?.as_str(), BOTH);
        assert_eq!(rt; record.looks.len(), plan.readers.len());
        // The last of the 32 turns is the consumer's second tick.
        let marks = marks_to_tick(alloc, &record.history, 2)?;
        for looks in &record.looks {
            let last = looks.list.as_slice().last();
            assert!(rt; last.is_some_and(|look| look.ops == marks));
        }
    }
    Ok(())
}
