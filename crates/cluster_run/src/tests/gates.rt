//! Runs at a gate where all actors meet before each turn.

use crate::tests::meeting::Meeting;
use crate::tests::plans::{Case, TWO_RECORDS, plan_of};
use crate::tests::shelves::{run_on, shelf_of};
use crate::tests::shows::{BOTH, ticks_to_confirmation, told_of, took_message_before};
use spec_base::{NodeId, Side};
use std::test::Fail;
use view_cell::Look;

/// The nodes of the plan.
const NODES: [NodeId; 5] = [
    NodeId::Seq(0),
    NodeId::Shard(0, Side::Primary),
    NodeId::Shard(0, Side::Backup),
    NodeId::Client(0),
    NodeId::Consumer(0),
];

/// What the plan says of messages, and whether each node takes one in its turns. With no faults each does: in the first turns the
/// client's record comes to both replicas, their reports to the sequencer, its decision to all others.
const FAULTS: [(&str, bool); 3] = [
    ("faults 1 0 0 0 0", true),
    ("faults 1 100 0 0 0", false),
    ("faults 1 0 0 0 100", false),
];

/// Whether one of these looks has a number above 0 and below that of the last.
fn have_one_between(looks: &[Look]) -> bool {
    match looks.last() {
        Some(last) => looks.iter().any(|look| 0 < look.ops && look.ops < last.ops),
        None => false,
    }
}

/// The nodes, the reader and the submitter take their turns beside one another: of what runs on one thread the first actor waits in vain. The
/// records are confirmed in the turns, and not in the drain, and the reader sees the consumer on its way there.
#[test]
fn all_take_turns_together(rt: HostRuntime) -> Result<(), Fail> {
    let alloc = rt.alloc();
    let case = Case {
        lines: "episode 256",
        ..TWO_RECORDS
    };
    let plan = plan_of(alloc, &case)?;
    let mut shelf = shelf_of(alloc, &[])?;
    let meeting = Meeting::new();
    let record = run_on(&rt, alloc, &plan, &mut shelf, &meeting)?;
    assert!(rt; meeting.held(256));
    assert_eq!(rt; told_of(alloc, &record)?.as_str(), BOTH);
    // The episode's last turn is the consumer's sixteenth tick.
    let ticks = ticks_to_confirmation(alloc, &record.history, 1)?;
    assert!(rt; ticks.is_some_and(|ticks| ticks < 16));
    assert_eq!(rt; record.looks.len(), 1);
    for looks in &record.looks {
        assert!(rt; have_one_between(looks.list.as_slice()));
    }
    Ok(())
}

/// Of messages that are all lost, or cut short, none comes in the turns; the drain, which has no faults, brings what is sent again.
#[test]
fn messages_have_the_faults_of_the_plan(rt: HostRuntime) -> Result<(), Fail> {
    let alloc = rt.alloc();
    for (faults, takes) in FAULTS {
        let case = Case {
            faults,
            ..TWO_RECORDS
        };
        let plan = plan_of(alloc, &case)?;
        let mut shelf = shelf_of(alloc, &[])?;
        let meeting = Meeting::new();
        let record = run_on(&rt, alloc, &plan, &mut shelf, &meeting)?;
        assert!(rt; meeting.held(32));
        assert_eq!(rt; told_of(alloc, &record)?.as_str(), BOTH);
        // The episode's last turn is the second tick of each node.
        for node in NODES {
            assert_eq!(rt;
                took_message_before(alloc, &record.history, node, 2)?,
                takes
            );
        }
    }
    Ok(())
}
