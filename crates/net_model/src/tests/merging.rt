use super::{entry, is_entry, message};
use crate::{History, Journal, Stamped, merge, nodes_are_distinct};
use msg_wire::Event;
use spec_base::{NodeId, Side};
use std::alloc::Global;
use std::process::Abort;
use std::test::Fail;

const Q0: NodeId = NodeId::Seq(0);

const S0P: NodeId = NodeId::Shard(0, Side::Primary);

const S0B: NodeId = NodeId::Shard(0, Side::Backup);

const C0: NodeId = NodeId::Client(0);

/// Twenty nodes, in their order.
const TWENTY: [NodeId; 20] = [
    NodeId::Seq(0),
    NodeId::Seq(1),
    NodeId::Seq(2),
    NodeId::Seq(3),
    NodeId::Seq(4),
    NodeId::Shard(0, Side::Primary),
    NodeId::Shard(0, Side::Backup),
    NodeId::Shard(1, Side::Primary),
    NodeId::Shard(1, Side::Backup),
    NodeId::Shard(2, Side::Primary),
    NodeId::Shard(2, Side::Backup),
    NodeId::Client(0),
    NodeId::Client(1),
    NodeId::Client(2),
    NodeId::Client(3),
    NodeId::Client(4),
    NodeId::Consumer(0),
    NodeId::Consumer(1),
    NodeId::Consumer(2),
    NodeId::Consumer(3),
];

/// Puts a tick with this stamp at the end, which shows a mark of the same number.
fn tick(alloc: Global, journal: &mut Journal, stamp: u64) -> Result<(), Fail> {
    let entry = entry(alloc, journal.node(), Event::Tick, &[], &[stamp])?;
    put(journal, Stamped { stamp, entry })
}

fn put(journal: &mut Journal, step: Stamped) -> Result<(), Fail> {
    if journal.goes_on(&step) {
        journal.push(step)?;
    }
    Ok(())
}

fn ticks(alloc: Global, node: NodeId, stamps: &[u64]) -> Result<Journal, Fail> {
    let mut journal = Journal::new(alloc, node);
    for stamp in stamps {
        tick(alloc, &mut journal, *stamp)?;
    }
    Ok(journal)
}

fn merged(alloc: Global, journals: &[Journal]) -> Result<History, Fail> {
    if nodes_are_distinct(journals) {
        Ok(merge(alloc, journals)?)
    } else {
        Ok(History::new(alloc))
    }
}

/// Whether the history's entry at an index is the tick of this node and stamp.
fn is_tick(
    alloc: Global,
    history: &History,
    index: usize,
    node: NodeId,
    stamp: u64,
) -> Result<bool, Fail> {
    is_entry(alloc, history, index, node, Event::Tick, &[], &[stamp])
}

fn are_ticks(
    rt: &impl Abort,
    alloc: Global,
    history: &History,
    want: &[(NodeId, u64)],
) -> Result<(), Fail> {
    for (index, (node, stamp)) in want.iter().enumerate() {
        assert!(rt; is_tick(alloc, history, index, *node, *stamp)?);
    }
    assert_eq!(rt; history.len(), want.len());
    Ok(())
}

/// By stamp, and equal stamps by node: sequencers, primaries, backups, clients.
#[test]
fn entries_stand_by_stamp_and_then_by_node(rt: HostRuntime) -> Result<(), Fail> {
    let alloc = rt.alloc();
    let mut journals = Vec::new(alloc);
    journals.push(ticks(alloc, C0, &[1, 4, 9])?)?;
    journals.push(ticks(alloc, S0B, &[4])?)?;
    journals.push(ticks(alloc, S0P, &[2, 4, 5])?)?;
    journals.push(ticks(alloc, Q0, &[0, 4])?)?;
    let history = merged(alloc, journals.as_slice())?;
    let want = [
        (Q0, 0),
        (C0, 1),
        (S0P, 2),
        (Q0, 4),
        (S0P, 4),
        (S0B, 4),
        (C0, 4),
        (S0P, 5),
        (C0, 9),
    ];
    are_ticks(&rt, alloc, &history, &want)
}

#[test]
fn empty_journals_give_nothing(rt: HostRuntime) -> Result<(), Fail> {
    let alloc = rt.alloc();
    let mut journals = Vec::new(alloc);
    are_ticks(&rt, alloc, &merged(alloc, journals.as_slice())?, &[])?;
    journals.push(ticks(alloc, C0, &[])?)?;
    are_ticks(&rt, alloc, &merged(alloc, journals.as_slice())?, &[])?;
    journals.push(ticks(alloc, Q0, &[3])?)?;
    journals.push(ticks(alloc, S0P, &[])?)?;
    are_ticks(&rt, alloc, &merged(alloc, journals.as_slice())?, &[(Q0, 3)])
}

/// The client sends two messages.
fn sender(alloc: Global) -> Result<Journal, Fail> {
    let mut client = Journal::new(alloc, C0);
    let entry = entry(alloc, C0, Event::Restart, &[6, 7], &[])?;
    put(&mut client, Stamped { stamp: 5, entry })?;
    Ok(client)
}

/// The primary takes the second one.
fn receiver(alloc: Global) -> Result<Journal, Fail> {
    let mut primary = ticks(alloc, S0P, &[1])?;
    let entry = entry(alloc, S0P, Event::Deliver(message(7)), &[8], &[])?;
    put(&mut primary, Stamped { stamp: 6, entry })?;
    Ok(primary)
}

fn talk(alloc: Global) -> Result<History, Fail> {
    let mut journals = Vec::new(alloc);
    journals.push(receiver(alloc)?)?;
    journals.push(sender(alloc)?)?;
    merged(alloc, journals.as_slice())
}

#[test]
fn what_is_sent_with_a_smaller_stamp_stands_before(rt: HostRuntime) -> Result<(), Fail> {
    let alloc = rt.alloc();
    let history = talk(alloc)?;
    let comes = Event::Deliver(message(7));
    assert_eq!(rt; history.len(), 3);
    assert!(rt; is_tick(alloc, &history, 0, S0P, 1)?);
    assert!(rt; is_entry(alloc, &history, 1, C0, Event::Restart, &[6, 7], &[])?);
    assert!(rt; is_entry(alloc, &history, 2, S0P, comes, &[8], &[])?);
    Ok(())
}

/// Whether a node of `TWENTY` makes a step with a stamp: all but every third.
fn makes_step(index: usize, stamp: u64) -> bool {
    index as u64 % 3 != stamp % 3
}

/// The journals of the twenty nodes, in the order opposite to the nodes'.
fn twenty(alloc: Global) -> Result<Vec<Journal>, Fail> {
    let mut journals = Vec::new(alloc);
    for index in 0..20 {
        let at = 19 - index;
        let mut journal = Journal::new(alloc, TWENTY[at]);
        for stamp in 0..10 {
            if makes_step(at, stamp) {
                tick(alloc, &mut journal, stamp)?;
            }
        }
        journals.push(journal)?;
    }
    Ok(journals)
}

#[test]
fn twenty_journals_in_one_history(rt: HostRuntime) -> Result<(), Fail> {
    let alloc = rt.alloc();
    let journals = twenty(alloc)?;
    let history = merged(alloc, journals.as_slice())?;
    let mut want = Vec::new(alloc);
    for stamp in 0..10 {
        for (index, node) in TWENTY.iter().enumerate() {
            if makes_step(index, stamp) {
                want.push((*node, stamp))?;
            }
        }
    }
    are_ticks(&rt, alloc, &history, want.as_slice())
}

/// A step of another node, and a stamp that does not rise, are no next steps.
#[test]
fn steps_that_do_not_go_on_are_seen(rt: HostRuntime) -> Result<(), Fail> {
    let alloc = rt.alloc();
    let mut journal = ticks(alloc, C0, &[5, 5, 4])?;
    let entry = entry(alloc, S0P, Event::Tick, &[], &[])?;
    put(&mut journal, Stamped { stamp: 6, entry })?;
    assert_eq!(rt; journal.last_stamp(), Some(5));
    assert_eq!(rt; journal.steps().len(), 1);
    Ok(())
}

fn are_distinct(alloc: Global, nodes: &[NodeId]) -> Result<bool, Fail> {
    let mut journals = Vec::new(alloc);
    for node in nodes {
        journals.push(Journal::new(alloc, *node))?;
    }
    Ok(nodes_are_distinct(journals.as_slice()))
}

#[test]
fn two_journals_of_one_node_are_seen(rt: HostRuntime) -> Result<(), Fail> {
    let alloc = rt.alloc();
    assert!(rt; are_distinct(alloc, &TWENTY)?);
    assert!(rt; !are_distinct(alloc, &[C0, S0B, S0P, S0B])?);
    Ok(())
}
