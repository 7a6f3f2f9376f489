use crate::steps::{KeptStep, Steps, Taken};
use crate::{History, HistoryEntry};
use msg_wire::{Command, Event, Items, Mark, Marks, Message, Messages, Step, What};
use record_codec::Body;
use spec_base::{NodeId, Side};
use std::alloc::Global;
use std::process::Abort;
use std::test::Fail;

mod merging;

const C0: NodeId = NodeId::Client(0);

const S0P: NodeId = NodeId::Shard(0, Side::Primary);

fn message(wanted: u64) -> Message {
    Message {
        from: NodeId::Seq(0),
        to: S0P,
        what: What::Fill { wanted },
    }
}

/// A step that sends these messages and shows these marks.
fn step(alloc: Global, sends: &[u64], marks: &[u64]) -> Result<Step, Fail> {
    let mut step = Step {
        stable: Items::new(alloc),
        sends: Messages::new(alloc),
        marks: Marks::new(alloc),
    };
    for wanted in sends {
        step.sends.push(message(*wanted))?;
    }
    for first in marks {
        step.marks.push(Mark::Undo { first: *first })?;
    }
    Ok(step)
}

fn entry(
    alloc: Global,
    node: NodeId,
    event: Event,
    sends: &[u64],
    marks: &[u64],
) -> Result<HistoryEntry, Fail> {
    let Step { sends, marks, .. } = step(alloc, sends, marks)?;
    Ok(HistoryEntry {
        node,
        event,
        sends,
        marks,
    })
}

fn submission(alloc: Global) -> Result<Event, Fail> {
    Ok(Event::Submit {
        by: 0,
        body: Body::new(alloc, b"5")?,
    })
}

/// Whether the history's entry at an index is this one.
fn is_entry(
    alloc: Global,
    history: &History,
    index: usize,
    node: NodeId,
    event: Event,
    sends: &[u64],
    marks: &[u64],
) -> Result<bool, Fail> {
    let want = entry(alloc, node, event, sends, marks)?;
    match history.get(index) {
        Some(entry) => Ok(entry.to_entry(alloc)? == want),
        None => Ok(false),
    }
}

fn deliver(history: &mut History, node: NodeId, number: usize, out: &mut Step) -> Result<(), Fail> {
    if number < history.messages().len() {
        history.push_delivery(node, number, out)?;
    }
    Ok(())
}

/// A submission, a delivery of its second message, one of the message that this sent, and a tick that gives nothing. One
/// step serves them all.
fn by_steps(alloc: Global) -> Result<History, Fail> {
    let mut history = History::new(alloc);
    let mut out = step(alloc, &[10, 11], &[1])?;
    history.push_step(C0, submission(alloc)?, &mut out)?;
    out.sends.push(message(12))?;
    deliver(&mut history, S0P, 1, &mut out)?;
    out.marks.push(Mark::Undo { first: 2 })?;
    out.marks.push(Mark::Undo { first: 3 })?;
    deliver(&mut history, S0P, 2, &mut out)?;
    history.push_step(S0P, Event::Tick, &mut out)?;
    Ok(history)
}

/// Whether the entry at an index took the message that wants so much.
fn is_delivery(
    alloc: Global,
    history: &History,
    index: usize,
    wanted: u64,
    sends: &[u64],
    marks: &[u64],
) -> Result<bool, Fail> {
    let event = Event::Deliver(message(wanted));
    is_entry(alloc, history, index, S0P, event, sends, marks)
}

/// Whether the entry at an index is that of the submission.
fn is_submission(alloc: Global, history: &History, index: usize) -> Result<bool, Fail> {
    let event = submission(alloc)?;
    is_entry(alloc, history, index, C0, event, &[10, 11], &[1])
}

#[test]
fn steps_are_kept_as_entries(rt: HostRuntime) -> Result<(), Fail> {
    let alloc = rt.alloc();
    let history = by_steps(alloc)?;
    assert!(rt; is_submission(alloc, &history, 0)?);
    assert!(rt; is_delivery(alloc, &history, 1, 11, &[12], &[])?);
    assert!(rt; is_delivery(alloc, &history, 2, 12, &[], &[2, 3])?);
    assert!(rt; is_entry(alloc, &history, 3, S0P, Event::Tick, &[], &[])?);
    assert!(rt; !is_delivery(alloc, &history, 4, 12, &[], &[])?);
    assert_eq!(rt; history.len(), 4);
    Ok(())
}

#[test]
fn columns_hold_what_all_steps_sent_and_showed(rt: HostRuntime) -> Result<(), Fail> {
    let alloc = rt.alloc();
    let history = by_steps(alloc)?;
    let all = step(alloc, &[10, 11, 12], &[1, 2, 3])?;
    assert_eq!(rt; history.messages(), all.sends.as_slice());
    assert_eq!(rt; history.marks(), all.marks.as_slice());
    Ok(())
}

fn remove() -> Event {
    Event::Command(Command::Remove { shard: 1 })
}

/// A command, a message that no entry sent, and a restart.
#[test]
fn entries_are_kept_whole(rt: HostRuntime) -> Result<(), Fail> {
    let alloc = rt.alloc();
    let mut history = History::new(alloc);
    assert!(rt; history.is_empty());
    let other = Event::Deliver(message(8));
    history.push(entry(alloc, C0, remove(), &[7], &[])?)?;
    history.push(entry(alloc, S0P, other, &[], &[4])?)?;
    history.push(entry(alloc, S0P, Event::Restart, &[], &[])?)?;
    are_whole(&rt, alloc, &history)
}

fn are_whole(rt: &impl Abort, alloc: Global, history: &History) -> Result<(), Fail> {
    assert!(rt; is_entry(alloc, history, 0, C0, remove(), &[7], &[])?);
    assert!(rt; is_delivery(alloc, history, 1, 8, &[], &[4])?);
    assert!(rt; is_entry(alloc, history, 2, S0P, Event::Restart, &[], &[])?);
    assert!(rt; !history.is_empty());
    Ok(())
}

/// What an entry took, seen in the history.
#[test]
fn what_was_taken_is_seen(rt: HostRuntime) -> Result<(), Fail> {
    let alloc = rt.alloc();
    let history = by_steps(alloc)?;
    let body = Body::new(alloc, b"5")?;
    let sent = message(11);
    if let Some(first) = history.get(0) {
        assert_eq!(rt; first.body(), Some(&body));
        assert_eq!(rt; first.message(), None);
        assert_eq!(rt; first.node(), C0);
        assert_eq!(rt; first.sends().len(), 2);
        assert_eq!(rt; first.marks().len(), 1);
    }
    if let Some(second) = history.get(1) {
        assert_eq!(rt; second.body(), None);
        assert_eq!(rt; second.message(), Some(&sent));
    }
    Ok(())
}

fn kept(sends_end: usize) -> KeptStep {
    KeptStep {
        node: C0,
        taken: Taken::Tick,
        sends_end,
        marks_end: 1,
    }
}

/// Steps with numbers below 2^32 and past it.
#[test]
fn steps_of_any_size_stand_in_their_order(rt: HostRuntime) -> Result<(), Fail> {
    let ends = [7, 4_294_967_295, 4_294_967_296, 8];
    let mut steps = Steps::new(rt.alloc());
    for end in ends {
        steps.push(kept(end))?;
    }
    for (index, end) in ends.iter().enumerate() {
        assert_eq!(rt; steps.get(index).map(|step| step.sends_end), Some(*end));
    }
    assert_eq!(rt; steps.len(), 4);
    Ok(())
}
