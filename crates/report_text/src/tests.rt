ghost use Rattle.std.specs.Prelude.{◌<◌, IfOk, OnOk};
ghost use Rattle.quota_table.specs.Entries.{IsValidEntry};
ghost use Rattle.msg_wire.specs.Valid.{IsValidConfig};
ghost use Rattle.msg_wire.specs.Steps.{AreValidMessages};
ghost use Rattle.net_model.specs.Pasts.{past_of, sent};

use crate::{report, summary};
use msg_wire::{Config, Event, Homes, Mark, Marks, Message, Messages, What};
use net_model::{History, HistoryEntry};
use quota_table::{Asked, Bytes, Entry, OutOfMemory, Table, check};
use record_codec::{AppKind, Body, Record};
use spec_base::{NodeId, Side};
use std::alloc::Global;
use std::test::Fail;

/// A cluster of one shard and one client.
fn small(alloc: Global) -> Result<Config, Fail>
    ensures { IfOk result IsValidConfig }
{
    let table = check(&[Asked { shard: 0, quota: 1 }])?;
    let mut homes = Homes::new(alloc);
    homes.push(0)?;
    Ok(Config {
        seqs: 1,
        shards: 1,
        rounds: 2,
        table,
        homes,
        consumers: 1,
        app: AppKind::Tally,
    })
}

/// A cluster of two shards, each the home of a client.
fn wide(alloc: Global) -> Result<Config, Fail>
    ensures { IfOk result IsValidConfig }
{
    let table = check(&[Asked { shard: 0, quota: 1 }, Asked { shard: 1, quota: 1 }])?;
    let mut homes = Homes::new(alloc);
    homes.push(0)?;
    homes.push(1)?;
    Ok(Config {
        seqs: 1,
        shards: 2,
        rounds: 4,
        table,
        homes,
        consumers: 1,
        app: AppKind::Tally,
    })
}

/// The first record of a client.
fn data(alloc: Global, client: u32, body: &[u8]) -> Result<Record, Fail> {
    Ok(Record::Data {
        client,
        number: 0,
        body: Body::new(alloc, body)?,
    })
}

fn apply(alloc: Global, position: u64, client: u32, body: &[u8]) -> Result<Mark, Fail> {
    let rec = data(alloc, client, body)?;
    Ok(Mark::Apply { position, rec })
}

fn confirm(alloc: Global, position: u64, client: u32, body: &[u8]) -> Result<Mark, Fail> {
    let rec = data(alloc, client, body)?;
    Ok(Mark::Confirm { position, rec })
}

fn out(alloc: Global, bytes: &[u8]) -> Result<Mark, Fail> {
    let bytes = Bytes::from_slice(alloc, bytes)?;
    Ok(Mark::Out { bytes })
}

fn only_row(shard: u8) -> Result<Table, Fail> {
    Ok(check(&[Asked { shard, quota: 1 }])?)
}

fn happen(history: &mut History, entry: HistoryEntry) -> Result<(), OutOfMemory>
    requires sends { AreValidMessages entry.sends }
    requires earlier { AreValidMessages (sent (past_of history.old)) }
    ensures { OnOk result (AreValidMessages (sent (past_of history.new))) }
{
    history.push(entry)
}

fn submit(alloc: Global, history: &mut History, client: u8, body: &[u8]) -> Result<(), Fail>
    requires { AreValidMessages (sent (past_of history.old)) }
    ensures { OnOk result (AreValidMessages (sent (past_of history.new))) }
{
    let body = Body::new(alloc, body)?;
    happen(
        history,
        HistoryEntry {
            node: NodeId::Client(client),
            event: Event::Submit { by: 0, body },
            sends: Messages::new(alloc),
            marks: Marks::new(alloc),
        },
    )?;
    Ok(())
}

/// A sequencer's tick tells a slot's entry.
fn tell(alloc: Global, history: &mut History, slot: u32, entry: Entry) -> Result<(), Fail>
    requires slot { slot < 1000000 }
    requires entry { IsValidEntry entry }
    requires earlier { AreValidMessages (sent (past_of history.old)) }
    ensures { OnOk result (AreValidMessages (sent (past_of history.new))) }
{
    let mut sends = Messages::new(alloc);
    sends.push(Message {
        from: NodeId::Seq(0),
        to: NodeId::Client(0),
        what: What::Decided {
            slot,
            count: slot + 1,
            entry,
        },
    })?;
    happen(
        history,
        HistoryEntry {
            node: NodeId::Seq(0),
            event: Event::Tick,
            sends,
            marks: Marks::new(alloc),
        },
    )?;
    Ok(())
}

/// A node's tick shows a mark.
fn show(alloc: Global, history: &mut History, node: NodeId, mark: Mark) -> Result<(), Fail>
    requires { AreValidMessages (sent (past_of history.old)) }
    ensures { OnOk result (AreValidMessages (sent (past_of history.new))) }
{
    let mut marks = Marks::new(alloc);
    marks.push(mark)?;
    happen(
        history,
        HistoryEntry {
            node,
            event: Event::Tick,
            sends: Messages::new(alloc),
            marks,
        },
    )?;
    Ok(())
}

/// Ticks that show nothing, up to so many entries.
fn tick_up_to(alloc: Global, history: &mut History, entries: usize) -> Result<(), Fail>
    requires { AreValidMessages (sent (past_of history.old)) }
    ensures { OnOk result (AreValidMessages (sent (past_of history.new))) }
{
    for _tick in history.len()..entries {
        happen(
            history,
            HistoryEntry {
                node: NodeId::Seq(0),
                event: Event::Tick,
                sends: Messages::new(alloc),
                marks: Marks::new(alloc),
            },
        )?;
    }
    Ok(())
}

const K0: NodeId = NodeId::Consumer(0);

/// A record is applied, and agreed on.
fn first_record(alloc: Global, history: &mut History) -> Result<(), Fail>
    requires { AreValidMessages (sent (past_of history.old)) }
    ensures { OnOk result (AreValidMessages (sent (past_of history.new))) }
{
    submit(alloc, history, 0, b"5")?;
    show(alloc, history, K0, apply(alloc, 0, 0, b"5")?)?;
    let rows = only_row(0)?;
    let entry = Entry::Table {
        after: 0,
        rounds: 2,
        rows,
    };
    tell(alloc, history, 0, entry)?;
    let entry = Entry::Cut {
        window: 0,
        round: 0,
    };
    tell(alloc, history, 1, entry)
}

/// The record is confirmed, and acknowledged.
fn first_confirmed(alloc: Global, history: &mut History) -> Result<(), Fail>
    requires { AreValidMessages (sent (past_of history.old)) }
    ensures { OnOk result (AreValidMessages (sent (past_of history.new))) }
{
    let primary = NodeId::Shard(0, Side::Primary);
    show(alloc, history, primary, confirm(alloc, 0, 0, b"5")?)?;
    show(alloc, history, K0, confirm(alloc, 0, 0, b"5")?)?;
    show(alloc, history, K0, out(alloc, b"5\n")?)?;
    let ack = Mark::Ack {
        number: 0,
        position: 0,
    };
    show(alloc, history, NodeId::Client(0), ack)
}

#[test]
fn nothing_happened(rt: HostRuntime) -> Result<(), Fail> {
    let alloc = rt.alloc();
    let cfg = small(alloc)?;
    let text = report(alloc, &cfg, &History::new(alloc))?;
    let expected = b"belfast 1
entries 0
consumer k0 confirmed 0 applied 0 early 0 undone 0 notices 0
state k0 sum 0 count 0
client c0 submitted 0 acked 0
differ 0
";
    assert_eq!(rt; text.as_slice(), expected.as_slice());
    Ok(())
}

#[test]
fn a_record(rt: HostRuntime) -> Result<(), Fail> {
    let alloc = rt.alloc();
    let cfg = small(alloc)?;
    let mut history = History::new(alloc);
    first_record(alloc, &mut history)?;
    first_confirmed(alloc, &mut history)?;
    tick_up_to(alloc, &mut history, 101)?;
    let text = report(alloc, &cfg, &history)?;
    let expected = b"belfast 1
entries 101
slot 0 table 0 2 0:1
slot 1 cut 0 0
log 0 c0 0 5
consumer k0 confirmed 1 applied 1 early 1 undone 0 notices 0
out k0 5
state k0 sum 5 count 1
client c0 submitted 1 acked 1
ack c0 0 0
differ 0
";
    assert_eq!(rt; text.as_slice(), expected.as_slice());
    Ok(())
}

/// A record is applied at a position that its shard loses.
fn lost_position(alloc: Global, history: &mut History) -> Result<(), Fail>
    requires { AreValidMessages (sent (past_of history.old)) }
    ensures { OnOk result (AreValidMessages (sent (past_of history.new))) }
{
    submit(alloc, history, 0, b"5")?;
    submit(alloc, history, 1, b"7")?;
    show(alloc, history, K0, apply(alloc, 0, 0, b"5")?)?;
    let entry = Entry::Remove {
        window: 0,
        shard: 0,
    };
    tell(alloc, history, 0, entry)?;
    show(alloc, history, K0, Mark::Notice { first: 0 })?;
    show(alloc, history, K0, Mark::Undo { first: 0 })
}

/// What is agreed after it.
fn agreed_after(alloc: Global, history: &mut History) -> Result<(), Fail>
    requires { AreValidMessages (sent (past_of history.old)) }
    ensures { OnOk result (AreValidMessages (sent (past_of history.new))) }
{
    let cut = Entry::Cut {
        window: 1,
        round: 0,
    };
    tell(alloc, history, 1, cut)?;
    let rows = only_row(1)?;
    let table = Entry::Table {
        after: 1,
        rounds: 4,
        rows,
    };
    tell(alloc, history, 2, table)?;
    let cut = Entry::Cut {
        window: 1,
        round: 1,
    };
    tell(alloc, history, 3, cut)
}

/// The consumer applies both records anew, and confirms them later.
fn applied_anew(alloc: Global, history: &mut History) -> Result<(), Fail>
    requires { AreValidMessages (sent (past_of history.old)) }
    ensures { OnOk result (AreValidMessages (sent (past_of history.new))) }
{
    show(alloc, history, K0, apply(alloc, 0, 1, b"7")?)?;
    show(alloc, history, K0, apply(alloc, 1, 0, b"5")?)?;
    show(alloc, history, K0, confirm(alloc, 0, 1, b"7")?)?;
    show(alloc, history, K0, out(alloc, b"7\n")?)?;
    show(alloc, history, K0, confirm(alloc, 1, 0, b"5")?)?;
    show(alloc, history, K0, out(alloc, b"12\n")?)
}

fn acknowledged(alloc: Global, history: &mut History) -> Result<(), Fail>
    requires { AreValidMessages (sent (past_of history.old)) }
    ensures { OnOk result (AreValidMessages (sent (past_of history.new))) }
{
    let ack = Mark::Ack {
        number: 0,
        position: 1,
    };
    show(alloc, history, NodeId::Client(0), ack)?;
    let ack = Mark::Ack {
        number: 0,
        position: 0,
    };
    show(alloc, history, NodeId::Client(1), ack)
}

#[test]
fn a_rollback(rt: HostRuntime) -> Result<(), Fail> {
    let alloc = rt.alloc();
    let cfg = wide(alloc)?;
    let mut history = History::new(alloc);
    lost_position(alloc, &mut history)?;
    agreed_after(alloc, &mut history)?;
    applied_anew(alloc, &mut history)?;
    acknowledged(alloc, &mut history)?;
    tick_up_to(alloc, &mut history, 307)?;
    let text = report(alloc, &cfg, &history)?;
    let expected = b"belfast 1
entries 307
slot 0 remove 0 0
slot 1 cut 1 0
slot 2 table 1 4 1:1
slot 3 cut 1 1
log 0 c1 0 7
log 1 c0 0 5
consumer k0 confirmed 2 applied 2 early 2 undone 1 notices 1
notice k0 0
out k0 7
out k0 12
state k0 sum 12 count 2
client c0 submitted 1 acked 1
ack c0 0 1
client c1 submitted 1 acked 1
ack c1 0 0
differ 0
";
    assert_eq!(rt; text.as_slice(), expected.as_slice());
    Ok(())
}

/// Two marks of one entry.
fn show_both(alloc: Global, history: &mut History, first: Mark, second: Mark) -> Result<(), Fail>
    requires { AreValidMessages (sent (past_of history.old)) }
    ensures { OnOk result (AreValidMessages (sent (past_of history.new))) }
{
    let mut marks = Marks::new(alloc);
    marks.push(first)?;
    marks.push(second)?;
    happen(
        history,
        HistoryEntry {
            node: K0,
            event: Event::Tick,
            sends: Messages::new(alloc),
            marks,
        },
    )?;
    Ok(())
}

/// A void entry, one that was told after another of its slot, and a slot above one that nobody told.
fn odd_slots(alloc: Global, history: &mut History) -> Result<(), Fail>
    requires { AreValidMessages (sent (past_of history.old)) }
    ensures { OnOk result (AreValidMessages (sent (past_of history.new))) }
{
    tell(alloc, history, 2, Entry::Nothing)?;
    let entry = Entry::Remove {
        window: 0,
        shard: 0,
    };
    tell(alloc, history, 0, entry)?;
    tell(alloc, history, 0, Entry::Nothing)
}

/// Two records at one position, and a confirmation in the entry that applied the position, with one more later.
fn odd_marks(alloc: Global, history: &mut History) -> Result<(), Fail>
    requires { AreValidMessages (sent (past_of history.old)) }
    ensures { OnOk result (AreValidMessages (sent (past_of history.new))) }
{
    show(alloc, history, K0, confirm(alloc, 3, 0, b"")?)?;
    let backup = NodeId::Shard(0, Side::Backup);
    show(alloc, history, backup, confirm(alloc, 3, 0, b"x")?)?;
    show_both(
        alloc,
        history,
        apply(alloc, 2, 0, b"y")?,
        confirm(alloc, 2, 0, b"y")?,
    )?;
    show(alloc, history, K0, confirm(alloc, 2, 0, b"y")?)
}

#[test]
fn no_run(rt: HostRuntime) -> Result<(), Fail> {
    let alloc = rt.alloc();
    let cfg = small(alloc)?;
    let mut history = History::new(alloc);
    odd_slots(alloc, &mut history)?;
    odd_marks(alloc, &mut history)?;
    let text = report(alloc, &cfg, &history)?;
    let expected = b"belfast 1
entries 7
slot 0 remove 0 0 void
slot 2 nothing
log 2 c0 0 y
log 3 c0 0 \nconsumer k0 confirmed 3 applied 1 early 1 undone 0 notices 0
state k0 sum 0 count 0
client c0 submitted 0 acked 0
differ 1
";
    assert_eq!(rt; text.as_slice(), expected.as_slice());
    Ok(())
}

#[test]
fn summaries_of_nothing_and_of_a_record(rt: HostRuntime) -> Result<(), Fail> {
    let alloc = rt.alloc();
    let cfg = small(alloc)?;
    let mut history = History::new(alloc);
    let nothing = b"belfast-run 1
submitted 0
acked 0
consumer k0 data 0
state k0 sum 0 count 0
differ 0
quiet no
";
    let text = summary(alloc, &cfg, &history, false)?;
    assert_eq!(rt; text.as_slice(), nothing.as_slice());
    first_record(alloc, &mut history)?;
    first_confirmed(alloc, &mut history)?;
    let one = b"belfast-run 1
submitted 1
acked 1
consumer k0 data 1
state k0 sum 5 count 1
differ 0
quiet yes
";
    let text = summary(alloc, &cfg, &history, true)?;
    assert_eq!(rt; text.as_slice(), one.as_slice());
    Ok(())
}

#[test]
fn a_summary_counts_the_records_of_clients(rt: HostRuntime) -> Result<(), Fail> {
    let alloc = rt.alloc();
    let cfg = wide(alloc)?;
    let mut history = History::new(alloc);
    lost_position(alloc, &mut history)?;
    applied_anew(alloc, &mut history)?;
    acknowledged(alloc, &mut history)?;
    let filled = Mark::Confirm {
        position: 2,
        rec: Record::Noop,
    };
    show(alloc, &mut history, K0, filled)?;
    let other = NodeId::Shard(1, Side::Backup);
    show(alloc, &mut history, other, confirm(alloc, 2, 0, b"9")?)?;
    let text = summary(alloc, &cfg, &history, true)?;
    let expected = b"belfast-run 1
submitted 2
acked 2
consumer k0 data 2
state k0 sum 12 count 2
differ 1
quiet yes
";
    assert_eq!(rt; text.as_slice(), expected.as_slice());
    Ok(())
}
