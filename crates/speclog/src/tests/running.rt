//! Plans that are run.

use super::{Fails, command, command_with, fault_of, joined};
use crate::fault::Fault::{self, Script, ShelfFault, TooLong, WriteFault};
use quota_table::{Bytes, OutOfMemory};
use script_text::ScriptKind::{Header, Number, Range, Word};
use spec_base::{DiskFail, NodeId, Side};
use std::alloc::Global;
use std::test::Fail;

/// The head of a plan of one sequencer, one shard, one client with one submitter, and one consumer with one reader.
const HEAD: &str = "\
belfast-plan 1\nseqs 1\nshards 1\nwindow 2 0:1\nclients 0\nconsumers 1 tally\n\
readers 0\nsubmitters 0\nfaults 1 0 0 0 0\ndrain 1000 10\n";

/// Two records and an episode.
const LINES: &str = "submit 0 5\nsubmit 0 7\nepisode 32\n";

const SUMMARY: &str = "\
belfast-run 1\nsubmitted 2\nacked 2\nconsumer k0 data 2\nstate k0 sum 12 count 2\ndiffer 0\nquiet yes\n";

/// Writes of the summary by 10 bytes.
const WRITES: u64 = 9;

#[test]
fn sums_two_records_up(rt: HostRuntime) -> Result<(), Fail> {
    let plan = joined(rt.alloc(), HEAD, LINES.as_bytes())?;
    let played = command(&rt, &["run"], plan.as_slice(), 4096, (&[], &[]))?;
    assert!(rt; played.is(None, 0, SUMMARY.as_bytes()));
    assert!(rt; played.outcome.quiet);
    assert_eq!(rt; played.outcome.looks.len(), 1);
    Ok(())
}

#[test]
fn a_summary_whose_sink_fails(rt: HostRuntime) -> Result<(), Fail> {
    let summary = SUMMARY.as_bytes();
    let plan = joined(rt.alloc(), HEAD, LINES.as_bytes())?;
    for call in [0, 4, WRITES - 1] {
        let played = command(&rt, &["run"], plan.as_slice(), 10, (&[], &[call]))?;
        let (out, _) = summary.split_at((10 * call as usize).min(summary.len()));
        assert!(rt; played.is(Some(WriteFault), 5, out), "call {call}");
    }
    Ok(())
}

/// Disks of which two calls fail one after the other: the disk's name, the first of the calls, and which node is named.
const SHELVES: [(&str, u64, NodeId); 4] = [
    ("s0b", 0, NodeId::Shard(0, Side::Backup)),
    ("q0", 0, NodeId::Seq(0)),
    ("k0", 2, NodeId::Consumer(0)),
    ("c0", 3, NodeId::Client(0)),
];

fn two_calls(alloc: Global, name: &str, call: u64) -> Result<Vec<DiskFail>, OutOfMemory> {
    let mut fails = Vec::new(alloc);
    for call in call..call.saturating_add(2) {
        let name = Bytes::from_slice(alloc, name.as_bytes())?;
        fails.push(DiskFail { name, call })?;
    }
    Ok(fails)
}

#[test]
fn names_a_disk_that_fails(rt: HostRuntime) -> Result<(), Fail> {
    let plan = joined(rt.alloc(), HEAD, LINES.as_bytes())?;
    for (name, call, node) in SHELVES {
        let disks = two_calls(rt.alloc(), name, call)?;
        let fails = Fails {
            reads: &[],
            writes: &[],
            disks: disks.as_slice(),
        };
        let played = command_with(&rt, &["run"], plan.as_slice(), 4096, fails)?;
        let is_named = played.is(Some(ShelfFault { name: node }), 7, b"");
        assert!(rt; is_named, "{name}");
    }
    Ok(())
}

/// Lines after the head, and what they are refused with, if they are. The plan has five nodes.
const REFUSALS: [(&str, Option<Fault>); 8] = [
    (
        "jump\n",
        Some(Script {
            line: 11,
            kind: Word,
        }),
    ),
    (
        "submit 1 5\n",
        Some(Script {
            line: 11,
            kind: Range,
        }),
    ),
    (
        "episode x\n",
        Some(Script {
            line: 11,
            kind: Number,
        }),
    ),
    (
        "episode 2001\n",
        Some(Script {
            line: 11,
            kind: Range,
        }),
    ),
    ("", None),
    ("episode 1\n", None),
    (EPISODES, Some(TooLong { line: 30 })),
    ("restart q0\n", None),
];

/// Twenty episodes, each of 2,000 turns: 1,000 inputs of the drain and 19 times 10,000 turns are 191,000 entries, and 20 times are 201,000.
const EPISODES: &str = "\
episode 2000\nepisode 2000\nepisode 2000\nepisode 2000\nepisode 2000\n\
episode 2000\nepisode 2000\nepisode 2000\nepisode 2000\nepisode 2000\n\
episode 2000\nepisode 2000\nepisode 2000\nepisode 2000\nepisode 2000\n\
episode 2000\nepisode 2000\nepisode 2000\nepisode 2000\nepisode 2000\n\
jump\n";

#[test]
fn refuses_lines_of_a_plan(rt: HostRuntime) -> Result<(), Fail> {
    for (lines, fault) in REFUSALS {
        let plan = joined(rt.alloc(), HEAD, lines.as_bytes())?;
        assert_eq!(rt;
            fault_of(&rt, "run", plan.as_slice(), 4096)?,
            fault,
            "{lines}"
        );
    }
    let script = "belfast 1\nseqs 1\n".as_bytes();
    assert_eq!(rt;
        fault_of(&rt, "run", script, 4096)?,
        Some(Script {
            line: 1,
            kind: Header
        })
    );
    Ok(())
}

/// Each kind of name, as the program says it.
const NAMES: [(NodeId, &str); 5] = [
    (NodeId::Seq(4), "shelf fault q4"),
    (NodeId::Shard(1, Side::Primary), "shelf fault s1p"),
    (NodeId::Shard(5, Side::Backup), "shelf fault s5b"),
    (NodeId::Client(2), "shelf fault c2"),
    (NodeId::Consumer(3), "shelf fault k3"),
];

#[test]
fn a_fault_of_the_shelf_says_the_name(rt: HostRuntime) -> Result<(), Fail> {
    for (name, text) in NAMES {
        let fault = ShelfFault { name };
        let said = format!(in rt.alloc(); "{fault}")?;
        assert_eq!(rt; said.as_str(), text);
    }
    Ok(())
}
