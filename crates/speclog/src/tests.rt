//! The program over memory: what it answers and writes.

ghost use Rattle.std.specs.Prelude.{◌≤◌};

use crate::fault::Fault;
use crate::outcome::Outcome;
use crate::top::top;
use quota_table::{Bytes, OutOfMemory};
use spec_base::{DiskFail, MemShelf, MemSink, MemSource};
use std::alloc::Global;
use std::sync::Wait;
use std::test::Fail;
use std::thread::Threads;

mod faults;
mod generating;
mod refusals;
mod running;

/// The head of one sequencer, one shard, one client and one consumer, with a window of 2 rounds of one place.
const HEAD: &str = "belfast 1\nseqs 1\nshards 1\nwindow 2 0:1\nclients 0\nconsumers 1 tally\n";

/// A record that comes to its shard, and no further.
const SCRIPT: &str =
    "belfast 1\nseqs 1\nshards 1\nwindow 2 0:1\nclients 0\nconsumers 1 tally\nsubmit 0 5\ndrain 1\n";

const REPORT: &str =
    "belfast 1\nentries 2\nconsumer k0 confirmed 0 applied 0 early 0 undone 0 notices 0\nstate k0 sum 0 count 0\nclient c0 submitted 1 acked 0\ndiffer 0\n";

/// What a call over memory answered, and what it wrote.
#[derive(Drop)]
struct Played {
    outcome: Outcome,
    written: Bytes,
}

impl Played {
    /// Whether it ended so, with these bytes written. A history is there where a part of its report may be.
    fn is(&self, fault: Option<Fault>, status: u8, written: &[u8]) -> bool {
        let has_history = status == 0 || status == 5;
        self.outcome.fault == fault
            && self.outcome.status == status
            && self.outcome.history.is_some() == has_history
            && self.written.as_slice() == written
    }
}

fn words_of(alloc: Global, texts: &[&str]) -> Result<Vec<String>, OutOfMemory> {
    let mut words = Vec::new(alloc);
    for text in texts {
        words.push(String::from_str(alloc, text)?)?;
    }
    Ok(words)
}

/// The command of these words over memory and this shelf.
fn on_shelf<R: AllocGlobal + Threads + Wait + Sync>(
    rt: &R,
    texts: &[&str],
    source: &mut MemSource,
    sink: &mut MemSink,
    fails: &[DiskFail],
) -> Result<Outcome, OutOfMemory> {
    let words = words_of(rt.alloc(), texts)?;
    let mut shelf = MemShelf::new(rt.alloc(), fails)?;
    Ok(top(rt, words.as_slice(), source, sink, &mut shelf))
}

/// Which calls fail of a source, of a sink, and of the shelf's disks.
#[derive(Clone, Copy)]
struct Fails<'a> {
    reads: &'a [u64],
    writes: &'a [u64],
    disks: &'a [DiskFail],
}

/// The command of these words over memory, in pieces of at most `most` bytes, where these calls fail.
fn command_with<R: AllocGlobal + Threads + Wait + Sync>(
    rt: &R,
    texts: &[&str],
    text: &[u8],
    most: usize,
    fails: Fails<'_>,
) -> Result<Played, OutOfMemory>
    requires { 1 ≤ most }
{
    let alloc = rt.alloc();
    let mut source = MemSource::new(alloc, text, most, fails.reads)?;
    let mut sink = MemSink::new(alloc, most, fails.writes)?;
    let outcome = on_shelf(rt, texts, &mut source, &mut sink, fails.disks)?;
    let written = Bytes::from_slice(alloc, sink.taken())?;
    Ok(Played { outcome, written })
}

/// The command of these words over memory, where these calls of the source and of the sink fail.
fn command<R: AllocGlobal + Threads + Wait + Sync>(
    rt: &R,
    texts: &[&str],
    text: &[u8],
    most: usize,
    fails: (&[u64], &[u64]),
) -> Result<Played, OutOfMemory>
    requires { 1 ≤ most }
{
    let (reads, writes) = fails;
    let fails = Fails {
        reads,
        writes,
        disks: &[],
    };
    command_with(rt, texts, text, most, fails)
}

/// The fault of a text that this command reads in pieces of at most `most` bytes, at which nothing is written; None where it is played.
fn fault_of<R: AllocGlobal + Threads + Wait + Sync>(
    rt: &R,
    name: &str,
    text: &[u8],
    most: usize,
) -> Result<Option<Fault>, OutOfMemory>
    requires { 1 ≤ most }
{
    let played = command(rt, &[name], text, most, (&[], &[]))?;
    let silent = played.written.is_empty();
    Ok(played.outcome.fault.filter(|_fault| silent))
}

/// A text of two parts.
fn joined(alloc: Global, head: &str, rest: &[u8]) -> Result<Bytes, OutOfMemory> {
    let mut text = Bytes::from_slice(alloc, head.as_bytes())?;
    text.extend_from_slice(rest)?;
    Ok(text)
}
