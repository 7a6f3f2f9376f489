//! A sharded, speculative shared log, as a program: `speclog play` turns a script into a report, `speclog run` runs the nodes of a plan as threads
//! and sums the run up, `speclog gen` writes a plan.
#![tactic(auto)]

mod fault;
mod generate;
mod input;
mod outcome;
mod output;
mod play;
mod run;
#[cfg(test)]
mod tests;
mod top;
mod words;

use fault::Fault;
use outcome::Outcome;
use quota_table::OutOfMemory;
use spec_base::{MemShelf, StdSink, StdSource};
use std::process::ExitCode;
use std::rt::Env;
use std::sync::Wait;
use std::thread::Threads;
use std::{env, io, mem};
use top::top;

/// Runs the command of the words after the program's name, over standard input and output and a shelf in memory.
fn main(rt: HostRuntime) -> ExitCode {
    let outcome = match outcome_of(&rt) {
        Ok(outcome) => outcome,
        Err(OutOfMemory) => Outcome::refused(rt.alloc(), Fault::OutOfMemory),
    };
    if let Some(fault) = &outcome.fault {
        let _ = eprintln!(rt; "speclog: {fault}");
    }
    let status = outcome.status;
    // The process ends here: its memory goes back whole, sooner than list by list.
    mem::forget(outcome);
    ExitCode::from(status)
}

/// How the command of the command line ends.
fn outcome_of<R: AllocGlobal + Env + Input + Print + Threads + Wait + Sync>(
    rt: &R,
) -> Result<Outcome, OutOfMemory> {
    let words = words_of(rt)?;
    let mut source = StdSource::new(rt.reader());
    let mut sink = StdSink::new(io::writer(rt));
    let mut shelf = MemShelf::new(rt.alloc(), &[])?;
    Ok(top(rt, words.as_slice(), &mut source, &mut sink, &mut shelf))
}

/// The words of the command line, without the program's name.
fn words_of<R: AllocGlobal + Env>(rt: &R) -> Result<Vec<String>, OutOfMemory> {
    let Ok(mut args) = env::args(rt) else {
        return Err(OutOfMemory);
    };
    let _program = args.next();
    let mut words = Vec::new(rt.alloc());
    for word in args {
        words.push(word)?;
    }
    Ok(words)
}
