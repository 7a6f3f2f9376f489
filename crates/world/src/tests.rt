//! What the inputs of scripts make.

use crate::{PlayError, play};
use life_tables::tell_node;
use msg_wire::Event;
use net_model::{History, HistoryEntry};
use script_text::read_script;
use std::alloc::Global;
use std::fmt::Write;
use std::test::Fail;

/// One sequencer, one shard, one client, one consumer; a window of 2 rounds of one place.
const HEAD: &str = "belfast 1\nseqs 1\nshards 1\nwindow 2 0:1\nclients 0\nconsumers 1 tally\n";

/// Inputs, and what they make: entries, each by its node, its event, and how much it sends and shows; or why they are refused.
const CASES: [(&str, Result<&str, PlayError>); 5] = [
    ("", Ok("")),
    // Messages are delivered by their numbers.
    (
        "submit 0 5\ndeliver 0\ndeliver 1\ndeliver 3\nsubmit 0 6\n",
        Ok("c0 submit 1 0, s0p deliver 2 0, s0b deliver 2 0, s0p deliver 1 1, c0 submit 1 0, "),
    ),
    // A drain passes over what is lost.
    (
        "submit 0 5\nlose 0\nsubmit 0 6\ndrain 3\n",
        Ok("c0 submit 1 0, c0 submit 1 0, s0p deliver 0 0, q0 tick 0 0, s0p tick 2 0, "),
    ),
    // A message that is not there.
    (
        "submit 0 5\nrestart q0\nlose 1\n",
        Err(PlayError::NoMessage {
            at: 2,
            number: 1,
            sent: 1,
        }),
    ),
    // Too many entries.
    (
        "submit 0 5\nlose 0\ndrain 0\ndrain 200000\n",
        Err(PlayError::TooLong { at: 3 }),
    ),
];

fn say_entry(words: &mut String, entry: &HistoryEntry) -> Result<(), Fail> {
    tell_node(words, entry.node)?;
    match &entry.event {
        Event::Submit { .. } => words.push_str(" submit")?,
        Event::Deliver(_) => words.push_str(" deliver")?,
        Event::Tick => words.push_str(" tick")?,
        Event::Restart => words.push_str(" restart")?,
        Event::Command(_) => words.push_str(" command")?,
    }
    write!(words, " {} {}, ", entry.sends.len(), entry.marks.len())?;
    Ok(())
}

fn words_of(alloc: Global, history: &History) -> Result<String, Fail> {
    let mut words = String::new(alloc);
    for index in 0..history.len() {
        let entry = history.get(index).ok_or("an entry")?;
        say_entry(&mut words, &entry.to_entry(alloc)?)?;
    }
    Ok(words)
}

/// What the inputs make.
fn made(alloc: Global, inputs: &str) -> Result<Result<String, PlayError>, Fail> {
    let text = format!(in alloc; "{HEAD}{inputs}")?;
    if text.len() > 16_777_216 {
        return Err("a text that is too long".into());
    }
    let script = read_script(alloc, text.as_bytes())?;
    match play(alloc, &script.cfg, script.inputs.as_slice()) {
        Ok(history) => Ok(Ok(words_of(alloc, &history)?)),
        Err(error) => Ok(Err(error)),
    }
}

#[test]
fn inputs_make_what_they_say(rt: HostRuntime) -> Result<(), Fail> {
    for (inputs, want) in CASES {
        let made = made(rt.alloc(), inputs)?;
        let words = made.as_ref().map(|words| words.as_str());
        assert_eq!(rt; words.map_err(|error| *error), want, "{inputs}");
    }
    Ok(())
}
