//! Faults of the words, the source and the sink.

use super::{REPORT, SCRIPT, command};
use crate::fault::Fault;
use std::test::Fail;

/// Reads of the script by 10 bytes: nine give bytes, and one finds the end.
const READS: u64 = 10;

/// Writes of the report by 10 bytes.
const WRITES: u64 = 15;

#[test]
fn names_a_source_that_fails(rt: HostRuntime) -> Result<(), Fail> {
    let text = SCRIPT.as_bytes();
    for call in 0..READS + 2 {
        let played = command(&rt, &["play"], text, 10, (&[call], &[]))?;
        let is_named = if call < READS {
            played.is(Some(Fault::ReadFault), 4, b"")
        } else {
            played.is(None, 0, REPORT.as_bytes())
        };
        assert!(rt; is_named, "call {call}");
    }
    Ok(())
}

#[test]
fn names_a_sink_that_fails(rt: HostRuntime) -> Result<(), Fail> {
    let report = REPORT.as_bytes();
    for call in 0..WRITES + 2 {
        let played = command(&rt, &["play"], SCRIPT.as_bytes(), 10, (&[], &[call]))?;
        let (out, _) = report.split_at((10 * call as usize).min(report.len()));
        let is_named = if call < WRITES {
            played.is(Some(Fault::WriteFault), 5, out)
        } else {
            played.is(None, 0, report)
        };
        assert!(rt; is_named, "call {call}");
    }
    Ok(())
}

#[test]
fn plays_byte_by_byte(rt: HostRuntime) -> Result<(), Fail> {
    let played = command(&rt, &["play"], SCRIPT.as_bytes(), 1, (&[], &[]))?;
    assert!(rt; played.is(None, 0, REPORT.as_bytes()));
    Ok(())
}

/// Words, and the place of the first that does not fit.
const WORDS: [(&[&str], usize); 18] = [
    (&["play", "x"], 1),
    (&[], 0),
    (&["run", "x"], 1),
    (&["run", "play", "x"], 1),
    (&["Run"], 0),
    (&["Play"], 0),
    (&["gen"], 1),
    (&["gen", "7"], 2),
    (&["gen", "7", "0"], 2),
    (&["gen", "7", "2001"], 2),
    (&["gen", "7", "-1"], 2),
    (&["gen", "7", "200", "x"], 3),
    (&["gen", "", "200"], 1),
    (&["gen", "seven"], 1),
    (&["gen", "4294967296", "200"], 1),
    (&["gen", "0000000000000000007", "1"], 1),
    (&["gen", "x", "0", "x"], 1),
    (&["genx", "7", "1"], 0),
];

#[test]
fn judges_words(rt: HostRuntime) -> Result<(), Fail> {
    for (words, word) in WORDS {
        let played = command(&rt, words, SCRIPT.as_bytes(), 4096, (&[], &[]))?;
        assert!(rt;
            played.is(Some(Fault::Usage { word }), 2, b""),
            "place {word}"
        );
    }
    Ok(())
}
