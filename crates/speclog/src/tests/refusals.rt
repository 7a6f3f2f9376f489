//! Which line is refused, and why.

use super::{HEAD, SCRIPT, fault_of, joined};
use crate::fault::Fault::{self, InputTooLong, NoMessage, Script, TooLong};
use quota_table::{Bytes, OutOfMemory, TableError};
use script_text::ScriptKind::{Body, Byte, Header, Node, Number, Range, Rows, Word};
use std::test::Fail;

/// Inputs, and what they are refused with after the head's six lines, if they are.
const INPUTS: [(&str, Option<Fault>); 22] = [
    // By the grammar.
    (
        "jump\ndeliver 0\n",
        Some(Script {
            line: 7,
            kind: Word,
        }),
    ),
    (
        "submit 0 5\ndrain \n",
        Some(Script {
            line: 8,
            kind: Word,
        }),
    ),
    (
        "table q0 0 0:1\n",
        Some(Script {
            line: 7,
            kind: Range,
        }),
    ),
    (
        "tick q1\n",
        Some(Script {
            line: 7,
            kind: Node,
        }),
    ),
    (
        "jump\n",
        Some(Script {
            line: 7,
            kind: Word,
        }),
    ),
    (
        "deliver x\n",
        Some(Script {
            line: 7,
            kind: Number,
        }),
    ),
    (
        "drain 200001\n",
        Some(Script {
            line: 7,
            kind: Range,
        }),
    ),
    (
        "tick \u{7}\n",
        Some(Script {
            line: 7,
            kind: Byte,
        }),
    ),
    (
        "table q0 2 0:0\n",
        Some(Script {
            line: 7,
            kind: Rows {
                error: TableError::BadQuota { shard: 0, quota: 0 },
            },
        }),
    ),
    (
        "table q0 2 0:65\n",
        Some(Script {
            line: 7,
            kind: Rows {
                error: TableError::BadQuota {
                    shard: 0,
                    quota: 65,
                },
            },
        }),
    ),
    (
        "table q0 2 0:1 0:1\n",
        Some(Script {
            line: 7,
            kind: Rows {
                error: TableError::Twice { shard: 0 },
            },
        }),
    ),
    (
        "table q0 2 0:1 0:1 0:1 0:1 0:1 0:1 0:1\n",
        Some(Script {
            line: 7,
            kind: Rows {
                error: TableError::TooMany { n: 7 },
            },
        }),
    ),
    (
        "table q0 2\n",
        Some(Script {
            line: 7,
            kind: Rows {
                error: TableError::Empty,
            },
        }),
    ),
    // A message that was not sent.
    (
        "submit 0 5\ndeliver 0\ndeliver 1\ndeliver 3\nsubmit 0 6\ndeliver 7\n",
        Some(NoMessage {
            line: 12,
            number: 7,
            sent: 7,
        }),
    ),
    (
        "deliver 0\njump\n",
        Some(NoMessage {
            line: 7,
            number: 0,
            sent: 0,
        }),
    ),
    (
        "lose 999999999999999999\n",
        Some(NoMessage {
            line: 7,
            number: 999_999_999_999_999_999,
            sent: 0,
        }),
    ),
    (
        "tick q0\ndeliver 9\ndrain 200000\n",
        Some(NoMessage {
            line: 8,
            number: 9,
            sent: 0,
        }),
    ),
    // Entries past 200,000, or just not.
    ("drain 200000\ntick q0\n", Some(TooLong { line: 8 })),
    (
        "# a comment\n\ntick q0\ndrain 200000\n",
        Some(TooLong { line: 10 }),
    ),
    ("tick q0\ndrain 200000\njump\n", Some(TooLong { line: 8 })),
    ("drain 200000\nlose 0\ndrain 0\n", None),
    ("submit 0\n", None),
];

#[test]
fn names_the_first_refused_line(rt: HostRuntime) -> Result<(), Fail> {
    for (inputs, fault) in INPUTS {
        let text = joined(rt.alloc(), HEAD, inputs.as_bytes())?;
        assert_eq!(rt;
            fault_of(&rt, "play", text.as_slice(), 4096)?,
            fault,
            "{inputs}"
        );
    }
    Ok(())
}

/// Texts of a beginning and so many bytes of one kind: a body of 1,024 bytes and one of a byte more, a line of 16,777,216 bytes that is passed
/// over, and one of a byte more.
const LENGTHS: [(&str, u8, u32, Option<Fault>); 4] = [
    (BODY, b'x', 1024, None),
    (
        BODY,
        b'x',
        1025,
        Some(Script {
            line: 7,
            kind: Body { len: 1025 },
        }),
    ),
    (
        "",
        b'#',
        16_777_216,
        Some(Script {
            line: 2,
            kind: Header,
        }),
    ),
    ("", b'#', 16_777_217, Some(InputTooLong)),
];

/// The head, and a line that goes on with a body.
const BODY: &str =
    "belfast 1\nseqs 1\nshards 1\nwindow 2 0:1\nclients 0\nconsumers 1 tally\nsubmit 0 ";

fn fill(text: &mut Bytes, byte: u8, count: u32) -> Result<(), OutOfMemory> {
    for _ in 0..count {
        text.push(byte)?;
    }
    Ok(())
}

#[test]
fn takes_so_many_bytes(rt: HostRuntime) -> Result<(), Fail> {
    for (start, byte, count, fault) in LENGTHS {
        let mut text = joined(rt.alloc(), start, b"")?;
        fill(&mut text, byte, count)?;
        assert_eq!(rt;
            fault_of(&rt, "play", text.as_slice(), 4096)?,
            fault,
            "{count} bytes"
        );
    }
    Ok(())
}

/// Of the script cut short: up to how many bytes, and what it is refused with then.
const CUTS: [(usize, Option<Fault>); 18] = [
    (
        8,
        Some(Script {
            line: 1,
            kind: Header,
        }),
    ),
    (
        13,
        Some(Script {
            line: 2,
            kind: Header,
        }),
    ),
    (
        15,
        Some(Script {
            line: 2,
            kind: Word,
        }),
    ),
    (
        22,
        Some(Script {
            line: 3,
            kind: Header,
        }),
    ),
    (
        24,
        Some(Script {
            line: 3,
            kind: Word,
        }),
    ),
    (
        31,
        Some(Script {
            line: 4,
            kind: Header,
        }),
    ),
    (
        33,
        Some(Script {
            line: 4,
            kind: Word,
        }),
    ),
    (
        35,
        Some(Script {
            line: 4,
            kind: Rows {
                error: TableError::Empty,
            },
        }),
    ),
    (
        37,
        Some(Script {
            line: 4,
            kind: Number,
        }),
    ),
    (
        45,
        Some(Script {
            line: 5,
            kind: Header,
        }),
    ),
    (
        47,
        Some(Script {
            line: 5,
            kind: Word,
        }),
    ),
    (
        57,
        Some(Script {
            line: 6,
            kind: Header,
        }),
    ),
    (
        65,
        Some(Script {
            line: 6,
            kind: Word,
        }),
    ),
    (67, None),
    (
        74,
        Some(Script {
            line: 7,
            kind: Word,
        }),
    ),
    (78, None),
    (
        84,
        Some(Script {
            line: 8,
            kind: Word,
        }),
    ),
    (86, None),
];

/// What the script's first bytes are refused with.
fn fault_of_cut(len: usize) -> Option<Fault> {
    for (most, fault) in CUTS {
        if len <= most {
            return fault;
        }
    }
    None
}

#[test]
fn refuses_what_is_cut_short(rt: HostRuntime) -> Result<(), Fail> {
    for len in 0..=86 {
        let (short, _) = SCRIPT.as_bytes().split_at(len);
        for most in [1, 4096] {
            assert_eq!(rt;
                fault_of(&rt, "play", short, most)?,
                fault_of_cut(len),
                "{len} bytes by {most}"
            );
        }
    }
    Ok(())
}
