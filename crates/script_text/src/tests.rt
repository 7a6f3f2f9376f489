use super::*;
use msg_wire::{Command, Config, Input};
use quota_table::{Bytes, OutOfMemory, Row, TableError};
use record_codec::AppKind;
use spec_base::{NodeId, Side};
use std::alloc::Global;
use std::test::Fail;

const LIMIT: usize = 16_777_216;

/// One node of each kind, one shard; its lines one by one.
const SMALL: [&[u8]; 6] = [
    b"belfast 1",
    b"seqs 1",
    b"shards 1",
    b"window 2 0:1",
    b"clients 0",
    b"consumers 1 tally",
];

/// Three sequencers, two shards, two clients, two consumers.
const WIDE: &[u8] =
    b"belfast 1\nseqs 3\nshards 2\nwindow 4 0:1 1:2\nclients 0 1\nconsumers 2 bank\n";

/// Reads a text that is not too long.
fn read(alloc: Global, text: &[u8]) -> Result<Script, ScriptError> {
    if text.len() > LIMIT {
        return Err(ScriptError::OutOfMemory);
    }
    read_script(alloc, text)
}

/// The head of `SMALL` with another line at `place`, and what follows it.
fn small(alloc: Global, place: usize, line: &[u8], rest: &[u8]) -> Result<Bytes, OutOfMemory> {
    let mut text = Bytes::new(alloc);
    for i in 0..6 {
        text.extend_from_slice(if i == place { line } else { SMALL[i] })?;
        text.push(b'\n')?;
    }
    text.extend_from_slice(rest)?;
    Ok(text)
}

/// `WIDE` and what follows it.
fn wide(alloc: Global, rest: &[u8]) -> Result<Bytes, OutOfMemory> {
    let mut text = Bytes::from_slice(alloc, WIDE)?;
    text.extend_from_slice(rest)?;
    Ok(text)
}

/// Why a text is refused.
fn fault(alloc: Global, text: &[u8]) -> Option<ScriptError> {
    read(alloc, text).err()
}

fn at(line: u32, kind: ScriptKind) -> Option<ScriptError> {
    Some(ScriptError::At { line, kind })
}

/// Each line is a kind and a line that is refused so behind `WIDE`.
const INPUT_LINES: &str = "\
word jump
word Tick q0
word \x20
word  # no comment
byte jump\x07
byte jump\x7f
byte tick q0\rx
word submit
word submit\x20
number submit x 5
range submit 2 5
byte submit x \x1f
word deliver
word deliver 1 2
number deliver x
number deliver +1
number deliver 1234567890123456789
word lose
word lose 1 2
number lose -1
word tick
word tick q0 q1
node tick q3
node tick s2p
node tick s0
node tick c2
node tick k2
word restart
word restart k0 k1
node restart Q0
word table
word table q9
node table s0p 4 0:1
node table q3 x y
number table q0 x 9:9
range table q0 0 x
range table q0 1025 0:1
number table q0 4 0
number table q0 4 0:1:1
number table q0 4 :1
number table q0 4 0:
number table q0 4 0: 1
range table q0 4 2:1
range table q0 4 2:1 x
range table q0 4 0:4294967296
number table q0 4 0:99 x
rows table q0 4 0:99
word remove q0
word remove q0 1 1
node remove c0 x
number remove q0 x
range remove q0 2
word drain
word drain 1 1
number drain x
range drain 200001";

/// Each line is a place in the head, a kind, and a line that is refused so at that place.
const HEAD_LINES: &str = "\
1 header belfast
1 header belfast 2
1 header belfast 2 x
1 header belfast x
1 word belfast 1 x
1 header Belfast 1
1 byte \tbelfast 1
1 header \x20
2 header shards 1
2 word seqs
2 word seqs 1 1
2 number seqs x
2 range seqs 2
2 range seqs 7
3 word shards
3 number shards x
3 range shards 0
3 range shards 7
4 word window
4 number window x 0:1
4 range window 0 0:1
4 range window 1025 0:1
4 number window 4 0:x
4 range window 4 1:1
4 rows window 4
5 word clients
5 word clients 0 0 0 0 0 0 x
5 number clients x
5 range clients 0 1 x
6 word consumers 1
6 word consumers 1 tally x
6 word consumers x tail
6 number consumers x tally
6 range consumers 0 tally
6 range consumers 5 tally";

/// The text of the error with which a text is refused.
fn error_text(alloc: Global, text: &[u8]) -> Result<String, Fail> {
    let error = fault(alloc, text).ok_or("the text is taken")?;
    Ok(format!(in alloc; "{error}")?)
}

/// The first word of a case, and what follows its space.
fn first_and_rest(case: &str) -> Result<(&str, &str), Fail> {
    Ok(case.split_once(' ').ok_or("a case has two words")?)
}

#[test]
fn lines_of_inputs_are_refused_by_the_first_kind_that_fits(rt: HostRuntime) -> Result<(), Fail> {
    let alloc = rt.alloc();
    for case in INPUT_LINES.lines() {
        let (kind, line) = first_and_rest(case)?;
        let text = wide(alloc, line.as_bytes())?;
        let want = format!(in alloc; "line 7: {kind}")?;
        assert_eq!(rt; error_text(alloc, text.as_slice())?, want);
    }
    Ok(())
}

#[test]
fn lines_of_the_head_are_refused_by_the_first_kind_that_fits(rt: HostRuntime) -> Result<(), Fail> {
    let alloc = rt.alloc();
    for case in HEAD_LINES.lines() {
        let (place, rest) = first_and_rest(case)?;
        let (kind, line) = first_and_rest(rest)?;
        let number = place.parse::<usize>().ok().ok_or("a place")?;
        let text = small(alloc, number.saturating_sub(1), line.as_bytes(), b"jump\n")?;
        let want = format!(in alloc; "line {place}: {kind}")?;
        assert_eq!(rt; error_text(alloc, text.as_slice())?, want);
    }
    Ok(())
}

#[test]
fn rows_are_refused_with_the_fault_of_their_table(rt: HostRuntime) -> Result<(), Fail> {
    let table = [
        (b"table q0 4".as_slice(), TableError::Empty),
        (
            b"table q0 4 0:1 0:1 0:1 0:1 0:1 0:1 0:1",
            TableError::TooMany { n: 7 },
        ),
        (b"table q0 4 1:1 1:1", TableError::Twice { shard: 1 }),
        (
            b"table q0 4 0:0",
            TableError::BadQuota { shard: 0, quota: 0 },
        ),
        (
            b"table q0 4 0:65 0:1",
            TableError::BadQuota {
                shard: 0,
                quota: 65,
            },
        ),
        (
            b"table q0 4 0:4294967295",
            TableError::BadQuota {
                shard: 0,
                quota: 4_294_967_295,
            },
        ),
    ];
    for (line, error) in table {
        let text = wide(rt.alloc(), line)?;
        let kind = ScriptKind::Rows { error };
        assert_eq!(rt; fault(rt.alloc(), text.as_slice()), at(7, kind));
    }
    Ok(())
}

#[test]
fn a_text_that_ends_in_the_head_is_refused_behind_its_last_line(rt: HostRuntime) {
    let table = [
        (b"".as_slice(), 1),
        (b"\n", 2),
        (b"# all\n\n# comments", 4),
        (b"belfast 1", 2),
        (b"belfast 1\n", 2),
        (b"belfast 1\r\n\r\nseqs 1\n", 4),
    ];
    for (text, line) in table {
        assert_eq!(rt; fault(rt.alloc(), text), at(line, ScriptKind::Header));
    }
}

#[test]
fn the_first_line_that_is_refused_is_the_answer(rt: HostRuntime) -> Result<(), Fail> {
    let table = [
        (
            b"# jump\n\ntick q0\njump\ntick x\n".as_slice(),
            10,
            ScriptKind::Word,
        ),
        (b"tick q0\r\ntick q0\r", 8, ScriptKind::Byte),
        (b"#\x07\ntick q9", 8, ScriptKind::Node),
        (b"\r", 7, ScriptKind::Byte),
    ];
    for (rest, line, kind) in table {
        let text = wide(rt.alloc(), rest)?;
        assert_eq!(rt; fault(rt.alloc(), text.as_slice()), at(line, kind));
    }
    Ok(())
}

#[test]
fn a_body_is_all_that_follows_one_space(rt: HostRuntime) -> Result<(), Fail> {
    let table = [
        (b"submit 0 5".as_slice(), 0, b"5".as_slice()),
        (b"submit 1  5 \r\n", 1, b" 5 "),
        (b"  submit   01 a  b", 1, b"a  b"),
        (b"submit 0", 0, b""),
        (b"submit 0 ", 0, b""),
        (b"submit 0  ", 0, b" "),
    ];
    for (line, number, bytes) in table {
        let text = wide(rt.alloc(), line)?;
        let script = read(rt.alloc(), text.as_slice()).ok().ok_or("a script")?;
        match script.inputs.get(0) {
            Some(Input::Submit { client, body }) => {
                assert_eq!(rt; *client, number);
                assert_eq!(rt; body.as_slice(), bytes);
            }
            _ => return Err("no submission")?,
        }
    }
    Ok(())
}

#[test]
fn a_body_has_at_most_1024_bytes(rt: HostRuntime) -> Result<(), Fail> {
    let mut text = small(rt.alloc(), 6, b"", b"submit 0 ")?;
    for _ in 0..1024 {
        text.push(b'x')?;
    }
    assert_eq!(rt; fault(rt.alloc(), text.as_slice()), None);
    text.push(b'x')?;
    assert_eq!(rt;
        fault(rt.alloc(), text.as_slice()),
        at(7, ScriptKind::Body { len: 1025 })
    );
    Ok(())
}

/// The cluster that `WIDE` spells.
fn is_wide(cfg: &Config) -> bool {
    cfg.seqs == 3
        && cfg.shards == 2
        && cfg.rounds == 4
        && cfg.table.rows().len() == 2
        && cfg.homes.as_slice() == [0, 1].as_slice()
        && cfg.consumers == 2
        && cfg.app == AppKind::Bank
}

#[test]
fn a_head_may_have_spaces_zeros_comments_and_carriage_returns(rt: HostRuntime) -> Result<(), Fail> {
    let loose =
        b"# a head\r\n  belfast  001 \r\n\nseqs 03\r\nshards 2\n#\nwindow   0004 0:1   01:02 \nclients 0 1\nconsumers 2  bank";
    let script = read(rt.alloc(), loose).ok().ok_or("a script")?;
    assert!(rt; is_wide(&script.cfg));
    let plain = read(rt.alloc(), WIDE).ok().ok_or("a script")?;
    assert_eq!(rt; script, plain);
    assert_eq!(rt; script.inputs.len(), 0);
    Ok(())
}

#[test]
fn a_comment_changes_the_numbers_of_lines_alone(rt: HostRuntime) -> Result<(), Fail> {
    let plain = small(rt.alloc(), 6, b"", b"submit 0 5\ndrain 100\n")?;
    let noted = small(rt.alloc(), 6, b"", b"# one record\nsubmit 0 5\ndrain 100")?;
    let plain = read(rt.alloc(), plain.as_slice()).ok().ok_or("a script")?;
    let noted = read(rt.alloc(), noted.as_slice()).ok().ok_or("a script")?;
    assert_eq!(rt; plain.cfg, noted.cfg);
    assert_eq!(rt; plain.inputs, noted.inputs);
    assert_eq!(rt; plain.lines.as_slice(), [7, 8].as_slice());
    assert_eq!(rt; noted.lines.as_slice(), [8, 9].as_slice());
    Ok(())
}

#[test]
fn lines_with_numbers_are_read(rt: HostRuntime) -> Result<(), Fail> {
    let table = [
        (
            b"deliver 999999999999999999".as_slice(),
            Input::Deliver {
                number: 999_999_999_999_999_999,
            },
        ),
        (b"lose 000000000000000007", Input::Lose { number: 7 }),
        (
            b" tick  s1b ",
            Input::Tick {
                node: NodeId::Shard(1, Side::Backup),
            },
        ),
        (
            b"restart k1",
            Input::Restart {
                node: NodeId::Consumer(1),
            },
        ),
        (b"drain 200000", Input::Drain { count: 200_000 }),
        (
            b"remove q1 01",
            Input::Command {
                node: NodeId::Seq(1),
                command: Command::Remove { shard: 1 },
            },
        ),
    ];
    for (line, input) in &table {
        let text = wide(rt.alloc(), line)?;
        let script = read(rt.alloc(), text.as_slice()).ok().ok_or("a script")?;
        assert_eq!(rt; script.inputs.get(0), Some(input));
    }
    Ok(())
}

#[test]
fn a_table_is_read(rt: HostRuntime) -> Result<(), Fail> {
    let text = wide(rt.alloc(), b"table q2 1024 1:64 0:1")?;
    let script = read(rt.alloc(), text.as_slice()).ok().ok_or("a script")?;
    match script.inputs.get(0) {
        Some(
            Input::Command {
                node,
                command: Command::Table { rounds, rows },
            },
        ) => {
            assert_eq!(rt; *node, NodeId::Seq(2));
            assert_eq!(rt; *rounds, 1024);
            assert_eq!(rt;
                rows.rows(),
                [
                    Row {
                        shard: 1,
                        quota: 64
                    },
                    Row { shard: 0, quota: 1 }
                ]
                .as_slice()
            );
        }
        _ => return Err("no table")?,
    }
    Ok(())
}

/// How many inputs stand before the line that is refused, where a head does.
fn inputs_before(alloc: Global, text: &[u8]) -> Option<usize> {
    if text.len() > LIMIT {
        return None;
    }
    match read_script(alloc, text) {
        Err(ScriptError::At { line, .. }) if has_head_before(text, line) => {
            let script = read_before(alloc, text, line).ok()?;
            Some(script.inputs.len())
        }
        _ => None,
    }
}

#[test]
fn the_lines_before_a_refused_one_are_read(rt: HostRuntime) -> Result<(), Fail> {
    let table = [
        (b"jump\n".as_slice(), Some(0)),
        (b"deliver 0\njump\ntick x\n", Some(1)),
        (b"deliver 0\r\n# x\n\n tick q0\njump", Some(2)),
        (b"tick q0\n", None),
    ];
    for (rest, want) in table {
        let text = wide(rt.alloc(), rest)?;
        assert_eq!(rt; inputs_before(rt.alloc(), text.as_slice()), want);
    }
    let text = small(rt.alloc(), 5, b"consumers 9 tally", b"jump\n")?;
    assert_eq!(rt; inputs_before(rt.alloc(), text.as_slice()), None);
    Ok(())
}

#[test]
fn large_texts_are_read(rt: HostRuntime) -> Result<(), Fail> {
    let mut comments = Bytes::from_slice(rt.alloc(), WIDE)?;
    for _ in 0..4_194_000 {
        comments.extend_from_slice(b"# x\n")?;
    }
    let script = read(rt.alloc(), comments.as_slice())
        .ok()
        .ok_or("a script")?;
    assert_eq!(rt; script.inputs.len(), 0);
    let mut submits = Bytes::from_slice(rt.alloc(), WIDE)?;
    for _ in 0..200_000 {
        submits.extend_from_slice(b"submit 1 5\n")?;
    }
    let script = read(rt.alloc(), submits.as_slice()).ok().ok_or("a script")?;
    assert_eq!(rt; script.inputs.len(), 200_000);
    assert_eq!(rt; script.lines.get(199_999), Some(&200_006));
    Ok(())
}
