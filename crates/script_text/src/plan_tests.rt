use super::*;
use msg_wire::{Command, Plan, PlanLine};
use quota_table::{Bytes, OutOfMemory, Row};
use spec_base::NodeId;
use std::alloc::Global;
use std::test::Fail;

mod vector;

const LIMIT: usize = 16_777_216;

/// The head of a plan, line by line: eleven nodes, two consumers, two clients, three submitters.
const HEAD: [&str; 10] = [
    "belfast-plan 1",
    "seqs 3",
    "shards 2",
    "window 4 0:1 1:2",
    "clients 0 1",
    "consumers 2 bank",
    "readers 1 0",
    "submitters 1 0 1",
    "faults 7 5 2 2 0",
    "drain 1000 10",
];

/// Reads a text that is not too long.
fn read(alloc: Global, text: &[u8]) -> Result<Plan, ScriptError> {
    if text.len() > LIMIT {
        return Err(ScriptError::OutOfMemory);
    }
    read_plan(alloc, text)
}

/// The head with another line at `place`, counted from 1, or no head where that is 0.
fn headed(alloc: Global, place: usize, line: &str) -> Result<Bytes, OutOfMemory> {
    let mut text = Bytes::new(alloc);
    if place == 0 {
        return Ok(text);
    }
    for i in 0..10 {
        let line = if i + 1 == place { line } else { HEAD[i] };
        text.extend_from_slice(line.as_bytes())?;
        text.push(b'\n')?;
    }
    Ok(text)
}

/// A case is a place in the head, the line that stands there, the text behind the head, whose lines are parted by `/`, and what
/// is told of the whole.
#[derive(Clone, Copy)]
struct Case<'t> {
    place: &'t str,
    line: &'t str,
    behind: &'t str,
    want: &'t str,
}

fn case_of(row: &str) -> Result<Case<'_>, Fail> {
    let (place, row) = row.split_once('|').ok_or("a place")?;
    let (line, row) = row.split_once('|').ok_or("a line")?;
    let (behind, want) = row.split_once('|').ok_or("what follows")?;
    Ok(Case {
        place,
        line,
        behind,
        want,
    })
}

fn text_of(alloc: Global, case: &Case<'_>) -> Result<Bytes, Fail> {
    let place = case.place.parse::<usize>().ok().ok_or("a place")?;
    let mut text = headed(alloc, place, case.line)?;
    for byte in case.behind.as_bytes() {
        text.push(if *byte == b'/' { b'\n' } else { *byte })?;
    }
    Ok(text)
}

/// Whether a text is read, or why it is refused.
fn answer(alloc: Global, text: &[u8]) -> Result<String, Fail> {
    match read(alloc, text) {
        Ok(_) => Ok(String::from_str(alloc, "read")?),
        Err(error) => Ok(format!(in alloc; "{error}")?),
    }
}

/// The first kind that fits, at each line of the head.
const HEADS: &str = "\
1|belfast 1|jump|line 1: header
1|belfast-plan|jump|line 1: header
1|belfast-plan 2|jump|line 1: header
1|belfast-plan 1 x|jump|line 1: word
2|seqs 2|jump|line 2: range
6|consumers 2 tall|jump|line 6: word
7|submitters 0|jump|line 7: header
7|\x20|jump|line 7: header
7|readers\t0|jump|line 7: byte
7|readers 0 0 0 0 0 0 0 0 0|jump|line 7: word
7|readers 0 0 0 0 0 0 0 0 x|jump|line 7: word
7|readers x 9|jump|line 7: number
7|readers 2 x|jump|line 7: range
7|readers 0 1 2|jump|line 7: range
8|submitter 0|jump|line 8: header
8|submitters 0 0 0 0 0 0 0 0 0|jump|line 8: word
8|submitters -1|jump|line 8: number
8|submitters 2|jump|line 8: range
9|drain 1000 10|jump|line 9: header
9|faults|jump|line 9: word
9|faults 7 5 2 2|jump|line 9: word
9|faults 7 5 2 2 0 0|jump|line 9: word
9|faults x 5 2 2|jump|line 9: word
9|faults x 101 0 0 0|jump|line 9: number
9|faults 4294967296 x 0 0 0|jump|line 9: range
9|faults 7 101 x 0 0|jump|line 9: range
9|faults 7 60 60 x 0|jump|line 9: number
9|faults 7 60 60 0 x|jump|line 9: number
9|faults 7 60 0 0 101|jump|line 9: range
9|faults 7 26 25 25 25|jump|line 9: range
10|faults 7 5 2 2 0|jump|line 10: header
10|drain 1000|jump|line 10: word
10|drain 1000 10 1|jump|line 10: word
10|drain x 10001|jump|line 10: number
10|drain 200001 x|jump|line 10: range
10|drain 200000 x|jump|line 10: number
10|drain 200000 10001|jump|line 10: range";

/// The first kind that fits, behind the head.
const LINES: &str = "\
11||jump|line 11: word
11||Submit 0 5|line 11: word
11||deliver 0|line 11: word
11||lose 0|line 11: word
11||tick q0|line 11: word
11||drain 1|line 11: word
11||\x20|line 11: word
11|| # no comment|line 11: word
11||episode 1\x07|line 11: byte
11||jump\x7f|line 11: byte
11||submit|line 11: word
11||submit x 5|line 11: number
11||submit 3 5|line 11: range
11||submit x \x1f|line 11: byte
11||episode|line 11: word
11||episode 1 1|line 11: word
11||episode x|line 11: number
11||episode 0|line 11: range
11||episode 2001|line 11: range
11||restart|line 11: word
11||restart q0 q1|line 11: word
11||restart q3|line 11: node
11||restart s2p|line 11: node
11||restart c2|line 11: node
11||restart k2|line 11: node
11||table|line 11: word
11||table s0p 4 0:1|line 11: node
11||table q0 0 x|line 11: range
11||table q0 4 0|line 11: number
11||table q0 4 2:1|line 11: range
11||table q0 4|line 11: rows
11||table q0 4 0:65|line 11: rows
11||remove q0|line 11: word
11||remove c0 x|line 11: node
11||remove q0 x|line 11: number
11||remove q0 2|line 11: range";

/// Heads that end early, lists of none and of eight, and entries up to the most and beyond.
const WHOLE: &str = "\
0|||line 1: header
0||belfast-plan 1/|line 2: header
0||# all//belfast-plan 1|line 4: header
0||belfast-plan 1/seqs 3/shards 2/window 4 0:1/clients 0/consumers 2 kv/readers/submitters/faults 0 0 0 0 0|line 10: header
6|consumers 2 tally|episode 2000|read
7|readers|episode 2000/|read
7|readers 0 0 0 0 1 1 1 1||read
8|submitters||read
8|submitters|submit 0 5|line 11: range
8|submitters 0 0 0 0 1 1 1 1|submit 7 5|read
10|drain 200000 10000|submit 0 5/submit 0 7/|read
10|drain 200000 0|restart q0|line 11: too many entries
10|drain 200000 0|table q0 4 0:1|line 11: too many entries
10|drain 200000 0|remove q0 1|line 11: too many entries
10|drain 200000 0|submit 0 5/# x/episode 1|line 13: too many entries
10|drain 199989 0|episode 1|read
10|drain 199990 0|episode 1|line 11: too many entries
10|drain 199989 0|episode 1/submit 0 5/remove q0 1|line 13: too many entries
10|drain 199987 0|restart q0/episode 1/table q0 4 0:1/submit 0 5/restart q0|line 15: too many entries
10|drain 178000 0|episode 2000/restart q0/jump|line 12: too many entries
10|drain 200000 0|restart q0/jump|line 11: too many entries
10|drain 200000 0|jump/restart q0|line 11: word
10|drain 200000 0|episode x|line 11: number
10|drain 200000 0|restart q3|line 11: node";

#[test]
fn each_text_is_read_or_refused_by_the_first_kind_that_fits(rt: HostRuntime) -> Result<(), Fail> {
    let alloc = rt.alloc();
    for table in [HEADS, LINES, WHOLE] {
        for row in table.lines() {
            let case = case_of(row)?;
            let text = text_of(alloc, &case)?;
            assert_eq!(rt; answer(alloc, text.as_slice())?.as_str(), case.want);
        }
    }
    Ok(())
}

/// What stands in a plan.
fn told(alloc: Global, text: &[u8]) -> Result<String, Fail> {
    let plan = read(alloc, text).ok().ok_or("a plan")?;
    let head = told_head(alloc, &plan)?;
    let lines = plan.lines.as_slice();
    Ok(format!(in alloc; "{head} {lines:?}")?)
}

fn told_head(alloc: Global, plan: &Plan) -> Result<String, Fail> {
    let cluster = told_cluster(alloc, plan)?;
    let readers = plan.readers.as_slice();
    let submitters = plan.submitters.as_slice();
    let faults = [plan.lose, plan.repeat, plan.late, plan.cut];
    let limits = [plan.seed, plan.limit, plan.settle];
    Ok(format!(in alloc; "{cluster} {readers:?} {submitters:?} {faults:?} {limits:?}")?)
}

fn told_cluster(alloc: Global, plan: &Plan) -> Result<String, Fail> {
    let counts = [plan.cfg.seqs, plan.cfg.shards, plan.cfg.consumers];
    let rounds = plan.cfg.rounds;
    let homes = plan.cfg.homes.as_slice();
    let app = plan.cfg.app;
    Ok(format!(in alloc; "{counts:?} {rounds} {homes:?} {app:?}")?)
}

/// One node of each kind, two bodies, one episode; a number in each place; a restart and a removal.
const PLANS: &str = "\
0||belfast-plan 1/seqs 1/shards 1/window 2 0:1/clients 0/consumers 1 tally/readers 0/submitters 0/faults 1 0 0 0 0/drain 1000 10/\
submit 0 5/submit 0 7/episode 32/|[1, 1, 1] 2 [0] Tally [0] [0] [0, 0, 0, 0] [1, 1000, 10] \
[Submit { by: 0, body: [53] }, Submit { by: 0, body: [55] }, Episode { turns: 32 }]
9|faults 4294967295 40 30 20 010|# none/  restart   s1b \r/|[3, 2, 2] 4 [0, 1] Bank [1, 0] [1, 0, 1] [40, 30, 20, 10] \
[4294967295, 1000, 10] [Restart { node: Shard(1, Backup) }]
11||remove q0 01|[3, 2, 2] 4 [0, 1] Bank [1, 0] [1, 0, 1] [5, 2, 2, 0] [7, 1000, 10] \
[Command { node: Seq(0), command: Remove { shard: 1 } }]";

#[test]
fn each_number_stands_in_its_place(rt: HostRuntime) -> Result<(), Fail> {
    let alloc = rt.alloc();
    for row in PLANS.lines() {
        let case = case_of(row)?;
        let text = text_of(alloc, &case)?;
        assert_eq!(rt; told(alloc, text.as_slice())?.as_str(), case.want);
    }
    Ok(())
}

#[test]
fn a_body_has_at_most_1024_bytes(rt: HostRuntime) -> Result<(), Fail> {
    let mut text = headed(rt.alloc(), 11, "")?;
    text.extend_from_slice(b"submit 2 ")?;
    for _ in 0..1024 {
        text.push(b'x')?;
    }
    assert_eq!(rt; answer(rt.alloc(), text.as_slice())?.as_str(), "read");
    text.push(b'x')?;
    let want = "line 11: body";
    assert_eq!(rt; answer(rt.alloc(), text.as_slice())?.as_str(), want);
    Ok(())
}

/// The plan of a seed and of a size that may be.
fn made(alloc: Global, seed: u32, size: u32) -> Result<Bytes, OutOfMemory> {
    if size < 1 || size > 2_000 {
        return Err(OutOfMemory);
    }
    generate(alloc, seed, size)
}

/// The plan of seed 7 and size 200, from the numbers of its bodies.
fn plan_of_seven(alloc: Global) -> Result<String, Fail> {
    let mut text = String::new(alloc);
    text.push_str("belfast-plan 1\nseqs 3\nshards 3\nwindow 16 0:4 1:4 2:4\nclients 0 1 2 0\n")?;
    text.push_str("consumers 2 tally\nreaders 0 1 0 1\nsubmitters 0 1 2 3\n")?;
    text.push_str("faults 7 5 2 2 0\ndrain 120000 300\n")?;
    let mut by = 0_u32;
    for line in vector::BODIES.lines() {
        for number in line.split(' ') {
            text.push_str(format!(in alloc; "submit {by} {number}\n")?.as_str())?;
            by = by.wrapping_add(1) % 4;
        }
    }
    text.push_str("episode 400\nrestart s1b\nepisode 400\n")?;
    text.push_str("remove q0 2\nepisode 400\nrestart k0\nepisode 400\n")?;
    Ok(text)
}

#[test]
fn a_generated_plan_is_that_of_the_model(rt: HostRuntime) -> Result<(), Fail> {
    let text = generate(rt.alloc(), 7, 200)?;
    let want = plan_of_seven(rt.alloc())?;
    assert_eq!(rt; text.len(), 10_539);
    assert!(rt; text.as_slice() == want.as_bytes());
    Ok(())
}

#[test]
fn generated_plans_are_read(rt: HostRuntime) -> Result<(), Fail> {
    for (seed, size) in [(7, 200), (0, 1), (4_294_967_295, 2_000)] {
        let text = made(rt.alloc(), seed, size)?;
        let plan = read(rt.alloc(), text.as_slice()).ok().ok_or("a plan")?;
        assert_eq!(rt;
            (plan.seed, plan.lines.len()),
            (seed, 4 * size as usize + 7)
        );
    }
    Ok(())
}

#[test]
fn a_table_is_read(rt: HostRuntime) -> Result<(), Fail> {
    let mut text = headed(rt.alloc(), 11, "")?;
    text.extend_from_slice(b"table q2 1024 1:64 0:1")?;
    let plan = read(rt.alloc(), text.as_slice()).ok().ok_or("a plan")?;
    let Some(
        PlanLine::Command {
            node: NodeId::Seq(2),
            command: Command::Table { rounds: 1024, rows },
        },
    ) = plan.lines.get(0)
    else {
        return Err("no table")?;
    };
    let want = [
        Row {
            shard: 1,
            quota: 64,
        },
        Row { shard: 0, quota: 1 },
    ];
    assert_eq!(rt; rows.rows(), want.as_slice());
    Ok(())
}

/// Nearly as long as a text may be: 16,000 bodies of 1,024 bytes.
#[test]
fn large_plans_are_read(rt: HostRuntime) -> Result<(), Fail> {
    let mut line = Bytes::from_slice(rt.alloc(), b"submit 1 ")?;
    for _ in 0..1024 {
        line.push(b'x')?;
    }
    line.push(b'\n')?;
    let mut text = headed(rt.alloc(), 11, "")?;
    for _ in 0..16_000 {
        text.extend_from_slice(line.as_slice())?;
    }
    let plan = read(rt.alloc(), text.as_slice()).ok().ok_or("a plan")?;
    assert_eq!(rt; plan.lines.len(), 16_000);
    Ok(())
}
