//! What a sequencer, a client and a consumer did.

ghost use Rattle.std.specs.Prelude.{◌≡◌, ◌∷◌, [], true, IfOk, IfSome, IsSomeAnd, slice_get};
ghost use Rattle.std.specs.List.{All};
ghost use Rattle.submit_desk.specs.Passes.{submitter};
ghost use Rattle.cluster_crew.specs.Crews.{CanFollow};
ghost use Rattle.cluster_crew.specs.Marks.{counts_in, no_marks};
ghost use Rattle.cluster_crew.specs.inside.Toys.{AreSources};

use crate::tests::plans::{lines_of, plan_of};
use crate::tests::toy::{Toy, member_of};
use crate::{Crew, Ended, Room, Showing, Side};
use cluster_users::{Environment, Open, Reader, Submitter};
use msg_wire::{Event, Plan};
use net_model::{Journal, NodeModel};
use quota_table::OutOfMemory;
use record_codec::{Body, Shown};
use scoped_turns::TakesTurns;
use spec_base::{Disk, MemDisk, NodeId};
use std::alloc::Global;
use std::collections::VecDeque;
use std::process::Abort;
use std::sync::Wait;
use std::test::Fail;
use std::thread::Threads;
use submit_desk::{Desk, DeskPass};
use view_cell::{Look, Publisher, ReaderPass, ReaderPasses, view};

/// A run, and what it leaves.
#[derive(Clone, Copy)]
struct Case {
    /// Lines of a plan, a letter each.
    lines: &'static [u8],
    /// Bodies that lie on the desk from the beginning, a letter each.
    desk: &'static [u8],
    /// The bodies of the two submitters.
    held: [&'static [u8]; 2],
    /// The calls at which the client's disk fails: 0 and 1 are those of the format.
    fails: &'static [u64],
    limit: u32,
    /// The steps of the sequencer, the client and the consumer, a letter each.
    steps: [&'static [u8]; 3],
    /// The numbers of the looks that the reader kept.
    looks: &'static [u64],
    left: u32,
}

/// A run in which nothing happens.
const NOTHING: Case = Case {
    lines: b"",
    desk: b"",
    held: [b"", b""],
    fails: &[],
    limit: 9,
    steps: [b"", b"", b""],
    looks: &[],
    left: 9,
};

const CASES: [Case; 10] = [
    NOTHING,
    // The desk comes first, then the submitters in their order.
    Case {
        desk: b"pq",
        held: [b"ab", b"x"],
        steps: [b"", b"pqabx", b""],
        left: 4,
        ..NOTHING
    },
    Case {
        desk: b"pq",
        held: [b"ab", b"x"],
        limit: 3,
        steps: [b"", b"pqa", b""],
        left: 0,
        ..NOTHING
    },
    Case {
        held: [b"ab", b"x"],
        limit: 1,
        steps: [b"", b"a", b""],
        left: 0,
        ..NOTHING
    },
    // The last turn of an episode is a tick, and each sixteenth.
    Case {
        lines: b"12",
        held: [b"abcd", b""],
        steps: [b"TT", b"TaTbcd", b"TT"],
        looks: &[0],
        left: 6,
        ..NOTHING
    },
    Case {
        lines: b"A",
        desk: b"p",
        steps: [b"TT", b"pTT", b"TT"],
        looks: &[0],
        ..NOTHING
    },
    // A line between episodes is one step of the node that it names.
    Case {
        lines: b"sx",
        steps: [b"RX", b"", b""],
        ..NOTHING
    },
    Case {
        lines: b"cc",
        desk: b"p",
        steps: [b"", b"RRp", b""],
        left: 8,
        ..NOTHING
    },
    // A restart of the consumer is a step with a mark, and a tick is one without.
    Case {
        lines: b"1v1vv1",
        steps: [b"TTT", b"TTT", b"TRTRRT"],
        looks: &[0, 1, 3],
        ..NOTHING
    },
    // The client is stopped as it comes back, and no further line is done.
    Case {
        lines: b"scx1",
        desk: b"p",
        held: [b"a", b""],
        fails: &[2, 3],
        steps: [b"R", b"", b""],
        ..NOTHING
    },
];

/// The bodies of one letter each.
fn bodies(alloc: Global, letters: &[u8]) -> Result<VecDeque<Body>, OutOfMemory> {
    let mut all = VecDeque::new(alloc);
    for letter in letters {
        all.push_back(Body::of(alloc, &[*letter])?)?;
    }
    Ok(all)
}

fn one<T: Drop>(alloc: Global, a: T) -> Result<Vec<T>, OutOfMemory>
    ensures { IfOk result (λ all. all.items ≡ a ∷ []) }
{
    let mut all = Vec::new(alloc);
    all.push(a)?;
    Ok(all)
}

fn two<T: Drop>(alloc: Global, a: T, b: T) -> Result<Vec<T>, OutOfMemory>
    ensures { IfOk result (λ all. all.items ≡ a ∷ b ∷ []) }
{
    let mut all = one(alloc, a)?;
    all.push(b)?;
    Ok(all)
}

fn three<T: Drop>(alloc: Global, a: T, b: T, c: T) -> Result<Vec<T>, OutOfMemory>
    ensures { IfOk result (λ all. all.items ≡ a ∷ b ∷ c ∷ []) }
{
    let mut all = two(alloc, a, b)?;
    all.push(c)?;
    Ok(all)
}

/// Puts bodies on the desk, by a submitter of their own.
fn put_all<R: Wait>(
    rt: &R,
    alloc: Global,
    desks: &[Desk],
    pass: DeskPass,
    letters: &[u8],
) -> Result<(), OutOfMemory>
    requires knows { pass.knows ≡ submitter 2 [] }
    requires desk { IsSomeAnd (slice_get desks.now 0) (λ d. d.desk ≡ pass.desk) }
{
    let env = Environment {
        rt,
        alloc,
        gate: &Open,
        desks,
    };
    let by = Submitter::new(2, 0, pass, bodies(alloc, letters)?);
    let _by = by.take_turns(&env, 8);
    Ok(())
}

/// The client's desk, its taking pass, and the two submitters.
fn desk_of<R: Wait>(
    rt: &R,
    alloc: Global,
    case: &Case,
) -> Result<(Vec<Desk>, DeskPass, Vec<Submitter>), Fail>
    ensures desks { IfOk result (λ made. IsSomeAnd (slice_get made.0.items 0) (λ d. d.desk ≡ made.1.desk)) }
    ensures takes { IfOk result (λ made. made.1.knows.takes ≡ true) }
    ensures submitters { IfOk result (λ made. AreSources made.1.desk made.2.items) }
{
    let (desk, mut taking) = Desk::new(alloc, 64)?;
    let first = desk.split(rt, &mut taking, 0);
    let second = desk.split(rt, &mut taking, 1);
    let third = desk.split(rt, &mut taking, 2);
    let desks = one(alloc, desk)?;
    put_all(rt, alloc, &desks, third, case.desk)?;
    let first = Submitter::new(0, 0, first, bodies(alloc, case.held[0])?);
    let second = Submitter::new(1, 0, second, bodies(alloc, case.held[1])?);
    Ok((desks, taking, two(alloc, first, second)?))
}

/// One of the passes of a new view.
fn pass_of<R: Wait + Drop>(publisher: &Publisher<R>, mut passes: ReaderPasses) -> Option<ReaderPass>
    requires { All (λ pass. pass.cell ≡ publisher.now.cell) passes.items }
    ensures { IfSome result (λ pass. pass.cell ≡ publisher.now.cell) }
{
    let _ = publisher;
    passes.pop()
}

/// The consumer's view, and its reader.
fn view_of<R: Wait + Drop>(rt: R, alloc: Global) -> Result<(Publisher<R>, Reader), Fail>
    ensures publisher { IfOk result (λ made. counts_in made.0.newest ≡ no_marks) }
    ensures reader { IfOk result (λ made. (made.1.number ≡ 0) × (made.1.consumer ≡ 0) × (made.1.pass.cell ≡ made.0.cell)) }
{
    let opening = Look {
        ops: 0,
        epoch: 0,
        applied: 0,
        confirmed: 0,
        shown: Shown::new(),
    };
    let (publisher, passes) = view(rt, alloc, 1, opening)?;
    match pass_of(&publisher, passes) {
        Some(pass) => Ok((publisher, Reader::new(alloc, 0, 0, pass))),
        None => Err(Fail::new("a pass")),
    }
}

/// A case's crew, and the desks.
fn begin<'a, R: Wait>(
    rt: &'a R,
    alloc: Global,
    plan: &Plan,
    case: &Case,
) -> Result<(Crew<Toy, MemDisk, &'a R>, Vec<Desk>), Fail>
    requires readers { plan.now.readers ≡ 0 ∷ [] }
    requires submitters { plan.now.submitters ≡ 0 ∷ 0 ∷ [] }
    ensures { IfOk result (λ begun. CanFollow ⟦<Toy as NodeModel>⟧ ⟦<MemDisk as Disk>⟧ plan.now begun.1.items begun.0) }
{
    let _ = plan;
    let made = desk_of(rt, alloc, case)?;
    let shown = view_of(rt, alloc)?;
    let (desks, taking, submitters) = made;
    let (publisher, reader) = shown;
    let showing = Showing::new(publisher);
    let bare = Side::None;
    let first = member_of(alloc, NodeId::Seq(0), &[], bare)?;
    let client = Side::Client(taking);
    let second = member_of(alloc, NodeId::Client(0), case.fails, client)?;
    let consumer = Side::Consumer(showing);
    let third = member_of(alloc, NodeId::Consumer(0), &[], consumer)?;
    let members = three(alloc, first, second, third)?;
    let readers = one(alloc, reader)?;
    let crew = Crew {
        members,
        readers,
        submitters,
    };
    Ok((crew, desks))
}

/// What is left of a run.
fn play<R: Threads + Wait + Sync>(
    rt: &R,
    alloc: Global,
    case: &Case,
) -> Result<Ended<Toy, MemDisk>, Fail> {
    let plan = plan_of(alloc, lines_of(alloc, case.lines)?, case.limit)?;
    let begun = begin(rt, alloc, &plan, case)?;
    let (crew, desks) = begun;
    let (crew, done) = crew.follow(rt, alloc, &plan, &Open, &desks);
    done?;
    let room = Room::new(
        alloc,
        crew.members.len(),
        crew.readers.len(),
        crew.submitters.len(),
    )?;
    Ok(crew.end(rt, &plan, &desks, room))
}

/// The letter of a step.
fn letter_of(event: &Event) -> u8 {
    match event {
        Event::Tick => b'T',
        Event::Restart => b'R',
        Event::Command(_) => b'X',
        Event::Deliver(_) => b'D',
        Event::Submit { by: _, body } => match body.as_slice() {
            [letter] => *letter,
            _ => b'?',
        },
    }
}

/// Whether the steps of a journal are these, a letter each.
fn are_steps(journal: &Journal, letters: &[u8]) -> bool {
    journal.steps().len() == letters.len()
        && journal
            .steps()
            .iter()
            .zip(letters)
            .all(|(step, letter)| letter_of(&step.entry.event) == *letter)
}

/// Whether the looks have these numbers.
fn are_looks(looks: &[Look], numbers: &[u64]) -> bool {
    looks.len() == numbers.len()
        && looks.iter().zip(numbers).all(|(look, number)| look.ops == *number
            && look.epoch == *number)
}

#[test]
fn each_node_takes_its_steps(rt: HostRuntime) -> Result<(), Fail> {
    for case in &CASES {
        let ended = play(&rt, rt.alloc(), case)?;
        assert_eq!(rt; ended.left, case.left);
        assert_eq!(rt; ended.actors.len(), 3);
        assert_eq!(rt; ended.looks.len(), 1);
        for (actor, steps) in ended.actors.iter().zip(&case.steps) {
            assert!(rt; are_steps(actor.journal(), steps));
        }
        for looks in &ended.looks {
            assert!(rt; are_looks(looks.list.as_slice(), case.looks));
        }
    }
    Ok(())
}
