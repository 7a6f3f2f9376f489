ghost use Rattle.std.specs.Prelude.{◌≡◌, IfOk, IfSome};
ghost use Rattle.std.specs.List.{All};
ghost use Rattle.view_cell.specs.Ends.{watching_at};

use crate::{Environment, LookList, Open, Reader};
use quota_table::OutOfMemory;
use record_codec::Shown;
use scoped_turns::TakesTurns;
use std::alloc::Global;
use std::sync::Wait;
use std::test::Fail;
use view_cell::{Look, Publisher, ReaderPass, ReaderPasses, view};

/// The look with a number, which tells its other parts.
pub(super) fn look_at(ops: u64) -> Look
    ensures { result.ops ≡ ops }
{
    Look {
        ops,
        epoch: ops / 7,
        applied: ops / 2,
        confirmed: ops / 3,
        shown: Shown::new(),
    }
}

/// Shows a look with a number above that of the last one.
fn show<R: Wait + Drop>(publisher: &mut Publisher<R>, ops: u64) -> Result<(), Fail>
    ensures { publisher.new.cell ≡ publisher.old.cell }
{
    if publisher.newest() >= ops {
        return Err(Fail::from("numbers rise"));
    }
    Ok(publisher.publish(look_at(ops))?)
}

/// So many turns of a reader.
fn turns<R: Wait>(rt: &R, alloc: Global, reader: Reader, turns: u32) -> Reader
    ensures { result.pass.cell ≡ reader.pass.cell }
{
    let env = Environment {
        rt,
        alloc,
        gate: &Open,
        desks: &[],
    };
    reader.take_turns(&env, turns)
}

/// The end of an episode, with a note of what was published last.
fn end<R: Wait + Drop>(publisher: &mut Publisher<R>, reader: &mut Reader) -> Result<(), OutOfMemory>
    requires { reader.old.pass.cell ≡ publisher.old.cell }
    ensures publisher { publisher.new.cell ≡ publisher.old.cell }
    ensures reader { reader.new.pass.cell ≡ reader.old.pass.cell }
{
    reader.end_episode(publisher.tell()?)
}

/// Two episodes, in which the reader comes to see all that it is told.
fn sees_what_it_is_told<R: Wait + Drop>(
    rt: &R,
    alloc: Global,
    publisher: &mut Publisher<&R>,
    reader: Reader,
) -> Result<Reader, Fail>
    requires { reader.pass.cell ≡ publisher.old.cell }
    ensures publisher { publisher.new.cell ≡ publisher.old.cell }
    ensures reader { IfOk result (λ r. r.pass.cell ≡ publisher.old.cell) }
{
    let reader = turns(rt, alloc, reader, 2); // 0, and again
    show(publisher, 3)?;
    let reader = turns(rt, alloc, reader, 1); // 3
    show(publisher, 4)?;
    show(publisher, 9)?;
    let mut reader = turns(rt, alloc, reader, 1); // 9
    end(publisher, &mut reader)?; // 9 again, which was told
    let mut reader = turns(rt, alloc, reader, 1); // 9 again
    show(publisher, 12)?;
    end(publisher, &mut reader)?; // 12, which was told
    Ok(reader)
}

/// An episode at whose end more was published than was told, and one in which nothing was.
fn sees_more_than_it_is_told<R: Wait + Drop>(
    rt: &R,
    alloc: Global,
    publisher: &mut Publisher<&R>,
    mut reader: Reader,
) -> Result<Reader, Fail>
    requires { reader.pass.cell ≡ publisher.old.cell }
    ensures publisher { publisher.new.cell ≡ publisher.old.cell }
    ensures reader { IfOk result (λ r. r.pass.cell ≡ publisher.old.cell) }
{
    show(publisher, 15)?;
    let note = publisher.tell()?;
    show(publisher, 20)?;
    reader.end_episode(note)?; // 20, which is above what was told: 15
    let mut reader = turns(rt, alloc, reader, 1); // 20 again
    end(publisher, &mut reader)?; // 20 again, which was told
    Ok(reader)
}

/// An episode in which the publisher goes.
fn is_told_as_it_goes<R: Wait + Drop>(
    rt: &R,
    alloc: Global,
    mut publisher: Publisher<&R>,
    reader: Reader,
) -> Result<Reader, Fail>
    requires { reader.pass.cell ≡ publisher.cell }
{
    show(&mut publisher, 25)?;
    let reader = turns(rt, alloc, reader, 1); // 25
    show(&mut publisher, 30)?;
    let note = publisher.tell()?;
    drop(publisher);
    let mut reader = turns(rt, alloc, reader, 1); // nothing is handed out
    reader.end_episode(note)?; // nor now: 25 is dropped, and what was told is kept
    Ok(reader)
}

/// What a reader keeps of all these.
fn life<R: Wait + Drop>(
    rt: &R,
    alloc: Global,
    mut publisher: Publisher<&R>,
    reader: Reader,
) -> Result<LookList, Fail>
    requires { reader.pass.cell ≡ publisher.cell }
{
    let reader = sees_what_it_is_told(rt, alloc, &mut publisher, reader)?;
    let reader = sees_more_than_it_is_told(rt, alloc, &mut publisher, reader)?;
    let reader = is_told_as_it_goes(rt, alloc, publisher, reader)?;
    Ok(reader.into_looks().list)
}

/// One of the passes of a new view.
pub(super) fn one_of<R: Wait + Drop>(
    publisher: &Publisher<R>,
    mut passes: ReaderPasses,
    opening: &Look,
) -> Option<ReaderPass>
    requires { All (λ pass. pass ≡ watching_at publisher.now.cell opening.now) passes.items }
    ensures { IfSome result (λ pass. pass ≡ watching_at publisher.now.cell opening.now) }
{
    let _ = publisher;
    let _ = opening;
    passes.pop()
}

/// The numbers of looks, each of which is the one that its number tells.
fn are(looks: &[Look], numbers: &[u64]) -> bool {
    looks.len() == numbers.len()
        && looks
            .iter()
            .zip(numbers)
            .all(|(look, number)| *look == look_at(*number))
}

#[test]
fn keeps_what_is_new(rt: HostRuntime) -> Result<(), Fail> {
    let opening = look_at(0);
    let (publisher, passes) = view(&rt, rt.alloc(), 1, opening.copy())?;
    let Some(pass) = one_of(&publisher, passes, &opening) else {
        return Err(Fail::from("a pass"));
    };
    let reader = Reader::new(rt.alloc(), 5, 1, pass);
    let kept = life(&rt, rt.alloc(), publisher, reader)?;
    assert!(rt; are(kept.as_slice(), &[0, 3, 9, 12, 15, 20, 30]));
    Ok(())
}

/// A reader whose publisher is gone before its first look keeps what it is told.
#[test]
fn keeps_what_is_told(rt: HostRuntime) -> Result<(), Fail> {
    let opening = look_at(0);
    let (mut publisher, passes) = view(&rt, rt.alloc(), 1, opening.copy())?;
    let Some(pass) = one_of(&publisher, passes, &opening) else {
        return Err(Fail::from("a pass"));
    };
    let mut reader = Reader::new(rt.alloc(), 5, 1, pass);
    let note = publisher.tell()?;
    drop(publisher);
    reader.end_episode(note)?;
    let looks = reader.into_looks();
    assert!(rt; looks.reader == 5 && looks.consumer == 1);
    assert!(rt; are(looks.list.as_slice(), &[0]));
    Ok(())
}
