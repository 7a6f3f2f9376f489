use crate::tests::reading::look_at;
use crate::tests::submitting::{Taken, bodies, take_some};
use crate::{Environment, Open, Reader, Submitter};
use quota_table::OutOfMemory;
use scoped_turns::episode;
use std::alloc::Global;
use std::sync::Wait;
use std::test::Fail;
use std::thread::Threads;
use submit_desk::Desk;
use view_cell::{ReaderPasses, view};

/// A reader for each pass.
fn readers(alloc: Global, passes: ReaderPasses) -> Result<Vec<Reader>, OutOfMemory> {
    let mut all = Vec::new(alloc);
    let mut number = 0u8;
    for pass in passes {
        all.push(Reader::new(alloc, number, 0, pass))?;
        number = number.saturating_add(1);
    }
    Ok(all)
}

/// What was taken after an episode of two submitters of one client and of readers, and the readers.
fn users<R: Threads + Wait + Sync>(
    rt: &R,
    alloc: Global,
    readers: Vec<Reader>,
) -> Result<(Vec<Taken>, Vec<Reader>), OutOfMemory> {
    let (made, mut taking) = Desk::new(alloc, 64)?;
    let (first, second) = (
        made.split(rt, &mut taking, 0),
        made.split(rt, &mut taking, 1),
    );
    let mut submitters = Vec::new(alloc);
    submitters.push(Submitter::new(0, 0, first, bodies(alloc, b"abc")?))?;
    submitters.push(Submitter::new(1, 0, second, bodies(alloc, b"xy")?))?;
    let desks = [made];
    let env = Environment {
        rt,
        alloc,
        gate: &Open,
        desks: &desks,
    };
    let none: Vec<Submitter> = Vec::new(alloc);
    let (_, readers, _, done) = episode(rt, alloc, &env, 5, submitters, readers, none);
    done?;
    let mut taken = Vec::new(alloc);
    take_some(rt, &desks[0], &mut taking, 9, &mut taken)?;
    Ok((taken, readers))
}

#[test]
fn users_in_threads(rt: HostRuntime) -> Result<(), Fail> {
    let (publisher, passes) = view(&rt, rt.alloc(), 2, look_at(0))?;
    let readers = readers(rt.alloc(), passes)?;
    let (mut taken, readers) = users(&rt, rt.alloc(), readers)?;
    taken.sort()?;
    let wanted = [
        (0, 0, b'a'),
        (0, 1, b'b'),
        (0, 2, b'c'),
        (1, 0, b'x'),
        (1, 1, b'y'),
    ];
    assert!(rt; taken.as_slice() == wanted.as_slice());
    assert_eq!(rt; readers.len(), 2);
    for reader in readers {
        let looks = reader.into_looks();
        assert!(rt; looks.list.as_slice() == [look_at(0)].as_slice());
    }
    drop(publisher);
    Ok(())
}
