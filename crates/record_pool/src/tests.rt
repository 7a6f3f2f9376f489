use crate::{NoRoom, PoolRef, RecordPool};
use std::test::Fail;

/// What a reference reads, at most 200 bytes: how many bytes, and whether each is the same byte.
fn reads(pool: &RecordPool, item: &PoolRef, byte: u8) -> Option<usize> {
    let mut into = [0; 200];
    if !pool.holds(item) || item.len() > into.len() {
        return None;
    }
    let len = pool.read(item, &mut into);
    let mut same = true;
    for (at, read) in into.iter().enumerate() {
        same = same && (*read == if at < len { byte } else { 0 });
    }
    same.then_some(len)
}

/// Gives a reference back where it belongs to the pool.
fn given(pool: &mut RecordPool, item: PoolRef) -> bool {
    if !pool.holds(&item) {
        return false;
    }
    pool.give(item);
    true
}

#[test]
fn two_blocks(rt: HostRuntime) -> Result<(), Fail> {
    let mut pool = RecordPool::new(rt.alloc(), 2)?;
    assert_eq!(rt; pool.free_blocks(), 2);
    let item = pool.take(&[7; 65])?;
    assert_eq!(rt; pool.free_blocks(), 0);
    assert_eq!(rt; reads(&pool, &item, 7), Some(65));
    assert_eq!(rt; pool.take(&[]).err(), Some(NoRoom { free: 0, need: 1 }));
    assert!(rt; given(&mut pool, item));
    let empty = pool.take(&[])?;
    assert_eq!(rt; pool.free_blocks(), 1);
    assert_eq!(rt; reads(&pool, &empty, 7), Some(0));
    Ok(())
}

#[test]
fn three_blocks(rt: HostRuntime) -> Result<(), Fail> {
    let mut pool = RecordPool::new(rt.alloc(), 3)?;
    let first = pool.take(&[1; 64])?;
    let second = pool.take(&[2; 65])?;
    assert_eq!(rt; pool.free_blocks(), 0);
    assert!(rt; given(&mut pool, first));
    assert_eq!(rt;
        pool.take(&[3; 65]).err(),
        Some(NoRoom { free: 1, need: 2 })
    );
    assert_eq!(rt; reads(&pool, &second, 2), Some(65));
    Ok(())
}

/// Takes as many bytes, each the same, or tells how many blocks are free.
fn taken(pool: &mut RecordPool, byte: u8, len: usize) -> Result<PoolRef, u32> {
    let bytes = [byte; 200];
    pool.take(&bytes[..len.min(200)])
        .map_err(|no_room| no_room.free)
}

// Eight blocks. Each line says how many are free after it.
#[test]
fn a_life_of_eight_blocks(rt: HostRuntime) -> Result<(), Fail> {
    let mut pool = RecordPool::new(rt.alloc(), 8)?;
    let first = taken(&mut pool, 1, 129)?;
    assert_eq!(rt; pool.free_blocks(), 5);
    let second = taken(&mut pool, 2, 1)?;
    assert_eq!(rt; pool.free_blocks(), 4);
    let third = taken(&mut pool, 3, 192)?;
    assert_eq!(rt; pool.free_blocks(), 1);
    assert_eq!(rt; taken(&mut pool, 4, 65).err(), Some(1));
    assert_eq!(rt; reads(&pool, &third, 3), Some(192));
    assert!(rt; given(&mut pool, second));
    assert_eq!(rt; pool.free_blocks(), 2);
    // its two blocks are one that was never taken and the one given back
    let fourth = taken(&mut pool, 4, 128)?;
    assert_eq!(rt; pool.free_blocks(), 0);
    assert_eq!(rt; reads(&pool, &fourth, 4), Some(128));
    assert_eq!(rt; reads(&pool, &first, 1), Some(129));
    assert!(rt; given(&mut pool, first));
    assert_eq!(rt; pool.free_blocks(), 3);
    assert!(rt; given(&mut pool, third));
    assert_eq!(rt; pool.free_blocks(), 6);
    // one that is dropped leaves its two blocks taken
    let _ = taken(&mut pool, 5, 100)?;
    assert_eq!(rt; pool.free_blocks(), 4);
    let fifth = taken(&mut pool, 6, 200)?;
    assert_eq!(rt; pool.free_blocks(), 0);
    assert_eq!(rt; reads(&pool, &fifth, 6), Some(200));
    assert_eq!(rt; reads(&pool, &fourth, 4), Some(128));
    assert!(rt; given(&mut pool, fourth));
    assert!(rt; given(&mut pool, fifth));
    assert_eq!(rt; pool.free_blocks(), 6);
    assert_eq!(rt; taken(&mut pool, 7, 0)?.len(), 0);
    assert_eq!(rt; pool.free_blocks(), 5);
    // a reference of another pool doesn't belong here
    let mut other = RecordPool::new(rt.alloc(), 8)?;
    let strange = taken(&mut other, 8, 200)?;
    assert!(rt; !given(&mut pool, strange));
    Ok(())
}
