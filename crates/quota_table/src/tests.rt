use crate::{Asked, Bytes, Entry, Listed, Row, Table, TableError, check, offset, sum};
use std::alloc::Global;
use std::mem::size_of;
use std::test::Fail;

fn asked(alloc: Global, rows: &[(u8, u32)]) -> Result<Vec<Asked>, Fail> {
    let mut asked = Vec::new(alloc);
    for (shard, quota) in rows {
        asked.push(Asked {
            shard: *shard,
            quota: *quota,
        })?;
    }
    Ok(asked)
}

#[test]
fn check_names_the_first_fault(rt: HostRuntime) -> Result<(), Fail> {
    let rows: [(&[(u8, u32)], TableError); 8] = [
        (&[], TableError::Empty),
        (&[(0, 1); 7], TableError::TooMany { n: 7 }),
        (&[(0, 0)], TableError::BadQuota { shard: 0, quota: 0 }),
        (
            &[(0, 65)],
            TableError::BadQuota {
                shard: 0,
                quota: 65,
            },
        ),
        (&[(0, 1), (0, 1)], TableError::Twice { shard: 0 }),
        (&[(0, 1), (6, 0)], TableError::BadShard { shard: 6 }),
        (
            &[(1, 0), (1, 1)],
            TableError::BadQuota { shard: 1, quota: 0 },
        ),
        (&[(1, 1), (1, 0)], TableError::Twice { shard: 1 }),
    ];
    for (row, error) in rows {
        let asked = asked(rt.alloc(), row)?;
        assert_eq!(rt; check(asked.as_slice()).err(), Some(error), "at {row:?}");
    }
    Ok(())
}

fn table(alloc: Global, rows: &[(u8, u32)]) -> Result<Table, Fail> {
    let asked = asked(alloc, rows)?;
    Ok(check(asked.as_slice())?)
}

#[test]
fn tables_add_up(rt: HostRuntime) -> Result<(), Fail> {
    let rows = table(rt.alloc(), &[(2, 1), (0, 64), (5, 3)])?;
    let due = [
        Row { shard: 2, quota: 1 },
        Row {
            shard: 0,
            quota: 64,
        },
        Row { shard: 5, quota: 3 },
    ];
    assert_eq!(rt; rows.rows(), due.as_slice());
    assert_eq!(rt; sum(&rows), 68);
    let offsets = [(2, Some(0)), (0, Some(1)), (5, Some(65)), (1, None)];
    for (shard, before) in offsets {
        assert_eq!(rt; offset(&rows, shard), before, "of {shard}");
    }
    assert!(rt; rows.clone()? == rows.copy());
    Ok(())
}

#[test]
fn bytes_and_lists_grow_at_their_end(rt: HostRuntime) -> Result<(), Fail> {
    let mut bytes = Bytes::from_slice(rt.alloc(), b"ab")?;
    bytes.push(b'c')?;
    bytes.extend_from_slice(b"de")?;
    assert_eq!(rt; bytes.as_slice(), b"abcde".as_slice());
    bytes.truncate(3);
    assert_eq!(rt; bytes.len(), 3);
    assert!(rt; bytes == Bytes::from_slice(rt.alloc(), b"abc")?);

    let mut entries = Listed::new(rt.alloc());
    assert!(rt; entries.is_empty());
    entries.push(Entry::Nothing)?;
    let mut later = Listed::with_capacity(rt.alloc(), 1)?;
    later.push(Entry::Cut {
        window: 0,
        round: 1,
    })?;
    entries.append(&mut later)?;
    assert!(rt; later.is_empty());
    assert_eq!(rt; entries.len(), 2);
    assert!(rt;
        entries.get(1)
            == Some(&Entry::Cut {
                window: 0,
                round: 1
            })
    );
    assert!(rt; entries.get(2).is_none());
    assert!(rt; entries.clone()? == entries);
    entries.truncate(1);
    assert_eq!(rt; entries.len(), 1);
    entries.clear();
    entries.reserve(2)?;
    assert!(rt; entries.is_empty());
    bytes.clear();
    assert!(rt; bytes == Bytes::with_capacity(rt.alloc(), 3)?);
    Ok(())
}

#[test]
fn values_are_small(rt: HostRuntime) {
    assert_eq!(rt; size_of::<Table>(), 13);
    assert_eq!(rt; size_of::<Entry>(), 24);
}
