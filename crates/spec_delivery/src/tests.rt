use crate::{Buffer, Put};
use record_codec::{Body, Record};
use std::test::Fail;

#[test]
fn records_by_shard_and_local(rt: HostRuntime) -> Result<(), Fail> {
    let mut buffer = Buffer::new(rt.alloc())?;
    let first = Record::Data {
        client: 0,
        number: 0,
        body: Body::new(rt.alloc(), b"5")?,
    };
    let rows = [
        (0, 0, Put::Kept),
        (0, 0, Put::Again),
        (5, 639, Put::Kept),
        (5, 640, Put::Far),
        (1, 3, Put::Kept),
        (1, 4, Put::Kept),
    ];
    for (shard, local, answer) in rows {
        assert_eq!(rt; buffer.wants(shard, local), answer == Put::Kept);
        assert_eq!(rt;
            buffer.put(shard, local, &first)?,
            answer,
            "at {shard} {local}"
        );
    }
    assert!(rt; buffer.at(0, 0) == Some(&first));
    assert!(rt; buffer.at(0, 1).is_none());
    assert!(rt; buffer.at(2, 0).is_none());
    assert_eq!(rt; buffer.put(0, 0, &Record::Noop)?, Put::Again);
    assert!(rt; buffer.at(0, 0) == Some(&first));
    assert!(rt; buffer.wants(5, 638));
    Ok(())
}

#[test]
fn floors_and_ends(rt: HostRuntime) -> Result<(), Fail> {
    let mut buffer = Buffer::new(rt.alloc())?;
    for local in 0..4 {
        assert_eq!(rt; buffer.put(1, local, &Record::Noop)?, Put::Kept);
    }
    assert!(rt; buffer.at(1, 0).is_some());
    assert!(rt; buffer.floor(1) < 1_000);
    buffer.raise(1);
    assert_eq!(rt; buffer.floor(1), 1);
    assert!(rt; buffer.at(1, 0).is_none());
    assert_eq!(rt; buffer.put(1, 0, &Record::Noop)?, Put::Old);
    assert_eq!(rt; buffer.put(1, 640, &Record::Noop)?, Put::Kept);
    assert!(rt; buffer.wants(1, 4));
    assert!(rt; buffer.end(1).is_none());
    buffer.close(1, 3);
    assert!(rt; buffer.end(1) == Some(3));
    assert!(rt; buffer.end(2).is_none());
    assert!(rt; !buffer.wants(1, 4));
    assert!(rt; buffer.at(1, 2).is_some());
    assert!(rt; buffer.at(1, 3).is_none());
    assert!(rt; buffer.at(1, 640).is_none());
    assert_eq!(rt; buffer.put(1, 3, &Record::Noop)?, Put::Far);
    buffer.clear();
    assert!(rt; buffer.at(1, 2).is_none());
    assert_eq!(rt; buffer.put(1, 0, &Record::Noop)?, Put::Old);
    assert_eq!(rt; buffer.put(1, 2, &Record::Noop)?, Put::Kept);
    assert_eq!(rt; buffer.put(1, 3, &Record::Noop)?, Put::Far);
    assert_eq!(rt; buffer.floor(1), 1);
    Ok(())
}

#[test]
fn a_local_below_the_floor_and_past_the_end_is_old(rt: HostRuntime) -> Result<(), Fail> {
    let mut buffer = Buffer::new(rt.alloc())?;
    assert_eq!(rt; buffer.put(2, 0, &Record::Noop)?, Put::Kept);
    buffer.close(2, 0);
    assert!(rt; buffer.at(2, 0).is_none());
    assert_eq!(rt; buffer.put(2, 0, &Record::Noop)?, Put::Far);
    assert!(rt; buffer.floor(2) < 1_000);
    buffer.raise(2);
    assert_eq!(rt; buffer.put(2, 0, &Record::Noop)?, Put::Old);
    assert_eq!(rt; buffer.put(2, 1, &Record::Noop)?, Put::Far);
    Ok(())
}
