ghost use Rattle.std.specs.Prelude.{ℕ, ◌≡◌, ◌≤◌, ◌<◌, ◌^◌};

use crate::log::data;
use crate::{Appended, Grown, ShardLog};
use record_codec::{Body, BodyError, Record};
use std::alloc::Global;
use std::process::Abort;
use std::test::Fail;

/// Appends and repeats of the large test.
const MANY: u64 = 200_000;

/// A log is shorter than this where a client's record is offered, and no record's number is above it.
const LIMIT: u64 = 1 << 48;

fn five(alloc: Global) -> Result<Body, BodyError> {
    Body::new(alloc, b"5")
}

#[test]
fn answers_follow_the_log(rt: HostRuntime) -> Result<(), Fail> {
    let alloc = rt.alloc();
    let mut log = ShardLog::new(alloc);
    assert_eq!(rt;
        log.append_from(0, 0, 0, five(alloc)?)?,
        Appended::Taken { local: 0 }
    );
    assert_eq!(rt;
        log.append_from(0, 0, 0, five(alloc)?)?,
        Appended::Duplicate { local: 0 }
    );
    assert_eq!(rt;
        log.append_from(0, 0, 2, five(alloc)?)?,
        Appended::Gap { expected: 1 }
    );
    assert_eq!(rt;
        log.append_from(1, 4, 4, Body::new(alloc, b"7")?)?,
        Appended::Taken { local: 1 }
    );
    assert_eq!(rt; log.append_at(5, Record::Noop)?, Grown::Stays { len: 2 });
    assert_eq!(rt; log.next_of(1, 2), Some(5));
    assert_eq!(rt; log.next_of(1, 1), None);
    assert_eq!(rt; log.append_noop()?, 2);
    assert_eq!(rt; log.append_at(3, Record::Noop)?, Grown::Grown { len: 4 });
    assert_eq!(rt; log.len(), 4);
    assert!(rt;
        log.get(1)
            == Some(&Record::Data {
                client: 1,
                number: 4,
                body: Body::new(alloc, b"7")?
            })
    );
    assert!(rt; log.get(4).is_none());
    Ok(())
}

#[test]
fn answers_name_the_first_local_and_the_last_number(rt: HostRuntime) -> Result<(), Fail> {
    let alloc = rt.alloc();
    let mut log = ShardLog::new(alloc);
    for (len, client, number) in [
        (1, 0, 5),
        (2, 0, 3),
        (3, 1, 5),
        (4, 0, 5),
        (5, 1, 281_474_976_710_656),
        (6, 0, 4),
    ] {
        assert!(rt; client <= 5);
        assert!(rt; number <= LIMIT);
        assert_eq!(rt;
            log.append_at(log.len(), data(client, number, five(alloc)?))?,
            Grown::Grown { len }
        );
    }
    for (client, number, local) in [
        (0, 5, Some(0)),
        (0, 3, Some(1)),
        (0, 4, Some(5)),
        (1, 5, Some(2)),
        (1, 3, None),
        (2, 5, None),
    ] {
        assert!(rt; client <= 5);
        assert_eq!(rt;
            log.local_of(client, number),
            local,
            "client {client}, number {number}"
        );
    }
    for (client, end, next) in [
        (0, 0, None),
        (0, 1, Some(6)),
        (0, 2, Some(4)),
        (0, 3, Some(4)),
        (0, 4, Some(6)),
        (0, 6, Some(5)),
        (0, 1000, Some(5)),
        (1, 2, None),
        (1, 4, Some(6)),
        (1, 5, Some(281_474_976_710_657)),
        (5, 6, None),
    ] {
        assert!(rt; client <= 5);
        assert_eq!(rt;
            log.next_of(client, end),
            next,
            "client {client}, end {end}"
        );
    }
    assert!(rt; log.len() < LIMIT);
    assert_eq!(rt;
        log.append_from(0, 0, 3, five(alloc)?)?,
        Appended::Duplicate { local: 1 }
    );
    assert!(rt; log.len() < LIMIT);
    assert_eq!(rt;
        log.append_from(0, 0, 6, five(alloc)?)?,
        Appended::Gap { expected: 5 }
    );
    assert!(rt; log.len() < LIMIT);
    assert_eq!(rt;
        log.append_from(0, 0, 5, five(alloc)?)?,
        Appended::Taken { local: 6 }
    );
    assert_eq!(rt; log.local_of(0, 5), Some(0));
    Ok(())
}

/// The client and the number of the large test's append at this local: six clients in turn, client c from 10 c on.
fn turn(local: u64) -> (u32, u64)
    ensures client { result.0 ≤ 5 }
    ensures number { local ≤ 200000 → result.1 ≤ 200050 }
{
    let client = local % 6;
    (client as u32, 10 * client + local / 6)
}

#[test]
fn many_calls_end_in_time(rt: HostRuntime) -> Result<(), Fail> {
    let alloc = rt.alloc();
    let mut log = ShardLog::new(alloc);
    for local in 0..MANY {
        let (client, number) = turn(local);
        let first = 10 * u64::from(client);
        assert!(rt; log.len() < LIMIT);
        assert_eq!(rt;
            log.append_from(client, first, number, five(alloc)?)?,
            Appended::Taken { local }
        );
    }
    for local in 0..MANY {
        let (client, number) = turn(local);
        assert!(rt; log.len() < LIMIT);
        assert_eq!(rt;
            log.append_from(client, 0, number, five(alloc)?)?,
            Appended::Duplicate { local }
        );
    }
    for local in 0..MANY {
        let (client, number) = turn(local);
        assert_eq!(rt; log.local_of(client, number), Some(local));
        assert_eq!(rt; log.next_of(client, local + 1), Some(number + 1));
    }
    assert!(rt; log.len() < LIMIT);
    assert_eq!(rt;
        log.append_from(0, 0, MANY, five(alloc)?)?,
        Appended::Gap { expected: 33_334 }
    );
    assert_eq!(rt; log.len(), MANY);
    Ok(())
}
