ghost use Rattle.std.specs.Prelude.{IfSome};
ghost use Rattle.record_codec.specs.Records.{IsValidRecord};

use super::*;
use quota_table::Bytes;
use std::alloc::Global;
use std::mem::size_of;
use std::test::*;

/// Client 0, number 0, the body `5`.
const FIVE: [u8; 16] = [1, 0, 0, 0, 0, 0, 0, 0, 0, 0, 0, 0, 0, 0, 1, 0x35];

fn five(alloc: Global) -> Option<Record>
    ensures { IfSome result IsValidRecord }
{
    let body = Body::new(alloc, b"5").ok()?;
    Some(Record::data(0, 0, body))
}

#[test]
fn records_are_spelled(rt: HostRuntime) -> Result<(), Fail> {
    let mut bytes = Bytes::new(rt.alloc());
    assert!(rt; encode(&Record::Noop, &mut bytes).is_ok());
    assert_eq!(rt; bytes.as_slice(), [0].as_slice());
    let five = five(rt.alloc()).ok_or("a body of one byte")?;
    assert!(rt; encode(&five, &mut bytes).is_ok());
    assert_eq!(rt; &bytes.as_slice()[1..], FIVE.as_slice());
    Ok(())
}

#[test]
fn records_are_read(rt: HostRuntime) -> Result<(), Fail> {
    let (rec, len) = decode(rt.alloc(), &FIVE).ok().ok_or("a record")?;
    let five = five(rt.alloc()).ok_or("a body of one byte")?;
    assert_eq!(rt; rec, five);
    assert_eq!(rt; len, 16);
    let (rec, len) = decode(rt.alloc(), &[0, 7])
        .ok()
        .ok_or("a record before a byte")?;
    assert_eq!(rt; rec, Record::Noop);
    assert_eq!(rt; len, 1);
    let last = [1, 0, 0, 0, 5, 0, 1, 0, 0, 0, 0, 0, 0, 0, 0];
    let (_, len) = decode(rt.alloc(), &last)
        .ok()
        .ok_or("the greatest client and number")?;
    assert_eq!(rt; len, 15);
    Ok(())
}

#[test]
fn faults_are_named_from_the_left(rt: HostRuntime) {
    let cases = [
        ([].as_slice(), DecodeError::Short),
        ([2].as_slice(), DecodeError::BadTag { tag: 2 }),
        (&FIVE[..4], DecodeError::Short),
        (&FIVE[..15], DecodeError::Short),
        ([1, 0, 0, 0, 6].as_slice(), DecodeError::BadField { at: 1 }),
        (
            [1, 0, 0, 0, 0, 0, 1, 0, 0, 0, 0, 0, 1].as_slice(),
            DecodeError::BadField { at: 5 },
        ),
        (
            [1, 0, 0, 0, 0, 0, 0, 0, 0, 0, 0, 0, 0, 4, 0].as_slice(),
            DecodeError::Short,
        ),
        (
            [1, 0, 0, 0, 0, 0, 0, 0, 0, 0, 0, 0, 0, 4, 1].as_slice(),
            DecodeError::BodyTooLong { len: 1025 },
        ),
    ];
    for (bytes, fault) in cases {
        assert_eq!(rt; decode(rt.alloc(), bytes).err(), Some(fault));
    }
}

fn goes_between_threads<T: Send + Sync + Drop>(_value: T) {}

#[test]
fn clones_have_the_same_bytes(rt: HostRuntime) -> Result<(), Fail> {
    let text = [7; MOST_BODY];
    for len in [0, 1, IN_PLACE, IN_PLACE + 1, MOST_BODY] {
        let body = Body::of(rt.alloc(), &text[..len])?;
        let copy = body.clone()?;
        assert!(rt; copy == body);
        drop(body);
        assert_eq!(rt; copy.as_slice(), &text[..len]);
        assert_eq!(rt; copy.len(), len);
        goes_between_threads(copy);
    }
    Ok(())
}

#[test]
fn values_are_small(rt: HostRuntime) {
    assert_eq!(rt; size_of::<Body>(), 16);
    assert_eq!(rt; size_of::<Record>(), 32);
}
