use super::*;
use quota_table::{Bytes, OutOfMemory};
use record_codec::Record;
use spec_base::{NodeId, Side};
use std::alloc::Global;
use std::mem::size_of;
use std::test::*;

/// The bytes of hexadecimal digits; all else is passed over.
fn unhex(alloc: Global, text: &str) -> Result<Bytes, OutOfMemory> {
    let mut bytes = Bytes::new(alloc);
    let mut high = None;
    for letter in text.as_bytes() {
        let digit = match *letter {
            b'0'..=b'9' => *letter - b'0',
            b'a'..=b'f' => *letter - b'a' + 10,
            _ => continue,
        };
        high = match high {
            None => Some(digit),
            Some(first) => {
                bytes.push(u8::wrapping_mul(first, 16).wrapping_add(digit))?;
                None
            }
        };
    }
    Ok(bytes)
}

/// What decoding the message of these digits answers, where it is an error.
fn fault(alloc: Global, text: &str) -> Option<WireError> {
    match unhex(alloc, text) {
        Ok(bytes) => decode(alloc, bytes.as_slice()).err(),
        Err(_) => Some(WireError::OutOfMemory),
    }
}

/// What decoding the items of these digits answers, where it is an error.
fn items_fault(alloc: Global, text: &str) -> Option<WireError> {
    match unhex(alloc, text) {
        Ok(bytes) => decode_items(alloc, bytes.as_slice()).err(),
        Err(_) => Some(WireError::OutOfMemory),
    }
}

const ACK: &str = "01 0100 0300 02 0000000000000000 0000000000000000";

#[test]
fn an_acknowledgement_is_spelled_and_read(rt: HostRuntime) -> Result<(), Fail> {
    let want = unhex(rt.alloc(), ACK).ok().ok_or("digits")?;
    let ack = Message {
        from: NodeId::Shard(0, Side::Primary),
        to: NodeId::Client(0),
        what: What::Ack {
            number: 0,
            position: 0,
        },
    };
    let mut bytes = Bytes::new(rt.alloc());
    assert!(rt; encode(&ack, &mut bytes).is_ok());
    assert_eq!(rt; bytes, want);
    let read = decode(rt.alloc(), want.as_slice()).ok().ok_or("a message")?;
    assert_eq!(rt; read, ack);
    Ok(())
}

#[test]
fn items_are_spelled_and_read(rt: HostRuntime) -> Result<(), Fail> {
    let mut bytes = Bytes::new(rt.alloc());
    assert!(rt;
        encode_items(
            &[Item::Acked, Item::Taken { rec: Record::Noop }],
            &mut bytes
        )
        .is_ok()
    );
    assert_eq!(rt; bytes.as_slice(), [7, 4, 0].as_slice());
    let items = decode_items(rt.alloc(), &[7]).ok().ok_or("an item")?;
    assert_eq!(rt; items.as_slice(), [Item::Acked].as_slice());
    let items = decode_items(rt.alloc(), bytes.as_slice())
        .ok()
        .ok_or("two items")?;
    assert_eq!(rt; items.len(), 2);
    Ok(())
}

#[test]
fn messages_end_where_they_end(rt: HostRuntime) {
    let cases = [
        ("", Some(WireError::Short)),
        (
            "01 0100 0300 02 0000000000000000 00000000000000",
            Some(WireError::Short),
        ),
        (
            "01 0100 0300 02 0000000000000000 0000000000000000 00",
            Some(WireError::Trailing { at: 22 }),
        ),
        ("02", Some(WireError::BadKind { at: 0 })),
        ("01 0100 0300 00", Some(WireError::BadKind { at: 5 })),
        ("01 0100 0300 11", Some(WireError::BadKind { at: 5 })),
        ("01 0004 0105 10 00000000", None),
        ("01 0205 0305 10 00000000", None),
        ("01 0403 0403 10 00000000", None),
        ("01 0500", Some(WireError::BadField { at: 1 })),
        ("01 0005", Some(WireError::BadField { at: 2 })),
        ("01 0000 0106", Some(WireError::BadField { at: 4 })),
        ("01 0000 0206", Some(WireError::BadField { at: 4 })),
        ("01 0000 0306", Some(WireError::BadField { at: 4 })),
        ("01 0000 0404", Some(WireError::BadField { at: 4 })),
    ];
    for (text, want) in cases {
        assert_eq!(rt; fault(rt.alloc(), text), want, "{text}");
    }
}

#[test]
fn fields_between_clients_and_replicas_have_bounds(rt: HostRuntime) {
    let cases = [
        (
            "01 0300 0100 01 0001000000000000 0001000000000000 0000",
            None,
        ),
        ("01 0300 0100 01 0001000000000001", Some(6)),
        (
            "01 0300 0100 01 0001000000000000 0001000000000001",
            Some(14),
        ),
        (
            "01 0300 0100 01 0000000000000000 0000000000000000 0401",
            Some(22),
        ),
        ("01 0100 0300 02 0001000000000000 0001000000000000", None),
        ("01 0100 0300 02 0001000000000001", Some(6)),
        (
            "01 0100 0300 02 0001000000000000 0001000000000001",
            Some(14),
        ),
        ("01 0300 0100 03 0001000000000000 0001000000000000", None),
        ("01 0300 0100 03 0001000000000001", Some(6)),
        (
            "01 0300 0100 03 0001000000000000 0001000000000001",
            Some(14),
        ),
        ("01 0100 0300 04 0001000000000000", None),
        ("01 0100 0300 04 0001000000000001", Some(6)),
        ("01 0100 0200 05 0001000000000000 00", None),
        (
            "01 0100 0200 05 0001000000000000 01 00000005 0001000000000000 0001 35",
            None,
        ),
        ("01 0100 0200 05 0001000000000001", Some(6)),
        ("01 0100 0200 05 0001000000000000 02", Some(14)),
        ("01 0100 0200 05 0001000000000000 01 00000006", Some(15)),
        (
            "01 0100 0200 05 0001000000000000 01 00000005 0001000000000001",
            Some(19),
        ),
        (
            "01 0100 0200 05 0001000000000000 01 00000005 0001000000000000 0401",
            Some(27),
        ),
        ("01 0200 0100 06 0001000000000000", None),
        ("01 0200 0100 06 0001000000000001", Some(6)),
        ("01 0200 0000 07 0001000000000000", None),
        ("01 0200 0000 07 0001000000000001", Some(6)),
        ("01 0000 0100 08 0001000000000000", None),
        ("01 0000 0100 08 0001000000000001", Some(6)),
        ("01 0100 0400 09 0001000000000000 00", None),
        ("01 0100 0400 09 0001000000000001", Some(6)),
        ("01 0100 0400 09 0001000000000000 02", Some(14)),
        ("01 0400 0100 0a 0001000000000000", None),
        ("01 0400 0100 0a 0001000000000001", Some(6)),
    ];
    for (text, at) in cases {
        let want = at.map(|at| WireError::BadField { at });
        assert_eq!(rt; fault(rt.alloc(), text), want, "{text}");
    }
}

#[test]
fn fields_of_sequencers_have_bounds(rt: HostRuntime) {
    let cases = [
        ("01 0000 0001 0b 000f423f 7fffffff", None),
        ("01 0000 0001 0b 000f4240", Some(6)),
        ("01 0000 0001 0b 000f423f 80000000", Some(10)),
        ("01 0000 0001 0c 000f423f 7fffffff 00", None),
        ("01 0000 0001 0c 000f423f 7fffffff 01 7fffffff 00", None),
        ("01 0000 0001 0c 000f423f 7fffffff 02", Some(14)),
        ("01 0000 0001 0c 000f423f 7fffffff 01 80000000", Some(15)),
        ("01 0000 0001 0c 000f423f 7fffffff 01 7fffffff 04", Some(19)),
        ("01 0000 0001 0d 000f423f 7fffffff 00", None),
        ("01 0000 0001 0d 000f4240", Some(6)),
        ("01 0000 0001 0d 000f423f 80000000", Some(10)),
        ("01 0000 0001 0d 00000000 00000000 01 000f4240 03ff", None),
        ("01 0000 0001 0d 00000000 00000000 01 000f4241", Some(15)),
        (
            "01 0000 0001 0d 00000000 00000000 01 000f4240 0400",
            Some(19),
        ),
        (
            "01 0000 0001 0d 00000000 00000000 02 000f4240 0400 01 0540",
            None,
        ),
        (
            "01 0000 0001 0d 00000000 00000000 02 000f4240 0001 06 000101010201030104010501",
            None,
        ),
        ("01 0000 0001 0d 00000000 00000000 02 000f4241", Some(15)),
        (
            "01 0000 0001 0d 00000000 00000000 02 00000000 0000",
            Some(19),
        ),
        (
            "01 0000 0001 0d 00000000 00000000 02 00000000 0401",
            Some(19),
        ),
        (
            "01 0000 0001 0d 00000000 00000000 02 00000000 0002 00",
            Some(21),
        ),
        (
            "01 0000 0001 0d 00000000 00000000 02 00000000 0002 07",
            Some(21),
        ),
        (
            "01 0000 0001 0d 00000000 00000000 02 00000000 0002 01 06",
            Some(22),
        ),
        (
            "01 0000 0001 0d 00000000 00000000 02 00000000 0002 01 0000",
            Some(23),
        ),
        (
            "01 0000 0001 0d 00000000 00000000 02 00000000 0002 01 0041",
            Some(23),
        ),
        (
            "01 0000 0001 0d 00000000 00000000 02 00000000 0002 02 00010001",
            Some(24),
        ),
        ("01 0000 0001 0d 00000000 00000000 03 000f4240 05", None),
        ("01 0000 0001 0d 00000000 00000000 03 000f4241", Some(15)),
        ("01 0000 0001 0d 00000000 00000000 03 000f4240 06", Some(19)),
        ("01 0001 0000 0e 000f423f 7fffffff", None),
        ("01 0001 0000 0e 000f4240", Some(6)),
        ("01 0001 0000 0e 000f423f 80000000", Some(10)),
        ("01 0000 0100 0f 000f423f 000f4240 00", None),
        ("01 0000 0100 0f 000f4240", Some(6)),
        ("01 0000 0100 0f 00000000 00000000", Some(10)),
        ("01 0000 0100 0f 00000000 000f4241", Some(10)),
        ("01 0000 0100 0f 00000000 00000001 04", Some(14)),
        ("01 0100 0000 10 000f423f", None),
        ("01 0100 0000 10 000f4240", Some(6)),
    ];
    for (text, at) in cases {
        let want = at.map(|at| WireError::BadField { at });
        assert_eq!(rt; fault(rt.alloc(), text), want, "{text}");
    }
}

#[test]
fn fields_of_items_have_bounds(rt: HostRuntime) {
    let cases = [
        ("", Some(WireError::Short)),
        ("00", Some(WireError::BadKind { at: 0 })),
        ("0a", Some(WireError::BadKind { at: 0 })),
        ("07 07 0a", Some(WireError::BadKind { at: 2 })),
        ("01 000f423f 7fffffff", None),
        ("01 000f4240", Some(WireError::BadField { at: 1 })),
        ("01 000f423f 80000000", Some(WireError::BadField { at: 5 })),
        ("02 000f423f 7fffffff 00", None),
        ("02 000f4240", Some(WireError::BadField { at: 1 })),
        ("02 000f423f 80000000", Some(WireError::BadField { at: 5 })),
        (
            "02 000f423f 7fffffff 04",
            Some(WireError::BadField { at: 9 }),
        ),
        ("03 00", None),
        ("03 04", Some(WireError::BadField { at: 1 })),
        ("04 00", None),
        ("04 02", Some(WireError::BadField { at: 1 })),
        ("05 01", None),
        ("05 40", None),
        ("05 00", Some(WireError::BadField { at: 1 })),
        ("05 41", Some(WireError::BadField { at: 1 })),
        ("06 0001 35", None),
        ("06 0400", Some(WireError::Short)),
        ("06 0401", Some(WireError::BadField { at: 1 })),
        ("07 07", None),
        ("08 05 0001000000000000", None),
        ("08 06", Some(WireError::BadField { at: 1 })),
        (
            "08 05 0001000000000001",
            Some(WireError::BadField { at: 2 }),
        ),
        ("09 00 01 35", None),
        ("09 00 40", Some(WireError::Short)),
        ("09 00 41", Some(WireError::BadField { at: 2 })),
        ("07 09 02", Some(WireError::BadField { at: 2 })),
    ];
    for (text, want) in cases {
        assert_eq!(rt; items_fault(rt.alloc(), text), want, "{text}");
    }
}

#[test]
fn a_step_is_used_again(rt: HostRuntime) -> Result<(), Fail> {
    let mut step = Step::new(rt.alloc());
    step.stable.push(Item::Acked)?;
    step.marks.push(Mark::Undo { first: 0 })?;
    step.sends.push(Message {
        from: NodeId::Client(0),
        to: NodeId::Seq(0),
        what: What::Learn { slot: 0 },
    })?;
    step.clear();
    assert_eq!(rt; step, Step::new(rt.alloc()));
    Ok(())
}

#[test]
fn values_are_small(rt: HostRuntime) {
    assert_eq!(rt; size_of::<What>(), 48);
    assert_eq!(rt; size_of::<Message>(), 56);
    assert_eq!(rt; size_of::<Mark>(), 48);
    assert_eq!(rt; size_of::<Event>(), 64);
}
