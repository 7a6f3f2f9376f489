ghost use Rattle.std.specs.Prelude.{◌≡◌, ◌≤◌, length};

use crate::{Kept, OutputGate};
use record_codec::Output;
use std::process::Abort;
use std::test::Fail;

fn output(text: &[u8]) -> Output
    requires { length text.now ≤ 64 }
    ensures { result ≡ text.now }
{
    let mut out = Output::new();
    out.extend_from_slice(text);
    out
}

/// Whether these outputs were released, in order, each with its position.
fn gives(rt: &impl Abort, kept: &Kept, rows: &[(u64, &str)]) -> Result<(), Fail> {
    assert_eq!(rt; kept.as_slice().len(), rows.len());
    for (given, (position, text)) in kept.as_slice().iter().zip(rows) {
        assert_eq!(rt; given.position, *position);
        assert_eq!(rt; given.out.as_slice(), text.as_bytes(), "at {position}");
    }
    Ok(())
}

#[test]
fn releases_in_order(rt: HostRuntime) -> Result<(), Fail> {
    let mut gate = OutputGate::with_room(rt.alloc(), 4)?;
    let mut none = Kept::new();
    gate.release_below(9, &mut none);
    gives(&rt, &none, &[])?;
    gate.hold(5, output(b"a\n"));
    gate.hold(6, output(b""));
    gate.hold(7, output(b"c\n"));
    gate.hold(8, output(b"d\n"));
    gate.release_below(5, &mut none);
    gives(&rt, &none, &[])?;
    let mut three = Kept::new();
    gate.release_below(8, &mut three);
    gives(&rt, &three, &[(5, "a\n"), (6, ""), (7, "c\n")])?;
    gate.release_below(8, &mut three);
    gives(&rt, &three, &[(5, "a\n"), (6, ""), (7, "c\n")])?;
    let mut last = Kept::new();
    gate.release_below(9, &mut last);
    gives(&rt, &last, &[(8, "d\n")])
}

#[test]
fn drops_and_holds_again(rt: HostRuntime) -> Result<(), Fail> {
    let mut gate = OutputGate::with_room(rt.alloc(), 3)?;
    gate.drop_from(0);
    gate.hold(2, output(b"a\n"));
    gate.hold(3, output(b"b\n"));
    gate.hold(4, output(b"c\n"));
    gate.drop_from(5);
    gate.drop_from(3);
    gate.hold(3, output(b"B\n"));
    gate.hold(4, output(b"C\n"));
    let mut kept = Kept::new();
    gate.release_below(4, &mut kept);
    gives(&rt, &kept, &[(2, "a\n"), (3, "B\n")])?;
    gate.release_below(5, &mut kept);
    gives(&rt, &kept, &[(2, "a\n"), (3, "B\n"), (4, "C\n")])
}

#[test]
fn takes_the_oldest_alone(rt: HostRuntime) -> Result<(), Fail> {
    let mut gate = OutputGate::with_room(rt.alloc(), 2)?;
    gate.hold(5, output(b"a\n"));
    gate.hold(6, output(b"b\n"));
    assert!(rt; gate.take_oldest(5).is_none());
    for (position, text) in [(5, "a\n"), (6, "b\n")] {
        let Some(kept) = gate.take_oldest(7) else {
            return Err(Fail::new("no output"));
        };
        assert_eq!(rt; kept.position, position);
        assert_eq!(rt; kept.out.as_slice(), text.as_bytes());
    }
    assert!(rt; gate.take_oldest(7).is_none());
    Ok(())
}
