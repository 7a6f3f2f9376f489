use crate::{AnyApp, App, Bank, Kv, Tally};
use record_codec::{AppKind, Body, Record};
use std::alloc::Global;
use std::process::Abort;
use std::test::Fail;

/// Applies bodies, one after another, whose outputs and shown state are given, and takes them all back.
fn plays<A: App>(
    rt: &impl Abort,
    alloc: Global,
    app: &mut A,
    rows: &[(&str, &str)],
    shown: &str,
) -> Result<(), Fail> {
    let before = app.show();
    let mut undos = Vec::new(alloc);
    for (text, output) in rows {
        let body = Body::new(alloc, text.as_bytes())?;
        let rec = Record::Data {
            client: 0,
            number: 0,
            body,
        };
        let (undo, given) = app.apply(&rec);
        assert_eq!(rt; given.as_slice(), output.as_bytes(), "at {text}");
        undos.push(undo)?;
    }
    let (undo, given) = app.apply(&Record::Noop);
    assert!(rt; given.as_slice().is_empty());
    undos.push(undo)?;
    assert_eq!(rt; app.show().as_slice(), shown.as_bytes());
    for undo in undos.into_iter().rev() {
        app.revert(undo);
    }
    assert_eq!(rt; app.show().as_slice(), before.as_slice());
    Ok(())
}

#[test]
fn tally(rt: HostRuntime) -> Result<(), Fail> {
    let mut fresh = Tally::fresh(AppKind::Tally);
    assert_eq!(rt; fresh.show().as_slice(), b"sum 0 count 0".as_slice());
    let rows = [("5", "5\n"), ("x", "?\n"), ("7", "12\n")];
    plays(&rt, rt.alloc(), &mut fresh, &rows, "sum 12 count 2")?;
    let forms = [
        ("", "?\n"),
        ("-1", "?\n"),
        ("+1", "?\n"),
        ("1 ", "?\n"),
        ("1000000000", "?\n"),
        ("999999999", "999999999\n"),
        ("000000001", "1000000000\n"),
        ("0", "1000000000\n"),
    ];
    plays(
        &rt,
        rt.alloc(),
        &mut fresh,
        &forms,
        "sum 1000000000 count 3",
    )
}

#[test]
fn tally_at_its_bounds(rt: HostRuntime) -> Result<(), Fail> {
    let mut nearly_full = Tally::at(999_999_999_999_999_990, u64::MAX - 1);
    let rows = [
        ("11", "?\n"),
        ("9", "999999999999999999\n"),
        ("2", "?\n"),
        ("1", "1000000000000000000\n"),
        ("1", "?\n"),
        ("0", "1000000000000000000\n"),
    ];
    let shown = "sum 1000000000000000000 count 18446744073709551615";
    plays(&rt, rt.alloc(), &mut nearly_full, &rows, shown)
}

#[test]
fn bank(rt: HostRuntime) -> Result<(), Fail> {
    let mut fresh = Bank::fresh(AppKind::Bank);
    assert_eq!(rt; fresh.show().as_slice(), b"0 0 0 0 0 0 0 0".as_slice());
    let rows = [
        ("d 1 50", "ok\n"),
        ("t 1 2 60", "no\n"),
        ("t 1 2 20", "ok\n"),
    ];
    plays(&rt, rt.alloc(), &mut fresh, &rows, "0 30 20 0 0 0 0 0")?;
    let forms = [
        ("", "?\n"),
        ("d", "?\n"),
        ("d 1", "?\n"),
        ("d 8 1", "?\n"),
        ("d 01 1", "?\n"),
        ("d 1  1", "?\n"),
        ("d 1 1 ", "?\n"),
        (" d 1 1", "?\n"),
        ("d 1 x", "?\n"),
        ("d 1 1000000000000", "?\n"),
        ("t 1 2", "?\n"),
        ("t 1 2 3 4", "?\n"),
        ("t 1 9 0", "?\n"),
        ("t 8 1 0", "?\n"),
        ("t 1 2 1000000000000", "?\n"),
        ("d 1 ", "?\n"),
        ("x 1 1", "?\n"),
        ("D 1 1", "?\n"),
        ("d 0 000000000007", "ok\n"),
        ("t 7 0 0", "ok\n"),
    ];
    plays(&rt, rt.alloc(), &mut fresh, &forms, "7 0 0 0 0 0 0 0")
}

#[test]
fn bank_at_its_bounds(rt: HostRuntime) -> Result<(), Fail> {
    let full = 1_000_000_000_000_000;
    let mut rich = Bank::at([full, full - 1, 5, 0, 0, 0, 0, full]);
    let rows = [
        ("d 0 1", "no\n"),
        ("d 0 0", "ok\n"),
        ("d 1 2", "no\n"),
        ("d 1 1", "ok\n"),
        ("t 2 0 5", "no\n"),
        ("t 2 3 6", "no\n"),
        ("t 2 3 5", "ok\n"),
        ("t 3 3 5", "ok\n"),
        ("t 3 3 6", "no\n"),
        ("t 7 7 999999999999", "ok\n"),
        ("t 7 2 999999999999", "ok\n"),
    ];
    let shown = "1000000000000000 1000000000000000 999999999999 5 0 0 0 999000000000001";
    plays(&rt, rt.alloc(), &mut rich, &rows, shown)
}

#[test]
fn kv(rt: HostRuntime) -> Result<(), Fail> {
    let mut fresh = Kv::fresh(AppKind::Kv);
    assert_eq!(rt; fresh.show().as_slice(), b"keys 0".as_slice());
    let rows = [
        ("set a 1", "ok\n"),
        ("get a", "1\n"),
        ("del a", "ok\n"),
        ("get a", "-\n"),
    ];
    plays(&rt, rt.alloc(), &mut fresh, &rows, "keys 0")?;
    let forms = [
        ("", "?\n"),
        ("get", "?\n"),
        ("set a", "?\n"),
        ("set a b c", "?\n"),
        ("get a b", "?\n"),
        ("set  a b", "?\n"),
        ("set a b ", "?\n"),
        ("put a b", "?\n"),
        ("del", "?\n"),
        ("del a b", "?\n"),
        ("SET a b", "?\n"),
        (" get a", "?\n"),
        ("get 123456789", "?\n"),
        ("del 123456789", "?\n"),
        ("set 123456789 1", "?\n"),
        ("get caf\u{e9}", "?\n"),
        ("get \u{1f}", "?\n"),
        ("get \u{7f}", "?\n"),
        ("set a \u{7f}", "?\n"),
        ("get 12345678", "-\n"),
        ("set a 123456789012345678901234567890123", "?\n"),
        ("set 12345678 12345678901234567890123456789012", "ok\n"),
        ("get 12345678", "12345678901234567890123456789012\n"),
        ("set ! ~", "ok\n"),
        ("set ! x", "ok\n"),
        ("get !", "x\n"),
        ("del ~", "-\n"),
    ];
    plays(&rt, rt.alloc(), &mut fresh, &forms, "keys 2")
}

#[test]
fn kv_at_its_bounds(rt: HostRuntime) -> Result<(), Fail> {
    let mut full = Kv::fresh(AppKind::Kv);
    for letter in b"ABCDEFGHIJKLMNOPQRSTUVWXYZ123456" {
        let body = Body::new(rt.alloc(), &[b's', b'e', b't', b' ', *letter, b' ', b'v'])?;
        let rec = Record::Data {
            client: 0,
            number: 0,
            body,
        };
        let (_, given) = full.apply(&rec);
        assert_eq!(rt; given.as_slice(), b"ok\n".as_slice());
    }
    let rows = [
        ("set zz 1", "full\n"),
        ("set A 2", "ok\n"),
        ("get A", "2\n"),
        ("del B", "ok\n"),
        ("set zz 1", "ok\n"),
        ("set yy 1", "full\n"),
        ("del yy", "-\n"),
    ];
    plays(&rt, rt.alloc(), &mut full, &rows, "keys 32")?;
    let again = [("get A", "v\n"), ("get B", "v\n"), ("get zz", "-\n")];
    plays(&rt, rt.alloc(), &mut full, &again, "keys 32")
}

#[test]
fn any_app(rt: HostRuntime) -> Result<(), Fail> {
    let mut tally = AnyApp::fresh(AppKind::Tally);
    plays(
        &rt,
        rt.alloc(),
        &mut tally,
        &[("5", "5\n")],
        "sum 5 count 1",
    )?;
    let mut bank = AnyApp::fresh(AppKind::Bank);
    plays(
        &rt,
        rt.alloc(),
        &mut bank,
        &[("d 1 5", "ok\n")],
        "0 5 0 0 0 0 0 0",
    )?;
    let mut kv = AnyApp::fresh(AppKind::Kv);
    plays(&rt, rt.alloc(), &mut kv, &[("set a 1", "ok\n")], "keys 1")
}
