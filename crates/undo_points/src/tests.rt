use crate::UndoPoints;
use app_law::{App, Tally};
use record_codec::{AppKind, Body, Record};
use std::alloc::Global;
use std::test::Fail;

/// Applies a body, and gives what undoes it.
fn added(app: &mut Tally, alloc: Global, text: &str) -> Result<Tally, Fail> {
    let body = Body::new(alloc, text.as_bytes())?;
    let rec = Record::Data {
        client: 0,
        number: 0,
        body,
    };
    let (undo, _) = app.apply(&rec);
    Ok(undo)
}

#[test]
fn goes_back_and_forgets(rt: HostRuntime) -> Result<(), Fail> {
    let mut app = Tally::fresh(AppKind::Tally);
    let mut first = UndoPoints::with_room(rt.alloc(), 3)?;
    assert_eq!(rt; first.len(), 0);
    first.back_to(0, &mut app);
    assert_eq!(rt; app.show().as_slice(), b"sum 0 count 0".as_slice());
    let body = Body::new(rt.alloc(), b"5")?;
    let (undo, _) = app.apply(&Record::Data {
        client: 0,
        number: 0,
        body,
    });
    let mut points = UndoPoints::with_room(rt.alloc(), 1)?;
    points.push(4, undo);
    assert_eq!(rt; points.len(), 1);
    points.forget_below(4);
    assert_eq!(rt; points.len(), 1);
    points.back_to(5, &mut app);
    assert_eq!(rt; app.show().as_slice(), b"sum 5 count 1".as_slice());
    points.back_to(4, &mut app);
    assert_eq!(rt; app.show().as_slice(), b"sum 0 count 0".as_slice());
    assert_eq!(rt; points.len(), 0);
    Ok(())
}

#[test]
fn goes_back_over_several(rt: HostRuntime) -> Result<(), Fail> {
    let mut app = Tally::fresh(AppKind::Tally);
    let mut points = UndoPoints::with_room(rt.alloc(), 3)?;
    points.push(4, added(&mut app, rt.alloc(), "5")?);
    points.push(5, added(&mut app, rt.alloc(), "7")?);
    points.push(6, added(&mut app, rt.alloc(), "30")?);
    points.back_to(7, &mut app);
    assert_eq!(rt; app.show().as_slice(), b"sum 42 count 3".as_slice());
    points.back_to(5, &mut app);
    assert_eq!(rt; app.show().as_slice(), b"sum 5 count 1".as_slice());
    assert_eq!(rt; points.len(), 1);
    points.forget_below(5);
    assert_eq!(rt; points.len(), 0);
    points.back_to(0, &mut app);
    assert_eq!(rt; app.show().as_slice(), b"sum 5 count 1".as_slice());
    Ok(())
}
