use super::ByNumber;
use std::test::Fail;

#[test]
fn keeps_values_by_number_with_and_without_gaps(rt: HostRuntime) -> Result<(), Fail> {
    let alloc = rt.alloc();
    let mut values = ByNumber::new(alloc);
    for (number, value) in [
        (1, 'b'),
        (0, 'a'),
        (9, 'x'),
        (3, 'd'),
        (9, 'y'),
        (2, 'c'),
        (0, 'z'),
    ] {
        values.put(number, value)?;
    }
    assert_eq!(rt; values.get(0), Some('z'));
    assert_eq!(rt; values.get(3), Some('d'));
    assert_eq!(rt; values.get(4), None);
    assert_eq!(rt; values.get(9), Some('y'));
    let rows = values.rows(alloc)?;
    let want = [(0, 'z'), (1, 'b'), (2, 'c'), (3, 'd'), (9, 'y')];
    assert_eq!(rt; rows.as_slice(), want.as_slice());
    Ok(())
}
