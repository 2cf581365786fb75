use crate::{Cell, Memory, Readings, Text, read_i128, read_scaled, write_i128};
use std::test::Fail;

#[test]
fn numbers(rt: HostRuntime) -> Result<(), Fail> {
    let alloc = rt.alloc();
    for (text, want) in [
        ("7", Some(7)),
        ("-0", Some(0)),
        ("-007", Some(-7)),
        ("170141183460469231731687303715884105727", Some(i128::MAX)),
        ("-170141183460469231731687303715884105727", Some(-i128::MAX)),
        ("170141183460469231731687303715884105728", None),
        ("-170141183460469231731687303715884105728", None),
        ("", None),
        ("-", None),
        ("--1", None),
        ("+7", None),
        (" 7", None),
        ("7 ", None),
        ("0x1", None),
        ("1.0", None),
    ] {
        assert_eq!(rt; read_i128(text.as_bytes()), want, "{text}");
    }
    for (v, want) in [
        (0, "a0"),
        (-12, "a-12"),
        (i128::MIN, "a-170141183460469231731687303715884105728"),
    ] {
        let mut into = Vec::from_slice(alloc, b"a")?;
        assert!(rt; write_i128(alloc, &mut into, v) == Ok(()));
        assert!(rt; into.as_slice() == want.as_bytes());
    }
    let text = Text::of(Vec::from_slice(alloc, b"ab")?);
    assert!(rt; text.as_slice() == b"ab".as_slice());
    let readings = Readings::of(Vec::from_slice(alloc, &[3, -4])?);
    assert!(rt; readings.as_slice() == [3, -4].as_slice());
    assert!(rt; Memory == Memory);
    Ok(())
}

#[test]
fn cells(rt: HostRuntime) {
    for (text, scale, want) in [
        ("21.53", 2, Cell::Value(2153)),
        (" 21.5 ", 2, Cell::Value(2150)),
        ("\t+7\t", 0, Cell::Value(7)),
        ("-0", 0, Cell::Value(0)),
        ("007", 0, Cell::Value(7)),
        ("1.0005", 3, Cell::Value(1001)),
        ("-0.005", 2, Cell::Value(-1)),
        ("-0.0049999", 2, Cell::Value(0)),
        ("2.5", 0, Cell::Value(3)),
        ("-2.5", 0, Cell::Value(-3)),
        ("0.000001", 6, Cell::Value(1)),
        ("1000000000", 0, Cell::Value(1_000_000_000)),
        ("-1000000000.4", 0, Cell::Value(-1_000_000_000)),
        ("1000000000.5", 0, Cell::TooLarge),
        ("10000000000", 0, Cell::TooLarge),
        ("1001", 6, Cell::TooLarge),
        (" \t", 0, Cell::Missing),
        ("", 0, Cell::Missing),
        (" NaN", 0, Cell::Missing),
        ("nan", 0, Cell::Missing),
        ("NA", 0, Cell::Missing),
        ("null", 0, Cell::Missing),
        ("NULL", 0, Cell::Bad),
        ("-NaN", 0, Cell::Bad),
        (".5", 0, Cell::Bad),
        ("5.", 0, Cell::Bad),
        ("- 5", 0, Cell::Bad),
        ("1 2", 0, Cell::Bad),
        ("+-1", 0, Cell::Bad),
        ("-", 0, Cell::Bad),
        ("0x1", 0, Cell::Bad),
        ("1e5", 0, Cell::Bad),
        ("1.2.3", 0, Cell::Bad),
    ] {
        assert!(rt; scale <= 6);
        assert_eq!(rt; read_scaled(text.as_bytes(), scale), want, "{text}");
    }
}
