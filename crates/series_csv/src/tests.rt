use crate::{CsvErr, read_column};
use std::test::Fail;

#[test]
fn columns(rt: HostRuntime) -> Result<(), Fail> {
    let alloc = rt.alloc();
    let none: &[i32] = &[];
    for (text, column, scale, want) in [
        (
            "\u{FEFF}t,temp\r\n0,21.53\r\n1, 21.5 \r\n2,\r\n3,NaN\r\n4,-0.005\r\n",
            "temp",
            2,
            Ok([2153, 2150, 2150, 2150, -1].as_slice()),
        ),
        (
            "v\n4\nNA\n5\nnull\n6\n",
            "v",
            0,
            Ok([4, 4, 5, 5, 6].as_slice()),
        ),
        ("t,v\n0,\n", "v", 0, Err(CsvErr::MissingFirst(1))),
        ("v\n1\n2\n1e5\n", "v", 0, Err(CsvErr::Bad(3))),
        ("v\n10000000000\n", "v", 0, Err(CsvErr::TooLarge(1))),
        ("v\n+7\n-0\n007\n", "v", 0, Ok([7, 0, 7].as_slice())),
        ("v\n\"7\"\n\n8", "v", 0, Ok([7, 8].as_slice())),
        ("\nv\n\n\n7\n\n8", "v", 0, Ok([7, 8].as_slice())),
        ("v\n\"1\"\"2\"\n", "v", 0, Err(CsvErr::Bad(1))),
        ("\"a\"\"b\",v\n1,2\n", "a\"b", 0, Ok([1].as_slice())),
        ("a,v\n1,2\n3\n", "v", 0, Err(CsvErr::Short(2))),
        ("a,v\n1,2,x\n", "v", 0, Ok([2].as_slice())),
        ("v,v\n1,2\n", "v", 0, Ok([1].as_slice())),
        ("v\n", "v", 0, Ok(none)),
        ("v\n1\n", "w", 0, Err(CsvErr::NoColumn)),
        ("", "v", 0, Err(CsvErr::NoHeader)),
    ] {
        assert!(rt; text.len() <= 67_108_864);
        assert!(rt; scale <= 6);
        match read_column(alloc, text.as_bytes(), column.as_bytes(), scale, None) {
            Ok(readings) => assert!(rt; want == Ok(readings.as_slice())),
            Err(e) => assert!(rt; want == Err(e)),
        }
    }
    // The reading before the first is repeated too.
    match read_column(alloc, b"v\nnan\n6\n", b"v", 0, Some(-5)) {
        Ok(readings) => assert!(rt; readings.as_slice() == [-5, 6].as_slice()),
        Err(_) => assert!(rt; false),
    }
    Ok(())
}

#[test]
fn the_longest(rt: HostRuntime) -> Result<(), Fail> {
    let alloc = rt.alloc();
    let mut text = Vec::from_slice(alloc, b"t,v\n")?;
    for _ in 0..1_048_576 {
        text.extend_from_slice(b",1\n")?;
    }
    assert!(rt; text.len() <= 67_108_864);
    match read_column(alloc, &text, b"v", 0, None) {
        Ok(readings) => assert_eq!(rt; readings.len(), 1_048_576),
        Err(_) => assert!(rt; false),
    }
    // One record more, which is too short as well.
    text.extend_from_slice(b"x\n")?;
    assert!(rt; text.len() <= 67_108_864);
    match read_column(alloc, &text, b"v", 0, None) {
        Ok(_) => assert!(rt; false),
        Err(e) => assert_eq!(rt; e, CsvErr::TooLong(1_048_577)),
    }
    Ok(())
}
