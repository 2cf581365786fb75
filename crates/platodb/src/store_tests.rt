// Runs of the commands on stores, over files in memory.

use crate::tests::{ALTERNATING, words_of};
use outside::{Bytes, MemOut, MemShelf};
use query_cli::{Status, run};
use std::alloc::Global;
use std::collections::BTreeMap;
use std::process::Abort;
use std::test::Fail;

const TWENTY: &[u8] = b"v\n0\n10\n0\n10\n0\n10\n0\n10\n0\n10\n0\n10\n0\n10\n0\n10\n0\n10\n0\n10\n";

const TWELVE: &[u8] = b"v\n0\n10\n0\n10\n0\n10\n0\n10\n0\n10\n0\n10\n";

// A shelf with these files.
pub(crate) fn shelf_with(
    alloc: Global,
    files: &[(&str, &[u8])],
    failing_reads: &[u64],
    failing_replaces: &[u64],
) -> Result<MemShelf, Fail> {
    let mut held = BTreeMap::new(alloc);
    for (name, bytes) in files {
        held.insert(
            String::from_str(alloc, name)?,
            Bytes::of(bytes.to_vec(alloc)?),
        )?;
    }
    Ok(MemShelf::new(
        alloc,
        held,
        failing_reads.to_vec(alloc)?,
        failing_replaces.to_vec(alloc)?,
    ))
}

// Runs each line over the shelf, and compares what it writes and the number of its status.
pub(crate) fn says(
    rt: &impl Abort,
    alloc: Global,
    shelf: &mut MemShelf,
    lines: &[(&str, &str, u8)],
) -> Result<(), Fail> {
    for (line, written, number) in lines {
        let mut out = MemOut::new(alloc, Vec::new(alloc));
        let words = words_of(alloc, line)?;
        let status = run(alloc, &words, shelf, &mut out);
        assert!(rt; out.bytes() == written.as_bytes(), "at {line}");
        assert!(rt; status.number() == *number, "at {line}");
    }
    Ok(())
}

#[test]
fn loads_series(rt: HostRuntime) -> Result<(), Fail> {
    let alloc = rt.alloc();
    let files = [("a.csv", ALTERNATING), ("b.csv", TWENTY)];
    let mut shelf = shelf_with(alloc, &files, &[], &[])?;
    says(
        &rt,
        alloc,
        &mut shelf,
        &[("check s", "absent s\n", 6), ("new s 2 0", "new\n", 0)],
    )?;
    assert!(rt; shelf.file("s") == Some(b"PLAT\x01\x02\x00\x00".as_slice()));
    says(
        &rt,
        alloc,
        &mut shelf,
        &[
            ("check s", "ok 0 0\n", 0),
            ("load s x b.csv v", "loaded x 20\n", 0),
            ("load s x b.csv w", "series exists x\n", 10),
            ("load s y a.csv w", "csv no column\n", 8),
            ("load s y a.csv v", "loaded y 32\n", 0),
            ("load t y c.csv v", "absent t\n", 6),
            ("load s y c.csv v", "absent c.csv\n", 6),
            ("check s", "ok 2 52\n", 0),
            ("check a.csv", "store bad header 0\n", 9),
            ("load s sum a.csv v", "usage fault\n", 2),
            ("new s 7 0", "usage fault\n", 2),
            ("new s 0 3", "usage fault\n", 2),
            ("check ", "usage fault\n", 2),
            ("query s", "usage fault\n", 2),
            ("new s 0 2", "new\n", 0),
            ("check s", "ok 0 0\n", 0),
        ],
    )
}

#[test]
fn loads_at_most_sixteen(rt: HostRuntime) -> Result<(), Fail> {
    let alloc = rt.alloc();
    let mut shelf = shelf_with(alloc, &[("a.csv", b"v\n7\n")], &[], &[])?;
    says(&rt, alloc, &mut shelf, &[("new s 0 0", "new\n", 0)])?;
    for k in 10..26u32 {
        let line = format!(in alloc; "load s x{k} a.csv v")?;
        let written = format!(in alloc; "loaded x{k} 1\n")?;
        says(
            &rt,
            alloc,
            &mut shelf,
            &[(line.as_str(), written.as_str(), 0)],
        )?;
    }
    says(
        &rt,
        alloc,
        &mut shelf,
        &[
            ("load s x26 a.csv v", "series too many\n", 10),
            ("load s x25 a.csv v", "series exists x25\n", 10),
            ("gen s x26 1 0", "series too many\n", 10),
            ("gen s x25 1 0", "series exists x25\n", 10),
            ("check s", "ok 16 16\n", 0),
        ],
    )
}

// Behind a series of the greatest length there is room for no reading, and none is no reading too many.
#[test]
fn appends_up_to_the_limit(rt: HostRuntime) -> Result<(), Fail> {
    let alloc = rt.alloc();
    let mut column = b"v\n".to_vec(alloc)?;
    for _ in 0..1_048_576u32 {
        column.extend_from_slice(b"1\n")?;
    }
    let files = [
        ("a.csv", column.as_slice()),
        ("one.csv", b"v\n1\n".as_slice()),
        ("none.csv", b"v\n".as_slice()),
    ];
    let mut shelf = shelf_with(alloc, &files, &[], &[])?;
    says(
        &rt,
        alloc,
        &mut shelf,
        &[
            ("new s 0 0", "new\n", 0),
            ("load s x a.csv v", "loaded x 1048576\n", 0),
            ("append s x one.csv v", "series too long x\n", 10),
            ("append s x none.csv v", "appended x 0 1048576\n", 0),
        ],
    )
}

// The bytes of the store of scale 0 and degree 0 with the one series `x`, 0 and 10 in turn.
pub(crate) fn turns(rt: &impl Abort, alloc: Global) -> Result<Vec<u8>, Fail> {
    let mut shelf = shelf_with(alloc, &[("a.csv", ALTERNATING)], &[], &[])?;
    says(
        rt,
        alloc,
        &mut shelf,
        &[
            ("new s 0 0", "new\n", 0),
            ("load s x a.csv v", "loaded x 32\n", 0),
        ],
    )?;
    let bytes = shelf.file("s").ok_or("a store")?;
    Ok(bytes.to_vec(alloc)?)
}

#[test]
fn appends_readings(rt: HostRuntime) -> Result<(), Fail> {
    let alloc = rt.alloc();
    let whole = turns(&rt, alloc)?;
    let files = [
        ("b.csv", TWENTY),
        ("c.csv", TWELVE),
        ("none.csv", b"v\n".as_slice()),
    ];
    let mut shelf = shelf_with(alloc, &files, &[], &[3])?;
    says(
        &rt,
        alloc,
        &mut shelf,
        &[
            ("new s 0 0", "new\n", 0),
            ("load s x b.csv v", "loaded x 20\n", 0),
            ("append s x c.csv v", "replace fault\n", 4),
            ("check s", "ok 1 20\n", 0),
            ("append s x c.csv v", "appended x 12 32\n", 0),
        ],
    )?;
    assert!(rt; shelf.file("s") == Some(whole.as_slice()));
    says(
        &rt,
        alloc,
        &mut shelf,
        &[
            ("append s x none.csv v", "appended x 0 32\n", 0),
            ("append s z c.csv w", "series unknown z\n", 10),
            ("append s x c.csv w", "csv no column\n", 8),
            ("append t x d.csv v", "absent t\n", 6),
            ("append c.csv x d.csv v", "absent d.csv\n", 6),
            ("append c.csv x c.csv v", "store bad header 0\n", 9),
            ("append s sum c.csv v", "usage fault\n", 2),
        ],
    )?;
    assert!(rt; shelf.file("s") == Some(whole.as_slice()));
    Ok(())
}

// A missing first cell repeats the last reading of the series, and one of a series without readings is refused.
#[test]
fn appends_behind_the_last(rt: HostRuntime) -> Result<(), Fail> {
    let alloc = rt.alloc();
    let files = [
        ("seven.csv", b"v\n7\n".as_slice()),
        ("more.csv", b"t,v\n0,\n1,5\n".as_slice()),
        ("all.csv", b"v\n7\n7\n5\n".as_slice()),
        ("none.csv", b"v\n".as_slice()),
    ];
    let mut shelf = shelf_with(alloc, &files, &[], &[])?;
    says(
        &rt,
        alloc,
        &mut shelf,
        &[
            ("new s 0 0", "new\n", 0),
            ("load s x seven.csv v", "loaded x 1\n", 0),
            ("append s x more.csv v", "appended x 2 3\n", 0),
            ("new t 0 0", "new\n", 0),
            ("load t x all.csv v", "loaded x 3\n", 0),
            ("new u 0 0", "new\n", 0),
            ("load u x none.csv v", "loaded x 0\n", 0),
            ("append u x more.csv v", "csv missing first 1\n", 8),
        ],
    )?;
    assert!(rt; shelf.file("s").is_some());
    assert!(rt; shelf.file("s") == shelf.file("t"));
    Ok(())
}

#[test]
fn checks_bytes(rt: HostRuntime) -> Result<(), Fail> {
    let alloc = rt.alloc();
    let bytes = turns(&rt, alloc)?;
    assert_eq!(rt; bytes.len(), 310);
    let short = bytes.get(..309).ok_or("a part")?;
    let mut long = bytes.as_slice().to_vec(alloc)?;
    long.push(0)?;
    // The last three bytes of the root's `l`, which is 160 * 2 ^ 14.
    let l = bytes.get(51..54).ok_or("the root's l")?;
    assert!(rt; l == [0x28, 0, 0].as_slice());
    let mut lower = bytes.get(..51).ok_or("a part")?.to_vec(alloc)?;
    lower.extend_from_slice(&[0x27, 0xFF, 0xFF])?;
    lower.extend_from_slice(bytes.get(54..).ok_or("a part")?)?;
    let files = [
        ("whole", bytes.as_slice()),
        ("short", short),
        ("long", long.as_slice()),
        ("lower", lower.as_slice()),
    ];
    let mut shelf = shelf_with(alloc, &files, &[], &[])?;
    says(
        &rt,
        alloc,
        &mut shelf,
        &[
            ("check whole", "ok 1 32\n", 0),
            ("check short", "store bad header 14\n", 9),
            ("check long", "store bad header 14\n", 9),
            ("check lower", "store bad node x 0 32\n", 9),
        ],
    )
}

// A failing call is answered as its fault, and the files stay.
#[test]
fn failing_calls(rt: HostRuntime) -> Result<(), Fail> {
    let alloc = rt.alloc();
    let mut shelf = shelf_with(alloc, &[("a.csv", ALTERNATING)], &[1, 5], &[1, 3])?;
    says(
        &rt,
        alloc,
        &mut shelf,
        &[
            ("new s 0 0", "replace fault\n", 4),
            ("check s", "read fault\n", 3),
            ("check s", "absent s\n", 6),
            ("new s 0 0", "new\n", 0),
            ("load s x a.csv v", "replace fault\n", 4),
            ("check s", "read fault\n", 3),
            ("check s", "ok 0 0\n", 0),
            ("load s x a.csv v", "loaded x 32\n", 0),
        ],
    )
}

// A refusal stands before the faults of the calls behind it, which are not made.
#[test]
fn refusals_before_faults(rt: HostRuntime) -> Result<(), Fail> {
    let alloc = rt.alloc();
    let mut shelf = shelf_with(alloc, &[("a.csv", ALTERNATING)], &[2, 4], &[])?;
    says(
        &rt,
        alloc,
        &mut shelf,
        &[
            ("load t x a.csv v", "absent t\n", 6),
            ("query s 0 sum(x", "query at 5\n", 11),
            ("query s 0 1", "read fault\n", 3),
            ("new s 0 0", "new\n", 0),
            ("load s x a.csv v", "read fault\n", 3),
            ("load s x a.csv v", "loaded x 32\n", 0),
        ],
    )
}

// A load whose line is cut off was done whole.
#[test]
fn failing_put(rt: HostRuntime) -> Result<(), Fail> {
    let alloc = rt.alloc();
    let mut shelf = shelf_with(alloc, &[("a.csv", ALTERNATING)], &[], &[])?;
    says(&rt, alloc, &mut shelf, &[("new s 0 0", "new\n", 0)])?;
    let mut out = MemOut::new(alloc, [(1, 3)].to_vec(alloc)?);
    let words = words_of(alloc, "load s x a.csv v")?;
    let status = run(alloc, &words, &mut shelf, &mut out);
    assert!(rt; out.bytes() == b"loa".as_slice());
    assert!(rt; status == Status::OutFault);
    says(&rt, alloc, &mut shelf, &[("check s", "ok 1 32\n", 0)])
}
