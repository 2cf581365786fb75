// Runs in which a call of the shelf or of the output fails, runs over damaged stores, and hostile texts.

use crate::cert_tests::SUM;
use crate::store_tests::{says, shelf_with, turns};
use crate::tests::{ALTERNATING, words_of};
use outside::{MemOut, MemShelf};
use query_cli::{Status, run};
use std::alloc::Global;
use std::process::Abort;
use std::test::Fail;

// More calls than a run makes.
const MANY_CALLS: u64 = 100;

// A line of each command over the store `s` of the series `x`, what it writes, how many files it reads, and how many it
// replaces.
const LINES: [(&str, &str, u64, u64); 9] = [
    ("once a.csv v 0 320 0 32", "0 320 320 1 0\n", 1, 0),
    ("new s 0 0", "new\n", 0, 1),
    ("load s y a.csv v", "loaded y 32\n", 2, 1),
    ("append s x a.csv v", "appended x 32 64\n", 2, 1),
    ("check s", "ok 1 32\n", 1, 0),
    ("query s 320 sum(x)", "0 320 320 1 0\n", 1, 0),
    ("prove s 319 sum(x,0,32)", SUM, 1, 0),
    ("verify s c", "holds\n", 2, 0),
    (
        "gen s g 1 0",
        "gen g 1\n-108 -108 0 1 0\n11664 11664 0 1 0\n",
        1,
        1,
    ),
];

// A run of the line over the store `s` and the column `a.csv`, with the numbers of the calls that fail.
fn ran(
    alloc: Global,
    store: &[u8],
    line: &str,
    reads: &[u64],
    replaces: &[u64],
    puts: &[(u64, u64)],
) -> Result<(Status, MemShelf, MemOut), Fail> {
    let files = [("s", store), ("a.csv", ALTERNATING), ("c", SUM.as_bytes())];
    let mut shelf = shelf_with(alloc, &files, reads, replaces)?;
    let mut out = MemOut::new(alloc, puts.to_vec(alloc)?);
    let words = words_of(alloc, line)?;
    let status = run(alloc, &words, &mut shelf, &mut out);
    Ok((status, shelf, out))
}

// Each reading call fails in turn, until a run meets no failing call. It is answered as its fault, and the store stays.
#[test]
fn each_read_fails(rt: HostRuntime) -> Result<(), Fail> {
    let alloc = rt.alloc();
    let store = turns(&rt, alloc)?;
    for (line, written, files, _) in LINES {
        let mut met = 0;
        for call in 1..MANY_CALLS {
            let (status, shelf, out) = ran(alloc, &store, line, &[call], &[], &[])?;
            if status == Status::Ok {
                assert!(rt; out.bytes() == written.as_bytes(), "at {line}");
                break;
            }
            assert!(rt; status == Status::ReadFault, "at {line}");
            assert!(rt; out.bytes() == b"read fault\n".as_slice(), "at {line}");
            assert!(rt; shelf.file("s") == Some(store.as_slice()), "at {line}");
            met = call;
        }
        assert!(rt; files <= met && met < MANY_CALLS - 1, "at {line}");
        assert!(rt; files > 0 || met == 0, "at {line}");
    }
    Ok(())
}

// The same with each replacing call.
#[test]
fn each_replace_fails(rt: HostRuntime) -> Result<(), Fail> {
    let alloc = rt.alloc();
    let store = turns(&rt, alloc)?;
    for (line, written, _, replaced) in LINES {
        let mut met = 0;
        for call in 1..MANY_CALLS {
            let (status, shelf, out) = ran(alloc, &store, line, &[], &[call], &[])?;
            if status == Status::Ok {
                assert!(rt; out.bytes() == written.as_bytes(), "at {line}");
                break;
            }
            assert!(rt; status == Status::ReplaceFault, "at {line}");
            assert!(rt; out.bytes() == b"replace fault\n".as_slice(), "at {line}");
            assert!(rt; shelf.file("s") == Some(store.as_slice()), "at {line}");
            met = call;
        }
        assert_eq!(rt; met, replaced, "at {line}");
    }
    Ok(())
}

// The same with each put, after three bytes of its piece. What the line says was done whole.
#[test]
fn each_put_fails(rt: HostRuntime) -> Result<(), Fail> {
    let alloc = rt.alloc();
    let store = turns(&rt, alloc)?;
    for (line, written, _, replaced) in LINES {
        let (status, steady, _) = ran(alloc, &store, line, &[], &[], &[])?;
        assert!(rt; status == Status::Ok, "at {line}");
        assert!(rt;
            (steady.file("s") == Some(store.as_slice())) == (replaced == 0),
            "at {line}"
        );
        let mut met = 0;
        for call in 1..MANY_CALLS {
            let (status, shelf, out) = ran(alloc, &store, line, &[], &[], &[(call, 3)])?;
            assert!(rt; shelf.file("s") == steady.file("s"), "at {line}");
            if status == Status::Ok {
                assert!(rt; out.bytes() == written.as_bytes(), "at {line}");
                break;
            }
            assert!(rt; status == Status::OutFault, "at {line}");
            assert!(rt;
                Some(out.bytes()) == written.as_bytes().get(..3),
                "at {line}"
            );
            met = call;
        }
        assert_eq!(rt; met, 1, "at {line}");
    }
    Ok(())
}

// A fault of the output hides a fault of the shelf, after which the store stays.
#[test]
fn faults_are_hidden(rt: HostRuntime) -> Result<(), Fail> {
    let alloc = rt.alloc();
    let store = turns(&rt, alloc)?;
    // The number of the reading call that fails, and of the replacing call; 0 is the number of none.
    for (line, read, replace, written) in [
        ("check s", 1, 0, "rea"),
        ("query s 320 sum(x)", 1, 0, "rea"),
        ("load s y a.csv v", 2, 0, "rea"),
        ("load s y a.csv v", 0, 1, "rep"),
        ("append s x a.csv v", 0, 1, "rep"),
        ("gen s g 1 0", 0, 1, "rep"),
        ("new s 0 0", 0, 1, "rep"),
    ] {
        let (status, shelf, out) = ran(alloc, &store, line, &[read], &[replace], &[(1, 3)])?;
        assert!(rt; status == Status::OutFault, "at {line}");
        assert!(rt; out.bytes() == written.as_bytes(), "at {line}");
        assert!(rt; shelf.file("s") == Some(store.as_slice()), "at {line}");
    }
    Ok(())
}

// The bytes with others in the place of those from `at` on.
fn patched(alloc: Global, bytes: &[u8], at: usize, others: &[u8]) -> Result<Vec<u8>, Fail> {
    let mut changed = bytes.get(..at).ok_or("a part")?.to_vec(alloc)?;
    changed.extend_from_slice(others)?;
    let rest = bytes.get(changed.len()..).ok_or("a part")?;
    changed.extend_from_slice(rest)?;
    Ok(changed)
}

// What `check` says of the store. Where it refuses the header `query` does too, else it answers by one of its statuses.
fn is_judged(
    rt: &impl Abort,
    alloc: Global,
    store: &[u8],
    written: &str,
    number: u8,
) -> Result<(), Fail> {
    let mut shelf = shelf_with(alloc, &[("s", store)], &[], &[])?;
    says(rt, alloc, &mut shelf, &[("check s", written, number)])?;
    let (status, _, out) = ran(alloc, store, "query s 0 sum(x)", &[], &[], &[])?;
    if written.starts_with("store bad header") {
        assert!(rt; status == Status::BadStore);
        assert!(rt; out.bytes() == b"store fault\n".as_slice());
    }
    assert!(rt;
        status == Status::Ok
            || status == Status::BadStore
            || status == Status::BadQuery
            || status == Status::Range
    );
    Ok(())
}

// The first bytes of the store alone.
#[test]
fn cut_stores(rt: HostRuntime) -> Result<(), Fail> {
    let alloc = rt.alloc();
    let bytes = turns(&rt, alloc)?;
    for (from, to, written) in [
        (0, 8, "store bad header 0\n"),
        (8, 14, "store bad header 8\n"),
        (14, 310, "store bad header 14\n"),
    ] {
        for n in from..to {
            let front = bytes.get(..n).ok_or("a part")?;
            is_judged(&rt, alloc, front, written, 9)?;
        }
    }
    Ok(())
}

// The store with the highest bit of each of its bytes turned, one at a time.
#[test]
fn damaged_bytes(rt: HostRuntime) -> Result<(), Fail> {
    let alloc = rt.alloc();
    let bytes = turns(&rt, alloc)?;
    for (from, to, written) in [
        (0, 4, "store bad header 0\n"),
        (4, 5, "store bad header 4\n"),
        (5, 6, "store bad header 5\n"),
        (6, 7, "store bad header 6\n"),
        (7, 8, "store bad header 7\n"),
        (8, 12, "store bad header 8\n"),
        (12, 14, "store bad header 14\n"),
        (14, 70, "store bad node x 0 32\n"),
        (70, 126, "store bad node x 0 16\n"),
        (126, 190, "store bad node x 0 32\n"),
        (190, 246, "store bad node x 16 16\n"),
        (246, 310, "store bad node x 0 32\n"),
    ] {
        for at in from..to {
            let byte = bytes.get(at).ok_or("a byte")?;
            let store = patched(alloc, &bytes, at, &[*byte ^ 0x80])?;
            is_judged(&rt, alloc, &store, written, 9)?;
        }
    }
    Ok(())
}

// Some bytes of the store with each value: the scale, the degree, the count of series, the name, the low bytes of the
// count of readings, of the root's `l` and of the first reading. Where 10 stands for the first reading, each node is as
// true as before.
#[test]
fn bytes_of_each_value(rt: HostRuntime) -> Result<(), Fail> {
    let alloc = rt.alloc();
    let bytes = turns(&rt, alloc)?;
    for (at, first, last, written, number) in [
        (5, 0, 6, "ok 1 32\n", 0),
        (5, 7, 255, "store bad header 5\n", 9),
        (6, 0, 2, "ok 1 32\n", 0),
        (6, 3, 255, "store bad header 6\n", 9),
        (7, 0, 0, "store bad header 8\n", 9),
        (7, 1, 1, "ok 1 32\n", 0),
        (7, 2, 16, "store bad header 14\n", 9),
        (7, 17, 255, "store bad header 7\n", 9),
        (9, 0, 64, "store bad header 8\n", 9),
        (9, b'A', b'Z', "ok 1 32\n", 0),
        (9, 91, 96, "store bad header 8\n", 9),
        (9, b'a', b'z', "ok 1 32\n", 0),
        (9, 123, 255, "store bad header 8\n", 9),
        (13, 0, 31, "store bad header 14\n", 9),
        (13, 32, 32, "ok 1 32\n", 0),
        (13, 33, 255, "store bad header 14\n", 9),
        (53, 0, 0, "ok 1 32\n", 0),
        (53, 1, 255, "store bad node x 0 32\n", 9),
        (129, 0, 0, "ok 1 32\n", 0),
        (129, 1, 9, "store bad node x 0 32\n", 9),
        (129, 10, 10, "ok 1 32\n", 0),
        (129, 11, 255, "store bad node x 0 32\n", 9),
    ] {
        for byte in first..=last {
            let store = patched(alloc, &bytes, at, &[byte])?;
            is_judged(&rt, alloc, &store, written, number)?;
        }
    }
    Ok(())
}

// The root of the store without an error, besides with another curve, and with a reading that is too great.
#[test]
fn damaged_roots(rt: HostRuntime) -> Result<(), Fail> {
    let alloc = rt.alloc();
    let bytes = turns(&rt, alloc)?;
    let exact = patched(alloc, &bytes, 38, &[0; 16])?;
    is_judged(&rt, alloc, &exact, "store bad node x 0 32\n", 9)?;
    let mut shelf = shelf_with(alloc, &[("s", exact.as_slice())], &[], &[])?;
    says(
        &rt,
        alloc,
        &mut shelf,
        &[("query s 0 sum(x)", "160 160 0 1 0\n", 0)],
    )?;
    // The curve's level is 5 * 2 ^ 14 + 1, so the ends cross.
    let crossed = patched(alloc, &exact, 21, &[1])?;
    // 10 ^ 9 + 1.
    let great = patched(alloc, &bytes, 58, &[0x3B, 0x9A, 0xCA, 0x01])?;
    for store in [&crossed, &great] {
        let mut shelf = shelf_with(alloc, &[("s", store.as_slice())], &[], &[])?;
        says(
            &rt,
            alloc,
            &mut shelf,
            &[
                ("check s", "store bad node x 0 32\n", 9),
                ("query s 0 sum(x)", "store fault\n", 9),
            ],
        )?;
    }
    Ok(())
}

fn push_times(text: &mut String, piece: &str, count: u32) -> Result<(), Fail> {
    for _ in 0..count {
        text.push_str(piece)?;
    }
    Ok(())
}

// Texts of queries of one form: between two ends a piece so many times, the middle, and another piece as many times.
#[test]
fn hostile_queries(rt: HostRuntime) -> Result<(), Fail> {
    let alloc = rt.alloc();
    let store = turns(&rt, alloc)?;
    for (head, left, count, middle, right, tail, written, number) in [
        ("", "(", 64, "1", ")", "", "1 1 0 0 0\n", 0),
        ("", "(", 65, "1", ")", "", "query too deep\n", 11),
        ("", "(", 4096, "", "", "", "query too deep\n", 11),
        ("", "(", 4097, "", "", "", "query too long\n", 11),
        ("", ")", 4096, "", "", "", "query at 0\n", 11),
        ("", "1+", 63, "1", "", "", "64 64 0 0 0\n", 0),
        ("", "1+", 2047, "1", "", "", "query too deep\n", 11),
        ("sum(", "shift(", 62, "x", ",0)", ")", "0 320 320 1 0\n", 0),
        (
            "sum(",
            "shift(",
            63,
            "x",
            ",0)",
            ")",
            "query too deep\n",
            11,
        ),
        (
            "",
            "sum(x)+",
            16,
            "",
            "",
            "sum(x)",
            "query too many sums\n",
            11,
        ),
        (
            "",
            "varnum(x,0,1)+",
            5,
            "",
            "",
            "varnum(x,0,1)",
            "query too many sums\n",
            11,
        ),
        ("sum(", "x+", 32, "x", "", ")", "query too many names\n", 11),
        ("sum(x))", "", 0, "", "", "", "query at 6\n", 11),
        ("sum(,", "", 0, "", "", "", "query at 4\n", 11),
        ("1 2", "", 0, "", "", "", "query at 2\n", 11),
    ] {
        let mut text = String::from_str(alloc, head)?;
        push_times(&mut text, left, count)?;
        text.push_str(middle)?;
        push_times(&mut text, right, count)?;
        text.push_str(tail)?;
        let mut words = words_of(alloc, "query s 320")?;
        words.push(text)?;
        let mut shelf = shelf_with(alloc, &[("s", store.as_slice())], &[], &[])?;
        let mut out = MemOut::new(alloc, Vec::new(alloc));
        let status = run(alloc, &words, &mut shelf, &mut out);
        assert!(rt;
            out.bytes() == written.as_bytes(),
            "at {head} {left} {count}"
        );
        assert_eq!(rt; status.number(), number, "at {head} {left} {count}");
    }
    Ok(())
}

// A column of 2 ^ 20 bytes without a line end.
#[test]
fn one_long_line(rt: HostRuntime) -> Result<(), Fail> {
    let alloc = rt.alloc();
    let bytes = vec![in alloc; b'1'; 1 << 20]?;
    let mut shelf = shelf_with(alloc, &[("a.csv", bytes.as_slice())], &[], &[])?;
    says(
        &rt,
        alloc,
        &mut shelf,
        &[("once a.csv v 0 1 0 1", "csv no column\n", 8)],
    )
}
