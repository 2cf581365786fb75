// Runs of the top call over files in memory.

use crate::ended;
use outside::{Bytes, MemOut, MemShelf};
use query_cli::{Status, run};
use std::alloc::Global;
use std::collections::BTreeMap;
use std::process::ExitCode;
use std::test::Fail;

pub(crate) const ALTERNATING: &[u8] =
    b"v\n0\n10\n0\n10\n0\n10\n0\n10\n0\n10\n0\n10\n0\n10\n0\n10\n0\n10\n0\n10\n0\n10\n0\n10\n0\n10\n0\n10\n0\n10\n0\n10\n";

const MOST_CSV: usize = 1 << 26;

// A shelf with the one file `a.csv`.
fn shelf_with(alloc: Global, text: Vec<u8>, failing_reads: &[u64]) -> Result<MemShelf, Fail> {
    let mut files = BTreeMap::new(alloc);
    files.insert(String::from_str(alloc, "a.csv")?, Bytes::of(text))?;
    Ok(MemShelf::new(alloc, files, failing_reads.to_vec(alloc)?, Vec::new(alloc)))
}

pub(crate) fn words_of(alloc: Global, line: &str) -> Result<Vec<String>, Fail> {
    let mut words = Vec::new(alloc);
    for word in line.split(' ') {
        words.push(String::from_str(alloc, word)?)?;
    }
    Ok(words)
}

// What the line writes over the one file `a.csv`, with its status.
fn outcome(
    alloc: Global,
    line: &str,
    text: &[u8],
    failing_reads: &[u64],
    failing_puts: &[(u64, u64)],
) -> Result<(Status, MemOut), Fail> {
    let mut shelf = shelf_with(alloc, text.to_vec(alloc)?, failing_reads)?;
    let mut out = MemOut::new(alloc, failing_puts.to_vec(alloc)?);
    let words = words_of(alloc, line)?;
    let status = run(alloc, &words, &mut shelf, &mut out);
    Ok((status, out))
}

#[test]
fn answers(rt: HostRuntime) -> Result<(), Fail> {
    let alloc = rt.alloc();
    for (line, text, written) in [
        ("once a.csv v 0 320 0 32", ALTERNATING, "0 320 320 1 0\n"),
        ("once a.csv v 0 319 0 32", ALTERNATING, "80 240 160 2 1\n"),
        ("once a.csv v 0 0 0 32", ALTERNATING, "160 160 0 2 2\n"),
        ("once a.csv v 0 320 3 5", ALTERNATING, "-150 170 320 1 0\n"),
        ("once a.csv v 0 0 7 7", ALTERNATING, "0 0 0 1 0\n"),
        ("once a.csv v 0 2 0 2", b"v\n-1\n0\n", "-2 0 2 1 0\n"),
        ("once a.csv v 0 2 0 3", b"v\n0\n0\n1\n", "0 2 2 1 0\n"),
        ("once a.csv v 0 0 0 1", b"v\n7\n", "7 7 0 1 0\n"),
        ("once a.csv v 0 0 0 0", b"v\n", "0 0 0 0 0\n"),
        ("once a.csv v 0 0 -5 -5", b"v\n7\n", "0 0 0 1 0\n"),
        (
            "once a.csv temp 2 0 0 5",
            b"\xEF\xBB\xBFt,temp\r\n0,21.53\r\n1, 21.5 \r\n2,\r\n3,NaN\r\n4,-0.005\r\n",
            "8602 8602 0 1 1\n",
        ),
    ] {
        let (status, out) = outcome(alloc, line, text, &[], &[])?;
        assert!(rt; out.bytes() == written.as_bytes(), "at {line}");
        assert!(rt; status == Status::Ok, "at {line}");
    }
    Ok(())
}

#[test]
fn refusals(rt: HostRuntime) -> Result<(), Fail> {
    let alloc = rt.alloc();
    for (line, text, written, number) in [
        ("query s", ALTERNATING, "usage fault\n", 2),
        ("once a.csv v 0 +1 0 32", ALTERNATING, "usage fault\n", 2),
        ("once a.csv v 7 1 0 32", ALTERNATING, "usage fault\n", 2),
        ("once a.csv v 00 1 0 32", ALTERNATING, "usage fault\n", 2),
        ("once  v 0 1 0 32", ALTERNATING, "usage fault\n", 2),
        ("once a.csv v 0 1 0 32 0", ALTERNATING, "usage fault\n", 2),
        (
            "once a.csv v 0 170141183460469231731687303715884105728 0 32",
            ALTERNATING,
            "usage fault\n",
            2,
        ),
        (
            "once a.csv v 0 1 0 1099511627777",
            ALTERNATING,
            "usage fault\n",
            2,
        ),
        ("once b.csv v 0 1 0 32", ALTERNATING, "absent b.csv\n", 6),
        ("once a.csv v 0 1 0 32", b"", "csv no header\n", 8),
        ("once a.csv w 0 1 0 32", ALTERNATING, "csv no column\n", 8),
        ("once a.csv v 0 1 0 1", b"t,v\n1,2\n3\n", "csv short 2\n", 8),
        ("once a.csv v 0 1 0 1", b"v\n1\n2\n1e5\n", "csv bad 3\n", 8),
        (
            "once a.csv v 0 1 0 1",
            b"v\n10000000000\n",
            "csv too large 1\n",
            8,
        ),
        (
            "once a.csv v 0 1 0 1",
            b"t,v\n0,\n",
            "csv missing first 1\n",
            8,
        ),
        ("once a.csv v 0 1 0 33", ALTERNATING, "domain 1 0 32\n", 12),
        ("once a.csv v 0 1 2 1", ALTERNATING, "domain 1 0 32\n", 12),
        ("once a.csv v 0 1 -1 1", ALTERNATING, "domain 1 0 32\n", 12),
        ("once a.csv v 0 1 0 1", b"v\n", "domain 1 0 0\n", 12),
    ] {
        let (status, out) = outcome(alloc, line, text, &[], &[])?;
        assert!(rt; out.bytes() == written.as_bytes(), "at {line}");
        assert_eq!(rt; status.number(), number, "at {line}");
    }
    Ok(())
}

#[test]
fn large_files(rt: HostRuntime) -> Result<(), Fail> {
    let alloc = rt.alloc();
    let line = "once a.csv v 0 1 0 1";

    let mut records = b"v\n".to_vec(alloc)?;
    for _ in 0..1_048_577u32 {
        records.extend_from_slice(b"1\n")?;
    }
    let (status, out) = outcome(alloc, line, &records, &[], &[])?;
    assert!(rt; out.bytes() == b"csv too long 1048577\n".as_slice());
    assert!(rt; status == Status::BadCsv);

    let bytes = vec![in alloc; b'1'; MOST_CSV + 1]?;
    let (status, out) = outcome(alloc, line, &bytes, &[], &[])?;
    assert!(rt; out.bytes() == b"too big a.csv\n".as_slice());
    assert!(rt; status == Status::TooBig);
    Ok(())
}

// The first, the second and each further reading call fails in turn, until a run meets no failing call.
#[test]
fn failing_reads(rt: HostRuntime) -> Result<(), Fail> {
    let alloc = rt.alloc();
    let line = "once a.csv v 0 320 0 32";
    let mut met = 0;
    for call in 1..4u64 {
        let (status, out) = outcome(alloc, line, ALTERNATING, &[call], &[])?;
        if status == Status::Ok {
            assert!(rt; out.bytes() == b"0 320 320 1 0\n".as_slice());
            break;
        }
        assert!(rt; out.bytes() == b"read fault\n".as_slice());
        assert!(rt; status == Status::ReadFault);
        met = call;
    }
    assert_eq!(rt; met, 1);
    Ok(())
}

// The same with each put, after three bytes of its piece.
#[test]
fn failing_puts(rt: HostRuntime) -> Result<(), Fail> {
    let alloc = rt.alloc();
    let line = "once a.csv v 0 320 0 32";
    let mut met = 0;
    for call in 1..4u64 {
        let (status, out) = outcome(alloc, line, ALTERNATING, &[], &[(call, 3)])?;
        if status == Status::Ok {
            assert!(rt; out.bytes() == b"0 320 320 1 0\n".as_slice());
            break;
        }
        assert!(rt; out.bytes() == b"0 3".as_slice());
        assert!(rt; status == Status::OutFault);
        met = call;
    }
    assert_eq!(rt; met, 1);
    Ok(())
}

// A store of scale 2 without series.
const EMPTY: &[u8] = b"PLAT\x01\x02\x00\x00";

#[test]
fn queries(rt: HostRuntime) -> Result<(), Fail> {
    let alloc = rt.alloc();
    for (line, status, written) in [
        ("query a.csv 0 2*(3-5)", Status::Ok, "-4 -4 0 0 0\n"),
        (
            "query a.csv 0 42535295865117307932921825928971026432",
            Status::Ok,
            "42535295865117307932921825928971026432 42535295865117307932921825928971026432 0 0 0\n",
        ),
        (
            "query a.csv 0 42535295865117307932921825928971026433",
            Status::Range,
            "range 1\n",
        ),
        ("query a.csv 0 sum(x", Status::BadQuery, "query at 5\n"),
        ("query s 0 sum(x", Status::BadQuery, "query at 5\n"),
        ("query s 0 1", Status::Absent, "absent s\n"),
        (
            "query a.csv 0 sum(x)",
            Status::BadQuery,
            "query unknown x\n",
        ),
        ("query a.csv -1 1", Status::Usage, "usage fault\n"),
        ("query a.csv", Status::Usage, "usage fault\n"),
    ] {
        let (ended, out) = outcome(alloc, line, EMPTY, &[], &[])?;
        assert!(rt;
            ended == status && out.bytes() == written.as_bytes(),
            "{line}"
        );
    }
    let (ended, out) = outcome(alloc, "query a.csv 0 1", b"PLAT", &[], &[])?;
    assert!(rt; ended == Status::BadStore && out.bytes() == b"store fault\n".as_slice());
    Ok(())
}

#[test]
fn ends_with_the_number(rt: HostRuntime) {
    assert!(rt; ended(Status::Ok) == ExitCode::from(0));
    assert!(rt; ended(Status::Domain) == ExitCode::from(12));
    assert!(rt; ended(Status::ArenaFull) == ExitCode::from(17));
}
