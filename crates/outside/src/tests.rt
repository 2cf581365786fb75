use crate::{
    Bytes, DirShelf, Failed, FetchErr, Fetched, MemOut, MemShelf, Out, PutErr, ReplaceErr, Shelf,
    StdOut, SteadyOut, SteadyShelf,
};
use std::alloc::{AllocError, Global};
use std::collections::BTreeMap;
use std::fs;
use std::test::Fail;

fn one_file(alloc: Global) -> Result<BTreeMap<String, Bytes>, AllocError> {
    let mut files = BTreeMap::new(alloc);
    let bytes = Vec::from_slice(alloc, b"abc")?;
    files.insert(String::from_str(alloc, "a")?, Bytes::of(bytes))?;
    Ok(files)
}

#[test]
fn in_memory(rt: HostRuntime) -> Result<(), Fail> {
    let alloc = rt.alloc();
    let fail_reads = Vec::from_slice(alloc, &[2, 5, 2, 9])?;
    let fail_replaces = Vec::from_slice(alloc, &[2])?;
    let mut shelf = MemShelf::new(alloc, one_file(alloc)?, fail_reads, fail_replaces);
    let mut into = Vec::new(alloc);
    for (name, limit, want, text) in [
        ("a", 3, Ok(Fetched::Whole), "abc"),
        ("a", 3, Err(FetchErr::Failed), ""),
        ("b", 3, Ok(Fetched::Absent), ""),
        ("a", 2, Ok(Fetched::OverLimit), ""),
        ("b", 3, Err(FetchErr::Failed), ""),
        ("a", 9, Ok(Fetched::Whole), "abc"),
    ] {
        let got = shelf.fetch(name, limit, &mut into);
        assert!(rt; got == want);
        assert!(rt; got != Ok(Fetched::Whole) || into.as_slice() == text.as_bytes());
    }
    assert!(rt; shelf.size("a") == Ok(Some(3)));
    assert!(rt; shelf.size("b") == Ok(None));
    assert!(rt; shelf.size("a") == Err(Failed));
    let mut buf = [b'-'; 2];
    for (at, want, text) in [(1, true, b"bc"), (2, false, b"bc"), (0, true, b"ab")] {
        assert!(rt; shelf.part("a", at, &mut buf) == Ok(want));
        assert!(rt; buf == *text);
    }
    for (name, bytes, want, a, b) in [
        ("b", "de", Ok(()), "abc", "de"),
        ("a", "f", Err(ReplaceErr::Failed), "abc", "de"),
        ("a", "f", Ok(()), "f", "de"),
    ] {
        assert!(rt; shelf.replace(name, bytes.as_bytes()) == want);
        assert!(rt; shelf.file("a") == Some(a.as_bytes()));
        assert!(rt; shelf.file("b") == Some(b.as_bytes()));
    }
    assert!(rt; shelf.file("c") == None);

    let mut out = MemOut::new(alloc, Vec::from_slice(alloc, &[(2, 1), (2, 9), (3, 9)])?);
    for (piece, want, text) in [
        ("ab", Ok(()), "ab"),
        ("cd", Err(PutErr::Failed), "abc"),
        ("ef", Err(PutErr::Failed), "abcef"),
        ("g", Ok(()), "abcefg"),
    ] {
        assert!(rt; out.put(piece.as_bytes()) == want);
        assert!(rt; out.bytes() == text.as_bytes());
    }
    Ok(())
}

#[test]
fn steady(rt: HostRuntime) -> Result<(), Fail> {
    let alloc = rt.alloc();
    let mut shelf = SteadyShelf::new(alloc, one_file(alloc)?);
    assert!(rt; shelf.replace("b", b"de") == Ok(()));
    let mut into = Vec::new(alloc);
    assert!(rt; shelf.fetch("b", 2, &mut into) == Ok(Fetched::Whole));
    assert!(rt; into.as_slice() == b"de".as_slice());
    assert!(rt; shelf.size("a") == Ok(Some(3)));
    let mut buf = [0; 1];
    assert!(rt; shelf.part("a", 2, &mut buf) == Ok(true));
    assert!(rt; buf == [b'c']);
    assert!(rt; shelf.file("b") == Some(b"de".as_slice()));
    let mut out = SteadyOut::new(alloc);
    assert!(rt; out.put(b"ab") == Ok(()));
    assert!(rt; out.put(b"c") == Ok(()));
    assert!(rt; out.bytes() == b"abc".as_slice());
    Ok(())
}

/// `len` bytes, of which no two in a row are equal, nor any two that are 4096 apart.
fn pattern(alloc: Global, len: u32) -> Result<Vec<u8>, AllocError> {
    let mut bytes = Vec::new(alloc);
    for k in 0..len {
        bytes.push((k % 251) as u8)?;
    }
    Ok(bytes)
}

#[test]
fn whole_files_of_a_folder(rt: HostRuntime) -> Result<(), Fail> {
    let alloc = rt.alloc();
    let long = pattern(alloc, 10000)?;
    let mut shelf = DirShelf::new(alloc, &rt);
    let mut into = Vec::new(alloc);
    assert!(rt; shelf.replace("outside_test", &long) == Ok(()));
    for (name, limit, want) in [
        ("outside_test", 10000, Ok(Fetched::Whole)),
        ("outside_test.absent", 10000, Ok(Fetched::Absent)),
        ("outside_test", 9999, Ok(Fetched::OverLimit)),
        ("outside_test", 90000, Ok(Fetched::Whole)),
        (".", 9000, Err(FetchErr::Failed)),
        ("outside_test/x", 9000, Err(FetchErr::Failed)),
    ] {
        let got = shelf.fetch(name, limit, &mut into);
        assert!(rt; got == want);
        assert!(rt; got != Ok(Fetched::Whole) || into.as_slice() == long.as_slice());
    }
    for text in ["once", "again and longer", ""] {
        assert!(rt; shelf.replace("outside_test", text.as_bytes()) == Ok(()));
        assert!(rt; shelf.fetch("outside_test", 5000, &mut into) == Ok(Fetched::Whole));
        assert!(rt; into.as_slice() == text.as_bytes());
    }
    assert!(rt; !fs::exists(&rt, "outside_test.new")?);
    assert!(rt; shelf.replace("outside_test/x", b"") == Err(ReplaceErr::Failed));
    assert!(rt; shelf.replace(".", b"") == Err(ReplaceErr::Failed));
    fs::remove_file(&rt, "..new")?;
    fs::remove_file(&rt, "outside_test")?;
    assert!(rt; StdOut::new(&rt).put(b"one line\n") == Ok(()));
    Ok(())
}

#[test]
fn parts_read_ahead(rt: HostRuntime) -> Result<(), Fail> {
    let alloc = rt.alloc();
    let name = "outside_ahead";
    let long = pattern(alloc, 100000)?;
    fs::write(&rt, name, long.as_slice())?;
    let mut shelf = DirShelf::new(alloc, &rt);
    let mut buf = [0; 4];
    // So many that those behind others are in memory first, and then the whole file is.
    for i in 0..60 {
        for at in [1000 * i, 1000 * i + 4, 99996 - i] {
            assert!(rt; shelf.part(name, at as u64, &mut buf) == Ok(true));
            assert!(rt; long.get(at..at + 4) == Some(buf.as_slice()));
        }
    }
    fs::remove_file(&rt, name)?;
    Ok(())
}

#[test]
fn parts_of_a_folder(rt: HostRuntime) -> Result<(), Fail> {
    let alloc = rt.alloc();
    let name = "outside_parts";
    let long = pattern(alloc, 20000)?;
    fs::write(&rt, name, long.as_slice())?;
    let mut shelf = DirShelf::new(alloc, &rt);
    assert!(rt; shelf.size(name) == Ok(Some(20000)));
    let mut buf = [0; 4];
    // So many that the whole file is read on the way.
    for at in 0..30 {
        assert!(rt; shelf.part(name, 19960 + at, &mut buf) == Ok(true));
        let from = 19960 + at as usize;
        assert!(rt; long.get(from..from + 4) == Some(buf.as_slice()));
    }
    for (other, at, want) in [
        (name, 19997, Ok(false)),
        (name, u64::MAX, Ok(false)),
        ("outside_parts.absent", 0, Ok(false)),
        (name, 19996, Ok(true)),
        (".", 0, Err(Failed)),
        ("outside_parts/x", 0, Err(Failed)),
    ] {
        assert!(rt; shelf.part(other, at, &mut buf) == want);
    }
    assert!(rt; shelf.size("outside_parts.absent") == Ok(None));
    assert!(rt; shelf.size("outside_parts/x") == Err(Failed));
    assert!(rt; shelf.part(name, 0, &mut buf) == Ok(true));
    fs::write(&rt, name, "cut")?;
    assert!(rt; shelf.part(name, 0, &mut buf) == Err(Failed));
    assert!(rt; shelf.replace(name, b"anew") == Ok(()));
    assert!(rt; shelf.size(name) == Ok(Some(4)));
    assert!(rt; shelf.part(name, 0, &mut buf) == Ok(true));
    assert!(rt; buf == *b"anew");
    fs::remove_file(&rt, name)?;
    Ok(())
}
