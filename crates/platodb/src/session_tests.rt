// Runs of `session`, over files in memory.

use crate::store_tests::{says, shelf_with, turns};
use crate::tests::words_of;
use outside::{MemOut, MemShelf};
use query_cli::{Status, run};
use std::alloc::Global;
use std::process::Abort;
use std::test::Fail;

const MOST_SCRIPT: usize = 1 << 24;

// What a session writes whose script is this one, over the store `s` of the series `x`, with its status and the files
// afterwards; with the numbers of the calls that fail.
fn played(
    alloc: Global,
    store: &[u8],
    script: &[u8],
    reads: &[u64],
    replaces: &[u64],
    puts: &[(u64, u64)],
) -> Result<(Status, MemShelf, MemOut), Fail> {
    let files = [("s", store), ("script", script)];
    let mut shelf = shelf_with(alloc, &files, reads, replaces)?;
    let mut out = MemOut::new(alloc, puts.to_vec(alloc)?);
    let words = words_of(alloc, "session s script")?;
    let status = run(alloc, &words, &mut shelf, &mut out);
    Ok((status, shelf, out))
}

#[test]
fn sessions(rt: HostRuntime) -> Result<(), Fail> {
    let alloc = rt.alloc();
    let store = turns(&rt, alloc)?;
    for (script, written, number) in [
        ("", "", 0),
        (
            "open 0 319 sum(x)\nappend x 1 2 3 4 5\nstep 0\nshow 0\nopen 1 1000 sum(x)\nclose 0\nstep 0\n",
            "opened 0 0 320\nappended x 5 37\nnow 0 0 320\nnow 0 0 320\nopened 1 6 344\nclosed 0\nfree 0\n",
            0,
        ),
        (
            "open 3 320 sum(x)\nopen 3 320 sum(x)\nstep 3\nopen 4 0 sum(z)\nshow 4",
            "opened 3 0 320\nbusy 3\ndone 3 0 320\nrefused query unknown z\nfree 4\n",
            0,
        ),
        (
            "step 0\r\nopen 0 0 sum(z)\r\nopen 0 0 1\r\nopen 0 0 1\r\n",
            "free 0\nrefused query unknown z\nopened 0 1 1\nbusy 0\n",
            0,
        ),
        (
            "append z 1\nappend x 1\n",
            "refused series unknown z\nappended x 1 33\n",
            0,
        ),
        ("step 16\n", "script line 1\n", 16),
        ("step 0\n\nsave ", "script line 3\n", 16),
    ] {
        let (status, shelf, out) = played(alloc, &store, script.as_bytes(), &[], &[], &[])?;
        assert!(rt; out.bytes() == written.as_bytes(), "at {script}");
        assert!(rt; status.number() == number, "at {script}");
        assert!(rt; shelf.file("s") == Some(store.as_slice()), "at {script}");
    }
    Ok(())
}

// STORE is refused before SCRIPT.
#[test]
fn refused_sessions(rt: HostRuntime) -> Result<(), Fail> {
    let alloc = rt.alloc();
    let store = turns(&rt, alloc)?;
    let files = [("s", store.as_slice()), ("bad", b"step 16".as_slice())];
    let mut shelf = shelf_with(alloc, &files, &[], &[])?;
    says(
        &rt,
        alloc,
        &mut shelf,
        &[
            ("session s", "usage fault\n", 2),
            ("session t bad", "absent t\n", 6),
            ("session s t", "absent t\n", 6),
            ("session bad t", "absent t\n", 6),
            ("session bad bad", "store bad header 0\n", 9),
            ("session s bad", "script line 1\n", 16),
        ],
    )
}

// Of two saves the second fails: STORE is as of the first, and nothing behind it is done.
#[test]
fn a_failing_save(rt: HostRuntime) -> Result<(), Fail> {
    let alloc = rt.alloc();
    let store = turns(&rt, alloc)?;
    let script = b"append x 1\nsave\nappend x 2\nsave\nappend x 3\n";
    let (status, mut shelf, out) = played(alloc, &store, script.as_slice(), &[], &[2], &[])?;
    assert!(rt;
        out.bytes() == b"appended x 1 33\nsaved\nappended x 1 34\nreplace fault\n".as_slice()
    );
    assert!(rt; status == Status::ReplaceFault);
    says(&rt, alloc, &mut shelf, &[("check s", "ok 1 33\n", 0)])
}

// Each call fails in turn. STORE is as after the saves that were done.
#[test]
fn failing_calls(rt: HostRuntime) -> Result<(), Fail> {
    let alloc = rt.alloc();
    let store = turns(&rt, alloc)?;
    let script = b"append x 1\nsave\nshow 0\n";
    for call in 1..3u64 {
        let (status, shelf, out) = played(alloc, &store, script.as_slice(), &[call], &[], &[])?;
        assert!(rt; status == Status::ReadFault, "at {call}");
        assert!(rt; out.bytes() == b"read fault\n".as_slice(), "at {call}");
        assert!(rt; shelf.file("s") == Some(store.as_slice()), "at {call}");
    }
    for (call, written, saved) in [
        (1, "app", false),
        (2, "appended x 1 33\nsav", true),
        (3, "appended x 1 33\nsaved\nfre", true),
    ] {
        let (status, shelf, out) = played(
            alloc,
            &store,
            script.as_slice(),
            &[],
            &[],
            &[(call, 3)],
        )?;
        assert!(rt; status == Status::OutFault, "at {call}");
        assert!(rt; out.bytes() == written.as_bytes(), "at {call}");
        assert!(rt;
            (shelf.file("s") != Some(store.as_slice())) == saved,
            "at {call}"
        );
    }
    Ok(())
}

// A store of one series of fives, so many.
fn fives(rt: &impl Abort, alloc: Global, count: u32) -> Result<Vec<u8>, Fail> {
    let mut text = String::from_str(alloc, "v\n")?;
    for _ in 0..count {
        text.push_str("5\n")?;
    }
    let mut shelf = shelf_with(alloc, &[("a.csv", text.as_bytes())], &[], &[])?;
    let loaded = format!(in alloc; "loaded x {count}\n")?;
    says(
        rt,
        alloc,
        &mut shelf,
        &[
            ("new s 0 0", "new\n", 0),
            ("load s x a.csv v", loaded.as_str(), 0),
        ],
    )?;
    let bytes = shelf.file("s").ok_or("a store")?;
    Ok(bytes.to_vec(alloc)?)
}

// Sessions in all slots, each opened behind one more append, and each over the readings as of its opening.
#[test]
fn sixteen_sessions(rt: HostRuntime) -> Result<(), Fail> {
    let alloc = rt.alloc();
    let store = fives(&rt, alloc, 100)?;
    let mut script = String::new(alloc);
    let mut written = String::new(alloc);
    for slot in 0..16u32 {
        let (sum, count) = (500 + 5 * slot, 101 + slot);
        script.push_str(&format!(in alloc; "open {slot} 0 sum(x)\nappend x 5\n")?)?;
        written.push_str(&format!(in alloc; "opened {slot} {sum} {sum}\nappended x 1 {count}\n")?)?;
    }
    for slot in 0..16u32 {
        let sum = 500 + 5 * slot;
        script.push_str(&format!(in alloc; "step {slot}\n")?)?;
        written.push_str(&format!(in alloc; "done {slot} {sum} {sum}\n")?)?;
    }
    let (status, _, out) = played(alloc, &store, script.as_bytes(), &[], &[], &[])?;
    assert!(rt; out.bytes() == written.as_bytes());
    assert!(rt; status == Status::Ok);
    Ok(())
}

#[test]
fn ten_thousand_steps(rt: HostRuntime) -> Result<(), Fail> {
    let alloc = rt.alloc();
    let store = turns(&rt, alloc)?;
    let mut script = String::from_str(alloc, "open 0 0 sum(x)\n")?;
    let mut written = String::from_str(alloc, "opened 0 0 320\nnow 0 0 320\nnow 0 80 240\n")?;
    for step in 0..10_000u32 {
        script.push_str("step 0\n")?;
        if step > 1 {
            written.push_str("done 0 160 160\n")?;
        }
    }
    let (status, _, out) = played(alloc, &store, script.as_bytes(), &[], &[], &[])?;
    assert!(rt; out.bytes() == written.as_bytes());
    assert!(rt; status == Status::Ok);
    Ok(())
}

// The longest script is one of empty lines, and one byte more is too big.
#[test]
fn empty_lines(rt: HostRuntime) -> Result<(), Fail> {
    let alloc = rt.alloc();
    let store = turns(&rt, alloc)?;
    for (len, written, number) in [
        (MOST_SCRIPT, "", 0),
        (MOST_SCRIPT + 1, "too big script\n", 7),
    ] {
        let script = vec![in alloc; b'\n'; len]?;
        let (status, _, out) = played(alloc, &store, &script, &[], &[], &[])?;
        assert!(rt; out.bytes() == written.as_bytes(), "at {len}");
        assert!(rt; status.number() == number, "at {len}");
    }
    Ok(())
}
