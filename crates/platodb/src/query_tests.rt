// Runs of `query` over the series of a store.

use crate::store_tests::{says, shelf_with};
use crate::tests::ALTERNATING;
use std::test::Fail;

// 0 and 10 in turn, 32 readings, alone and beside a second series.
#[test]
fn queries_over_turns(rt: HostRuntime) -> Result<(), Fail> {
    let alloc = rt.alloc();
    let files = [
        ("a.csv", ALTERNATING),
        ("b.csv", b"v\n1\n2\n3\n".as_slice()),
    ];
    let mut shelf = shelf_with(alloc, &files, &[], &[])?;
    says(
        &rt,
        alloc,
        &mut shelf,
        &[
            ("new s 0 0", "new\n", 0),
            ("load s x a.csv v", "loaded x 32\n", 0),
            ("query s 320 sum(x-const(5,0,32))", "-160 160 320 1 0\n", 0),
            ("query s 320 sum(shift(x,2),2,34)", "0 320 320 1 0\n", 0),
            ("query s 0 sum(x+shift(x,1),1,32)", "310 310 0 2 2\n", 0),
            ("query s 960 sum(3*x)", "0 960 960 1 0\n", 0),
            ("query s 102400 sum(x)*sum(x)", "0 102400 102400 1 0\n", 0),
            (
                "query s 4800 sum(x*shift(x,1),1,32)",
                "-1625 3175 4800 1 0\n",
                0,
            ),
            ("query s 0 sum(x*shift(x,1),1,32)", "0 0 0 2 2\n", 0),
            ("query s 0 varnum(x,0,32)", "25600 25600 0 2 2\n", 0),
            ("query s 0 sum(x,0,33)", "domain 1 0 32\n", 12),
            ("query s 0 sum(x*x*x)", "query rank 1\n", 11),
            ("query s 0 sum(z)", "query unknown z\n", 11),
            ("query s 0 sum(x", "query at 5\n", 11),
            ("query s 0 sum(x,0)", "query at 7\n", 11),
            (
                "query s 0 sum(x*100000000000000000000000000000000000)",
                "range 1\n",
                13,
            ),
            ("load s y b.csv v", "loaded y 3\n", 0),
            ("query s 40 sum(x*y)", "0 40 40 3 1\n", 0),
            ("query s 0 sum(x*y)", "20 20 0 3 2\n", 0),
        ],
    )
}

// Curves of degree 2 that meet all readings, and a product whose ends lie apart.
#[test]
fn queries_over_curves(rt: HostRuntime) -> Result<(), Fail> {
    let alloc = rt.alloc();
    let mut line = String::from_str(alloc, "v\n")?;
    for i in 0..64u32 {
        line.push_str(format!(in alloc; "{}\n", 10 + 3 * i)?.as_str())?;
    }
    let files = [
        ("line.csv", line.as_bytes()),
        (
            "square.csv",
            b"v\n0\n1\n4\n9\n16\n25\n36\n49\n64\n".as_slice(),
        ),
        ("step.csv", b"v\n0\n0\n0\n0\n0\n0\n0\n0\n0\n10\n".as_slice()),
    ];
    let mut shelf = shelf_with(alloc, &files, &[], &[])?;
    says(
        &rt,
        alloc,
        &mut shelf,
        &[
            ("new s 0 2", "new\n", 0),
            ("load s x line.csv v", "loaded x 64\n", 0),
            ("query s 0 sum(x*x)", "895456 895456 0 1 0\n", 0),
            ("load s y square.csv v", "loaded y 9\n", 0),
            ("query s 0 sum(y,2,5)", "29 29 0 1 0\n", 0),
            ("new t 0 0", "new\n", 0),
            ("load t x step.csv v", "loaded x 10\n", 0),
            ("query t 396 sum(x*x)", "-188 208 396 1 0\n", 0),
        ],
    )
}

// Several series in one query, two of them of the same readings; ranges of one position and of none; a series of none;
// budgets around each width of a descent; and statistics.
#[test]
fn queries_over_several_series(rt: HostRuntime) -> Result<(), Fail> {
    let alloc = rt.alloc();
    let mut turned = String::from_str(alloc, "v\n")?;
    for _ in 0..16u32 {
        turned.push_str("10\n0\n")?;
    }
    let files = [
        ("a.csv", ALTERNATING),
        ("b.csv", b"v\n1\n2\n3\n".as_slice()),
        ("c.csv", turned.as_bytes()),
        ("e.csv", b"v\n".as_slice()),
    ];
    let mut shelf = shelf_with(alloc, &files, &[], &[])?;
    says(
        &rt,
        alloc,
        &mut shelf,
        &[
            ("new s 0 0", "new\n", 0),
            ("load s x a.csv v", "loaded x 32\n", 0),
            ("load s y a.csv v", "loaded y 32\n", 0),
            ("load s b b.csv v", "loaded b 3\n", 0),
            ("load s e e.csv v", "loaded e 0\n", 0),
            ("load s z c.csv v", "loaded z 32\n", 0),
            ("query s 0 sum(x+y,0,3)+sum(b)", "26 26 0 5 3\n", 0),
            ("query s 639 sum(x+y)", "80 560 480 4 1\n", 0),
            ("query s 200 sum(x+z,0,1)", "-75 85 160 4 1\n", 0),
            ("query s 0 sum(x-y)", "0 0 0 4 4\n", 0),
            ("query s 0 sum(x,5,5)", "0 0 0 1 0\n", 0),
            ("query s 0 sum(e)", "0 0 0 0 0\n", 0),
            ("query s 0 sum(e,0,1)", "domain 1 0 0\n", 12),
            ("query s 2560 sum(x)*sum(b)-3", "-3 2557 2560 2 0\n", 0),
            ("query s 2559 sum(x)*sum(b)-3", "317 1917 1600 3 1\n", 0),
            ("query s 1600 sum(x)*sum(b)-3", "317 1917 1600 3 1\n", 0),
            ("query s 1599 sum(x)*sum(b)-3", "637 1277 640 3 2\n", 0),
            ("query s 639 sum(x)*sum(b)-3", "957 957 0 3 3\n", 0),
            ("query s 0 varnum(x+y,0,32)", "102400 102400 0 4 4\n", 0),
            (
                "query s 0 covnum(x,shift(x,1),1,32)",
                "-24000 -24000 0 2 2\n",
                0,
            ),
            ("query s 0 varnum(x,5,5)", "0 0 0 1 0\n", 0),
            (
                "query s 0 varnum(x*100000000000000000,0,32)",
                "range 2\n",
                13,
            ),
        ],
    )
}
