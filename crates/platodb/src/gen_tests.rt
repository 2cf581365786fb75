// Runs of `gen`.

use crate::store_tests::{says, shelf_with};
use std::test::Fail;

#[test]
fn gen_small(rt: HostRuntime) -> Result<(), Fail> {
    let alloc = rt.alloc();
    let mut shelf = shelf_with(alloc, &[], &[], &[])?;
    says(
        &rt,
        alloc,
        &mut shelf,
        &[
            ("gen s g 1 0", "absent s\n", 6),
            ("new s 0 0", "new\n", 0),
            (
                "gen s g 1 0",
                "gen g 1\n-108 -108 0 1 0\n11664 11664 0 1 0\n",
                0,
            ),
            ("gen s g 1 0", "series exists g\n", 10),
            (
                "gen s h 1 18446744073709551615",
                "gen h 1\n59 59 0 1 0\n3481 3481 0 1 0\n",
                0,
            ),
            ("gen s i 0 7", "gen i 0\n0 0 0 0 0\n0 0 0 0 0\n", 0),
            ("gen s j 1048577 0", "usage fault\n", 2),
            ("gen s j 1 18446744073709551616", "usage fault\n", 2),
            ("gen s sum 1 0", "usage fault\n", 2),
            ("check s", "ok 3 2\n", 0),
        ],
    )
}

#[test]
fn gen_4096(rt: HostRuntime) -> Result<(), Fail> {
    let alloc = rt.alloc();
    let mut shelf = shelf_with(alloc, &[], &[], &[])?;
    says(
        &rt,
        alloc,
        &mut shelf,
        &[
            ("new s 0 1", "new\n", 0),
            (
                "gen s g 4096 7",
                "gen g 4096\n10277514 10685614 408100 256 31\n34962494388 36599585574 1637091186 204 54\n",
                0,
            ),
        ],
    )
}
