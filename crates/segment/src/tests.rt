ghost use Rattle.std.specs.Prelude.{◌≡◌, ◌<◌, ◌≤◌, ◌^◌, true, length};
ghost use Rattle.segment.specs.Measure.{AreReadings};

use super::*;
use std::process::Abort;

/// Whether all are readings.
fn are_readings(xs: &[i32]) -> bool
    ensures { result ≡ true → AreReadings xs.now }
{
    for x in xs {
        if x.unsigned_abs() > GREATEST_READING {
            return false;
        }
    }
    true
}

fn fitted(rt: &impl Abort, xs: &[i32], degree: u8) -> Seg {
    assert!(rt; !xs.is_empty() && xs.len() <= 1 << 20 && degree <= 2);
    assert!(rt; are_readings(xs));
    fit(xs, 0, degree)
}

/// 32 readings, 0 and 10 in turn.
const TURNS: [i32; 32] = [
    0, 10, 0, 10, 0, 10, 0, 10, 0, 10, 0, 10, 0, 10, 0, 10, 0, 10, 0, 10, 0, 10, 0, 10, 0, 10, 0,
    10, 0, 10, 0, 10,
];

/// The same, and 1 to 5 behind them.
const LONGER: [i32; 37] = [
    0, 10, 0, 10, 0, 10, 0, 10, 0, 10, 0, 10, 0, 10, 0, 10, 0, 10, 0, 10, 0, 10, 0, 10, 0, 10, 0,
    10, 0, 10, 0, 10, 1, 2, 3, 4, 5,
];

fn line() -> [i32; 64] {
    let mut xs = [0; 64];
    for i in 0..64u8 {
        xs[i as usize] = 10 + 3 * i32::from(i);
    }
    xs
}

#[test]
fn fits_of_degree_0(rt: HostRuntime) {
    for (xs, a, l) in [
        (&TURNS[..], 81920, 2621440),
        (&TURNS[..16], 81920, 1310720),
        (&LONGER[..], 77491, 2771993),
        (&[-1, 0], -8192, 16384),
        (&[0, 0, 1], 5461, 21845),
        (&[7], 114688, 0),
    ] {
        let s = fitted(&rt, xs, 0);
        assert_eq!(rt; (s.a, s.b, s.c, s.l), (a, 0, 0, l));
    }
}

#[test]
fn fits_of_degree_2(rt: HostRuntime) {
    let squares = fitted(&rt, &[0, 1, 4, 9, 16, 25, 36, 49, 64], 2);
    assert_eq!(rt; (squares.a, squares.b, squares.c), (0, 0, 16384));
    assert_eq!(rt;
        (squares.len, squares.l, squares.d, squares.f),
        (9, 0, 64, 1048576)
    );

    // a line misses as much as the mean, and a parabola breaks the bound: the lower degree stays
    for degree in 0..=2u8 {
        let tied = fitted(&rt, &[-1, 1, 0], degree);
        assert_eq!(rt; (tied.a, tied.b, tied.c, tied.l), (0, 0, 0, 32768));
    }
    // of 4 readings the last is in none of the three blocks
    let four = fitted(&rt, &[0, 1, 4, 9], 2);
    assert_eq!(rt; (four.a, four.b, four.c, four.l), (0, 0, 16384, 0));

    let line = fitted(&rt, &line(), 2);
    assert_eq!(rt; (line.a, line.b, line.c, line.l), (163840, 49152, 0, 0));
}

#[test]
fn measures_and_sanity(rt: HostRuntime) {
    assert!(rt; are_readings(&TURNS));
    let s = fit(&TURNS, 0, 0);
    let m = measure(&TURNS, s.a, s.b, s.c);
    assert_eq!(rt; (m.l, m.d, m.f), (2621440, 10, 81920));
    assert_eq!(rt; (s.start, s.len, s.d, s.f), (0, 32, 10, 81920));
    assert!(rt; is_sane(&s, 10) && is_sane(&s, 1_000_000_000));
    assert!(rt; !is_sane(&s, 9) && !is_sane(&s, 1_000_000_001));

    // each bound is kept by its last value
    for (changed, sane) in [
        (Seg { a: 8 * 163840, ..s }, true),
        (
            Seg {
                a: 8 * 163840 + 1,
                ..s
            },
            false,
        ),
        (Seg { b: 40960, ..s }, true),
        (Seg { b: -40961, ..s }, false),
        (Seg { c: -1280, ..s }, true),
        (Seg { c: 1281, ..s }, false),
        (
            Seg {
                f: 24 * 163840,
                ..s
            },
            true,
        ),
        (
            Seg {
                f: 24 * 163840 + 1,
                ..s
            },
            false,
        ),
        (
            Seg {
                l: 25 * 163840 * 32,
                ..s
            },
            true,
        ),
        (
            Seg {
                l: 25 * 163840 * 32 + 1,
                ..s
            },
            false,
        ),
    ] {
        assert_eq!(rt; is_sane(&changed, 10), sane);
    }
}

#[test]
fn one_reading(rt: HostRuntime) {
    let seven = unit(-7, 3);
    let want = Seg {
        start: 3,
        len: 1,
        a: -114688,
        b: 0,
        c: 0,
        l: 0,
        d: 7,
        f: 114688,
    };
    assert_eq!(rt; seven, want);
    assert_eq!(rt; fit(&[-7], 3, 2), want);
}

#[test]
fn splits(rt: HostRuntime) {
    for (len, left) in [
        (0, None),
        (16, None),
        (17, Some(16)),
        (32, Some(16)),
        (33, Some(32)),
        (64, Some(32)),
        (65, Some(64)),
        (1048576, Some(524288)),
    ] {
        assert_eq!(rt; split(len), left);
    }
}
