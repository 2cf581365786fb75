ghost use Rattle.std.specs.Prelude.{◌≡◌, ◌+◌, ◌-◌, ◌*◌, ◌^◌, ◌<◌, ◌≤◌, pos, ◌*ℤ◌, ◌+ℤ◌, ◌-ℤ◌, length, unsigned_abs, [], ◌∷◌};
ghost use Rattle.semantics.specs.Sums.{sum_below};
ghost use Rattle.segment.specs.Measure.{unit, miss, miss_at, greatest_reading, greatest_estimate, unit_seg, AreReadings, IsBounded, IsTrueOf};

use crate::curves::{UNITS, plus};
use crate::{Curve, Measures, Seg};

/// The most that a reading may come to.
pub const GREATEST_READING: u32 = 1_000_000_000;

/// The measures of the curve `a + b * i + c * i ^ 2` over the readings.
pub fn measure(xs: &[i32], a: i64, b: i64, c: i64) -> Measures
    requires some { 0 < length xs.now }
    requires few { length xs.now ≤ 2 ^ 20 }
    requires small { AreReadings xs.now }
    requires bounded { IsBounded record { a = a; b = b; c = c } (length xs.now) (greatest_reading xs.now) }
    ensures miss { result.l ≡ miss record { a = a; b = b; c = c } xs.now }
    ensures greatest_reading { result.d ≡ greatest_reading xs.now }
    ensures greatest_estimate { result.f ≡ greatest_estimate record { a = a; b = b; c = c } (length xs.now) }
{
    let curve = Curve { a, b, c };
    Measures {
        l: miss(xs, &curve),
        d: greatest_reading(xs),
        f: greatest_estimate(&curve, xs.len()),
    }
}

/// The exact segment of one reading.
pub fn unit(x: i32, start: u32) -> Seg
    requires { unsigned_abs x ≤ 10 ^ 9 }
    ensures seg { result ≡ unit_seg start x }
    ensures true_of { IsTrueOf (x ∷ []) result }
{
    Seg {
        start,
        len: 1,
        a: scaled(x),
        b: 0,
        c: 0,
        l: 0,
        d: u64::from(x.unsigned_abs()),
        f: scaled(x).unsigned_abs(),
    }
}

/// The sum of what the estimates miss.
pub fn miss(xs: &[i32], curve: &Curve) -> u128
    requires few { length xs.now ≤ 2 ^ 20 }
    requires small { AreReadings xs.now }
    requires bounded { IsBounded curve.now (length xs.now) (greatest_reading xs.now) }
    ensures value { result ≡ miss curve.now xs.now }
{
    let mut sum = 0u128;
    let mut from = 0;
    while from < xs.len() {
        let to = xs.len().min(from + BLOCK);
        sum += u128::from(miss_between(xs, curve, from, to));
        from = to;
    }
    sum
}

/// So many misses add up within 64 bits.
const BLOCK: usize = 4096;

/// The sum of what the estimates miss at the places from `from` up to `to`.
fn miss_between(xs: &[i32], curve: &Curve, from: usize, to: usize) -> u64
    requires some { from < to }
    requires within { to ≤ length xs.now }
    requires block { to ≤ from + BLOCK }
    requires few { length xs.now ≤ 2 ^ 20 }
    requires small { AreReadings xs.now }
    requires bounded { IsBounded curve.now (length xs.now) (greatest_reading xs.now) }
    ensures value { result + sum_below (miss_at curve.now xs.now) from ≡ sum_below (miss_at curve.now xs.now) to }
    ensures bound { result ≤ (to - from) * 2 ^ 50 }
{
    if curve.c != 0 {
        return miss_of_bent(xs, curve, from, to);
    }
    if curve.b != 0 {
        return miss_of_line(xs, curve, from, to);
    }
    miss_of_level(xs, curve, from, to)
}

/// The same of a curve of any degree. Each estimate is made from the one before.
fn miss_of_bent(xs: &[i32], curve: &Curve, from: usize, to: usize) -> u64
    requires some { from < to }
    requires within { to ≤ length xs.now }
    requires block { to ≤ from + BLOCK }
    requires few { length xs.now ≤ 2 ^ 20 }
    requires small { AreReadings xs.now }
    requires bounded { IsBounded curve.now (length xs.now) (greatest_reading xs.now) }
    ensures value { result + sum_below (miss_at curve.now xs.now) from ≡ sum_below (miss_at curve.now xs.now) to }
    ensures bound { result ≤ (to - from) * 2 ^ 50 }
{
    let mut sum = 0u64;
    let mut estimate = curve.estimate(from);
    let mut step = curve.step(from);
    let bend = plus(curve.c, curve.c);
    for i in from..to {
        sum += gap(xs[i], estimate);
        estimate = plus(estimate, step);
        step = plus(step, bend);
    }
    sum
}

/// The same of a line, whose estimates go up by its slope.
fn miss_of_line(xs: &[i32], curve: &Curve, from: usize, to: usize) -> u64
    requires some { from < to }
    requires within { to ≤ length xs.now }
    requires block { to ≤ from + BLOCK }
    requires few { length xs.now ≤ 2 ^ 20 }
    requires small { AreReadings xs.now }
    requires bounded { IsBounded curve.now (length xs.now) (greatest_reading xs.now) }
    requires straight { curve.now.c ≡ pos 0 }
    ensures value { result + sum_below (miss_at curve.now xs.now) from ≡ sum_below (miss_at curve.now xs.now) to }
    ensures bound { result ≤ (to - from) * 2 ^ 50 }
{
    let slope = curve.b;
    let mut sum = 0u64;
    let mut estimate = curve.estimate(from);
    for i in from..to {
        sum += gap(xs[i], estimate);
        estimate = plus(estimate, slope);
    }
    sum
}

/// The same of a constant, which is each estimate.
fn miss_of_level(xs: &[i32], curve: &Curve, from: usize, to: usize) -> u64
    requires some { from < to }
    requires within { to ≤ length xs.now }
    requires block { to ≤ from + BLOCK }
    requires few { length xs.now ≤ 2 ^ 20 }
    requires small { AreReadings xs.now }
    requires bounded { IsBounded curve.now (length xs.now) (greatest_reading xs.now) }
    requires straight { curve.now.c ≡ pos 0 }
    requires level { curve.now.b ≡ pos 0 }
    ensures value { result + sum_below (miss_at curve.now xs.now) from ≡ sum_below (miss_at curve.now xs.now) to }
    ensures bound { result ≤ (to - from) * 2 ^ 50 }
{
    let estimate = curve.estimate(from);
    let mut sum = 0u64;
    for i in from..to {
        sum += gap(xs[i], estimate);
    }
    sum
}

/// The greatest magnitude of a reading, or 0 where there is none.
pub fn greatest_reading(xs: &[i32]) -> u64
    ensures { result ≡ greatest_reading xs.now }
{
    let mut most = 0u32;
    for i in 0..xs.len() {
        most = most.max(xs[i].unsigned_abs());
    }
    u64::from(most)
}

/// The greatest magnitude of an estimate over `n` places. That of a line is at one of its ends.
pub fn greatest_estimate(curve: &Curve, n: usize) -> u64
    requires few { n ≤ 2 ^ 20 }
    requires bounded { IsBounded curve.now n (10 ^ 9) }
    ensures { result ≡ greatest_estimate curve.now n }
{
    if curve.c != 0 || n == 0 {
        return greatest_along(curve, n);
    }
    let first = curve.estimate(0).unsigned_abs();
    let last = curve.estimate(n - 1).unsigned_abs();
    first.max(last)
}

/// The greatest magnitude of an estimate, found place by place. Each estimate is made from the one before.
fn greatest_along(curve: &Curve, n: usize) -> u64
    requires few { n ≤ 2 ^ 20 }
    requires bounded { IsBounded curve.now n (10 ^ 9) }
    ensures { result ≡ greatest_estimate curve.now n }
{
    if n == 0 {
        return 0;
    }
    let mut most = 0u64;
    let mut estimate = curve.estimate(0);
    let mut change = curve.step(0);
    let bend = plus(curve.c, curve.c);
    let mut i = 0;
    while i < n {
        most = most.max(estimate.unsigned_abs());
        estimate = plus(estimate, change);
        change = plus(change, bend);
        i += 1;
    }
    most
}

/// How far an estimate is from a reading.
fn gap(x: i32, estimate: i64) -> u64
    requires reading { unsigned_abs x ≤ 10 ^ 9 }
    requires estimate { unsigned_abs estimate ≤ 2 ^ 49 }
    ensures value { result ≡ unsigned_abs (pos unit *ℤ x -ℤ estimate) }
    ensures bound { result ≤ 2 ^ 50 }
{
    scaled(x).abs_diff(estimate)
}

/// A reading in units of 1 / 2 ^ 14.
fn scaled(x: i32) -> i64
    requires { unsigned_abs x ≤ 10 ^ 9 }
    ensures value { result ≡ pos unit *ℤ x }
    ensures bound { unsigned_abs result ≤ 2 ^ 44 }
{
    i64::from(UNITS) * i64::from(x)
}
