ghost use Rattle.std.specs.Prelude.{◌≡◌, ◌+◌, ◌-◌, ◌*◌, ◌/◌, ◌^◌, ◌<◌, ◌≤◌, true, false, IfSome, max, length, pos, ◌+ℤ◌, ◌-ℤ◌, ◌*ℤ◌, unsigned_abs};
ghost use Rattle.semantics.specs.Quotients.{floor_of};
ghost use Rattle.semantics.specs.Sums.{total_below};
ghost use Rattle.semantics.specs.Readings.{reading};
ghost use Rattle.segment.specs.Measure.{unit, miss, greatest_reading, coefficient_bound, AreReadings, IsBounded, IsTrueOf};
ghost use Rattle.segment.specs.Fit.{in_block, block_of, bend_of, scaled, straightened, moment_at, slope_by, level_by, curve_by, flat_of, line_of, parabola_of, kept, better, with_line, with_parabola, fit_of};

use crate::curves::{UNITS, at, plus};
use crate::measures::{greatest_estimate, greatest_reading, miss};
use crate::sanity::greatest_coefficient;
use crate::{Curve, Seg};
use power_sum::power;

/// A curve, and how much it misses.
#[derive(Clone, Copy, Drop)]
struct Ranked {
    curve: Curve,
    miss: u128,
}

/// The fit of the readings: of the curves up to the degree, the one that misses least.
pub fn fit(xs: &[i32], start: u32, degree: u8) -> Seg
    requires some { 0 < length xs.now }
    requires few { start + length xs.now ≤ 2 ^ 20 }
    requires small { AreReadings xs.now }
    requires degree { degree ≤ 2 }
    ensures fit { result ≡ fit_of degree start xs.now }
    ensures true_of { IsTrueOf xs.now result }
{
    let d = greatest_reading(xs);
    let best = match degree {
        0 => level_fit(xs),
        1 => line_fit(xs, d),
        _ => parabola_fit(xs, d),
    };
    let f = greatest_estimate(&best.curve, xs.len());
    Seg {
        start,
        len: xs.len() as u32,
        a: best.curve.a,
        b: best.curve.b,
        c: best.curve.c,
        l: best.miss,
        d,
        f,
    }
}

/// The better of the curves up to degree 2.
fn parabola_fit(xs: &[i32], d: u64) -> Ranked
    requires some { 0 < length xs.now }
    requires few { length xs.now ≤ 2 ^ 20 }
    requires small { AreReadings xs.now }
    requires most { d ≡ greatest_reading xs.now }
    requires magnitude { d ≤ 10 ^ 9 }
    ensures curve { result.curve ≡ with_parabola xs.now }
    ensures miss { result.miss ≡ miss result.curve xs.now }
    ensures bounded { IsBounded result.curve (length xs.now) (greatest_reading xs.now) }
{
    let sum = total(xs, 0, xs.len());
    let moment = moment(xs);
    let lower = straight_fit(xs, sum, moment, d);
    if xs.len() < 3 {
        return lower;
    }
    let parabola = parabola(xs, sum, moment, d);
    better_of(xs, lower, parabola)
}

/// The better of the curves up to degree 1.
fn line_fit(xs: &[i32], d: u64) -> Ranked
    requires some { 0 < length xs.now }
    requires few { length xs.now ≤ 2 ^ 20 }
    requires small { AreReadings xs.now }
    requires most { d ≡ greatest_reading xs.now }
    requires magnitude { d ≤ 10 ^ 9 }
    ensures curve { result.curve ≡ with_line xs.now }
    ensures miss { result.miss ≡ miss result.curve xs.now }
    ensures bounded { IsBounded result.curve (length xs.now) (greatest_reading xs.now) }
{
    let sum = total(xs, 0, xs.len());
    let moment = moment(xs);
    straight_fit(xs, sum, moment, d)
}

/// The same by the sum of the readings and that of their moments.
fn straight_fit(xs: &[i32], sum: i64, moment: i128, d: u64) -> Ranked
    requires some { 0 < length xs.now }
    requires few { length xs.now ≤ 2 ^ 20 }
    requires small { AreReadings xs.now }
    requires total { sum ≡ total_below (in_block xs.now 0) (length xs.now) }
    requires near { unsigned_abs sum ≤ length xs.now * 10 ^ 9 }
    requires moment { moment ≡ total_below (moment_at (reading xs.now)) (length xs.now) }
    requires moderate { unsigned_abs moment ≤ length xs.now * 2 ^ 50 }
    requires most { d ≡ greatest_reading xs.now }
    requires magnitude { d ≤ 10 ^ 9 }
    ensures curve { result.curve ≡ with_line xs.now }
    ensures miss { result.miss ≡ miss result.curve xs.now }
    ensures bounded { IsBounded result.curve (length xs.now) (greatest_reading xs.now) }
{
    let lower = flat_fit(xs, sum);
    if xs.len() < 2 {
        return lower;
    }
    let line = line(xs, sum, moment, d);
    better_of(xs, lower, line)
}

/// The curve of degree 0.
fn level_fit(xs: &[i32]) -> Ranked
    requires some { 0 < length xs.now }
    requires few { length xs.now ≤ 2 ^ 20 }
    requires small { AreReadings xs.now }
    ensures curve { result.curve ≡ flat_of xs.now }
    ensures miss { result.miss ≡ miss result.curve xs.now }
    ensures bounded { IsBounded result.curve (length xs.now) (greatest_reading xs.now) }
{
    let sum = total(xs, 0, xs.len());
    flat_fit(xs, sum)
}

/// The same by the sum of the readings.
fn flat_fit(xs: &[i32], sum: i64) -> Ranked
    requires some { 0 < length xs.now }
    requires few { length xs.now ≤ 2 ^ 20 }
    requires small { AreReadings xs.now }
    requires total { sum ≡ total_below (in_block xs.now 0) (length xs.now) }
    requires near { unsigned_abs sum ≤ length xs.now * 10 ^ 9 }
    ensures curve { result.curve ≡ flat_of xs.now }
    ensures miss { result.miss ≡ miss result.curve xs.now }
    ensures bounded { IsBounded result.curve (length xs.now) (greatest_reading xs.now) }
{
    let curve = flat(xs, sum);
    let miss = miss(xs, &curve);
    Ranked { curve, miss }
}

/// The other curve where there is one that misses less.
fn better_of(xs: &[i32], best: Ranked, other: Option<Curve>) -> Ranked
    requires few { length xs.now ≤ 2 ^ 20 }
    requires small { AreReadings xs.now }
    requires miss { best.miss ≡ miss best.curve xs.now }
    requires bounded { IsBounded best.curve (length xs.now) (greatest_reading xs.now) }
    requires other { IfSome other (λ q. IsBounded q (length xs.now) (greatest_reading xs.now)) }
    ensures curve { result.curve ≡ better xs.now best.curve other }
    ensures miss { result.miss ≡ miss result.curve xs.now }
    ensures bounded { IsBounded result.curve (length xs.now) (greatest_reading xs.now) }
{
    let Some(curve) = other else { return best };
    let miss = miss(xs, &curve);
    if miss < best.miss {
        Ranked { curve, miss }
    } else {
        best
    }
}

/// The curve of degree 0: the mean, rounded down.
fn flat(xs: &[i32], sum: i64) -> Curve
    requires some { 0 < length xs.now }
    requires few { length xs.now ≤ 2 ^ 20 }
    requires small { AreReadings xs.now }
    requires total { sum ≡ total_below (in_block xs.now 0) (length xs.now) }
    requires near { unsigned_abs sum ≤ length xs.now * 10 ^ 9 }
    ensures curve { result ≡ flat_of xs.now }
    ensures bounded { IsBounded result (length xs.now) (greatest_reading xs.now) }
{
    let a = mean(sum, xs.len());
    Curve { a, b: 0, c: 0 }
}

/// The line through the readings, by their sum and that of their moments, where it keeps the bound.
fn line(xs: &[i32], sum: i64, moment: i128, d: u64) -> Option<Curve>
    requires some { 2 ≤ length xs.now }
    requires few { length xs.now ≤ 2 ^ 20 }
    requires small { AreReadings xs.now }
    requires total { sum ≡ total_below (in_block xs.now 0) (length xs.now) }
    requires near { unsigned_abs sum ≤ length xs.now * 10 ^ 9 }
    requires moment { moment ≡ total_below (moment_at (reading xs.now)) (length xs.now) }
    requires moderate { unsigned_abs moment ≤ length xs.now * 2 ^ 50 }
    requires most { d ≡ greatest_reading xs.now }
    requires magnitude { d ≤ 10 ^ 9 }
    ensures curve { result ≡ kept (length xs.now) d (line_of xs.now) }
    ensures bounded { IfSome result (λ q. IsBounded q (length xs.now) (greatest_reading xs.now)) }
{
    let n = xs.len();
    let sum = scaled_total(xs, sum);
    let moment = scaled_moment(xs, moment);
    through(n, sum, moment, 0, d)
}

/// The parabola through the readings, by their sum and that of their moments, where it keeps the bound.
fn parabola(xs: &[i32], sum: i64, moment: i128, d: u64) -> Option<Curve>
    requires some { 3 ≤ length xs.now }
    requires few { length xs.now ≤ 2 ^ 20 }
    requires small { AreReadings xs.now }
    requires total { sum ≡ total_below (in_block xs.now 0) (length xs.now) }
    requires near { unsigned_abs sum ≤ length xs.now * 10 ^ 9 }
    requires moment { moment ≡ total_below (moment_at (reading xs.now)) (length xs.now) }
    requires moderate { unsigned_abs moment ≤ length xs.now * 2 ^ 50 }
    requires most { d ≡ greatest_reading xs.now }
    requires magnitude { d ≤ 10 ^ 9 }
    ensures curve { result ≡ kept (length xs.now) d (parabola_of xs.now) }
    ensures bounded { IfSome result (λ q. IsBounded q (length xs.now) (greatest_reading xs.now)) }
{
    let n = xs.len();
    let bend = bend(xs);
    let straight = keeps(bend, n * n, d);
    if !straight {
        return None;
    }
    let sum = straight_total(xs, sum, bend);
    let moment = straight_moment(xs, moment, bend);
    through(n, sum, moment, bend as i64, d)
}

/// The sum of the values, by that of the readings.
fn scaled_total(xs: &[i32], sum: i64) -> i128
    requires few { length xs.now ≤ 2 ^ 20 }
    requires small { AreReadings xs.now }
    requires total { sum ≡ total_below (in_block xs.now 0) (length xs.now) }
    requires near { unsigned_abs sum ≤ length xs.now * 10 ^ 9 }
    ensures value { result ≡ total_below (scaled xs.now) (length xs.now) }
    ensures bound { unsigned_abs result ≤ 2 ^ 64 }
{
    let wide = i128::from(sum);
    scaled_up(wide)
}

/// The sum of the values, each times its place, by that of the readings.
fn scaled_moment(xs: &[i32], moment: i128) -> i128
    requires few { length xs.now ≤ 2 ^ 20 }
    requires small { AreReadings xs.now }
    requires moment { moment ≡ total_below (moment_at (reading xs.now)) (length xs.now) }
    requires moderate { unsigned_abs moment ≤ length xs.now * 2 ^ 50 }
    ensures value { result ≡ total_below (moment_at (scaled xs.now)) (length xs.now) }
    ensures bound { unsigned_abs result ≤ 2 ^ 84 }
{
    scaled_up(moment)
}

/// The sum of the values less the bend, by that of the readings.
fn straight_total(xs: &[i32], sum: i64, bend: i128) -> i128
    requires few { length xs.now ≤ 2 ^ 20 }
    requires small { AreReadings xs.now }
    requires total { sum ≡ total_below (in_block xs.now 0) (length xs.now) }
    requires near { unsigned_abs sum ≤ length xs.now * 10 ^ 9 }
    requires bend { unsigned_abs bend * (length xs.now * length xs.now) ≤ 2 ^ 47 }
    ensures value { result ≡ total_below (straightened xs.now bend) (length xs.now) }
    ensures bound { unsigned_abs result ≤ 2 ^ 68 }
{
    let sum = scaled_total(xs, sum);
    let squares = power(2, xs.len() as u64);
    less(sum, bend, squares)
}

/// The sum of the values less the bend, each times its place, by that of the readings.
fn straight_moment(xs: &[i32], moment: i128, bend: i128) -> i128
    requires few { length xs.now ≤ 2 ^ 20 }
    requires small { AreReadings xs.now }
    requires moment { moment ≡ total_below (moment_at (reading xs.now)) (length xs.now) }
    requires moderate { unsigned_abs moment ≤ length xs.now * 2 ^ 50 }
    requires bend { unsigned_abs bend * (length xs.now * length xs.now) ≤ 2 ^ 47 }
    ensures value { result ≡ total_below (moment_at (straightened xs.now bend)) (length xs.now) }
    ensures bound { unsigned_abs result ≤ 2 ^ 88 }
{
    let sum = scaled_moment(xs, moment);
    let cubes = power(3, xs.len() as u64);
    less(sum, bend, cubes)
}

/// The curve with this bend through `n` values, by the sum of the values and of their moments, where it keeps the
/// bound.
fn through(n: usize, sum: i128, moment: i128, bend: i64, d: u64) -> Option<Curve>
    requires some { 2 ≤ n }
    requires few { n ≤ 2 ^ 20 }
    requires magnitude { d ≤ 10 ^ 9 }
    requires sum { unsigned_abs sum ≤ 2 ^ 68 }
    requires moment { unsigned_abs moment ≤ 2 ^ 88 }
    requires bend { unsigned_abs bend * (n * n) ≤ coefficient_bound d }
    ensures { result ≡ kept n d (curve_by n sum moment bend) }
{
    let slope = slope(n, sum, moment);
    let gentle = keeps(slope, n, d);
    if !gentle {
        return None;
    }
    let level = level(n, sum, slope);
    let low = keeps(level, 1, d);
    if !low {
        return None;
    }
    Some(Curve {
        a: level as i64,
        b: slope as i64,
        c: bend,
    })
}

/// The slope of the line through `n` values.
fn slope(n: usize, sum: i128, moment: i128) -> i128
    requires some { 2 ≤ n }
    requires few { n ≤ 2 ^ 20 }
    requires sum { unsigned_abs sum ≤ 2 ^ 68 }
    requires moment { unsigned_abs moment ≤ 2 ^ 88 }
    ensures value { result ≡ slope_by n sum moment }
    ensures bound { unsigned_abs result ≤ 2 ^ 93 }
{
    let twelve = poly::times(12, moment);
    let six = sixes(n);
    let rest = less(twelve, six, sum);
    quotient(rest, n * (n * n - 1))
}

/// The level of the line with this slope through `n` values.
fn level(n: usize, sum: i128, slope: i128) -> i128
    requires some { 2 ≤ n }
    requires few { n ≤ 2 ^ 20 }
    requires sum { unsigned_abs sum ≤ 2 ^ 68 }
    requires slope { unsigned_abs slope * n ≤ 2 ^ 48 }
    ensures value { result ≡ level_by n sum slope }
    ensures bound { unsigned_abs result ≤ 2 ^ 69 }
{
    let half = pairs(n);
    let rest = less(sum, slope, half);
    quotient(rest, n)
}

/// How many pairs `n` places have.
fn pairs(n: usize) -> i128
    requires { n ≤ 2 ^ 20 }
    ensures value { result ≡ pos (n * (n - 1) / 2) }
{
    (n * n.saturating_sub(1) / 2) as i128
}

fn sixes(n: usize) -> i128
    requires { n ≤ 2 ^ 20 }
    ensures value { result ≡ pos (6 * (n - 1)) }
{
    (6 * n.saturating_sub(1)) as i128
}

/// Whether a coefficient times a power of the length keeps the bound.
fn keeps(x: i128, n: usize, d: u64) -> bool
    requires small { unsigned_abs x * n ≤ 2 ^ 120 }
    requires magnitude { d ≤ 10 ^ 9 }
    ensures yes { result ≡ true → unsigned_abs x * n ≤ coefficient_bound d }
    ensures no { result ≡ false → coefficient_bound d < unsigned_abs x * n }
{
    x.unsigned_abs() * n as u128 <= greatest_coefficient(d)
}

/// A quotient, rounded down.
fn quotient(z: i128, n: usize) -> i128
    requires { 0 < n }
    ensures value { result ≡ floor_of z n }
    ensures bound { unsigned_abs result ≤ unsigned_abs z }
{
    if z.unsigned_abs() <= SHORT && n as u128 <= SHORT {
        return i128::from(short_quotient(z as i64, n));
    }
    z.div_euclid(n as i128)
}

/// Numbers up to this one are divided within 64 bits, which is faster.
const SHORT: u128 = 1 << 62;

/// The same within 64 bits.
fn short_quotient(z: i64, n: usize) -> i64
    requires some { 0 < n }
    requires small { unsigned_abs z ≤ 2 ^ 62 }
    requires short { n ≤ 2 ^ 62 }
    ensures value { result ≡ floor_of z n }
    ensures bound { unsigned_abs result ≤ unsigned_abs z }
{
    z.div_euclid(n as i64)
}

/// A number less the product of two.
fn less(x: i128, y: i128, z: i128) -> i128
    requires { unsigned_abs x + unsigned_abs y * unsigned_abs z ≤ 2 ^ 120 }
    ensures value { result ≡ x -ℤ y *ℤ z }
    ensures bound { unsigned_abs result ≤ unsigned_abs x + unsigned_abs y * unsigned_abs z }
{
    poly::minus(x, poly::times(y, z))
}

/// A number in units of 1 / 2 ^ 14.
fn scaled_up(x: i128) -> i128
    requires { unsigned_abs x ≤ 2 ^ 80 }
    ensures value { result ≡ pos unit *ℤ x }
    ensures bound { unsigned_abs result ≡ unit * unsigned_abs x }
{
    poly::times(i128::from(UNITS), x)
}

/// The mean of `n` readings, rounded down.
fn mean(total: i64, n: usize) -> i64
    requires some { 0 < n }
    requires few { n ≤ 2 ^ 20 }
    requires small { unsigned_abs total ≤ n * 10 ^ 9 }
    ensures value { result ≡ floor_of (pos unit *ℤ total) n }
    ensures bound { unsigned_abs result ≤ unit * 10 ^ 9 }
{
    quotient(scaled_up(i128::from(total)), n) as i64
}

/// The sum of `m` readings from a place.
fn total(xs: &[i32], from: usize, m: usize) -> i64
    requires within { from + m ≤ length xs.now }
    requires few { length xs.now ≤ 2 ^ 20 }
    requires small { AreReadings xs.now }
    ensures value { result ≡ total_below (in_block xs.now from) m }
    ensures bound { unsigned_abs result ≤ m * 10 ^ 9 }
{
    let mut sum = 0i64;
    for i in 0..m {
        sum = plus(sum, i64::from(xs[from + i]));
    }
    sum
}

/// The sum of the readings, each times its place.
fn moment(xs: &[i32]) -> i128
    requires few { length xs.now ≤ 2 ^ 20 }
    requires small { AreReadings xs.now }
    ensures value { result ≡ total_below (moment_at (reading xs.now)) (length xs.now) }
    ensures bound { unsigned_abs result ≤ length xs.now * 2 ^ 50 }
{
    let mut sum = 0i128;
    let mut from = 0;
    while from < xs.len() {
        let to = xs.len().min(from + BLOCK);
        let part = moment_between(xs, from, to);
        sum = poly::plus(sum, i128::from(part));
        from = to;
    }
    sum
}

/// So many readings times their places add up within 64 bits.
const BLOCK: usize = 512;

/// The sum of the readings at the places from `from` up to `to`, each times its place.
fn moment_between(xs: &[i32], from: usize, to: usize) -> i64
    requires some { from < to }
    requires within { to ≤ length xs.now }
    requires block { to ≤ from + BLOCK }
    requires few { length xs.now ≤ 2 ^ 20 }
    requires small { AreReadings xs.now }
    ensures value { total_below (moment_at (reading xs.now)) to
        ≡ total_below (moment_at (reading xs.now)) from +ℤ result }
    ensures bound { unsigned_abs result ≤ (to - from) * 2 ^ 50 }
{
    let mut sum = 0i64;
    for i in from..to {
        sum = plus(sum, moment_of(xs[i], i));
    }
    sum
}

/// A reading times its place.
fn moment_of(x: i32, i: usize) -> i64
    requires reading { unsigned_abs x ≤ 10 ^ 9 }
    requires place { i < 2 ^ 20 }
    ensures value { result ≡ pos i *ℤ x }
    ensures bound { unsigned_abs result ≤ 2 ^ 50 }
{
    at(i64::from(x), i)
}

/// The bend by the sums of three blocks.
fn bend(xs: &[i32]) -> i128
    requires some { 3 ≤ length xs.now }
    requires few { length xs.now ≤ 2 ^ 20 }
    requires small { AreReadings xs.now }
    ensures value { result ≡ bend_of xs.now (length xs.now / 3) }
    ensures bound { unsigned_abs result ≤ 2 ^ 68 }
{
    let m = xs.len() / 3;
    let first = block(xs, 0, m);
    let second = block(xs, m, m);
    let third = block(xs, 2 * m, m);
    let part = less(first, 2, second);
    let rest = poly::plus(part, third);
    quotient(rest, twice_cube(m))
}

/// The sum of `m` values from a place.
fn block(xs: &[i32], from: usize, m: usize) -> i128
    requires within { from + m ≤ length xs.now }
    requires few { length xs.now ≤ 2 ^ 20 }
    requires small { AreReadings xs.now }
    ensures value { result ≡ block_of xs.now from m }
    ensures bound { unsigned_abs result ≤ 2 ^ 64 }
{
    let sum = i128::from(total(xs, from, m));
    scaled_up(sum)
}

/// Twice the cube of a length.
fn twice_cube(m: usize) -> usize
    requires some { 0 < m }
    requires few { m ≤ 2 ^ 20 }
    ensures value { result ≡ 2 * (m * m * m) }
    ensures some { 0 < result }
{
    2 * (m * m * m)
}
