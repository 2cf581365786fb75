//! Series at a single position.

ghost use Rattle.std.specs.Prelude.{◌≡◌, ◌≤◌, ◌^◌, ◌*◌, ◌+◌, [], ℕ, ℤ, pos, ◌+ℤ◌, ◌-ℤ◌, ◌*ℤ◌, ◌≤ℤ◌, length, unsigned_abs, List};
ghost use Rattle.semantics.specs.Measures.{names_in};
ghost use Rattle.semantics.specs.Term.{base as base_term, plus as plus_term, minus as minus_term, times as times_term};
ghost use Rattle.expr.specs.Terms.{term_of};
ghost use Rattle.segment.specs.declared.segments.Seg.{Seg};
ghost use Rattle.bounds.specs.Form.{form, lift as lift_of};
ghost use Rattle.bounds.specs.Reads.{AreCovered};
ghost use Rattle.bounds.specs.Segments.{estimate_of};
ghost use Rattle.bounds.specs.Shape.{base_shape, constant_shape, estimate_by, norm_of, product_shape, reads, shape, sum_shape};
ghost use Rattle.error_prop.specs.Limits.{IsSeriesWithinLimits};
ghost use Rattle.error_prop.specs.Locals.{CanForm, IsInRangeOver};
ghost use Rattle.error_prop.specs.Points.{shape_of, IsFormedAt, IsPoint, IsPointOf, ProductFits, SumFits};

use crate::local::{moved_back, names, offset_in};
use crate::sizes::{
    Size, base_size, constant_size, joined, lift, multiplied, signed, weigh_product, weigh_sum,
};
use expr::Series;
use poly::{minus, plus, times};
use segment::Seg;

/// What a series is at a position: its estimate, in units of its rank, and the bounds that hold there.
#[derive(Clone, Copy, Drop)]
struct Point {
    value: i128,
    size: Size,
}

/// The value brought to another rank.
fn lifted(p: &Point, to: usize) -> i128
    requires rank { to ≤ 3 }
    requires small { lift_of p.now.size.rank to * unsigned_abs p.now.value ≤ 2 ^ 125 }
    ensures value { result ≡ pos (lift_of p.now.size.rank to) *ℤ p.now.value }
    ensures bound { unsigned_abs result ≡ lift_of p.now.size.rank to * unsigned_abs p.now.value }
{
    times(signed(lift(p.size.rank, to)), p.value)
}

/// The sum of two points.
fn added(u: &Point, v: &Point) -> Point
    requires { SumFits u.now v.now }
    ensures { IsPoint result (sum_shape (shape_of u.now) (shape_of v.now))
        ((pos (lift_of u.now.size.rank v.now.size.rank) *ℤ u.now.value)
        +ℤ (pos (lift_of v.now.size.rank u.now.size.rank) *ℤ v.now.value)) }
{
    Point {
        value: plus(lifted(u, v.size.rank), lifted(v, u.size.rank)),
        size: joined(&u.size, &v.size),
    }
}

/// The difference of two points.
fn subtracted(u: &Point, v: &Point) -> Point
    requires { SumFits u.now v.now }
    ensures { IsPoint result (sum_shape (shape_of u.now) (shape_of v.now))
        ((pos (lift_of u.now.size.rank v.now.size.rank) *ℤ u.now.value)
        -ℤ (pos (lift_of v.now.size.rank u.now.size.rank) *ℤ v.now.value)) }
{
    Point {
        value: minus(lifted(u, v.size.rank), lifted(v, u.size.rank)),
        size: joined(&u.size, &v.size),
    }
}

/// The product of two points.
fn product(u: &Point, v: &Point) -> Point
    requires { ProductFits u.now v.now }
    ensures { IsPoint result (product_shape [] (shape_of u.now) (shape_of v.now)) (u.now.value *ℤ v.now.value) }
{
    Point {
        value: times(u.value, v.value),
        size: multiplied(&u.size, &v.size),
    }
}

/// A step of a nested multiplication: `constant + offset * slope`.
fn along(constant: i64, slope: i128, offset: u64) -> i128
    requires { unsigned_abs constant + offset * unsigned_abs slope ≤ 2 ^ 125 }
    ensures value { result ≡ constant +ℤ pos offset *ℤ slope }
    ensures bound { unsigned_abs result ≤ unsigned_abs constant + offset * unsigned_abs slope }
{
    plus(i128::from(constant), times(i128::from(offset), slope))
}

/// The estimate of a segment so many positions behind its start.
fn estimate_in(g: &Seg, offset: u64) -> i128
    requires { unsigned_abs g.now.a + offset * (unsigned_abs g.now.b + offset * unsigned_abs g.now.c) ≤ 2 ^ 125 }
    ensures value { result ≡ g.now.a +ℤ pos offset *ℤ (g.now.b +ℤ pos offset *ℤ g.now.c) }
    ensures bound { unsigned_abs result
        ≤ unsigned_abs g.now.a + offset * (unsigned_abs g.now.b + offset * unsigned_abs g.now.c) }
{
    let slope = along(g.b, i128::from(g.c), offset);
    along(g.a, slope, offset)
}

/// A base at a position, over the segment that it reads.
fn base_at(g: &Seg, position: i64) -> Point
    requires low { pos g.now.start ≤ℤ position }
    requires high { (position +ℤ pos 1) ≤ℤ pos (g.now.start + g.now.len) }
    requires small { norm_of g.now ≤ 2 ^ 125 }
    ensures { IsPoint result (base_shape g.now) (estimate_of g.now position) }
{
    Point {
        value: estimate_in(g, offset_in(position, g.start)),
        size: base_size(g),
    }
}

/// The weight of a stored series alone, and what it is at a position.
fn stored_at(weights: &mut [u128], segs: &[Seg], position: i64) -> Point
    requires { (name : List ℕ) × CanForm (base_term name) segs.now (length weights.old) position 1 }
    ensures { (name : List ℕ) → CanForm (base_term name) segs.now (length weights.old) position 1
        → IsFormedAt (base_term name) segs.now weights.new result position }
{
    weights[0] = 1;
    base_at(&segs[0], position)
}

/// A constant.
fn constant_point(v: i128) -> Point
    ensures { IsPoint result (constant_shape v) v }
{
    Point {
        value: v,
        size: constant_size(v),
    }
}

#[cycle(point)]
fn plus_at(weights: &mut [u128], u: &Series, v: &Series, segs: &[Seg], position: i64) -> Point
    requires { CanForm (plus_term (term_of u.now) (term_of v.now)) segs.now (length weights.old) position 1 }
    ensures { IsFormedAt (plus_term (term_of u.now) (term_of v.now)) segs.now weights.new result position }
{
    let n = names(u);
    let (us, vs) = segs.split_at(n);
    let (left, right) = weights.split_at_mut(n);
    let a = point_of(left, u, us, position);
    let b = point_of(right, v, vs, position);
    weigh_sum(left, right, &a.size, &b.size);
    added(&a, &b)
}

#[cycle(point)]
fn minus_at(weights: &mut [u128], u: &Series, v: &Series, segs: &[Seg], position: i64) -> Point
    requires { CanForm (minus_term (term_of u.now) (term_of v.now)) segs.now (length weights.old) position 1 }
    ensures { IsFormedAt (minus_term (term_of u.now) (term_of v.now)) segs.now weights.new result position }
{
    let n = names(u);
    let (us, vs) = segs.split_at(n);
    let (left, right) = weights.split_at_mut(n);
    let a = point_of(left, u, us, position);
    let b = point_of(right, v, vs, position);
    weigh_sum(left, right, &a.size, &b.size);
    subtracted(&a, &b)
}

#[cycle(point)]
fn times_at(weights: &mut [u128], u: &Series, v: &Series, segs: &[Seg], position: i64) -> Point
    requires { CanForm (times_term (term_of u.now) (term_of v.now)) segs.now (length weights.old) position 1 }
    ensures { IsFormedAt (times_term (term_of u.now) (term_of v.now)) segs.now weights.new result position }
{
    let n = names(u);
    let (us, vs) = segs.split_at(n);
    let (left, right) = weights.split_at_mut(n);
    let a = point_of(left, u, us, position);
    let b = point_of(right, v, vs, position);
    weigh_product(left, right, &a.size, &b.size, segs);
    product(&a, &b)
}

/// What a series is at a position, over the segments that its names read there; writes the weights.
#[cycle(point)]
fn point_of(weights: &mut [u128], t: &Series, segs: &[Seg], position: i64) -> Point
    requires { CanForm (term_of t.now) segs.now (length weights.old) position 1 }
    ensures { IsFormedAt (term_of t.now) segs.now weights.new result position }
{
    match t {
        Series::Base(_) => stored_at(weights, segs, position),
        Series::Const { v, .. } => constant_point(*v),
        Series::Bare(v) => constant_point(*v),
        Series::Plus(u, v) => plus_at(weights, u, v, segs, position),
        Series::Minus(u, v) => minus_at(weights, u, v, segs, position),
        Series::Times(u, v) => times_at(weights, u, v, segs, position),
        Series::Shift(u, k) => {
            let back = moved_back(position, *k);
            point_of(weights, u, segs, back)
        }
    }
}

/// What a series is at a position, with its weights. A stored series alone takes no recursion.
fn weighed_point(weights: &mut [u128], t: &Series, segs: &[Seg], position: i64) -> Point
    requires { CanForm (term_of t.now) segs.now (length weights.old) position 1 }
    ensures { IsFormedAt (term_of t.now) segs.now weights.new result position }
{
    if let Series::Base(_) = t {
        return stored_at(weights, segs, position);
    }
    point_of(weights, t, segs, position)
}

/// The estimate of a series at a position, in units of 1/16384 to the power of its rank, over the segments that its
/// names read there, one for each occurrence, from left to right. The weights become those of the local form there.
pub fn estimate_at(weights: &mut [u128], t: &Series, position: i64, segs: &[Seg]) -> i128
    requires limits { IsSeriesWithinLimits (term_of t.now) }
    requires count { length segs.now ≡ names_in (term_of t.now) }
    requires room { length weights.old ≡ names_in (term_of t.now) }
    requires position { unsigned_abs position ≤ 2 ^ 46 }
    requires covered { AreCovered (term_of t.now) segs.now position 1 }
    requires in_range { IsInRangeOver (term_of t.now) segs.now position }
    ensures estimate { result ≡ estimate_by (term_of t.now) segs.now position }
    ensures weights { weights.new ≡ (shape (term_of t.now) segs.now).weights }
    ensures form { (C : List ℕ → List Seg) → reads C (term_of t.now) position ≡ segs.now
        → IsPointOf (form C (term_of t.now) position) result weights.new }
    ensures bound { unsigned_abs result ≤ 2 ^ 125 }
{
    weighed_point(weights, t, segs, position).value
}
