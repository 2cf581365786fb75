ghost use Rattle.std.specs.Prelude.{◌≡◌, ◌≤◌, ◌<◌, ◌+◌, ◌*◌, ◌^◌, max, true, unsigned_abs, IfSome, MatchOption};
ghost use Rattle.std.specs.Option.{option_map};
ghost use Rattle.semantics.specs.Admission.{extent_of, greatest_at, longest};
ghost use Rattle.semantics.specs.Limits.{series_depth, IsNearSeries};
ghost use Rattle.semantics.specs.Measures.{is_great_over, rank_of, some_part};
ghost use Rattle.semantics.specs.Most.{most_depth, most_rank, range_limit};
ghost use Rattle.semantics.specs.Readings.{positions_in};
ghost use Rattle.expr.specs.Facts.{facts_of};
ghost use Rattle.expr.specs.Sizes.{IsSizeOver};
ghost use Rattle.expr.specs.Terms.{range_of, term_of};

use crate::expression::{Bounds, Series};
use crate::facts::{Fact, count_at, greatest_at};
use crate::measures::{MOST, domain_bounds};

/// The rank and the units of an expression.
#[derive(Clone, Copy)]
pub(crate) struct Size {
    pub(crate) rank: u32,
    pub(crate) units: u128,
}

impl Size {
    /// Twice the units over n positions, and 1 at least; none where that passes 2^125.
    pub(crate) fn bound_over(self, n: u64) -> Option<u128>
        requires { n * self.units ≤ range_limit }
        ensures { MatchOption result (range_limit < max 1 (2 * n * self.units))
            (λ bound. (bound ≡ max 1 (2 * n * self.units)) × (bound ≤ range_limit)) }
    {
        let bound = (2 * (u128::from(n) * self.units)).max(1);
        if bound <= MOST { Some(bound) } else { None }
    }
}

fn scale(rank: u32) -> u128
    requires { rank ≤ most_rank }
    ensures value { result ≡ 16384 ^ rank }
    ensures bound { result ≤ 2 ^ 28 }
{
    match rank {
        0 => 1,
        1 => 16384,
        _ => 16384 * 16384,
    }
}

/// The size with this rank and these units, or none where they are too great over n positions.
#[tactic(auto, using(crate::proofs::Products::products))]
fn bounded(rank: u32, units: u128, n: u64) -> Option<Size>
    requires rank { rank ≤ most_rank }
    requires some { 1 ≤ n }
    ensures size { IfSome result (λ size. (size.rank ≡ rank) × (size.units ≡ units)) }
    ensures fits { MatchOption result (range_limit < 16384 ^ rank * n * units)
        (λ size. 16384 ^ rank * n * units ≤ range_limit) }
    ensures few { IfSome result (λ size. units ≤ range_limit) }
    ensures spread { IfSome result (λ size. n * units ≤ range_limit) }
{
    let total = (scale(rank) * u128::from(n)).checked_mul(units)?;
    if total <= MOST {
        Some(Size { rank, units })
    } else {
        None
    }
}

fn constant_size(v: i128, n: u64) -> Option<Size>
    requires { 1 ≤ n }
    ensures { MatchOption result (range_limit < n * (2 * unsigned_abs v))
        (λ size. (size.rank ≡ 0) × (size.units ≡ 2 * unsigned_abs v)
        × (n * (2 * unsigned_abs v) ≤ range_limit)) }
{
    bounded(0, v.unsigned_abs().checked_mul(2)?, n)
}

#[tactic(auto, using(crate::proofs::Products::products))]
fn product_size(left: Size, right: Size, n: u64) -> Option<Size>
    requires rank { left.rank + right.rank ≤ most_rank }
    requires some { 1 ≤ n }
    ensures size { IfSome result (λ size.
        (size.rank ≡ left.rank + right.rank) × (size.units ≡ left.units * right.units)) }
    ensures fits { let product = 16384 ^ (left.rank + right.rank) * n * (left.units * right.units)
        in MatchOption result (range_limit < product) (λ size. product ≤ range_limit) }
    ensures few { IfSome result (λ size. left.units * right.units ≤ range_limit) }
    ensures spread { IfSome result (λ size. n * (left.units * right.units) ≤ range_limit) }
{
    match left.units.checked_mul(right.units) {
        Some(units) => bounded(left.rank + right.rank, units, n),
        None => None,
    }
}

/// The size of an expression, or none where a part of it is too great over n positions.
pub(crate) fn size_over(t: &Series, facts: &[Fact], n: u64) -> Option<Size>
    requires rank { rank_of (term_of t.now) ≤ most_rank }
    requires some { 1 ≤ n }
    ensures { let greatest = greatest_at (facts_of facts.now)
        in MatchOption result (some_part (is_great_over greatest n) (term_of t.now) ≡ true)
        (IsSizeOver greatest n (term_of t.now)) }
{
    match t {
        Series::Base(name) => bounded(1, 128 * u128::from(greatest_at(facts, name).max(1)), n),
        Series::Const { v, .. } => constant_size(*v, n),
        Series::Bare(v) => constant_size(*v, n),
        Series::Plus(u, v) | Series::Minus(u, v) => {
            let left = size_over(u, facts, n)?;
            let right = size_over(v, facts, n)?;
            bounded(left.rank.max(right.rank), left.units + right.units, n)
        }
        Series::Times(u, v) => {
            let left = size_over(u, facts, n)?;
            let right = size_over(v, facts, n)?;
            product_size(left, right, n)
        }
        Series::Shift(u, _) => size_over(u, facts, n),
    }
}

fn longest(t: &Series, facts: &[Fact]) -> u32
    ensures { result ≡ longest (facts_of facts.now) (term_of t.now) }
{
    match t {
        Series::Base(name) => count_at(facts, name),
        Series::Const { .. } | Series::Bare(_) => 0,
        Series::Plus(u, v) | Series::Minus(u, v) | Series::Times(u, v) => {
            let left = longest(u, facts);
            left.max(longest(v, facts))
        }
        Series::Shift(u, _) => longest(u, facts),
    }
}

fn positions_in(bounds: Bounds) -> u64
    ensures { result ≡ positions_in bounds.l bounds.r }
{
    if bounds.l < bounds.r {
        bounds.r.abs_diff(bounds.l)
    } else {
        0
    }
}

/// The greater of the length of the longest series named and of the length of the range.
pub(crate) fn extent(t: &Series, bounds: Option<Bounds>, facts: &[Fact]) -> u64
    requires depth { series_depth (term_of t.now) ≤ most_depth + 1 }
    requires near { IsNearSeries (term_of t.now) }
    ensures { result ≡ extent_of (facts_of facts.now) (term_of t.now) (option_map range_of bounds) }
{
    let range = match bounds {
        Some(bounds) => bounds,
        None => domain_bounds(t, facts),
    };
    u64::from(longest(t, facts)).max(positions_in(range))
}
