ghost use Rattle.std.specs.Prelude.{◌≡◌, ◌≤◌, ◌<◌, ◌*◌, ◌+◌, ◌^◌, ◌+ℤ◌, unsigned_abs, IfSome, MatchOption, is_none};
ghost use Rattle.std.specs.Int.{int_max};
ghost use Rattle.semantics.specs.Admission.{count_at, greatest_at};
ghost use Rattle.semantics.specs.Limits.{series_depth, IsNearSeries};
ghost use Rattle.semantics.specs.Measures.{has_great_units, names_in, rank_of, some_part, units_of};
ghost use Rattle.semantics.specs.Most.{most_depth, most_names, most_shift, range_limit};
ghost use Rattle.semantics.specs.Value.{common, domain_of, moved};
ghost use Rattle.expr.specs.Facts.{facts_of};
ghost use Rattle.expr.specs.Terms.{range_of, term_of};

use crate::expression::{Bounds, Series};
use crate::facts::{Fact, count_at, greatest_at};

/// The greatest magnitude that is admitted.
pub(crate) const MOST: u128 = 1 << 125;

/// The greatest rank of a sum that is admitted.
pub(crate) const MOST_RANK: u32 = 2;

/// How many stored series are multiplied at most.
#[tactic(auto, using(crate::proofs::Ranks::rank_le_names))]
pub fn rank(t: &Series) -> u32
    requires { names_in (term_of t.now) ≤ most_names }
    ensures { result ≡ rank_of (term_of t.now) }
{
    match t {
        Series::Base(_) => 1,
        Series::Const { .. } | Series::Bare(_) => 0,
        Series::Plus(u, v) | Series::Minus(u, v) => rank(u).max(rank(v)),
        Series::Times(u, v) => rank(u) + rank(v),
        Series::Shift(u, _) => rank(u),
    }
}

fn moved_by(position: i64, k: i64) -> i64
    requires position { unsigned_abs position ≤ most_shift * (most_depth + 1) }
    requires shift { unsigned_abs k ≤ most_shift }
    ensures { result ≡ (position +ℤ k) }
{
    position + k
}

fn common(a: Bounds, b: Bounds) -> Bounds
    ensures { range_of result ≡ common (range_of a) (range_of b) }
{
    Bounds {
        l: a.l.max(b.l),
        r: a.r.min(b.r),
    }
}

fn moved(a: Bounds, k: i64) -> Bounds
    requires left { unsigned_abs a.l ≤ most_shift * (most_depth + 1) }
    requires right { unsigned_abs a.r ≤ most_shift * (most_depth + 1) }
    requires shift { unsigned_abs k ≤ most_shift }
    ensures { range_of result ≡ moved (range_of a) k }
{
    Bounds {
        l: moved_by(a.l, k),
        r: moved_by(a.r, k),
    }
}

/// The domain of an expression as it stands: it is empty where `r` isn't above `l`.
pub(crate) fn domain_bounds(t: &Series, facts: &[Fact]) -> Bounds
    requires depth { series_depth (term_of t.now) ≤ most_depth + 1 }
    requires near { IsNearSeries (term_of t.now) }
    ensures domain { range_of result ≡ domain_of (count_at (facts_of facts.now)) (term_of t.now) }
    ensures left { unsigned_abs result.l ≤ most_shift * series_depth (term_of t.now) }
    ensures right { unsigned_abs result.r ≤ most_shift * series_depth (term_of t.now) }
{
    match t {
        Series::Base(name) => Bounds {
            l: 0,
            r: i64::from(count_at(facts, name)),
        },
        Series::Const { a, b, .. } => Bounds { l: *a, r: *b },
        Series::Bare(_) => Bounds {
            l: -(1 << 40),
            r: 1 << 40,
        },
        Series::Plus(u, v) | Series::Minus(u, v) | Series::Times(u, v) => common(
            domain_bounds(u, facts),
            domain_bounds(v, facts),
        ),
        Series::Shift(u, k) => moved(domain_bounds(u, facts), *k),
    }
}

/// The positions at which an expression has a value, from the first to before the second; an empty domain is answered
/// as its start twice.
pub fn domain(t: &Series, facts: &[Fact]) -> (i64, i64)
    requires depth { series_depth (term_of t.now) ≤ most_depth + 1 }
    requires near { IsNearSeries (term_of t.now) }
    ensures start { result.0 ≡ (domain_of (count_at (facts_of facts.now)) (term_of t.now)).left }
    ensures end { result.1
        ≡ (let d = domain_of (count_at (facts_of facts.now)) (term_of t.now) in int_max d.left d.right) }
{
    let bounds = domain_bounds(t, facts);
    (bounds.l, bounds.l.max(bounds.r))
}

fn within(units: u128) -> Option<u128>
    ensures { MatchOption result (range_limit < units) (λ u. (u ≡ units) × (units ≤ range_limit)) }
{
    if units <= MOST { Some(units) } else { None }
}

fn constant_units(v: i128) -> Option<u128>
    ensures { MatchOption result (range_limit < 2 * unsigned_abs v)
        (λ u. (u ≡ 2 * unsigned_abs v) × (u ≤ range_limit)) }
{
    let magnitude = within(v.unsigned_abs())?;
    within(2 * magnitude)
}

/// The units of an expression: a bound on its values, with room for the errors of segments. None where they or those of
/// a part pass 2^125.
pub fn h_units(t: &Series, facts: &[Fact]) -> Option<u128>
    ensures great { is_none result ≡ some_part (has_great_units (greatest_at (facts_of facts.now))) (term_of t.now) }
    ensures units { IfSome result (λ units. units ≡ units_of (greatest_at (facts_of facts.now)) (term_of t.now)) }
    ensures bound { IfSome result (λ units. units ≤ range_limit) }
{
    match t {
        Series::Base(name) => within(128 * u128::from(greatest_at(facts, name).max(1))),
        Series::Const { v, .. } | Series::Bare(v) => constant_units(*v),
        Series::Plus(u, v) | Series::Minus(u, v) => {
            let left = h_units(u, facts)?;
            let right = h_units(v, facts)?;
            within(left + right)
        }
        Series::Times(u, v) => {
            let left = h_units(u, facts)?;
            let right = h_units(v, facts)?;
            within(left.checked_mul(right)?)
        }
        Series::Shift(u, _) => h_units(u, facts),
    }
}

#[cfg(test)]
mod tests {
    use super::*;
    use crate::name::Name;
    use std::test::Fail;

    #[test]
    fn of_a_difference(rt: HostRuntime) -> Result<(), Fail> {
        let alloc = rt.alloc();
        let x = Name::of(b"x").ok_or("x")?;
        let facts = [Fact {
            name: x,
            n: 32,
            d: 10,
        }];
        let constant = Series::Const {
            v: -3,
            a: 10,
            b: 50,
        };
        let less = Series::Minus(
            Box::new(alloc, Series::Base(x))?,
            Box::new(alloc, constant)?,
        );
        let t = less.copy(alloc)?;
        assert_eq!(rt; rank(&t), 1);
        assert_eq!(rt; domain(&t, &facts), (10, 32));
        assert_eq!(rt; h_units(&t, &facts), Some(1286));
        Ok(())
    }

    #[test]
    fn of_constants(rt: HostRuntime) {
        assert_eq!(rt; domain(&Series::Const { v: 1, a: 3, b: 2 }, &[]), (3, 3));
        assert_eq!(rt; domain(&Series::Bare(1), &[]), (-(1 << 40), 1 << 40));
        assert_eq!(rt; h_units(&Series::Bare(1 << 124), &[]), Some(1 << 125));
        assert_eq!(rt; h_units(&Series::Bare((1 << 124) + 1), &[]), None);
        assert_eq!(rt; h_units(&Series::Bare(i128::MIN), &[]), None);
    }
}
