//! The plain query of a query.

ghost use Rattle.std.specs.Prelude.{◌≡◌, ◌-ℤ◌, IfOk, Some};
ghost use Rattle.expr.specs.Terms.{query_term_of, range_of, term_of};
ghost use Rattle.semantics.specs.Term.{sum, times};
ghost use Rattle.semantics.specs.Plain.{plain, statistic};
ghost use Rattle.stats.specs.Expansion.{LimitsStay, PlainIsPlain, ValueStays};

use expr::{Bounds, Query, Series};
use num_text::Memory;
use std::alloc::Global;

/// `r - l`, below 0 where the range ends before it begins.
fn width(bounds: Bounds) -> i128
    ensures { result ≡ (bounds.r -ℤ bounds.l) }
{
    i128::from(bounds.r) - i128::from(bounds.l)
}

fn boxed(alloc: Global, q: Query) -> Result<Box<Query>, Memory>
    ensures { IfOk result (λ b. query_term_of b.value ≡ query_term_of q) }
{
    Ok(Box::new(alloc, q)?)
}

fn sum_of_products(alloc: Global, t: &Series, u: &Series, bounds: Bounds) -> Result<Query, Memory>
    ensures { IfOk result (λ q. query_term_of q
        ≡ sum (times (term_of t.now) (term_of u.now)) (Some (range_of bounds))) }
{
    let left = Box::new(alloc, t.copy(alloc)?)?;
    let right = Box::new(alloc, u.copy(alloc)?)?;
    Ok(Query::Sum(Series::Times(left, right), Some(bounds)))
}

/// `N` times the sum of the products, less the product of the sums.
fn statistic(alloc: Global, t: &Series, u: &Series, bounds: Bounds) -> Result<Query, Memory>
    ensures { IfOk result (λ q. query_term_of q ≡ statistic (term_of t.now) (term_of u.now) (range_of bounds)) }
{
    let count = boxed(alloc, Query::Number(width(bounds)))?;
    let products = boxed(alloc, sum_of_products(alloc, t, u, bounds)?)?;
    let first = boxed(alloc, Query::Sum(t.copy(alloc)?, Some(bounds)))?;
    let second = boxed(alloc, Query::Sum(u.copy(alloc)?, Some(bounds)))?;
    let whole = boxed(alloc, Query::Mul(count, products))?;
    let part = boxed(alloc, Query::Mul(first, second))?;
    Ok(Query::Sub(whole, part))
}

/// The query with each `Var` and `Cov` written out. Admission, domains, ranges and node numbers are those of this
/// query.
#[cycle(expand)]
pub fn expand(alloc: Global, q: &Query) -> Result<Query, Memory>
    ensures { IfOk result (λ p. query_term_of p ≡ plain (query_term_of q.now)) }
{
    Ok(match q {
        Query::Number(v) => Query::Number(*v),
        Query::Sum(t, bounds) => Query::Sum(t.copy(alloc)?, *bounds),
        Query::Var(t, bounds) => statistic(alloc, t, t, *bounds)?,
        Query::Cov(t, u, bounds) => statistic(alloc, t, u, *bounds)?,
        Query::Add(a, b) => Query::Add(expand_box(alloc, a)?, expand_box(alloc, b)?),
        Query::Sub(a, b) => Query::Sub(expand_box(alloc, a)?, expand_box(alloc, b)?),
        Query::Mul(a, b) => Query::Mul(expand_box(alloc, a)?, expand_box(alloc, b)?),
    })
}

#[cycle(expand)]
fn expand_box(alloc: Global, q: &Query) -> Result<Box<Query>, Memory>
    ensures { IfOk result (λ p. query_term_of p.value ≡ plain (query_term_of q.now)) }
{
    Ok(Box::new(alloc, expand(alloc, q)?)?)
}

/// The plain query has sums alone, comes to what the query comes to, for all readings, and is within the limits where
/// the query is.
pub fn plain_queries_stand_for_theirs()
    ensures plain { PlainIsPlain }
    ensures value { ValueStays }
    ensures limits { LimitsStay }
{}
