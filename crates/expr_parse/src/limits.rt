ghost use Rattle.std.specs.Prelude.{◌≡◌, ◌+◌, ◌≤◌, ◌<◌, true, false, IfErr, IfOk, List, Err, Ok, min, length};
ghost use Rattle.semantics.specs.Limits.{most_names_in, query_depth, series_depth, sums_in};
ghost use Rattle.semantics.specs.Measures.{names_in};
ghost use Rattle.semantics.specs.Most.{most_depth, most_names, most_sums};
ghost use Rattle.expr.specs.Terms.{query_term_of, term_of};
ghost use Rattle.expr_parse.specs.Nesting.{is_nested};
ghost use Rattle.expr_parse.specs.Parsed.{limited};

use crate::error::ParseErr;
use crate::lexeme::Lexeme;
use crate::series::next;
use expr::{Query, Series};

const MOST_DEPTH: u32 = 64;

const MOST_SUMS: u32 = 16;

const MOST_NAMES: u32 = 32;

/// Whether a series is at most so deep. It goes no deeper than that to see it.
fn is_series_within(t: &Series, most: u32) -> bool
    ensures within { result ≡ true → series_depth (term_of t.now) ≤ most }
    ensures beyond { result ≡ false → most < series_depth (term_of t.now) }
{
    match t {
        Series::Base(_) | Series::Const { .. } | Series::Bare(_) => most >= 1,
        Series::Plus(u, v) | Series::Minus(u, v) | Series::Times(u, v) => {
            most >= 1 && is_series_within(u, most - 1) && is_series_within(v, most - 1)
        }
        Series::Shift(u, _) => most >= 1 && is_series_within(u, most - 1),
    }
}

/// Whether a query is at most so deep. It goes no deeper than that to see it.
fn is_within(q: &Query, most: u32) -> bool
    ensures within { result ≡ true → query_depth (query_term_of q.now) ≤ most }
    ensures beyond { result ≡ false → most < query_depth (query_term_of q.now) }
{
    match q {
        Query::Number(_) => most >= 1,
        Query::Sum(t, _) => most >= 1 && is_series_within(t, most - 1),
        Query::Var(t, _) => most >= 4 && is_series_within(t, most - 4),
        Query::Cov(t, u, _) => {
            most >= 4 && is_series_within(t, most - 4) && is_series_within(u, most - 4)
        }
        Query::Add(a, b) | Query::Sub(a, b) | Query::Mul(a, b) => {
            most >= 1 && is_within(a, most - 1) && is_within(b, most - 1)
        }
    }
}

/// How many sums a query has, or one above the most where it has more.
fn sums_in(q: &Query) -> u32
    ensures { result ≡ min (sums_in (query_term_of q.now)) (most_sums + 1) }
{
    match q {
        Query::Number(_) => 0,
        Query::Sum(_, _) => 1,
        Query::Var(_, _) | Query::Cov(_, _, _) => 3,
        Query::Add(a, b) | Query::Sub(a, b) | Query::Mul(a, b) => {
            (sums_in(a) + sums_in(b)).min(MOST_SUMS + 1)
        }
    }
}

/// How many names a series has, or one above the most where it has more.
fn names_in(t: &Series) -> u32
    ensures { result ≡ min (names_in (term_of t.now)) (most_names + 1) }
{
    match t {
        Series::Base(_) => 1,
        Series::Const { .. } | Series::Bare(_) => 0,
        Series::Plus(u, v) | Series::Minus(u, v) | Series::Times(u, v) => {
            (names_in(u) + names_in(v)).min(MOST_NAMES + 1)
        }
        Series::Shift(u, _) => names_in(u),
    }
}

/// The most names that a sum has, or one above the most where it has more.
fn most_names_in(q: &Query) -> u32
    ensures { result ≡ min (most_names_in (query_term_of q.now)) (most_names + 1) }
{
    match q {
        Query::Number(_) => 0,
        Query::Sum(t, _) => names_in(t),
        Query::Var(t, _) => (2 * names_in(t)).min(MOST_NAMES + 1),
        Query::Cov(t, u, _) => (names_in(t) + names_in(u)).min(MOST_NAMES + 1),
        Query::Add(a, b) | Query::Sub(a, b) | Query::Mul(a, b) => {
            most_names_in(a).max(most_names_in(b))
        }
    }
}

/// The query, where its depth, its sums and its names are within the limits.
pub(crate) fn limited(q: Query) -> Result<Query, ParseErr>
    ensures same { IfOk result (λ r. query_term_of r ≡ query_term_of q) }
    ensures passed { IfOk result (λ r. limited (query_term_of q) ≡ Ok (query_term_of q)) }
    ensures depth { IfOk result (λ r. query_depth (query_term_of q) ≤ most_depth) }
    ensures sums { IfOk result (λ r. sums_in (query_term_of q) ≤ most_sums) }
    ensures names { IfOk result (λ r. most_names_in (query_term_of q) ≤ most_names) }
    ensures refused { IfErr result (λ e. limited (query_term_of q) ≡ Err e) }
{
    if !is_within(&q, MOST_DEPTH) {
        return Err(ParseErr::TooDeep);
    }
    if sums_in(&q) > MOST_SUMS {
        return Err(ParseErr::TooManySums);
    }
    if most_names_in(&q) > MOST_NAMES {
        return Err(ParseErr::TooManyNames);
    }
    Ok(q)
}

/// Whether some front of the tokens has over 64 more opening signs than closing ones.
pub(crate) fn is_nested(ts: &[Lexeme]) -> bool
    ensures { result ≡ is_nested 0 0 ts.now }
{
    let mut opened: usize = 0;
    let mut closed: usize = 0;
    let mut rest = ts;
    while let Some((first, more)) = next(rest) {
        match first {
            Lexeme::Open => {
                opened += 1;
                if opened.saturating_sub(closed) > MOST_DEPTH as usize {
                    return true;
                }
            }
            Lexeme::Close => closed += 1,
            _ => {}
        }
        rest = more;
    }
    false
}
