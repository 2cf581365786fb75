ghost use Rattle.std.specs.Prelude.{◌≡◌, ◌≤◌, ◌<◌, ◌+◌, ◌*◌, ◌^◌, length, find, None, Some, IfErr, IfOk, IfSome, OnOk, is_none};
ghost use Rattle.std.specs.Option.{option_map};
ghost use Rattle.semantics.specs.Admission.{bound_of, domain_rule, first_refusal, is_outside, is_too_great, is_unknown, nodes_of, query_names, range_rule, rank_rule, refusal_of, series_names, sums_of, HasLowRanks};
ghost use Rattle.semantics.specs.Admitted.{IsAdmitted};
ghost use Rattle.semantics.specs.Limits.{most_names_in, query_depth, series_depth, IsNearQuery, IsNearSeries, IsWithinLimits};
ghost use Rattle.semantics.specs.Measures.{rank_of};
ghost use Rattle.semantics.specs.Most.{most_depth, most_names, most_rank, range_limit};
ghost use Rattle.semantics.specs.Plain.{IsPlain};
ghost use Rattle.semantics.specs.Term.{sum};
ghost use Rattle.expr.specs.Facts.{facts_of};
ghost use Rattle.expr.specs.Refusals.{refusal_by, refusal_told};
ghost use Rattle.expr.specs.Terms.{query_term_of, range_of, term_of};

use crate::expression::{Bounds, Query, Series};
use crate::facts::{Fact, is_unknown};
use crate::measures::{MOST, MOST_RANK, domain_bounds, rank};
use crate::name::Name;
use crate::size::{extent, size_over};

/// Why a query is refused. Sums are numbered from 1, from left to right. Nodes are numbers, sums and operators,
/// numbered from 1, each behind its parts.
#[derive(Clone, Copy, Debug, PartialEq, Eq)]
pub enum AdmitErr {
    /// The first name that no fact is of.
    Unknown(Name),
    /// The first sum whose rank is above 2.
    Rank(u32),
    /// The first sum whose range isn't inside of its domain, and the ends of that; an empty domain is told as its start
    /// twice.
    Domain { sum: u32, lo: i64, hi: i64 },
    /// The first node that may pass 2^125.
    Range(u32),
}

#[tactic(auto, using(crate::proofs::Numbered::found))]
fn unknown_in_series(t: &Series, facts: &[Fact]) -> Option<Name>
    ensures { result ≡ find (is_unknown (facts_of facts.now)) (series_names (term_of t.now)) }
{
    match t {
        Series::Base(name) => {
            if is_unknown(facts, name) {
                Some(*name)
            } else {
                None
            }
        }
        Series::Const { .. } | Series::Bare(_) => None,
        Series::Plus(u, v) | Series::Minus(u, v) | Series::Times(u, v) => {
            let left = unknown_in_series(u, facts);
            match left {
                Some(name) => Some(name),
                None => unknown_in_series(v, facts),
            }
        }
        Series::Shift(u, _) => unknown_in_series(u, facts),
    }
}

#[tactic(auto, using(crate::proofs::Numbered::found))]
fn unknown_in(q: &Query, facts: &[Fact]) -> Option<Name>
    requires { IsPlain (query_term_of q.now) }
    ensures { result ≡ find (is_unknown (facts_of facts.now)) (query_names (query_term_of q.now)) }
{
    match q {
        Query::Number(_) => None,
        Query::Sum(t, _) => unknown_in_series(t, facts),
        Query::Var(..) | Query::Cov(..) => unreachable!(),
        Query::Add(p, q) | Query::Sub(p, q) | Query::Mul(p, q) => match unknown_in(p, facts) {
            Some(name) => Some(name),
            None => unknown_in(q, facts),
        },
    }
}

/// Tests the ranks of the sums, numbered from `first` on, and answers the number behind the last.
#[tactic(auto, using(crate::proofs::Numbered::numbered))]
fn test_ranks(q: &Query, first: u32) -> Result<u32, AdmitErr>
    requires plain { IsPlain (query_term_of q.now) }
    requires names { most_names_in (query_term_of q.now) ≤ most_names }
    requires room { first + length (sums_of (query_term_of q.now)) < 2 ^ 32 }
    ensures passed { IfOk result (λ next.
        first_refusal rank_rule first (sums_of (query_term_of q.now)) ≡ None) }
    ensures next { IfOk result (λ next. next ≡ first + length (sums_of (query_term_of q.now))) }
    ensures refused { IfErr result (λ e.
        first_refusal rank_rule first (sums_of (query_term_of q.now)) ≡ Some (refusal_by e)) }
{
    match q {
        Query::Number(_) => Ok(first),
        Query::Sum(t, _) => {
            if rank(t) > MOST_RANK {
                Err(AdmitErr::Rank(first))
            } else {
                Ok(first + 1)
            }
        }
        Query::Var(..) | Query::Cov(..) => unreachable!(),
        Query::Add(p, q) | Query::Sub(p, q) | Query::Mul(p, q) => {
            let middle = test_ranks(p, first)?;
            let next = test_ranks(q, middle)?;
            Ok(next)
        }
    }
}

fn is_outside(bounds: Bounds, domain: Bounds) -> bool
    ensures { result ≡ is_outside (Some (range_of bounds)) (range_of domain) }
{
    bounds.r < bounds.l || bounds.l < bounds.r && !(domain.l <= bounds.l && bounds.r <= domain.r)
}

/// The refusal of a sum with a range of its own, or none where that lies in the domain.
fn domain_refusal(t: &Series, bounds: Bounds, facts: &[Fact], sum: u32) -> Option<AdmitErr>
    requires depth { series_depth (term_of t.now) ≤ most_depth + 1 }
    requires near { IsNearSeries (term_of t.now) }
    ensures { option_map refusal_by result
        ≡ domain_rule (facts_of facts.now) sum (record { series = term_of t.now; range = Some (range_of bounds) }) }
{
    let domain = domain_bounds(t, facts);
    if is_outside(bounds, domain) {
        Some(AdmitErr::Domain {
            sum,
            lo: domain.l,
            hi: domain.l.max(domain.r),
        })
    } else {
        None
    }
}

/// Tests the ranges of the sums, numbered from `first` on, and answers the number behind the last.
#[tactic(auto, using(crate::proofs::Numbered::numbered))]
fn test_domains(q: &Query, facts: &[Fact], first: u32) -> Result<u32, AdmitErr>
    requires plain { IsPlain (query_term_of q.now) }
    requires depth { query_depth (query_term_of q.now) ≤ most_depth }
    requires near { IsNearQuery (query_term_of q.now) }
    requires room { first + length (sums_of (query_term_of q.now)) < 2 ^ 32 }
    ensures passed { IfOk result (λ next.
        first_refusal (domain_rule (facts_of facts.now)) first (sums_of (query_term_of q.now)) ≡ None) }
    ensures next { IfOk result (λ next. next ≡ first + length (sums_of (query_term_of q.now))) }
    ensures refused { IfErr result (λ e.
        first_refusal (domain_rule (facts_of facts.now)) first (sums_of (query_term_of q.now))
        ≡ Some (refusal_by e)) }
{
    match q {
        Query::Number(_) => Ok(first),
        Query::Sum(_, None) => Ok(first + 1),
        Query::Sum(t, Some(bounds)) => match domain_refusal(t, *bounds, facts, first) {
            Some(e) => Err(e),
            None => Ok(first + 1),
        },
        Query::Var(..) | Query::Cov(..) => unreachable!(),
        Query::Add(p, q) | Query::Sub(p, q) | Query::Mul(p, q) => {
            let middle = test_domains(p, facts, first)?;
            let next = test_domains(q, facts, middle)?;
            Ok(next)
        }
    }
}

/// The bound of a sum, or none where the sum is too great.
fn sum_bound(t: &Series, bounds: Option<Bounds>, facts: &[Fact]) -> Option<u128>
    requires rank { rank_of (term_of t.now) ≤ most_rank }
    requires depth { series_depth (term_of t.now) ≤ most_depth + 1 }
    requires near { IsNearSeries (term_of t.now) }
    ensures great { is_none result
        ≡ is_too_great (facts_of facts.now) (sum (term_of t.now) (option_map range_of bounds)) }
    ensures bound { IfSome result (λ bound.
        bound ≡ bound_of (facts_of facts.now) (sum (term_of t.now) (option_map range_of bounds))) }
    ensures few { IfSome result (λ bound. bound ≤ range_limit) }
{
    let n = extent(t, bounds, facts);
    if n == 0 {
        return Some(1);
    }
    let size = size_over(t, facts, n)?;
    size.bound_over(n)
}

/// The number behind a node, and the bound of the node.
#[derive(Clone, Copy)]
struct Tested {
    next: u32,
    bound: u128,
}

fn node_bound(bound: u128, node: u32) -> Result<Tested, AdmitErr>
    requires { node + 1 < 2 ^ 32 }
    ensures passed { IfOk result (λ tested.
        (tested.next ≡ node + 1) × (tested.bound ≡ bound) × (bound ≤ range_limit)) }
    ensures refused { IfErr result (λ e. (range_limit < bound) × (e ≡ AdmitErr.Range node)) }
{
    if bound <= MOST {
        Ok(Tested {
            next: node + 1,
            bound,
        })
    } else {
        Err(AdmitErr::Range(node))
    }
}

fn product_bound(left: u128, right: u128, node: u32) -> Result<Tested, AdmitErr>
    requires { node + 1 < 2 ^ 32 }
    ensures passed { IfOk result (λ tested.
        (tested.next ≡ node + 1) × (tested.bound ≡ left * right) × (left * right ≤ range_limit)) }
    ensures refused { IfErr result (λ e. (range_limit < left * right) × (e ≡ AdmitErr.Range node)) }
{
    match left.checked_mul(right) {
        Some(bound) => node_bound(bound, node),
        None => Err(AdmitErr::Range(node)),
    }
}

/// Tests the bounds of the nodes, numbered from `first` on.
#[tactic(auto, using(crate::proofs::Numbered::noded))]
fn test_bounds(q: &Query, facts: &[Fact], first: u32) -> Result<Tested, AdmitErr>
    requires plain { IsPlain (query_term_of q.now) }
    requires depth { query_depth (query_term_of q.now) ≤ most_depth }
    requires near { IsNearQuery (query_term_of q.now) }
    requires ranks { HasLowRanks (query_term_of q.now) }
    requires room { first + length (nodes_of (query_term_of q.now)) < 2 ^ 32 }
    ensures passed { IfOk result (λ tested.
        first_refusal (range_rule (facts_of facts.now)) first (nodes_of (query_term_of q.now)) ≡ None) }
    ensures next { IfOk result (λ tested. tested.next ≡ first + length (nodes_of (query_term_of q.now))) }
    ensures bound { IfOk result (λ tested. tested.bound ≡ bound_of (facts_of facts.now) (query_term_of q.now)) }
    ensures few { IfOk result (λ tested. tested.bound ≤ range_limit) }
    ensures refused { IfErr result (λ e.
        first_refusal (range_rule (facts_of facts.now)) first (nodes_of (query_term_of q.now))
        ≡ Some (refusal_by e)) }
{
    match q {
        Query::Number(v) => {
            let number = node_bound(v.unsigned_abs().max(1), first)?;
            Ok(number)
        }
        Query::Sum(t, bounds) => match sum_bound(t, *bounds, facts) {
            Some(bound) => Ok(Tested {
                next: first + 1,
                bound,
            }),
            None => Err(AdmitErr::Range(first)),
        },
        Query::Var(..) | Query::Cov(..) => unreachable!(),
        Query::Add(p, q) | Query::Sub(p, q) => {
            let left = test_bounds(p, facts, first)?;
            let right = test_bounds(q, facts, left.next)?;
            let node = node_bound(left.bound + right.bound, right.next)?;
            Ok(node)
        }
        Query::Mul(p, q) => {
            let left = test_bounds(p, facts, first)?;
            let right = test_bounds(q, facts, left.next)?;
            let node = product_bound(left.bound, right.bound, right.next)?;
            Ok(node)
        }
    }
}

/// Admits a plain query within the limits, or answers the first refusal: of its names, then of the ranks of its sums,
/// then of their ranges, then of the magnitudes of its nodes.
pub fn admit(q: &Query, facts: &[Fact]) -> Result<(), AdmitErr>
    requires plain { IsPlain (query_term_of q.now) }
    requires limits { IsWithinLimits (query_term_of q.now) }
    ensures refusal { refusal_of (facts_of facts.now) (query_term_of q.now) ≡ refusal_told result }
    ensures admitted { OnOk result (IsAdmitted (facts_of facts.now) (query_term_of q.now)) }
{
    if let Some(name) = unknown_in(q, facts) {
        return Err(AdmitErr::Unknown(name));
    }
    test_ranks(q, 1)?;
    test_domains(q, facts, 1)?;
    test_bounds(q, facts, 1)?;
    Ok(())
}

#[cfg(test)]
mod tests;
