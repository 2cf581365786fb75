ghost use Rattle.std.specs.Prelude.{◌≡◌, ◌<◌, false, List, [], ◌∷◌, length, IfOk, IfErr};
ghost use Rattle.semantics.specs.Term.{add, mul, sub};
ghost use Rattle.expr.specs.Terms.{query_term_of};
ghost use Rattle.expr_parse.specs.QueryGrammar.{IsFactor, IsProduct, IsQuery};
ghost use Rattle.expr_parse.specs.Pending.{close_sign, comma_sign, continues, ends, has_comma, multiplies, open_sign, place, query, series};
ghost use Rattle.expr_parse.specs.Stuck.{IsStuck};

use crate::lexeme::Lexeme;
use crate::series::{Stuck, close, comma, next, open, read_range, read_series, read_whole};
use expr::Query;
use std::alloc::Global;

/// Whether a comma is next.
fn has_comma(ts: &[Lexeme]) -> bool
    ensures { result ≡ has_comma ts.now }
{
    match next(ts) {
        Some((Lexeme::Comma, _)) => true,
        _ => false,
    }
}

/// What is behind the word `sum`.
fn read_sum<'a>(alloc: Global, ts: &'a [Lexeme]) -> Result<(Query, &'a [Lexeme]), Stuck>
    ensures found { IfOk result (λ r. IsFactor (Lexeme.Sum ∷ ts.now) r.1.now (query_term_of r.0)) }
    ensures shorter { IfOk result (λ r. length r.1.now < length ts.now) }
    ensures stuck { IfErr result (λ e. IsStuck (open_sign ∷ series ∷ ends ∷ []) ts.now e) }
{
    let first = open(ts)?;
    let (t, mid) = read_series(alloc, first)?;
    if has_comma(mid) {
        let (b, rest) = read_range(mid)?;
        return Ok((Query::Sum(t, Some(b)), rest));
    }
    let rest = close(mid)?;
    Ok((Query::Sum(t, None), rest))
}

/// What is behind the word `varnum`.
fn read_variance<'a>(alloc: Global, ts: &'a [Lexeme]) -> Result<(Query, &'a [Lexeme]), Stuck>
    ensures found { IfOk result (λ r. IsFactor (Lexeme.VarNum ∷ ts.now) r.1.now (query_term_of r.0)) }
    ensures shorter { IfOk result (λ r. length r.1.now < length ts.now) }
    ensures stuck { IfErr result (λ e.
        IsStuck (open_sign ∷ series ∷ comma_sign ∷ place ∷ comma_sign ∷ place ∷ close_sign ∷ [])
        ts.now e) }
{
    let first = open(ts)?;
    let (t, mid) = read_series(alloc, first)?;
    let (b, rest) = read_range(mid)?;
    Ok((Query::Var(t, b), rest))
}

/// What is behind the word `covnum`.
fn read_covariance<'a>(alloc: Global, ts: &'a [Lexeme]) -> Result<(Query, &'a [Lexeme]), Stuck>
    ensures found { IfOk result (λ r. IsFactor (Lexeme.CovNum ∷ ts.now) r.1.now (query_term_of r.0)) }
    ensures shorter { IfOk result (λ r. length r.1.now < length ts.now) }
    ensures stuck { IfErr result (λ e.
        IsStuck (open_sign ∷ series ∷ comma_sign ∷ series ∷ comma_sign ∷ place ∷ comma_sign ∷ place
        ∷ close_sign ∷ [])
        ts.now e) }
{
    let first = open(ts)?;
    let (t, mid) = read_series(alloc, first)?;
    let second = comma(mid)?;
    let (u, last) = read_series(alloc, second)?;
    let (b, rest) = read_range(last)?;
    Ok((Query::Cov(t, u, b), rest))
}

fn sum_of(alloc: Global, p: Query, q: Query) -> Result<Query, Stuck>
    ensures value { IfOk result (λ r. query_term_of r ≡ add (query_term_of p) (query_term_of q)) }
    ensures memory { IfErr result (λ e. e ≡ Stuck.Memory) }
{
    let p = Box::new(alloc, p)?;
    let q = Box::new(alloc, q)?;
    Ok(Query::Add(p, q))
}

fn difference_of(alloc: Global, p: Query, q: Query) -> Result<Query, Stuck>
    ensures value { IfOk result (λ r. query_term_of r ≡ sub (query_term_of p) (query_term_of q)) }
    ensures memory { IfErr result (λ e. e ≡ Stuck.Memory) }
{
    let p = Box::new(alloc, p)?;
    let q = Box::new(alloc, q)?;
    Ok(Query::Sub(p, q))
}

fn product_of(alloc: Global, p: Query, q: Query) -> Result<Query, Stuck>
    ensures value { IfOk result (λ r. query_term_of r ≡ mul (query_term_of p) (query_term_of q)) }
    ensures memory { IfErr result (λ e. e ≡ Stuck.Memory) }
{
    let p = Box::new(alloc, p)?;
    let q = Box::new(alloc, q)?;
    Ok(Query::Mul(p, q))
}

/// A query, as far as it goes.
#[cycle(query)]
pub(crate) fn read_query<'a>(
    alloc: Global,
    ts: &'a [Lexeme],
) -> Result<(Query, &'a [Lexeme]), Stuck>
    ensures found { IfOk result (λ r. IsQuery ts.now r.1.now (query_term_of r.0)) }
    ensures ended { IfOk result (λ r. continues r.1.now ≡ false) }
    ensures shorter { IfOk result (λ r. length r.1.now < length ts.now) }
    ensures stuck { IfErr result (λ e. IsStuck (query ∷ []) ts.now e) }
{
    let (mut left, mut rest) = read_term(alloc, ts)?;
    loop {
        match next(rest) {
            Some((Lexeme::Plus, more)) => {
                let (right, after) = read_term(alloc, more)?;
                left = sum_of(alloc, left, right)?;
                rest = after;
            }
            Some((Lexeme::Minus, more)) => {
                let (subtracted, after) = read_term(alloc, more)?;
                left = difference_of(alloc, left, subtracted)?;
                rest = after;
            }
            _ => return Ok((left, rest)),
        }
    }
}

#[cycle(query)]
fn read_term<'a>(alloc: Global, ts: &'a [Lexeme]) -> Result<(Query, &'a [Lexeme]), Stuck>
    ensures found { IfOk result (λ r. IsProduct ts.now r.1.now (query_term_of r.0)) }
    ensures ended { IfOk result (λ r. multiplies r.1.now ≡ false) }
    ensures shorter { IfOk result (λ r. length r.1.now < length ts.now) }
    ensures stuck { IfErr result (λ e. IsStuck (query ∷ []) ts.now e) }
{
    let (mut left, mut rest) = read_operand(alloc, ts)?;
    loop {
        match next(rest) {
            Some((Lexeme::Times, more)) => {
                let (right, after) = read_operand(alloc, more)?;
                left = product_of(alloc, left, right)?;
                rest = after;
            }
            _ => return Ok((left, rest)),
        }
    }
}

#[cycle(query)]
fn read_operand<'a>(alloc: Global, ts: &'a [Lexeme]) -> Result<(Query, &'a [Lexeme]), Stuck>
    ensures found { IfOk result (λ r. IsFactor ts.now r.1.now (query_term_of r.0)) }
    ensures shorter { IfOk result (λ r. length r.1.now < length ts.now) }
    ensures stuck { IfErr result (λ e. IsStuck (query ∷ []) ts.now e) }
{
    match next(ts) {
        Some((Lexeme::Open, rest)) => {
            let (q, rest) = read_query(alloc, rest)?;
            let rest = close(rest)?;
            Ok((q, rest))
        }
        Some((Lexeme::Sum, rest)) => {
            let (q, rest) = read_sum(alloc, rest)?;
            Ok((q, rest))
        }
        Some((Lexeme::VarNum, rest)) => {
            let (q, rest) = read_variance(alloc, rest)?;
            Ok((q, rest))
        }
        Some((Lexeme::CovNum, rest)) => {
            let (q, rest) = read_covariance(alloc, rest)?;
            Ok((q, rest))
        }
        Some((Lexeme::Number(n), rest)) => Ok((Query::Number(n.positive()), rest)),
        Some((Lexeme::Minus, _)) => {
            let (v, rest) = read_whole(ts)?;
            Ok((Query::Number(v), rest))
        }
        _ => Err(Stuck::At(ts.len())),
    }
}
