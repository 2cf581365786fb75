ghost use Rattle.std.specs.Prelude.{◌≡◌, ℕ, ◌<◌, ◌≤◌, false, List, [], ◌∷◌, length, IfOk, IfErr, MatchOption, unsigned_abs};
ghost use Rattle.semantics.specs.Most.{most_shift};
ghost use Rattle.semantics.specs.Term.{plus, minus, times, shift};
ghost use Rattle.expr.specs.Terms.{range_of, term_of};
ghost use Rattle.expr_parse.specs.SeriesGrammar.{IsFactor, IsPlace, IsProduct, IsRange, IsSeries, IsWhole};
ghost use Rattle.expr_parse.specs.Pending.{close_sign, comma_sign, continues, multiplies, open_sign, place, series, whole};
ghost use Rattle.expr_parse.specs.Stuck.{IsStuck};
ghost use Rattle.expr_parse.specs.declared.series.Stuck.TheVariants.{Memory};

use crate::lexeme::Lexeme;
use expr::{Bounds, Series};
use std::alloc::{AllocFailed, Global};

/// Why reading stops: it sticks with so many tokens left, or for want of memory.
#[derive(Clone, Copy)]
pub(crate) enum Stuck {
    At(usize),
    Memory,
}

impl<T: Drop> From<AllocFailed<T>> for Stuck {
    ghost from_gives = { λ _ e. e ≡ Memory };

    fn from(_e: AllocFailed<T>) -> Stuck {
        Stuck::Memory
    }
}

/// The next token, and those behind it.
pub(crate) fn next(ts: &[Lexeme]) -> Option<(&Lexeme, &[Lexeme])>
    ensures { MatchOption result (ts.now ≡ []) (λ r. ts.now ≡ r.0.now ∷ r.1.now) }
{
    match ts {
        [first, rest @ ..] => Some((first, rest)),
        [] => None,
    }
}

/// A number, or the negative of one.
#[tactic(auto, using(crate::proofs::Found::positive_at, crate::proofs::Found::negative_at))]
pub(crate) fn read_whole(ts: &[Lexeme]) -> Result<(i128, &[Lexeme]), Stuck>
    ensures found { IfOk result (λ r. IsWhole ts.now r.1.now r.0) }
    ensures shorter { IfOk result (λ r. length r.1.now < length ts.now) }
    ensures stuck { IfErr result (λ e. IsStuck (whole ∷ []) ts.now e) }
{
    match next(ts) {
        Some((Lexeme::Number(n), rest)) => Ok((n.positive(), rest)),
        Some((Lexeme::Minus, rest)) => match next(rest) {
            Some((Lexeme::Number(n), more)) => Ok((n.negative(), more)),
            _ => Err(Stuck::At(rest.len())),
        },
        _ => Err(Stuck::At(ts.len())),
    }
}

/// The greatest magnitude of a place.
const MOST: u64 = 1 << 40;

/// The place that a number is, or none where it is too far.
fn narrow(v: i128) -> Option<i64>
    ensures { MatchOption result (most_shift < unsigned_abs v) (λ k. (k ≡ v) × (unsigned_abs v ≤ most_shift)) }
{
    if v.unsigned_abs() <= u128::from(MOST) {
        Some(v as i64)
    } else {
        None
    }
}

/// A whole number of magnitude at most 2^40.
pub(crate) fn read_place(ts: &[Lexeme]) -> Result<(i64, &[Lexeme]), Stuck>
    ensures found { IfOk result (λ r. IsPlace ts.now r.1.now r.0) }
    ensures shorter { IfOk result (λ r. length r.1.now < length ts.now) }
    ensures stuck { IfErr result (λ e. IsStuck (place ∷ []) ts.now e) }
{
    match next(ts) {
        Some((Lexeme::Number(n), rest)) => match narrow(n.positive()) {
            Some(k) => Ok((k, rest)),
            None => Err(Stuck::At(ts.len())),
        },
        Some((Lexeme::Minus, rest)) => match next(rest) {
            Some((Lexeme::Number(n), more)) => match narrow(n.negative()) {
                Some(k) => Ok((k, more)),
                None => Err(Stuck::At(rest.len())),
            },
            _ => Err(Stuck::At(rest.len())),
        },
        _ => Err(Stuck::At(ts.len())),
    }
}

pub(crate) fn open(ts: &[Lexeme]) -> Result<&[Lexeme], Stuck>
    ensures found { IfOk result (λ r. ts.now ≡ Lexeme.Open ∷ r.now) }
    ensures stuck { IfErr result (λ e. IsStuck (open_sign ∷ []) ts.now e) }
{
    match next(ts) {
        Some((Lexeme::Open, rest)) => Ok(rest),
        _ => Err(Stuck::At(ts.len())),
    }
}

pub(crate) fn close(ts: &[Lexeme]) -> Result<&[Lexeme], Stuck>
    ensures found { IfOk result (λ r. ts.now ≡ Lexeme.Close ∷ r.now) }
    ensures stuck { IfErr result (λ e. IsStuck (close_sign ∷ []) ts.now e) }
{
    match next(ts) {
        Some((Lexeme::Close, rest)) => Ok(rest),
        _ => Err(Stuck::At(ts.len())),
    }
}

pub(crate) fn comma(ts: &[Lexeme]) -> Result<&[Lexeme], Stuck>
    ensures found { IfOk result (λ r. ts.now ≡ Lexeme.Comma ∷ r.now) }
    ensures stuck { IfErr result (λ e. IsStuck (comma_sign ∷ []) ts.now e) }
{
    match next(ts) {
        Some((Lexeme::Comma, rest)) => Ok(rest),
        _ => Err(Stuck::At(ts.len())),
    }
}

/// Two places behind commas, and the closing sign.
pub(crate) fn read_range(ts: &[Lexeme]) -> Result<(Bounds, &[Lexeme]), Stuck>
    ensures found { IfOk result (λ r. IsRange ts.now r.1.now (range_of r.0)) }
    ensures shorter { IfOk result (λ r. length r.1.now < length ts.now) }
    ensures stuck { IfErr result (λ e.
        IsStuck (comma_sign ∷ place ∷ comma_sign ∷ place ∷ close_sign ∷ []) ts.now e) }
{
    let first = comma(ts)?;
    let (l, mid) = read_place(first)?;
    let second = comma(mid)?;
    let (r, last) = read_place(second)?;
    let rest = close(last)?;
    Ok((Bounds { l, r }, rest))
}

/// What is behind the word `const`.
fn read_constant(ts: &[Lexeme]) -> Result<(Series, &[Lexeme]), Stuck>
    ensures found { IfOk result (λ r. IsFactor (Lexeme.Const ∷ ts.now) r.1.now (term_of r.0)) }
    ensures shorter { IfOk result (λ r. length r.1.now < length ts.now) }
    ensures stuck { IfErr result (λ e.
        IsStuck (open_sign ∷ whole ∷ comma_sign ∷ place ∷ comma_sign ∷ place ∷ close_sign ∷ [])
        ts.now e) }
{
    let first = open(ts)?;
    let (v, mid) = read_whole(first)?;
    let (b, rest) = read_range(mid)?;
    Ok((Series::Const { v, a: b.l, b: b.r }, rest))
}

fn sum_of(alloc: Global, u: Series, v: Series) -> Result<Series, Stuck>
    ensures value { IfOk result (λ t. term_of t ≡ plus (term_of u) (term_of v)) }
    ensures memory { IfErr result (λ e. e ≡ Stuck.Memory) }
{
    let u = Box::new(alloc, u)?;
    let v = Box::new(alloc, v)?;
    Ok(Series::Plus(u, v))
}

fn difference_of(alloc: Global, u: Series, v: Series) -> Result<Series, Stuck>
    ensures value { IfOk result (λ t. term_of t ≡ minus (term_of u) (term_of v)) }
    ensures memory { IfErr result (λ e. e ≡ Stuck.Memory) }
{
    let u = Box::new(alloc, u)?;
    let v = Box::new(alloc, v)?;
    Ok(Series::Minus(u, v))
}

fn product_of(alloc: Global, u: Series, v: Series) -> Result<Series, Stuck>
    ensures value { IfOk result (λ t. term_of t ≡ times (term_of u) (term_of v)) }
    ensures memory { IfErr result (λ e. e ≡ Stuck.Memory) }
{
    let u = Box::new(alloc, u)?;
    let v = Box::new(alloc, v)?;
    Ok(Series::Times(u, v))
}

fn shift_of(alloc: Global, u: Series, k: i64) -> Result<Series, Stuck>
    ensures value { IfOk result (λ t. term_of t ≡ shift (term_of u) k) }
    ensures memory { IfErr result (λ e. e ≡ Stuck.Memory) }
{
    let u = Box::new(alloc, u)?;
    Ok(Series::Shift(u, k))
}

/// A series, as far as it goes.
#[cycle(series)]
pub(crate) fn read_series<'a>(
    alloc: Global,
    ts: &'a [Lexeme],
) -> Result<(Series, &'a [Lexeme]), Stuck>
    ensures found { IfOk result (λ r. IsSeries ts.now r.1.now (term_of r.0)) }
    ensures ended { IfOk result (λ r. continues r.1.now ≡ false) }
    ensures shorter { IfOk result (λ r. length r.1.now < length ts.now) }
    ensures stuck { IfErr result (λ e. IsStuck (series ∷ []) ts.now e) }
{
    let (mut left, mut rest) = read_product(alloc, ts)?;
    loop {
        match next(rest) {
            Some((Lexeme::Plus, more)) => {
                let (right, after) = read_product(alloc, more)?;
                left = sum_of(alloc, left, right)?;
                rest = after;
            }
            Some((Lexeme::Minus, more)) => {
                let (right, after) = read_product(alloc, more)?;
                left = difference_of(alloc, left, right)?;
                rest = after;
            }
            _ => return Ok((left, rest)),
        }
    }
}

#[cycle(series)]
fn read_product<'a>(alloc: Global, ts: &'a [Lexeme]) -> Result<(Series, &'a [Lexeme]), Stuck>
    ensures found { IfOk result (λ r. IsProduct ts.now r.1.now (term_of r.0)) }
    ensures ended { IfOk result (λ r. multiplies r.1.now ≡ false) }
    ensures shorter { IfOk result (λ r. length r.1.now < length ts.now) }
    ensures stuck { IfErr result (λ e. IsStuck (series ∷ []) ts.now e) }
{
    let (mut left, mut rest) = read_factor(alloc, ts)?;
    loop {
        match next(rest) {
            Some((Lexeme::Times, more)) => {
                let (right, after) = read_factor(alloc, more)?;
                left = product_of(alloc, left, right)?;
                rest = after;
            }
            _ => return Ok((left, rest)),
        }
    }
}

#[cycle(series)]
fn read_factor<'a>(alloc: Global, ts: &'a [Lexeme]) -> Result<(Series, &'a [Lexeme]), Stuck>
    ensures found { IfOk result (λ r. IsFactor ts.now r.1.now (term_of r.0)) }
    ensures shorter { IfOk result (λ r. length r.1.now < length ts.now) }
    ensures stuck { IfErr result (λ e. IsStuck (series ∷ []) ts.now e) }
{
    match next(ts) {
        Some((Lexeme::Named(name), rest)) => Ok((Series::Base(*name), rest)),
        Some((Lexeme::Open, rest)) => {
            let (t, rest) = read_series(alloc, rest)?;
            let rest = close(rest)?;
            Ok((t, rest))
        }
        Some((Lexeme::Const, rest)) => {
            let (t, rest) = read_constant(rest)?;
            Ok((t, rest))
        }
        Some((Lexeme::Shift, rest)) => {
            let (t, rest) = read_shift(alloc, rest)?;
            Ok((t, rest))
        }
        Some((Lexeme::Number(n), rest)) => Ok((Series::Bare(n.positive()), rest)),
        Some((Lexeme::Minus, _)) => {
            let (v, rest) = read_whole(ts)?;
            Ok((Series::Bare(v), rest))
        }
        _ => Err(Stuck::At(ts.len())),
    }
}

/// What is behind the word `shift`.
#[cycle(series)]
fn read_shift<'a>(alloc: Global, ts: &'a [Lexeme]) -> Result<(Series, &'a [Lexeme]), Stuck>
    ensures found { IfOk result (λ r. IsFactor (Lexeme.Shift ∷ ts.now) r.1.now (term_of r.0)) }
    ensures shorter { IfOk result (λ r. length r.1.now < length ts.now) }
    ensures stuck { IfErr result (λ e.
        IsStuck (open_sign ∷ series ∷ comma_sign ∷ place ∷ close_sign ∷ []) ts.now e) }
{
    let first = open(ts)?;
    let (t, mid) = read_series(alloc, first)?;
    let second = comma(mid)?;
    let (k, last) = read_place(second)?;
    let rest = close(last)?;
    let shifted = shift_of(alloc, t, k)?;
    Ok((shifted, rest))
}
