//! A certificate against a store.

ghost use Rattle.std.specs.Prelude.{◌≡◌, ◌⊎◌, ℕ, Ok, Err, Some, IfOk, IfErr};
ghost use Rattle.error_prop.specs.Places.{IsShort};
ghost use Rattle.error_prop.specs.Queries.{interval_over};
ghost use Rattle.error_prop.specs.QueryOver.{sums_over, AdmitsQuery};
ghost use Rattle.expr.specs.Terms.{query_term_of};
ghost use Rattle.expr_parse.specs.Parsed.{parsed};
ghost use Rattle.interval.specs.Interval.{Interval};
ghost use Rattle.semantics.specs.Admitted.{IsAdmitted};
ghost use Rattle.semantics.specs.Limits.{IsWithinLimits};
ghost use Rattle.semantics.specs.Plain.{IsPlain};
ghost use Rattle.store_file.specs.Facts.{facts_in};
ghost use Rattle.store_file.specs.Stored.{store_value};
ghost use Rattle.answer_check.specs.declared.verdict.VerifyErr.TheVariants.{Memory as no_memory};
ghost use Rattle.answer_check.specs.Verdict.{answer_of, judged, plain_by, verdict_of};

use crate::certificate::Cert;
use crate::framing::{CutErr, frame_of};
use crate::verdict::{Verdict, VerifyErr};
use error_prop::{Frame, query_interval};
use expr::{Query, admit};
use expr_parse::{ParseErr, parse};
use interval::Iv;
use num_text::Memory;
use stats::expand;
use std::alloc::Global;
use store_file::Store;

impl From<Memory> for VerifyErr {
    ghost from_gives = { λ _ e. e ≡ no_memory };

    fn from(_e: Memory) -> VerifyErr {
        VerifyErr::Memory
    }
}

/// The query of a text.
fn query_of(alloc: Global, store: &Store, text: &[u8]) -> Result<Query, VerifyErr>
    ensures query { IfOk result (λ q. parsed text.now ≡ Ok (query_term_of q)) }
    ensures limits { IfOk result (λ q. IsWithinLimits (query_term_of q)) }
    ensures refused { IfErr result (λ e. (e ≡ no_memory)
        ⊎ (plain_by (store_value store.now) (parsed text.now) ≡ Err e)) }
{
    match parse(alloc, text) {
        Ok(q) => Ok(q),
        Err(ParseErr::Memory) => Err(VerifyErr::Memory),
        Err(e) => Err(VerifyErr::Parse(e)),
    }
}

/// A query with its statistics written out, where that is admitted over a store.
fn admitted(alloc: Global, store: &Store, q: &Query) -> Result<Query, VerifyErr>
    requires { IsWithinLimits (query_term_of q.now) }
    ensures query { IfOk result (λ p. plain_by (store_value store.now) (Ok (query_term_of q.now))
        ≡ Ok (query_term_of p)) }
    ensures plain { IfOk result (λ p. IsPlain (query_term_of p)) }
    ensures limits { IfOk result (λ p. IsWithinLimits (query_term_of p)) }
    ensures admitted { IfOk result (λ p. IsAdmitted (facts_in (store_value store.now)) (query_term_of p)) }
    ensures refused { IfErr result (λ e. (e ≡ no_memory)
        ⊎ (plain_by (store_value store.now) (Ok (query_term_of q.now)) ≡ Err e)) }
{
    let facts = store.facts()?;
    let plain = expand(alloc, q)?;
    match admit(&plain, &facts) {
        Ok(()) => Ok(plain),
        Err(e) => Err(VerifyErr::Admit(e)),
    }
}

/// The plain query of a text over a store.
fn plain_query(alloc: Global, store: &Store, text: &[u8]) -> Result<Query, VerifyErr>
    ensures query { IfOk result (λ p. plain_by (store_value store.now) (parsed text.now) ≡ Ok (query_term_of p)) }
    ensures plain { IfOk result (λ p. IsPlain (query_term_of p)) }
    ensures limits { IfOk result (λ p. IsWithinLimits (query_term_of p)) }
    ensures admitted { IfOk result (λ p. IsAdmitted (facts_in (store_value store.now)) (query_term_of p)) }
    ensures refused { IfErr result (λ e. (e ≡ no_memory)
        ⊎ (plain_by (store_value store.now) (parsed text.now) ≡ Err e)) }
{
    let q = query_of(alloc, store, text)?;
    let plain = admitted(alloc, store, &q)?;
    Ok(plain)
}

/// The interval that a frame proves.
fn interval_of(alloc: Global, q: &Query, frame: &Frame) -> Result<Iv, Memory>
    requires plain { IsPlain (query_term_of q.now) }
    requires limits { IsWithinLimits (query_term_of q.now) }
    requires short { IsShort frame.now }
    requires admitted { AdmitsQuery frame.now (query_term_of q.now) }
    requires there { (iv : Interval)
        × (interval_over (query_term_of q.now) (sums_over frame.now (query_term_of q.now)) ≡ Some iv) }
    ensures { IfOk result (λ iv. interval_over (query_term_of q.now) (sums_over frame.now (query_term_of q.now))
        ≡ Some iv) }
{
    let out = query_interval(alloc, q, frame)?;
    match out.iv {
        Some(iv) => Ok(iv),
        None => unreachable!(),
    }
}

/// What a certificate comes to whose cut proves this interval, whose ends are in order, as `width` says.
fn judged(c: &Cert, proved: &Iv) -> Verdict
    ensures { result ≡ judged c.now proved.now }
{
    let _ordered = proved.width();
    if proved.lo() < c.lo || c.hi < proved.hi() {
        return Verdict::Escapes(*proved);
    }
    let width = c.hi.abs_diff(c.lo);
    if c.budget < width {
        return Verdict::Wide(width);
    }
    Verdict::Holds
}

/// The verdict on a certificate whose plain query is this one.
fn verdict_over(alloc: Global, store: &Store, q: &Query, c: &Cert) -> Result<Verdict, Memory>
    requires plain { IsPlain (query_term_of q.now) }
    requires limits { IsWithinLimits (query_term_of q.now) }
    requires admitted { IsAdmitted (facts_in (store_value store.now)) (query_term_of q.now) }
    ensures { IfOk result (λ v. v ≡ verdict_of (store_value store.now) (query_term_of q.now) c.now) }
{
    match frame_of(alloc, store, q, c.cut.as_slice()) {
        Ok(frame) => {
            let proved = interval_of(alloc, q, &frame)?;
            Ok(judged(c, &proved))
        }
        Err(CutErr::At(place)) => Ok(Verdict::NotACut(place)),
        Err(CutErr::Memory) => Err(Memory),
    }
}

/// The verdict on a certificate over a store, or why its query is refused. It runs no descent.
pub fn verify(alloc: Global, store: &Store, c: &Cert) -> Result<Verdict, VerifyErr>
    ensures verdict { IfOk result (λ v. answer_of (store_value store.now) c.now ≡ Ok v) }
    ensures refused { IfErr result (λ e. (e ≡ no_memory)
        ⊎ (answer_of (store_value store.now) c.now ≡ Err e)) }
{
    let q = plain_query(alloc, store, c.query.as_slice())?;
    let verdict = verdict_over(alloc, store, &q, c)?;
    Ok(verdict)
}
