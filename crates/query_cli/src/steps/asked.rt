ghost use Rattle.std.specs.Prelude.{◌≡◌, map, string_bytes, None, OnOk, IfOk, IfErr};
ghost use Rattle.std.specs.Map.{keys_of, values_of};
ghost use Rattle.expr.specs.Facts.{facts_of};
ghost use Rattle.expr.specs.Refusals.{refusal_by};
ghost use Rattle.expr.specs.Terms.{query_term_of};
ghost use Rattle.descent.specs.Told.{Tells};
ghost use Rattle.interval.specs.Interval.{Has};
ghost use Rattle.semantics.specs.Admission.{refusal_of};
ghost use Rattle.semantics.specs.Admitted.{IsAdmitted};
ghost use Rattle.semantics.specs.Limits.{IsWithinLimits};
ghost use Rattle.semantics.specs.Plain.{IsPlain, plain};
ghost use Rattle.semantics.specs.Value.{query_value};
ghost use Rattle.store_file.specs.Facts.{facts_in};
ghost use Rattle.store_file.specs.Stored.{store_value};
ghost use Rattle.query_cli.specs.Asked.{IsAnswered, admitted_in, readings_in, roots_in};
ghost use Rattle.query_cli.specs.Refusals.{query_refusal};
ghost use Rattle.query_cli.specs.Stops.{IfRefused, IsNotAdmitted, IsStepRefusal};

use crate::refusals::Refusal;
use crate::steps::answer_line::line_of;
use crate::stop::{Stop, refuse};
use descent::{Answer, DescentErr, descend};
use expr::{AdmitErr, Fact, Name, Query, admit};
use indexmap::IndexMap;
use seg_tree::{ArenaNodes, Tree};
use stats::expand;
use std::alloc::{AllocError, Global};
use store_file::{Store, Stored};

// The names of the series, in order.
fn names_of(alloc: Global, series: &IndexMap<Name, Stored>) -> Result<Vec<Name>, AllocError>
    ensures { IfOk result (λ names. names.items ≡ keys_of series.now.entries) }
{
    series.keys().copied().collect(alloc)
}

// Their trees.
fn trees_of(alloc: Global, series: &IndexMap<Name, Stored>) -> Result<Vec<Tree>, AllocError>
    ensures { IfOk result (λ trees. trees.items ≡ map (λ v. v.tree) (values_of series.now.entries)) }
{
    series.values().map(|stored| stored.tree).collect(alloc)
}

/// Why a query is not admitted.
pub(crate) fn not_admitted(alloc: Global, e: &AdmitErr) -> Stop
    ensures { IfRefused result (λ r. r ≡ query_refusal (refusal_by e.now)) }
{
    match e {
        AdmitErr::Unknown(name) => refuse(alloc, &Refusal::QueryUnknown(*name)),
        AdmitErr::Rank(sum) => refuse(alloc, &Refusal::QueryRank(*sum)),
        AdmitErr::Domain { sum, lo, hi } => {
            let (sum, lo, hi) = (*sum, *lo, *hi);
            refuse(alloc, &Refusal::Domain { sum, lo, hi })
        }
        AdmitErr::Range(node) => refuse(alloc, &Refusal::Range(*node)),
    }
}

/// The query with its statistics written out, where that is admitted by what is known of the series.
pub(crate) fn plain_query(alloc: Global, q: &Query, facts: &[Fact]) -> Result<Query, Stop>
    requires { IsWithinLimits (query_term_of q.now) }
    ensures query { IfOk result (λ p. query_term_of p ≡ plain (query_term_of q.now)) }
    ensures ok { OnOk result (refusal_of (facts_of facts.now) (plain (query_term_of q.now)) ≡ None) }
    ensures admitted { IfOk result (λ p. IsAdmitted (facts_of facts.now) (query_term_of p)) }
    ensures plain { IfOk result (λ p. IsPlain (query_term_of p)) }
    ensures limits { IfOk result (λ p. IsWithinLimits (query_term_of p)) }
    ensures refused { IfErr result (λ s.
        IfRefused s (IsNotAdmitted (refusal_of (facts_of facts.now) (plain (query_term_of q.now))))) }
{
    let plain = expand(alloc, q)?;
    match admit(&plain, facts) {
        Ok(()) => Ok(plain),
        Err(e) => Err(not_admitted(alloc, &e)),
    }
}

// The answer of the descent over the series of a store.
fn descent_over(alloc: Global, store: &Store, q: &Query, budget: u128) -> Result<Answer, AllocError>
    requires plain { IsPlain (query_term_of q.now) }
    requires limits { IsWithinLimits (query_term_of q.now) }
    requires admitted { IsAdmitted (facts_in (store_value store.now)) (query_term_of q.now) }
    ensures told { IfOk result (Tells (query_term_of q.now) (roots_in (query_term_of q.now)
        (store_value store.now)) budget) }
    ensures holds { IfOk result (λ a.
        Has a.iv (query_value (readings_in (store_value store.now)) (query_term_of q.now))) }
{
    let names = names_of(alloc, &store.series)?;
    let trees = trees_of(alloc, &store.series)?;
    let mut nodes = ArenaNodes::new(&store.arena, &trees);
    match descend(alloc, &mut nodes, &mut (), &names, q, budget) {
        Ok(answer) => Ok(answer),
        Err(DescentErr::Memory) => Err(AllocError),
        Err(DescentErr::Failed | DescentErr::Bad) => unreachable!(),
    }
}

/// The line of the interval of a query over a store, or why the query is not admitted.
pub(crate) fn answer_over(
    alloc: Global,
    store: &Store,
    q: &Query,
    budget: u128,
) -> Result<String, Stop>
    requires { IsWithinLimits (query_term_of q.now) }
    ensures ok { IfOk result (λ t.
        IsAnswered (query_term_of q.now) (store_value store.now) budget (string_bytes t)) }
    ensures refused { IfErr result (λ s.
        IfRefused s (IsStepRefusal (admitted_in (query_term_of q.now) (store_value store.now)))) }
{
    let facts = store.facts()?;
    let plain = plain_query(alloc, q, &facts)?;
    let answer = descent_over(alloc, store, &plain, budget)?;
    let line = line_of(alloc, &answer)?;
    Ok(line)
}
