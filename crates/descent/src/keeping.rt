//! What is kept of all sums of a query.

ghost use Rattle.std.specs.Prelude.{◌≡◌, ◌<◌, ◌≤◌, length, map, List, IfOk, OnOk};
ghost use Rattle.std.specs.List.{All};
ghost use Rattle.std.specs.Option.{option_map};
ghost use Rattle.semantics.specs.Admission.{SumTerm, sums_of};
ghost use Rattle.semantics.specs.Admitted.{IsAdmitted};
ghost use Rattle.semantics.specs.Limits.{sums_in, IsWithinLimits};
ghost use Rattle.semantics.specs.Plain.{IsPlain};
ghost use Rattle.expr.specs.Terms.{query_term_of, range_of, term_of};
ghost use Rattle.error_prop.specs.Queries.{IsCombined};
ghost use Rattle.error_prop.specs.QueryOver.{sums_over};
ghost use Rattle.descent.specs.Changed.{HasChanged};
ghost use Rattle.descent.specs.Charging.{IsLight};
ghost use Rattle.descent.specs.Choice.{At};
ghost use Rattle.descent.specs.CutFields.{CanBeTakenBack, IsKeptAs};
ghost use Rattle.descent.specs.Held.{row_in, shown};
ghost use Rattle.descent.specs.Keeping.{CanKeepAll};
ghost use Rattle.descent.specs.KeptSums.{AreKeptSums};
ghost use Rattle.descent.specs.Known.{facts_in, AreApart};
ghost use Rattle.descent.specs.Laid.{held};
ghost use Rattle.descent.specs.Rows.{entries, Cut};
ghost use Rattle.descent.specs.Sound.{name_of, IsSoundTrack};
ghost use Rattle.descent.specs.Sums.{sum_in};

use crate::cuts::{Change, State};
use crate::kept::KeptSum;
use crate::tables::Table;
use error_prop::{QueryOut, SumIn, combine};
use expr::{Bounds, Query, Series};
use num_text::Memory;
use std::alloc::Global;

/// How many sums a query has.
fn count(q: &Query) -> usize
    requires plain { IsPlain (query_term_of q.now) }
    requires few { sums_in (query_term_of q.now) ≤ 16 }
    ensures { result ≡ sums_in (query_term_of q.now) }
{
    match q {
        Query::Number(_) => 0,
        Query::Sum(..) => 1,
        Query::Var(..) | Query::Cov(..) => unreachable!(),
        Query::Add(p, q) | Query::Sub(p, q) | Query::Mul(p, q) => count(p) + count(q),
    }
}

/// The series of the `k`-th sum of a query, and its range, if it is given.
fn sum_at(q: &Query, k: usize) -> (&Series, Option<Bounds>)
    requires plain { IsPlain (query_term_of q.now) }
    requires few { sums_in (query_term_of q.now) ≤ 16 }
    requires k { k < sums_in (query_term_of q.now) }
    ensures { At k (record { series = term_of result.0.now; range = option_map range_of result.1 })
        (sums_of (query_term_of q.now)) }
{
    match q {
        Query::Number(_) | Query::Var(..) | Query::Cov(..) => unreachable!(),
        Query::Sum(t, range) => (t, *range),
        Query::Add(p, q) | Query::Sub(p, q) | Query::Mul(p, q) => {
            let first = count(p);
            if k < first {
                sum_at(p, k)
            } else {
                sum_at(q, k - first)
            }
        }
    }
}

/// What is kept of the sums of a query, built anew.
fn build_all<I: Copy>(alloc: Global, q: &Query, tables: &[Table<I>]) -> Result<Vec<KeptSum>, Memory>
    requires plain { IsPlain (query_term_of q.now) }
    requires few { sums_in (query_term_of q.now) ≤ 16 }
    requires can { CanKeepAll (shown tables.now) (sums_of (query_term_of q.now)) }
    ensures { IfOk result (λ kept. AreKeptSums (shown tables.now) (sums_of (query_term_of q.now)) kept.items) }
{
    let mut kept = Vec::new(alloc);
    for k in 0..count(q) {
        let (t, range) = sum_at(q, k);
        let sum = KeptSum::build(alloc, t, range, tables)?;
        let Ok(()) = kept.push(sum) else {
            return Err(Memory);
        };
    }
    Ok(kept)
}

/// What is kept of the sums of a query takes over a change.
fn take_over_all<I: Copy>(
    alloc: Global,
    q: &Query,
    tables: &[Table<I>],
    change: &Change<I>,
    kept: &mut Vec<KeptSum>,
) -> Result<(), Memory>
    requires plain { IsPlain (query_term_of q.now) }
    requires few { sums_in (query_term_of q.now) ≤ 16 }
    requires can { CanKeepAll (shown tables.now) (sums_of (query_term_of q.now)) }
    requires before { (before : Cut) × HasChanged change.now.table (row_in (held change.now.row)) before
        (shown tables.now) × AreKeptSums before (sums_of (query_term_of q.now)) kept.old.items }
    ensures { OnOk result (AreKeptSums (shown tables.now) (sums_of (query_term_of q.now)) kept.new.items) }
{
    for k in 0..count(q) {
        let (t, _) = sum_at(q, k);
        let sum = &mut kept[k];
        sum.take_over(alloc, t, tables, change)?;
    }
    Ok(())
}

/// The rows of each series are sound.
fn are_sound<I: Copy>(tables: &[Table<I>])
    ensures { All IsSoundTrack (shown tables.now) }
{
    for i in 0..tables.len() {
        let _ = tables[i].blocks();
    }
}

/// What is kept becomes that of the rows as they are. It is old where memory is wanting.
fn bring_up_to_date<I: Copy>(
    alloc: Global,
    q: &Query,
    tables: &[Table<I>],
    last: &Option<Change<I>>,
    state: &mut State,
    kept: &mut Vec<KeptSum>,
) -> Result<(), Memory>
    requires plain { IsPlain (query_term_of q.now) }
    requires few { sums_in (query_term_of q.now) ≤ 16 }
    requires can { CanKeepAll (shown tables.now) (sums_of (query_term_of q.now)) }
    requires sound { All IsSoundTrack (shown tables.now) }
    requires back { CanBeTakenBack tables.now last.now }
    requires kept { IsKeptAs state.old tables.now last.now (sums_of (query_term_of q.now)) kept.old.items }
    ensures kept { IsKeptAs state.new tables.now last.now (sums_of (query_term_of q.now)) kept.new.items }
    ensures current { OnOk result (AreKeptSums (shown tables.now) (sums_of (query_term_of q.now)) kept.new.items) }
{
    match (*state, last) {
        (State::Current, _) => return Ok(()),
        (State::Noted, Some(change)) => {
            *state = State::Old;
            take_over_all(alloc, q, tables, change, kept)?;
        }
        _ => {
            *state = State::Old;
            *kept = build_all(alloc, q, tables)?;
        }
    }
    *state = State::Current;
    Ok(())
}

/// The estimates and errors of sums, by what is kept of them.
fn estimates_of(alloc: Global, kept: &[KeptSum]) -> Result<Vec<SumIn>, Memory>
    ensures { IfOk result (λ sums. (cut : Cut) (ss : List SumTerm) → CanKeepAll cut ss → AreKeptSums cut ss kept.now
        → sums.items ≡ map (sum_in cut) ss) }
{
    let mut sums = Vec::new(alloc);
    for k in 0..kept.len() {
        let sum = kept[k].sum();
        let Ok(()) = sums.push(sum) else {
            return Err(Memory);
        };
    }
    Ok(sums)
}

/// The interval of a query over the rows as they are, of which all sums are kept then.
pub(crate) fn combined<I: Copy>(
    alloc: Global,
    q: &Query,
    tables: &[Table<I>],
    last: &Option<Change<I>>,
    state: &mut State,
    kept: &mut Vec<KeptSum>,
) -> Result<QueryOut, Memory>
    requires plain { IsPlain (query_term_of q.now) }
    requires limits { IsWithinLimits (query_term_of q.now) }
    requires admitted { IsAdmitted (facts_in tables.now) (query_term_of q.now) }
    requires series { length tables.now ≤ 16 }
    requires apart { AreApart (map name_of tables.now) }
    requires back { CanBeTakenBack tables.now last.now }
    requires kept { IsKeptAs state.old tables.now last.now (sums_of (query_term_of q.now)) kept.old.items }
    ensures kept { IsKeptAs state.new tables.now last.now (sums_of (query_term_of q.now)) kept.new.items }
    ensures current { OnOk result (AreKeptSums (shown tables.now) (sums_of (query_term_of q.now)) kept.new.items) }
    ensures can { OnOk result (CanKeepAll (shown tables.now) (sums_of (query_term_of q.now))) }
    ensures light { IfOk result (λ out. All IsLight out.sums) }
    ensures out { IfOk result (IsCombined (query_term_of q.now) (sums_over (entries (shown tables.now))
        (query_term_of q.now))) }
{
    are_sound(tables);
    bring_up_to_date(alloc, q, tables, last, state, kept)?;
    let sums = estimates_of(alloc, kept.as_slice())?;
    let out = combine(alloc, q, sums.as_slice())?;
    Ok(out)
}
