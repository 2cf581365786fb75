//! The roots of the series that a query names.

ghost use Rattle.std.specs.Prelude.{◌≡◌, ℕ, ◌+◌, ◌<◌, ◌≤◌, ◌↔◌, length, slice_index, Err, IfOk, None, Some};
ghost use Rattle.semantics.specs.Admitted.{IsAdmitted};
ghost use Rattle.semantics.specs.Faults.{Rose};
ghost use Rattle.semantics.specs.Limits.{IsWithinLimits};
ghost use Rattle.semantics.specs.Plain.{IsPlain};
ghost use Rattle.expr.specs.Terms.{query_term_of};
ghost use Rattle.segment.specs.declared.segments.Seg.{Seg};
ghost use Rattle.segment.specs.Nodes.{known_root, tree_in, Forest, HandsOut, KeepsRoots, Place};
ghost use Rattle.descent.specs.declared.descents.DescentErr.TheVariants.{Failed, Bad};
ghost use Rattle.descent.specs.Spelled.{spelled};
ghost use Rattle.descent.specs.Rows.{with_rows};
ghost use Rattle.descent.specs.Held.{row_in, head_of, heads, shown, AreRising, IsTrackOf, AreTracksOf};
ghost use Rattle.descent.specs.Known.{facts_in, node_facts, root_head, heads_from, AreRootsKnown, AreApart};
ghost use Rattle.descent.specs.Spent.{has_root, opened_among, opened_in, roots_in, rows_in};
ghost use Rattle.descent.specs.Descents as tree;
ghost use Rattle.descent.specs.Descents.{cut_of, root_track, row_of};

use crate::cuts::{Cut, State};
use crate::descents::DescentErr;
use crate::naming::is_in_query;
use crate::tables::Table;
use expr::{Name, Query};
use segment::Nodes;
use std::alloc::Global;

/// The root of a series.
fn root_of<N: Nodes>(
    alloc: Global,
    nodes: &mut N,
    source: &mut N::Source,
    series: u32,
    name: Name,
) -> Result<Table<N::Id>, DescentErr>
    requires series { series < length (N.lengths nodes.old) }
    requires known { 0 < slice_index (N.lengths nodes.old) series → (g : Seg)
        × (known_root (N.roots nodes.old) series ≡ Some g) }
    ensures root { IfOk result (λ t. (forest : Forest) → N.means nodes.old source.old forest
        → with_rows row_in t ≡ with_rows row_of (root_track series name (tree_in forest series))) }
    ensures of { IfOk result (IsTrackOf (N.lengths nodes.new) (N.roots nodes.new) (N.stands nodes.new source.new)) }
    ensures head { IfOk result (λ t. head_of t ≡ root_head (N.lengths nodes.new) (N.roots nodes.new) series name) }
    ensures rows { IfOk result (λ t. length t.rows ≡ has_root (slice_index (N.lengths nodes.old) series)) }
    ensures closed { IfOk result (λ t. opened_among t.rows ≡ 0) }
    ensures handed { HandsOut 0 (N.handed source.old) (N.handed source.new) }
    ensures failed { result ≡ Err Failed → Rose (N.faults source.old) (N.faults source.new) }
    ensures bad { result ≡ Err Bad → (forest : Forest) → N.means nodes.old source.old forest → ⊥ }
    ensures means { (forest : Forest) → N.means nodes.old source.old forest ↔ N.means nodes.new source.new forest }
    ensures later { N.faults source.old ≤ N.faults source.new }
    ensures ids { (i : N.Id) (p : Place) → N.stands nodes.old source.old i p → N.stands nodes.new source.new i p }
    ensures roots { KeepsRoots (N.roots nodes.old) (N.roots nodes.new) }
    ensures lasting { N.lasting source.new ≡ N.lasting source.old }
    ensures lengths { N.lengths nodes.new ≡ N.lengths nodes.old }
{
    let len = nodes.readings_len(series);
    let root = nodes.root(source, series)?;
    let table = Table::of_root(alloc, series, name, len, root)?;
    Ok(table)
}

/// The roots of the series that a query names.
fn root_tables<N: Nodes>(
    alloc: Global,
    nodes: &mut N,
    source: &mut N::Source,
    names: &[Name],
    q: &Query,
) -> Result<Vec<Table<N::Id>>, DescentErr>
    requires names { length names.now ≡ length (N.lengths nodes.old) }
    requires few { length names.now ≤ 16 }
    requires known { AreRootsKnown (query_term_of q.now) names.now (N.lengths nodes.old) (N.roots nodes.old) }
    ensures cut { IfOk result (λ ts. (forest : Forest) → N.means nodes.old source.old forest
        → shown ts.items ≡ cut_of (tree.roots (query_term_of q.now) forest names.now)) }
    ensures of { IfOk result (λ ts. AreTracksOf (N.lengths nodes.new) (N.roots nodes.new)
        (N.stands nodes.new source.new) ts.items) }
    ensures heads { IfOk result (λ ts. heads ts.items ≡ heads_from (query_term_of q.now) (N.lengths nodes.old)
        (N.roots nodes.old) 0 names.now) }
    ensures rising { IfOk result (λ ts. AreRising 0 ts.items) }
    ensures rows { IfOk result (λ ts. rows_in ts.items ≡ roots_in (query_term_of q.now)
        (N.lengths nodes.old) 0 names.now) }
    ensures closed { IfOk result (λ ts. opened_in ts.items ≡ 0) }
    ensures handed { HandsOut 0 (N.handed source.old) (N.handed source.new) }
    ensures failed { result ≡ Err Failed → Rose (N.faults source.old) (N.faults source.new) }
    ensures bad { result ≡ Err Bad → (forest : Forest) → N.means nodes.old source.old forest → ⊥ }
    ensures means { (forest : Forest) → N.means nodes.old source.old forest ↔ N.means nodes.new source.new forest }
    ensures later { N.faults source.old ≤ N.faults source.new }
    ensures ids { (i : N.Id) (p : Place) → N.stands nodes.old source.old i p → N.stands nodes.new source.new i p }
    ensures roots { KeepsRoots (N.roots nodes.old) (N.roots nodes.new) }
    ensures lasting { N.lasting source.new ≡ N.lasting source.old }
    ensures lengths { N.lengths nodes.new ≡ N.lengths nodes.old }
{
    let mut tables = Vec::new(alloc);
    for k in 0..names.len() {
        let name = names[k];
        if !is_in_query(q, &name) {
            continue;
        }
        let table = root_of(alloc, nodes, source, k as u32, name)?;
        tables.push(table)?;
    }
    Ok(tables)
}

/// The cut of the roots of the series that a query names.
pub fn roots<N: Nodes>(
    alloc: Global,
    nodes: &mut N,
    source: &mut N::Source,
    names: &[Name],
    q: &Query,
) -> Result<Cut<N::Id>, DescentErr>
    requires names { length names.now ≡ length (N.lengths nodes.old) }
    requires few { length names.now ≤ 16 }
    requires apart { AreApart names.now }
    requires known { AreRootsKnown (query_term_of q.now) names.now (N.lengths nodes.old) (N.roots nodes.old) }
    requires plain { IsPlain (query_term_of q.now) }
    requires limits { IsWithinLimits (query_term_of q.now) }
    requires admitted { IsAdmitted (node_facts names.now (N.lengths nodes.old) (N.roots nodes.old))
        (query_term_of q.now) }
    ensures cut { IfOk result (λ c. (forest : Forest) → N.means nodes.old source.old forest
        → shown c.tracks ≡ cut_of (tree.roots (query_term_of q.now) forest names.now)) }
    ensures of { IfOk result (λ c. AreTracksOf (N.lengths nodes.new) (N.roots nodes.new)
        (N.stands nodes.new source.new) c.tracks) }
    ensures heads { IfOk result (λ c. heads c.tracks ≡ heads_from (query_term_of q.now) (N.lengths nodes.old)
        (N.roots nodes.old) 0 names.now) }
    ensures admitted { IfOk result (λ c. IsAdmitted (facts_in c.tracks) (query_term_of q.now)) }
    ensures query { IfOk result (λ c. c.query ≡ spelled (query_term_of q.now)) }
    ensures before { IfOk result (λ c. c.before ≡ None) }
    ensures rows { IfOk result (λ c. rows_in c.tracks ≡ roots_in (query_term_of q.now)
        (N.lengths nodes.old) 0 names.now) }
    ensures closed { IfOk result (λ c. opened_in c.tracks ≡ 0) }
    ensures handed { HandsOut 0 (N.handed source.old) (N.handed source.new) }
    ensures failed { result ≡ Err Failed → Rose (N.faults source.old) (N.faults source.new) }
    ensures bad { result ≡ Err Bad → (forest : Forest) → N.means nodes.old source.old forest → ⊥ }
    ensures means { (forest : Forest) → N.means nodes.old source.old forest ↔ N.means nodes.new source.new forest }
    ensures later { N.faults source.old ≤ N.faults source.new }
    ensures ids { (i : N.Id) (p : Place) → N.stands nodes.old source.old i p → N.stands nodes.new source.new i p }
    ensures roots { KeepsRoots (N.roots nodes.old) (N.roots nodes.new) }
    ensures lasting { N.lasting source.new ≡ N.lasting source.old }
    ensures lengths { N.lengths nodes.new ≡ N.lengths nodes.old }
{
    let query = q.copy(alloc)?;
    let tables = root_tables(alloc, nodes, source, names, q)?;
    Ok(Cut {
        alloc,
        query,
        tables,
        last: None,
        state: State::Old,
        kept: Vec::new(alloc),
    })
}
