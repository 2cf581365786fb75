//! Cuts: the rows of each series that a query names.

ghost use Rattle.std.specs.Prelude.{◌≡◌, ℕ, ◌+◌, ◌^◌, ◌<◌, ◌≤◌, ◌↔◌, length, slice_index, Some, None, Ok, Err, OnOk, OnErr, IfOk, IfSome, List, ◌∷◌, [], get_or, is_some, true};
ghost use Rattle.semantics.specs.Admitted.{IsAdmitted};
ghost use Rattle.semantics.specs.Faults.{Rose};
ghost use Rattle.semantics.specs.Limits.{IsWithinLimits};
ghost use Rattle.semantics.specs.Plain.{IsPlain};
ghost use Rattle.expr.specs.Terms.{query_term_of};
ghost use Rattle.segment.specs.declared.segments.Seg.{Seg};
ghost use Rattle.segment.specs.declared.node_access.NodeErr.TheVariants.{Failed, Bad};
ghost use Rattle.segment.specs.Nodes.{Forest, Place, HandsOut, KeepsRoots};
ghost use Rattle.error_prop.specs.Queries.{IsCombined};
ghost use Rattle.error_prop.specs.QueryOver.{sums_over};
ghost use Rattle.descent.specs.Rows.{Track, entries, with_rows};
ghost use Rattle.descent.specs.Sound.{IsSoundTrack};
ghost use Rattle.descent.specs.Choice.{Has, choice};
ghost use Rattle.descent.specs.Spelled.{spelled};
ghost use Rattle.descent.specs.Descents as tree;
ghost use Rattle.descent.specs.Descents.{Node, cut_of, expanded, expanded_row, row_of};
ghost use Rattle.descent.specs.Held.{Held, heads, row_in, shown, IsTrackOf, AreTracksOf, IsNodeOf, AreNodesOf, IsClosedAt, steps_in, steps_left};
ghost use Rattle.descent.specs.Known.{facts_in};
ghost use Rattle.descent.specs.Keeping.{state_after, state_back};
ghost use Rattle.descent.specs.Laid.{held, restored, CanGoBack};
ghost use Rattle.descent.specs.Spent.{opened_among, opened_in, rows_in, Spends};
ghost use Rattle.descent.specs.Told.{told};
ghost use Rattle.descent.specs.Stepped.{IsClosedFrom, StepsTrack};

use crate::Pick;
use crate::choosing::heaviest_line;
use crate::keeping::combined;
use crate::kept::KeptSum;
use crate::rows::Rows;
use crate::tables::{Row, Table};
use error_prop::QueryOut;
use expr::Query;
use num_text::Memory;
use segment::{Children, NodeErr, Nodes, Seg};
use std::alloc::Global;
use std::marker::Model;

/// A row that gave way to others, and which table has it.
#[derive(Clone, Copy, Drop)]
pub(crate) struct Change<I> {
    pub(crate) table: usize,
    pub(crate) row: Row<I>,
}

/// Of which rows the sums of the query are kept.
#[derive(Clone, Copy, Drop)]
pub(crate) enum State {
    /// Of none that are known.
    Old,
    /// Of those before the last step.
    Noted,
    /// Of those that there are.
    Current,
}

impl State {
    /// After one more step.
    fn after(self) -> State
        ensures { result ≡ state_after self }
    {
        match self {
            State::Current => State::Noted,
            State::Noted | State::Old => State::Old,
        }
    }

    /// After the last step is taken back.
    fn back(self) -> State
        ensures { result ≡ state_back self }
    {
        match self {
            State::Noted => State::Current,
            State::Current | State::Old => State::Old,
        }
    }
}

/// A cut, seen as the query for which it was made, its rows series by series, and what these were before the last step.
#[derive(Drop)]
pub struct Cut<I> {
    pub(crate) alloc: Global,
    pub(crate) query: Query,
    pub(crate) tables: Vec<Table<I>>,
    pub(crate) last: Option<Change<I>>,
    pub(crate) state: State,
    /// What is kept of each sum of the query, from left to right.
    pub(crate) kept: Vec<KeptSum>,
}

impl<I> Model for Cut<I> {
    ghost use Rattle.descent.specs.Held.{CutView};

    ghost Value = { CutView I };

    ghost use Rattle.descent.specs.CutFields.{view_of, IsCut};

    ghost view = { view_of };

    ghost invariant = { IsCut };
}

/// A closed row.
fn closed<I: Copy>(id: I, seg: &Seg) -> Row<I>
    ensures { result ≡ record { id = id; seg = seg.now; readings = None } }
{
    Row {
        id,
        seg: *seg,
        readings: None,
    }
}

/// The row of a series from a position on, which gives way to its node's children, or is opened where it is a leaf.
fn expand_row<N: Nodes>(
    table: &mut Table<N::Id>,
    nodes: &mut N,
    source: &mut N::Source,
    start: u32,
) -> Result<Row<N::Id>, NodeErr>
    requires at { IsClosedFrom table.old start }
    requires of { IsTrackOf (N.lengths nodes.old) (N.roots nodes.old) (N.stands nodes.old source.old) table.old }
    ensures step { OnOk result ((forest : Forest) → N.means nodes.old source.old forest
        → StepsTrack forest start table.old table.new) }
    ensures of { OnOk result (IsTrackOf (N.lengths nodes.new) (N.roots nodes.new)
        (N.stands nodes.new source.new) table.new) }
    ensures less { OnOk result (steps_in table.new.rows < steps_in table.old.rows) }
    ensures same { table.new ≡ record table.old { rows = table.new.rows } }
    ensures sound { IsSoundTrack (with_rows row_in table.old) }
    ensures back { IfOk result (λ row. CanGoBack row table.new.rows) }
    ensures restored { IfOk result (λ row. restored (held row) table.new.rows ≡ table.old.rows) }
    ensures err { OnErr result (table.new ≡ table.old) }
    ensures failed { result ≡ Err Failed → Rose (N.faults source.old) (N.faults source.new) }
    ensures bad { result ≡ Err Bad → (forest : Forest) → N.means nodes.old source.old forest → ⊥ }
    ensures spent { OnOk result (Spends (length table.old.rows) (opened_among table.old.rows)
        (length table.new.rows) (opened_among table.new.rows) (N.handed source.old) (N.handed source.new)) }
    ensures handed { HandsOut 112 (N.handed source.old) (N.handed source.new) }
    ensures means { (forest : Forest) → N.means nodes.old source.old forest ↔ N.means nodes.new source.new forest }
    ensures later { N.faults source.old ≤ N.faults source.new }
    ensures ids { (i : N.Id) (p : Place) → N.stands nodes.old source.old i p → N.stands nodes.new source.new i p }
    ensures roots { KeepsRoots (N.roots nodes.old) (N.roots nodes.new) }
    ensures lasting { N.lasting source.new ≡ N.lasting source.old }
    ensures lengths { N.lengths nodes.new ≡ N.lengths nodes.old }
{
    let Some(row) = table.row_from(start) else {
        unreachable!()
    };
    if row.seg.len <= 16 {
        let mut readings = [0i32; 16];
        nodes.readings(source, row.id, &mut readings)?;
        let opened = Row {
            readings: Some(readings),
            ..row
        };
        table.open(opened);
        return Ok(row);
    }
    let children = nodes.children(source, row.id)?;
    let left = closed(children.left, &children.left_seg);
    let right = closed(children.right, &children.right_seg);
    table.split(left, right);
    Ok(row)
}

/// The place of the rows of a series.
fn place_of<I: Copy>(tables: &[Table<I>], series: u32) -> Option<usize>
    ensures some { IfSome result (λ k. (k < length tables.now) × ((d : Track (Held I))
        → (get_or tables.now k d).series ≡ series)) }
    ensures none { result ≡ None → (k : ℕ) (d : Track (Held I)) → k < length tables.now
        → (get_or tables.now k d).series ≡ series → ⊥ }
{
    tables.iter().position(|table| table.series() == series)
}

impl<I: Copy> Cut<I> {
    /// The interval of the query over the cut's segments, and what it says of each of its sums.
    pub fn interval(&mut self, q: &Query) -> Result<QueryOut, Memory>
        requires query { self.old.query ≡ spelled (query_term_of q.now) }
        requires plain { IsPlain (query_term_of q.now) }
        requires limits { IsWithinLimits (query_term_of q.now) }
        requires admitted { IsAdmitted (facts_in self.old.tracks) (query_term_of q.now) }
        ensures out { IfOk result (IsCombined (query_term_of q.now) (sums_over (entries (shown self.old.tracks))
            (query_term_of q.now))) }
        ensures same { self.new ≡ self.old }
    {
        let tables = self.tables.as_slice();
        let out = combined(
            self.alloc,
            q,
            tables,
            &self.last,
            &mut self.state,
            &mut self.kept,
        )?;
        Ok(out)
    }

    /// The interval of the query, and the row that is to give way in the next step, as `interval` and `choose` answer
    /// them.
    pub(crate) fn look(&mut self, q: &Query) -> Result<(QueryOut, Option<Pick>), Memory>
        requires query { self.old.query ≡ spelled (query_term_of q.now) }
        requires plain { IsPlain (query_term_of q.now) }
        requires limits { IsWithinLimits (query_term_of q.now) }
        requires admitted { IsAdmitted (facts_in self.old.tracks) (query_term_of q.now) }
        ensures out { IfOk result (λ seen. IsCombined (query_term_of q.now) (sums_over (entries (shown self.old.tracks))
            (query_term_of q.now)) seen.0) }
        ensures choice { IfOk result (λ seen. seen.1 ≡ choice (query_term_of q.now) (shown self.old.tracks)) }
        ensures closed { IfOk result (λ seen. IfSome seen.1 (IsClosedAt self.old.tracks)) }
        ensures same { self.new ≡ self.old }
    {
        let tables = self.tables.as_slice();
        let out = combined(
            self.alloc,
            q,
            tables,
            &self.last,
            &mut self.state,
            &mut self.kept,
        )?;
        let Some(k) = heaviest_line(out.sums.as_slice()) else {
            return Ok((out, None));
        };
        let sum = &self.kept[k];
        let row = sum.heaviest(self.tables.as_slice());
        Ok((out, row))
    }

    /// The row that is to give way in the next step, or none where no sum matters or the interval is crossed.
    pub fn choose(&mut self, q: &Query) -> Result<Option<Pick>, Memory>
        requires query { self.old.query ≡ spelled (query_term_of q.now) }
        requires plain { IsPlain (query_term_of q.now) }
        requires limits { IsWithinLimits (query_term_of q.now) }
        requires admitted { IsAdmitted (facts_in self.old.tracks) (query_term_of q.now) }
        ensures choice { IfOk result (λ at. at ≡ choice (query_term_of q.now) (shown self.old.tracks)) }
        ensures closed { IfOk result (λ at. IfSome at (IsClosedAt self.old.tracks)) }
        ensures same { self.new ≡ self.old }
    {
        let (_, at) = self.look(q)?;
        Ok(at)
    }

    /// The closed row at a place gives way to its node's children, or is opened where it is a leaf.
    pub fn expand<N: Nodes<Id = I>>(
        &mut self,
        nodes: &mut N,
        source: &mut N::Source,
        at: Pick,
    ) -> Result<(), NodeErr>
        requires at { IsClosedAt self.old.tracks at }
        requires of { AreTracksOf (N.lengths nodes.old) (N.roots nodes.old)
            (N.stands nodes.old source.old) self.old.tracks }
        ensures step { OnOk result ((forest : Forest) (ns : tree.Nodes) → N.means nodes.old source.old forest
            → AreNodesOf forest ns
            → shown self.old.tracks ≡ cut_of ns → shown self.new.tracks ≡ cut_of (expanded at ns)) }
        ensures of { OnOk result (AreTracksOf (N.lengths nodes.new) (N.roots nodes.new)
            (N.stands nodes.new source.new) self.new.tracks) }
        ensures query { self.new.query ≡ self.old.query }
        ensures heads { heads self.new.tracks ≡ heads self.old.tracks }
        ensures before { OnOk result (self.new.before ≡ Some self.old.tracks) }
        ensures less { OnOk result (steps_left self.new.tracks < steps_left self.old.tracks) }
        ensures err { OnErr result (self.new ≡ self.old) }
        ensures failed { result ≡ Err Failed → Rose (N.faults source.old) (N.faults source.new) }
        ensures bad { result ≡ Err Bad → (forest : Forest) → N.means nodes.old source.old forest → ⊥ }
        ensures spent { OnOk result (Spends (rows_in self.old.tracks) (opened_in self.old.tracks)
            (rows_in self.new.tracks) (opened_in self.new.tracks) (N.handed source.old) (N.handed source.new)) }
        ensures handed { HandsOut 112 (N.handed source.old) (N.handed source.new) }
        ensures means { (forest : Forest)
            → N.means nodes.old source.old forest ↔ N.means nodes.new source.new forest }
        ensures later { N.faults source.old ≤ N.faults source.new }
        ensures ids { (i : I) (p : Place) → N.stands nodes.old source.old i p → N.stands nodes.new source.new i p }
        ensures roots { KeepsRoots (N.roots nodes.old) (N.roots nodes.new) }
        ensures lasting { N.lasting source.new ≡ N.lasting source.old }
        ensures lengths { N.lengths nodes.new ≡ N.lengths nodes.old }
    {
        let Some(k) = place_of(&self.tables, at.series) else {
            unreachable!()
        };
        let row = expand_row(&mut self.tables[k], nodes, source, at.start)?;
        self.last = Some(Change { table: k, row });
        self.state = self.state.after();
        Ok(())
    }

    /// The rows are what they were before the last step.
    pub fn take_back(&mut self)
        requires { is_some self.old.before ≡ true }
        ensures tracks { self.old.before ≡ Some self.new.tracks }
        ensures before { self.new.before ≡ None }
        ensures query { self.new.query ≡ self.old.query }
    {
        let Some(change) = self.last else {
            unreachable!()
        };
        self.tables[change.table].put_back(change.row);
        self.last = None;
        self.state = self.state.back();
    }

    /// The rows, from the least series and start on.
    pub fn rows(&self) -> Result<Rows, Memory>
        ensures rows { IfOk result (λ rows. rows ≡ told (shown self.now.tracks)) }
        ensures few { IfOk result (λ rows. length rows ≤ 2 ^ 20) }
    {
        let mut rows = Vec::new(self.alloc);
        for i in 0..self.tables.len() {
            let Ok(()) = self.tables[i].tell(&mut rows) else {
                return Err(Memory);
            };
        }
        Ok(Rows::of(rows))
    }
}
