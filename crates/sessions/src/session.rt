// One session: a cut over the trees of all series as of its opening.

ghost use Rattle.std.specs.Prelude.{◌≡◌, map, nat_le, ℤ, Some, IfOk, OnOk, OnErr};
ghost use Rattle.std.specs.Map.{keys_of, values_of};
ghost use Rattle.descent.specs.Descents.{cut_of};
ghost use Rattle.descent.specs.Held.{heads, shown};
ghost use Rattle.descent.specs.Sums.{interval_in, width_of};
ghost use Rattle.expr.specs.Terms.{query_term_of};
ghost use Rattle.interval.specs.Interval.{Has, meet_of};
ghost use Rattle.seg_tree.specs.Linked.{Places};
ghost use Rattle.semantics.specs.Admitted.{IsAdmitted};
ghost use Rattle.semantics.specs.Limits.{IsWithinLimits};
ghost use Rattle.semantics.specs.Plain.{IsPlain};
ghost use Rattle.sessions.specs.Cuts.{Follows, HasInterval, HasRow, IsCutFor, IsCutIn};
ghost use Rattle.sessions.specs.Hub as hub;
ghost use Rattle.sessions.specs.Hub.{first_nodes, opened, stepped};
ghost use Rattle.sessions.specs.Kept.{AreTracksIn, Keeps, reached_from, trees_of as trees_in};
ghost use Rattle.store_file.specs.Facts.{facts_in};
ghost use Rattle.store_file.specs.Stored.{store_value};

use crate::replies::Reply;
use descent::{Cut, DescentErr, roots};
use expr::{Name, Query};
use indexmap::IndexMap;
use interval::Iv;
use num_text::Memory;
use seg_tree::{Arena, ArenaNodes, LastingNodes, Tree};
use segment::NodeErr;
use std::alloc::{AllocError, Global};
use std::marker::Model;
use store_file::{Store, Stored};

/// A session, over the arena of its store.
#[derive(Drop)]
pub(crate) struct Session {
    budget: u128,
    /// Those of all series as of the opening.
    pub(crate) trees: Vec<Tree>,
    /// The plain query.
    query: Query,
    cut: Cut<u32>,
    /// What the intervals of all cuts so far share.
    running: Iv,
}

impl Model for Session {
    ghost use Rattle.std.specs.Prelude.{◌≡◌};
    ghost use Rattle.descent.specs.Spelled.{spelled};
    ghost use Rattle.expr.specs.Terms.{query_term_of};
    ghost use Rattle.sessions.specs.Kept.{Kept};

    ghost Value = { Kept };

    ghost view = { λ s. record {
      budget = s.budget;
      trees = s.trees.items;
      spelled = s.cut.query;
      tracks = s.cut.tracks;
      running = s.running;
    } };

    ghost invariant = { λ s. s.cut.query ≡ spelled (query_term_of s.query) };
}

// The names of the series, in order.
fn names_of(alloc: Global, series: &IndexMap<Name, Stored>) -> Result<Vec<Name>, AllocError>
    ensures { IfOk result (λ names. names.items ≡ keys_of series.now.entries) }
{
    series.keys().copied().collect(alloc)
}

// Their trees.
fn trees_of(alloc: Global, series: &IndexMap<Name, Stored>) -> Result<Vec<Tree>, AllocError>
    ensures { IfOk result (λ trees. trees.items ≡ map (λ v. v.tree) (values_of series.now.entries)) }
{
    series.values().map(|stored| stored.tree).collect(alloc)
}

/// The cut of the roots of the series that a query names.
fn first_cut(
    alloc: Global,
    store: &Store,
    trees: &[Tree],
    query: &Query,
) -> Result<Cut<u32>, Memory>
    requires trees { trees.now ≡ trees_in store.now }
    requires plain { IsPlain (query_term_of query.now) }
    requires limits { IsWithinLimits (query_term_of query.now) }
    requires admitted { IsAdmitted (facts_in (store_value store.now)) (query_term_of query.now) }
    ensures cut { IfOk result (IsCutFor (query_term_of query.now)) }
    ensures rows { IfOk result (λ c. shown c.tracks
        ≡ cut_of (first_nodes (store_value store.now) (query_term_of query.now))) }
    ensures tracks { IfOk result (λ c. AreTracksIn (reached_from store.now.arena.nodes trees.now) c.tracks) }
{
    let names = names_of(alloc, &store.series)?;
    let mut nodes = LastingNodes::new(&store.arena, trees);
    let mut source = ArenaNodes::new(&store.arena, trees);
    match roots(alloc, &mut nodes, &mut source, &names, query) {
        Ok(cut) => Ok(cut),
        Err(DescentErr::Memory) => Err(Memory),
        Err(DescentErr::Failed) => unreachable!(),
        Err(DescentErr::Bad) => unreachable!(),
    }
}

/// The interval of a cut.
fn interval_of(cut: &mut Cut<u32>, query: &Query) -> Result<Iv, Memory>
    requires cut { IsCutFor (query_term_of query.now) cut.old }
    requires interval { HasInterval (query_term_of query.now) cut.old }
    ensures interval { IfOk result (λ iv. interval_in (shown cut.old.tracks) (query_term_of query.now) ≡ Some iv) }
    ensures same { cut.new ≡ cut.old }
{
    let out = cut.interval(query)?;
    match out.iv {
        Some(iv) => Ok(iv),
        None => unreachable!(),
    }
}

/// The row that counts most gives way to those below it.
fn expand(cut: &mut Cut<u32>, query: &Query, arena: &Arena, trees: &[Tree]) -> Result<(), Memory>
    requires cut { IsCutFor (query_term_of query.now) cut.old }
    requires nodes { IsCutIn arena.now.nodes trees.now (query_term_of query.now) cut.old }
    requires row { HasRow (query_term_of query.now) cut.old }
    ensures follows { OnOk result (Follows arena.now.nodes trees.now (query_term_of query.now) cut.old cut.new) }
    ensures tracks { OnOk result (AreTracksIn (reached_from arena.now.nodes trees.now) cut.new.tracks) }
    ensures heads { OnOk result (heads cut.new.tracks ≡ heads cut.old.tracks) }
    ensures query { cut.new.query ≡ cut.old.query }
    ensures before { OnOk result (cut.new.before ≡ Some cut.old.tracks) }
    ensures err { OnErr result (cut.new ≡ cut.old) }
{
    let Some(at) = cut.choose(query)? else {
        unreachable!()
    };
    let mut nodes = LastingNodes::new(arena, trees);
    let mut source = ArenaNodes::new(arena, trees);
    match cut.expand(&mut nodes, &mut source, at) {
        Ok(()) => Ok(()),
        Err(NodeErr::Failed | NodeErr::Bad) => unreachable!(),
    }
}

/// The interval of the next cut. Where memory is wanting, the rows are what they were.
fn next_interval(
    cut: &mut Cut<u32>,
    query: &Query,
    arena: &Arena,
    trees: &[Tree],
) -> Result<Iv, Memory>
    requires cut { IsCutFor (query_term_of query.now) cut.old }
    requires nodes { IsCutIn arena.now.nodes trees.now (query_term_of query.now) cut.old }
    requires row { HasRow (query_term_of query.now) cut.old }
    ensures interval { IfOk result (λ iv. interval_in (shown cut.new.tracks) (query_term_of query.now) ≡ Some iv) }
    ensures follows { OnOk result (Follows arena.now.nodes trees.now (query_term_of query.now) cut.old cut.new) }
    ensures tracks { OnOk result (AreTracksIn (reached_from arena.now.nodes trees.now) cut.new.tracks) }
    ensures heads { OnOk result (heads cut.new.tracks ≡ heads cut.old.tracks) }
    ensures query { cut.new.query ≡ cut.old.query }
    ensures err { OnErr result (cut.new.tracks ≡ cut.old.tracks) }
{
    expand(cut, query, arena, trees)?;
    match interval_of(cut, query) {
        Ok(iv) => Ok(iv),
        Err(e) => {
            cut.take_back();
            Err(e)
        }
    }
}

/// What two intervals share that hold one number.
fn met(a: Iv, b: Iv) -> Iv
    requires { (v : ℤ) × Has a v × Has b v }
    ensures { result ≡ meet_of a b }
{
    match a.meet(b) {
        Some(iv) => iv,
        None => unreachable!(),
    }
}

impl Session {
    /// A session over the series of a store, which begins with their roots.
    pub(crate) fn open(
        alloc: Global,
        store: &Store,
        query: Query,
        budget: u128,
    ) -> Result<Session, Memory>
        requires plain { IsPlain (query_term_of query) }
        requires limits { IsWithinLimits (query_term_of query) }
        requires admitted { IsAdmitted (facts_in (store_value store.now)) (query_term_of query) }
        ensures keeps { IfOk result (λ k. Keeps store.now.arena.nodes k
            (opened (store_value store.now) (query_term_of query) budget)) }
        ensures trees { IfOk result (λ k. k.trees ≡ trees_in store.now) }
    {
        let trees = trees_of(alloc, &store.series)?;
        let mut cut = first_cut(alloc, store, &trees, &query)?;
        let running = interval_of(&mut cut, &query)?;
        Ok(Session {
            budget,
            trees,
            query,
            cut,
            running,
        })
    }

    /// Whether the interval is no wider than the budget.
    pub(crate) fn is_done(&self) -> bool
        ensures { result ≡ nat_le (width_of self.now.running) self.now.budget }
    {
        self.running.width() <= self.budget
    }

    /// The trees that it keeps.
    pub(crate) fn trees(&self) -> &[Tree]
        ensures { result.now ≡ self.now.trees }
    {
        &self.trees
    }

    /// What the intervals of all cuts so far share.
    pub(crate) fn interval(&self) -> Iv
        ensures { result ≡ self.now.running }
    {
        self.running
    }

    /// The interval of the session in a slot, and whether it is done.
    pub(crate) fn reply(&self, slot: u8) -> Reply
        ensures { (places : Places) (s : hub.Session) → Keeps places self.now s → result ≡ hub.shown slot s }
    {
        if self.is_done() {
            Reply::Done(slot, self.running)
        } else {
            Reply::Now(slot, self.running)
        }
    }

    /// One more step towards the budget, unless it is done. Where memory is wanting, the session is as before.
    pub(crate) fn step(&mut self, arena: &Arena) -> Result<(), Memory>
        requires { (s : hub.Session) × Keeps arena.now.nodes self.old s }
        ensures stepped { OnOk result ((s : hub.Session) → Keeps arena.now.nodes self.old s
            → Keeps arena.now.nodes self.new (stepped s)) }
        ensures trees { self.new.trees ≡ self.old.trees }
        ensures err { OnErr result (self.new ≡ self.old) }
    {
        if self.is_done() {
            return Ok(());
        }
        let iv = next_interval(&mut self.cut, &self.query, arena, &self.trees)?;
        self.running = met(self.running, iv);
        Ok(())
    }
}
