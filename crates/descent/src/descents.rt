//! The descent from the roots to a cut whose interval is no wider than a budget.

ghost use Rattle.std.specs.Prelude.{◌≡◌, ◌^◌, ◌≤◌, ◌↔◌, length, Err, IfOk};
ghost use Rattle.std.specs.List.{count_by};
ghost use Rattle.semantics.specs.Admitted.{IsAdmitted};
ghost use Rattle.semantics.specs.Faults.{Rose};
ghost use Rattle.semantics.specs.Limits.{IsWithinLimits};
ghost use Rattle.semantics.specs.Plain.{IsPlain};
ghost use Rattle.expr.specs.Terms.{query_term_of};
ghost use Rattle.segment.specs.declared.node_access.NodeErr.TheVariants as node;
ghost use Rattle.segment.specs.Nodes.{Forest, Place, KeepsRoots};
ghost use Rattle.descent.specs.declared.descents.DescentErr.TheVariants.{Failed, Bad, Memory as no_memory};
ghost use Rattle.descent.specs.Descents as tree;
ghost use Rattle.descent.specs.Held.{shown};
ghost use Rattle.descent.specs.Known.{node_facts, AreRootsKnown, AreApart};
ghost use Rattle.descent.specs.Spent.{roots_in, HasSpent};
ghost use Rattle.descent.specs.Told.{told, Tells};

use crate::cuts::Cut;
use crate::rooted::roots;
use crate::rows::{CutRow, Rows};
use expr::{Name, Query};
use interval::Iv;
use num_text::Memory;
use segment::{NodeErr, Nodes};
use std::alloc::{AllocError, AllocFailed, Global};

/// The last cut of a descent, how many of its rows are opened, and its interval.
#[derive(Drop)]
pub struct Answer {
    pub iv: Iv,
    pub cut: Rows,
    pub opened: u32,
}

/// Why there is no answer.
#[derive(Clone, Copy, Debug, Drop, PartialEq, Eq)]
pub enum DescentErr {
    /// The source of the nodes failed.
    Failed,
    /// The nodes are true of no readings.
    Bad,
    Memory,
}

impl From<NodeErr> for DescentErr {
    ghost from_gives = { λ e d. (d ≡ Failed → e ≡ node.Failed) × (d ≡ Bad → e ≡ node.Bad) };

    fn from(e: NodeErr) -> DescentErr {
        match e {
            NodeErr::Failed => DescentErr::Failed,
            NodeErr::Bad => DescentErr::Bad,
        }
    }
}

impl From<Memory> for DescentErr {
    ghost from_gives = { λ _ d. d ≡ no_memory };

    fn from(_e: Memory) -> DescentErr {
        DescentErr::Memory
    }
}

impl<T: Drop> From<AllocFailed<T>> for DescentErr {
    ghost from_gives = { λ _ d. d ≡ no_memory };

    fn from(_e: AllocFailed<T>) -> DescentErr {
        DescentErr::Memory
    }
}

impl From<AllocError> for DescentErr {
    ghost from_gives = { λ _ d. d ≡ no_memory };

    fn from(_e: AllocError) -> DescentErr {
        DescentErr::Memory
    }
}

/// How many rows are opened.
fn opened_in(rows: &[CutRow]) -> u32
    requires { length rows.now ≤ 2 ^ 20 }
    ensures { result ≡ count_by (λ row. row.opened) rows.now }
{
    rows.iter().filter(|row| row.opened).count() as u32
}

/// The answer of a cut.
fn answer_of<I: Copy>(cut: &Cut<I>, iv: Iv) -> Result<Answer, Memory>
    ensures interval { IfOk result (λ a. a.iv ≡ iv) }
    ensures rows { IfOk result (λ a. a.cut ≡ told (shown cut.now.tracks)) }
    ensures opened { IfOk result (λ a. a.opened ≡ count_by (λ r. r.opened) (told (shown cut.now.tracks))) }
{
    let rows = cut.rows()?;
    let opened = opened_in(rows.as_slice());
    Ok(Answer {
        iv,
        cut: rows,
        opened,
    })
}

/// The interval of a query that the first cut of its descent gives which is no wider than the budget, and that cut.
pub fn descend<N: Nodes>(
    alloc: Global,
    nodes: &mut N,
    source: &mut N::Source,
    names: &[Name],
    q: &Query,
    budget: u128,
) -> Result<Answer, DescentErr>
    requires names { length names.now ≡ length (N.lengths nodes.old) }
    requires few { length names.now ≤ 16 }
    requires apart { AreApart names.now }
    requires known { AreRootsKnown (query_term_of q.now) names.now (N.lengths nodes.old) (N.roots nodes.old) }
    requires plain { IsPlain (query_term_of q.now) }
    requires limits { IsWithinLimits (query_term_of q.now) }
    requires admitted { IsAdmitted (node_facts names.now (N.lengths nodes.old) (N.roots nodes.old))
        (query_term_of q.now) }
    ensures last { IfOk result (λ a. (forest : Forest) → N.means nodes.old source.old forest
        → Tells (query_term_of q.now) (tree.roots (query_term_of q.now) forest names.now) budget a) }
    ensures handed { IfOk result (λ a. HasSpent (roots_in (query_term_of q.now) (N.lengths nodes.old) 0 names.now)
        (length a.cut) a.opened (N.handed source.old) (N.handed source.new)) }
    ensures failed { result ≡ Err Failed → Rose (N.faults source.old) (N.faults source.new) }
    ensures bad { result ≡ Err Bad → (forest : Forest) → N.means nodes.old source.old forest → ⊥ }
    ensures means { (forest : Forest) → N.means nodes.old source.old forest ↔ N.means nodes.new source.new forest }
    ensures later { N.faults source.old ≤ N.faults source.new }
    ensures ids { (i : N.Id) (p : Place) → N.stands nodes.old source.old i p → N.stands nodes.new source.new i p }
    ensures roots { KeepsRoots (N.roots nodes.old) (N.roots nodes.new) }
    ensures lasting { N.lasting source.new ≡ N.lasting source.old }
    ensures lengths { N.lengths nodes.new ≡ N.lengths nodes.old }
{
    let mut cut = roots(alloc, nodes, source, names, q)?;
    loop {
        let (out, at) = cut.look(q)?;
        let Some(iv) = out.iv else {
            return Err(DescentErr::Bad);
        };
        if iv.width() <= budget {
            let answer = answer_of(&cut, iv)?;
            return Ok(answer);
        }
        let Some(at) = at else {
            return Err(DescentErr::Bad);
        };
        cut.expand(nodes, source, at)?;
    }
}
