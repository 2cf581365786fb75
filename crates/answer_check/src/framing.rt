//! The frame of the cut that lists are.

ghost use Rattle.std.specs.Prelude.{◌≡◌, ℕ, ◌+◌, ◌<◌, ◌≤◌, ◌++◌, ◌∷◌, [], length, drop, map, Err, IfOk, IfSome, OnOk, option_map};
ghost use Rattle.std.specs.Map.{keys_of};
ghost use Rattle.bounds.specs.Cut.{IsNew};
ghost use Rattle.error_prop.specs.Entries.{Touches};
ghost use Rattle.expr.specs.Terms.{query_term_of};
ghost use Rattle.seg_tree.specs.Trees.{IsTreeOf, value_of};
ghost use Rattle.store_file.specs.StoreValue.{AreNames, IsStoreValue};
ghost use Rattle.store_file.specs.Stored.{series_of, store_value, AreOf};
ghost use Rattle.answer_check.specs.declared.framing.CutErr.TheVariants.{At, Memory as no_memory};
ghost use Rattle.answer_check.specs.Verdict.{track_by};
ghost use Rattle.answer_check.specs.Walked.{cut_in, segs_of_track, IsFrameOf};

use crate::certificate::CertList;
use crate::cutting::tree_segs;
use crate::naming::is_in_query;
use error_prop::Frame;
use expr::{Name, Query};
use indexmap::IndexMap;
use num_text::Memory;
use seg_tree::{Arena, Tree};
use segment::Seg;
use std::alloc::Global;
use store_file::{Store, Stored};

/// Why lists are no cut.
#[derive(Clone, Copy, Debug, Drop, PartialEq, Eq)]
pub(crate) enum CutErr {
    /// The first that is missing, is not that of the series in its place, or has no cut of it.
    At(u32),
    Memory,
}

impl From<Memory> for CutErr {
    ghost from_gives = { λ _ e. e ≡ no_memory };

    fn from(_e: Memory) -> CutErr {
        CutErr::Memory
    }
}

/// Adds a series with its segments.
fn put_series(alloc: Global, frame: &mut Frame, name: Name, segs: &[Seg]) -> Result<(), Memory>
    requires new { IsNew name frame.old }
    requires touch { Touches segs.now }
    ensures { OnOk result (frame.new ≡ frame.old ++ record { name = name; segs = segs.now } ∷ []) }
{
    frame.begin_series(alloc, name)?;
    for i in 0..segs.len() {
        frame.push(segs[i])?;
    }
    Ok(())
}

/// The series at a place.
fn entry_at(series: &IndexMap<Name, Stored>, place: usize) -> (Name, Stored)
    requires { place < length series.now.entries }
    ensures { drop place series.now.entries ≡ (result.0, result.1) ∷ drop (place + 1) series.now.entries }
{
    match series.get_index(place) {
        Some((name, stored)) => (*name, *stored),
        None => unreachable!(),
    }
}

/// The segments of a series by the list at a place, where that is its list and has the rows of a cut.
fn listed_segs(
    alloc: Global,
    arena: &Arena,
    name: Name,
    tree: Tree,
    lists: &[CertList],
    place: usize,
) -> Result<Option<Vec<Seg>>, Memory>
    requires { IsTreeOf arena.now.nodes tree }
    ensures segs { IfOk result (λ o. (k : ℕ)
        → option_map segs_of_track (track_by k name (value_of arena.now.nodes tree) (drop place lists.now))
        ≡ option_map (λ v. v.items) o) }
    ensures touch { IfOk result (λ o. IfSome o (λ v. Touches v.items)) }
{
    let Some(list) = lists.get(place) else {
        return Ok(None);
    };
    if list.name.as_slice() != name.bytes() {
        return Ok(None);
    }
    tree_segs(alloc, arena, tree, list.rows.as_slice())
}

/// The frame of the cut that lists are of some series.
fn frame_over(
    alloc: Global,
    series: &IndexMap<Name, Stored>,
    arena: &Arena,
    q: &Query,
    lists: &[CertList],
) -> Result<Frame, CutErr>
    requires few { length series.now.entries ≤ 16 }
    requires names { AreNames [] (keys_of series.now.entries) }
    requires of { AreOf arena.now.nodes series.now.entries }
    ensures ok { IfOk result (IsFrameOf (series_of arena.now.nodes series.now.entries)
        (query_term_of q.now) lists.now) }
    ensures refused { (place : ℕ) → result ≡ Err (At place)
        → cut_in (series_of arena.now.nodes series.now.entries) (query_term_of q.now) lists.now ≡ Err place }
{
    let mut frame = Frame::new(alloc);
    let mut place = 0;
    for k in 0..series.len() {
        let (name, stored) = entry_at(series, k);
        if !is_in_query(q, &name) {
            continue;
        }
        let Some(segs) = listed_segs(alloc, arena, name, stored.tree, lists, place)? else {
            return Err(CutErr::At(place as u32));
        };
        put_series(alloc, &mut frame, name, segs.as_slice())?;
        place += 1;
    }
    if place < lists.len() {
        return Err(CutErr::At(place as u32));
    }
    Ok(frame)
}

/// The frame of the cut that lists are over a store.
pub(crate) fn frame_of(
    alloc: Global,
    store: &Store,
    q: &Query,
    lists: &[CertList],
) -> Result<Frame, CutErr>
    ensures value { IsStoreValue (store_value store.now) }
    ensures ok { IfOk result (IsFrameOf (store_value store.now).series (query_term_of q.now) lists.now) }
    ensures refused { (place : ℕ) → result ≡ Err (At place)
        → cut_in (store_value store.now).series (query_term_of q.now) lists.now ≡ Err place }
{
    frame_over(alloc, &store.series, &store.arena, q, lists)
}
