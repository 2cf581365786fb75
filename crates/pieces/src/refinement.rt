ghost use Rattle.std.specs.Prelude.{◌≡◌, ℤ, ◌-◌, ◌<◌, ◌^◌, pos, ◌+ℤ◌, ◌≤ℤ◌, ◌<ℤ◌, length, slice_index, IfOk, []};
ghost use Rattle.pieces.specs.Refinement.{piece_at, AllRead, AllWithin, IsInOne, IsRefinement};
ghost use Rattle.pieces.specs.ViewOf.{view_all};

use crate::cursors::{firsts, step};
use crate::spans::{Occ, Span};
use num_text::Memory;
use std::alloc::{AllocError, Global};
use std::marker::Model;

/// Positions on which each occurrence stays in one segment, and these segments.
#[derive(Drop)]
struct Piece {
    start: i64,
    len: u64,
    segs: Vec<u32>,
}

/// The pieces of a range, in order.
#[derive(Drop)]
pub struct Pieces {
    items: Vec<Piece>,
}

impl Model for Pieces {
    ghost use Rattle.std.specs.Prelude.{List, ◌<◌, ◌^◌, length};
    ghost use Rattle.pieces.specs.View.{PieceView};

    ghost Value = { List PieceView };

    ghost use Rattle.pieces.specs.ViewOf.{view_all};

    ghost view = { λ p. view_all p.items.items };

    ghost invariant = { λ p. length p.items.items < 2 ^ 32 };
}

/// Cuts the positions from `l` to before `r` into pieces on which each occurrence stays in one segment.
pub fn refine(alloc: Global, spans: &[Span], occs: &[Occ], l: i64, r: i64) -> Result<Pieces, Memory>
    requires ordered { l ≤ℤ r }
    requires within { AllWithin spans.now occs.now }
    requires read { (i : ℤ) → l ≤ℤ i → i <ℤ r → AllRead spans.now occs.now i }
    ensures pieces { IfOk result (IsRefinement spans.now occs.now l r) }
    ensures each { IfOk result (λ pieces. (i : ℤ) → l ≤ℤ i → i <ℤ r → IsInOne pieces i) }
    ensures one { IfOk result (λ pieces. occs.now ≡ [] → l <ℤ r → length pieces ≡ 1) }
{
    let items = sweep(alloc, spans, occs, l, r)?;
    Ok(Pieces { items })
}

/// The pieces, from the first to the last.
fn sweep(
    alloc: Global,
    spans: &[Span],
    occs: &[Occ],
    l: i64,
    r: i64,
) -> Result<Vec<Piece>, AllocError>
    requires ordered { l ≤ℤ r }
    requires within { AllWithin spans.now occs.now }
    requires read { (i : ℤ) → l ≤ℤ i → i <ℤ r → AllRead spans.now occs.now i }
    ensures { IfOk result (λ items. IsRefinement spans.now occs.now l r (view_all items.items)) }
{
    let mut cursors = firsts(alloc, occs)?;
    let mut items = Vec::new(alloc);
    let mut at = l;
    let mut left = r.abs_diff(l);
    while left > 0 {
        let len = step(spans, occs, &mut cursors, at, left);
        let segs = Vec::from_slice(alloc, cursors.as_slice())?;
        items.push(Piece {
            start: at,
            len,
            segs,
        })?;
        at = moved(at, len);
        left -= len;
    }
    Ok(items)
}

/// So many positions further.
fn moved(at: i64, len: u64) -> i64
    requires { (at +ℤ pos len) ≤ℤ pos (2 ^ 63 - 1) }
    ensures { result ≡ (at +ℤ pos len) }
{
    at.saturating_add_unsigned(len)
}

impl Pieces {
    /// How many pieces there are.
    pub fn count(&self) -> u32
        ensures { result ≡ length self.now }
    {
        self.items.len() as u32
    }

    /// Where a piece starts.
    pub fn start(&self, k: u32) -> i64
        requires { k < length self.now }
        ensures { result ≡ (piece_at self.now k).start }
    {
        self.items[k as usize].start
    }

    /// How many positions a piece has.
    pub fn len(&self, k: u32) -> u64
        requires { k < length self.now }
        ensures { result ≡ (piece_at self.now k).len }
    {
        self.items[k as usize].len
    }

    /// The segment that an occurrence reads on a piece, by its place among the spans.
    pub fn seg(&self, k: u32, occ: u32) -> u32
        requires piece { k < length self.now }
        requires occ { occ < length (piece_at self.now k).segs }
        ensures { result ≡ slice_index (piece_at self.now k).segs occ }
    {
        self.items[k as usize].segs[occ as usize]
    }
}
