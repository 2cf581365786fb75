ghost use Rattle.std.specs.Prelude.{◌≡◌, ℕ, ◌≤◌, ◌<◌, ◌^◌, pos, ◌+ℤ◌, ◌-ℤ◌, ◌≤ℤ◌, ◌<ℤ◌, length, IfOk, map};
ghost use Rattle.semantics.specs.Most.{most_readings};
ghost use Rattle.pieces.specs.Refinement.{end_of, span_at, first_of, IsReadAt, IsWithinSpans, AllWithin, AllRead};
ghost use Rattle.pieces.specs.Cursors.{AreBehind, IsStepped};

use crate::spans::{Occ, Span, end};
use std::alloc::{AllocError, Global};

/// The first segment of each occurrence.
pub(crate) fn firsts(alloc: Global, occs: &[Occ]) -> Result<Vec<u32>, AllocError>
    ensures { IfOk result (λ v. v.items ≡ map first_of occs.now) }
{
    occs.iter().map(|occ| occ.from).collect(alloc)
}

/// Moves the cursors to the segments that are read at a position, and answers on how many positions all stay there,
/// `most` at most.
pub(crate) fn step(spans: &[Span], occs: &[Occ], cursors: &mut [u32], at: i64, most: u64) -> u64
    requires within { AllWithin spans.now occs.now }
    requires read { AllRead spans.now occs.now at }
    requires behind { AreBehind spans.now occs.now at cursors.old }
    requires some { 1 ≤ most }
    ensures { IsStepped spans.now occs.now at most cursors.old cursors.new result (length occs.now) }
{
    let mut len = most;
    for o in 0..occs.len() {
        let stay = stay_at(spans, occs[o], cursors[o], at);
        cursors[o] = stay.seg;
        len = len.min(stay.len);
    }
    len
}

/// The segment that an occurrence reads at a position, and on how many positions from there on.
#[derive(Clone, Copy, Drop)]
struct Stay {
    seg: u32,
    len: u64,
}

/// The stay of an occurrence at a position, looked for from a cursor on.
fn stay_at(spans: &[Span], occ: Occ, cursor: u32, at: i64) -> Stay
    requires within { IsWithinSpans spans.now occ }
    requires some { (s : ℕ) × (cursor ≤ s) × IsReadAt spans.now occ at s }
    requires from { occ.from ≤ cursor }
    ensures read { IsReadAt spans.now occ at result.seg }
    ensures some { 1 ≤ result.len }
    ensures len { pos result.len ≡ (pos (end_of (span_at spans.now result.seg)) -ℤ (at -ℤ occ.shift)) }
{
    let place = place_of(at, occ.shift);
    let seg = advance(spans, occ, cursor, place);
    let len = u64::from(end(spans, seg) - place);
    Stay { seg, len }
}

/// The place that a shifted series is read at.
fn place_of(at: i64, shift: i64) -> u32
    requires low { pos 0 ≤ℤ (at -ℤ shift) }
    requires high { (at -ℤ shift) <ℤ pos most_readings }
    ensures value { pos result ≡ (at -ℤ shift) }
    ensures bound { result < most_readings }
{
    (at - shift) as u32
}

/// The segment that is read at a place, looked for from a cursor on.
fn advance(spans: &[Span], occ: Occ, cursor: u32, place: u32) -> u32
    requires within { IsWithinSpans spans.now occ }
    requires some { (s : ℕ) × (cursor ≤ s) × IsReadAt spans.now occ (pos place +ℤ occ.shift) s }
    requires from { occ.from ≤ cursor }
    ensures read { IsReadAt spans.now occ (pos place +ℤ occ.shift) result }
    ensures later { cursor ≤ result }
{
    let mut s = cursor;
    while end(spans, s) <= place {
        s += 1;
    }
    s
}
