//! What a cut says of a piece of a sum.

ghost use Rattle.std.specs.Prelude.{◌≡◌, ℕ, ◌+◌, ◌-◌, ◌*◌, ◌^◌, ◌<◌, ◌≤◌, ◌⊎◌, max, ℤ, pos, ◌+ℤ◌, ◌≤ℤ◌, unsigned_abs, true, List, [], ◌∷◌, length, map, replicate, slice_index, IfOk, OnOk};
ghost use Rattle.semantics.specs.Admission.{SumTerm};
ghost use Rattle.semantics.specs.Measures.{names_in};
ghost use Rattle.semantics.specs.Sums.{most_below, total_below};
ghost use Rattle.semantics.specs.Term.{Term};
ghost use Rattle.expr.specs.Terms.{term_of};
ghost use Rattle.bounds.specs.Cut.{estimate_from, segs_of, weight_at};
ghost use Rattle.bounds.specs.Reads.{AreCovered};
ghost use Rattle.bounds.specs.Shape.{estimate_by, shape};
ghost use Rattle.error_prop.specs.Limits.{IsSeriesWithinLimits};
ghost use Rattle.error_prop.specs.Locals.{IsInRangeOver};
ghost use Rattle.descent.specs.Held.{shown};
ghost use Rattle.descent.specs.Kept.{behind, IsSaid};
ghost use Rattle.descent.specs.Laid.{held};
ghost use Rattle.descent.specs.Readers.{reader_at};
ghost use Rattle.descent.specs.Rows.{entries};
ghost use Rattle.descent.specs.Said.{seg_read, AllReadAt, AllStay, AreRead, IsRoomFor, IsRowRead, ReadsAt, ReadsClosed, ReadTheSame, SomeComes, StaysFor};

use crate::readers::{Reader, position_of};
use crate::tables::{Row, Table};
use error_prop::{estimate_at, local_form};
use expr::Series;
use num_text::Memory;
use poly::plus;
use power_sum::sum_over;
use segment::Seg;
use smallvec::SmallVec;
use std::alloc::{AllocError, Global};

/// For how many occurrences the weights of a piece are worked out without an allocation.
const INLINE: usize = 4;

/// Room in which pieces are worked out one after the other: for the segments that are read at an offset, the weights
/// there, and the greatest weights of a piece.
#[derive(Drop)]
pub(crate) struct Room {
    segs: Vec<Seg>,
    here: SmallVec<u128, INLINE>,
    weights: SmallVec<u128, INLINE>,
}

impl Room {
    pub(crate) fn new(alloc: Global, occurrences: usize) -> Result<Room, AllocError>
        ensures { IfOk result (λ room. IsRoomFor room occurrences) }
    {
        Ok(Room {
            segs: Vec::new(alloc),
            here: SmallVec::from_elem(alloc, 0, occurrences)?,
            weights: SmallVec::from_elem(alloc, 0, occurrences)?,
        })
    }

    /// Sets each weight to 0, as it is before a piece is worked out.
    fn clear(&mut self)
        ensures zeros { (o : ℕ) → slice_index self.new.weights.items o ≡ 0 }
        ensures count { length self.new.weights.items ≡ length self.old.weights.items }
        ensures here { self.new.here ≡ self.old.here }
    {
        self.weights.as_mut_slice().fill(0);
    }

    /// Puts the greatest weight of the only occurrence.
    fn put_only(&mut self, weight: u128)
        requires { length self.old.weights.items ≡ 1 }
        ensures weight { self.new.weights.items ≡ weight ∷ [] }
        ensures here { self.new.here ≡ self.old.here }
    {
        self.weights.as_mut_slice()[0] = weight;
    }

    /// The greatest weight of each occurrence in the piece that was worked out last.
    pub(crate) fn weights(&self) -> &[u128]
        ensures { result.now ≡ self.now.weights.items }
    {
        self.weights.as_slice()
    }
}

/// How many offsets from one on a reader stays in its row.
fn left_in_row<I: Copy>(tables: &[Table<I>], reader: &Reader, from: u64) -> u64
    requires { ReadsAt (shown tables.now) from reader.now }
    ensures { StaysFor (shown tables.now) from reader.now result }
{
    let position = position_of(reader, from);
    let end = tables[reader.track as usize].end_at(position);
    u64::from(end - position)
}

/// How many offsets from one on every reader stays in its row, at most `most`.
pub(crate) fn stretch<I: Copy>(tables: &[Table<I>], readers: &[Reader], from: u64, most: u64) -> u64
    requires { (s : SumTerm) × (t : Term) × (l : ℤ) × AreRead (shown tables.now) s t l readers.now from most }
    ensures some { 0 < result }
    ensures within { result ≤ most }
    ensures still { AllStay (shown tables.now) readers.now from result }
    ensures ends { (result ≡ most) ⊎ SomeComes readers.now (from + result) }
{
    let mut len = most;
    for o in 0..readers.len() {
        len = len.min(left_in_row(tables, &readers[o], from));
    }
    len
}

/// Whether a reader reads a closed row at an offset.
fn is_closed<I: Copy>(tables: &[Table<I>], reader: &Reader, offset: u64) -> bool
    requires { ReadsAt (shown tables.now) offset reader.now }
    ensures { result ≡ true → ReadsClosed (shown tables.now) offset reader.now }
{
    let position = position_of(reader, offset);
    tables[reader.track as usize].closed_at(position).is_some()
}

/// Whether every reader reads a closed row at an offset.
fn all_closed<I: Copy>(tables: &[Table<I>], readers: &[Reader], offset: u64) -> bool
    requires { AllReadAt (shown tables.now) offset readers.now }
    ensures { result ≡ true → (o : ℕ) → o < length readers.now
        → ReadsClosed (shown tables.now) offset (reader_at readers.now o) }
{
    for o in 0..readers.len() {
        if !is_closed(tables, &readers[o], offset) {
            return false;
        }
    }
    true
}

/// The segment that a reader reads at an offset.
fn read<I: Copy>(tables: &[Table<I>], reader: &Reader, offset: u64) -> Seg
    requires { ReadsAt (shown tables.now) offset reader.now }
    ensures { result ≡ seg_read (shown tables.now) offset reader.now }
{
    let position = position_of(reader, offset);
    tables[reader.track as usize].seg_at(position)
}

/// The segments that the readers read at an offset.
fn gather<I: Copy>(
    segs: &mut Vec<Seg>,
    tables: &[Table<I>],
    readers: &[Reader],
    offset: u64,
) -> Result<(), AllocError>
    requires { AllReadAt (shown tables.now) offset readers.now }
    ensures { OnOk result (segs.new.items ≡ map (seg_read (shown tables.now) offset) readers.now) }
{
    segs.clear();
    for o in 0..readers.len() {
        let seg = read(tables, &readers[o], offset);
        segs.push(seg)?;
    }
    Ok(())
}

/// Each weight goes up to another one.
fn raise(weights: &mut [u128], by: &[u128])
    requires { length weights.old ≡ length by.now }
    ensures { (o : ℕ) → o < length by.now
        → slice_index weights.new o ≡ max (slice_index weights.old o) (slice_index by.now o) }
{
    for o in 0..weights.len() {
        weights[o] = weights[o].max(by[o]);
    }
}

/// A position so many behind another one.
fn moved_up(first: i64, offset: u64) -> i64
    requires first { unsigned_abs first ≤ 2 ^ 46 }
    requires offset { offset ≤ 2 ^ 41 }
    ensures { result ≡ (first +ℤ pos offset) }
{
    first + offset as i64
}

/// The estimate of offsets from one on at which the readers read the same segments; each weight goes up to the greatest
/// one there.
fn say_same<I: Copy>(
    alloc: Global,
    t: &Series,
    first: i64,
    tables: &[Table<I>],
    readers: &[Reader],
    offset: u64,
    len: u64,
    room: &mut Room,
) -> Result<i128, Memory>
    requires read { (s : SumTerm) × AreRead (shown tables.now) s (term_of t.now) first readers.now offset len }
    requires same { ReadTheSame (shown tables.now) readers.now offset len }
    requires room { IsRoomFor room.old (names_in (term_of t.now)) }
    ensures estimate { IfOk result (λ e. e ≡ total_below (behind (estimate_from (segs_of (entries (shown tables.now)))
        (term_of t.now) first) offset) len) }
    ensures weights { OnOk result ((o : ℕ) → o < names_in (term_of t.now) → slice_index room.new.weights.items o
        ≡ max (slice_index room.old.weights.items o) (most_below (behind (weight_at (segs_of (entries
        (shown tables.now))) (term_of t.now) first o) offset) len)) }
    ensures room { OnOk result (IsRoomFor room.new (names_in (term_of t.now))) }
{
    gather(&mut room.segs, tables, readers, offset)?;
    let start = moved_up(first, offset);
    let formed = local_form(alloc, t, start, len, room.segs.as_slice());
    let Ok(m) = &formed else {
        return Err(Memory);
    };
    raise(room.weights.as_mut_slice(), m.weights.as_slice());
    let total = sum_over(&m.poly, len);
    Ok(total)
}

/// The estimate of one offset; each weight goes up to the one there.
fn say_one<I: Copy>(
    t: &Series,
    first: i64,
    tables: &[Table<I>],
    readers: &[Reader],
    offset: u64,
    room: &mut Room,
) -> Result<i128, Memory>
    requires read { (s : SumTerm) × AreRead (shown tables.now) s (term_of t.now) first readers.now offset 1 }
    requires room { IsRoomFor room.old (names_in (term_of t.now)) }
    ensures estimate { IfOk result (λ e. e
        ≡ estimate_from (segs_of (entries (shown tables.now))) (term_of t.now) first offset) }
    ensures weights { OnOk result ((o : ℕ) → o < names_in (term_of t.now) → slice_index room.new.weights.items o
        ≡ max (slice_index room.old.weights.items o) (weight_at (segs_of (entries (shown tables.now))) (term_of t.now)
        first o offset)) }
    ensures room { OnOk result (IsRoomFor room.new (names_in (term_of t.now))) }
{
    gather(&mut room.segs, tables, readers, offset)?;
    let position = moved_up(first, offset);
    let estimate = estimate_at(room.here.as_mut_slice(), t, position, room.segs.as_slice());
    raise(room.weights.as_mut_slice(), room.here.as_slice());
    Ok(estimate)
}

/// The estimate of a piece, gone over position by position; each weight goes up to the greatest one there.
fn say_each<I: Copy>(
    t: &Series,
    first: i64,
    tables: &[Table<I>],
    readers: &[Reader],
    from: u64,
    n: u64,
    room: &mut Room,
) -> Result<i128, Memory>
    requires read { (s : SumTerm) × AreRead (shown tables.now) s (term_of t.now) first readers.now from n }
    requires room { IsRoomFor room.old (names_in (term_of t.now)) }
    requires zeros { (o : ℕ) → slice_index room.old.weights.items o ≡ 0 }
    ensures said { IfOk result (λ e. IsSaid (shown tables.now) (term_of t.now) first from n e
        (λ o. slice_index room.new.weights.items o)) }
    ensures room { OnOk result (IsRoomFor room.new (names_in (term_of t.now))) }
{
    let mut estimate = 0;
    for i in 0..n {
        let part = say_one(t, first, tables, readers, from + i, room)?;
        estimate = plus(estimate, part);
    }
    Ok(estimate)
}

/// The row that a reader reads at an offset.
fn row_read<'a, I: Copy>(tables: &'a [Table<I>], reader: &Reader, offset: u64) -> &'a Row<I>
    requires { ReadsAt (shown tables.now) offset reader.now }
    ensures { IsRowRead (shown tables.now) offset reader.now (held result.now).row }
{
    let position = position_of(reader, offset);
    tables[reader.track as usize].row_at(position)
}

/// The estimate of a series of one name at a position, and the name's weight, over the segment that this reads there.
fn estimate_over(t: &Series, position: i64, seg: Seg) -> (i128, u128)
    requires limits { IsSeriesWithinLimits (term_of t.now) }
    requires one { names_in (term_of t.now) ≡ 1 }
    requires position { unsigned_abs position ≤ 2 ^ 46 }
    requires covered { AreCovered (term_of t.now) (seg ∷ []) position 1 }
    requires in_range { IsInRangeOver (term_of t.now) (seg ∷ []) position }
    ensures estimate { result.0 ≡ estimate_by (term_of t.now) (seg ∷ []) position }
    ensures weight { result.1 ≡ slice_index (shape (term_of t.now) (seg ∷ [])).weights 0 }
{
    let mut weights = [0u128; 1];
    let estimate = estimate_at(&mut weights, t, position, &[seg]);
    (estimate, weights[0])
}

/// The estimate of a piece with one reader, gone over position by position, and the greatest weight there. The reader's
/// row is looked up once.
fn say_alone<I: Copy>(
    t: &Series,
    first: i64,
    tables: &[Table<I>],
    reader: &Reader,
    from: u64,
    n: u64,
) -> (i128, u128)
    requires read { (s : SumTerm) × AreRead (shown tables.now) s (term_of t.now) first (reader.now ∷ []) from n }
    requires still { AllStay (shown tables.now) (reader.now ∷ []) from n }
    ensures { IsSaid (shown tables.now) (term_of t.now) first from n result.0 (λ _. result.1) }
{
    let row = row_read(tables, reader, from);
    let mut estimate = 0;
    let mut most = 0u128;
    for i in 0..n {
        let seg = row.seg_at(position_of(reader, from + i));
        let (part, weight) = estimate_over(t, moved_up(first, from + i), seg);
        estimate = plus(estimate, part);
        most = most.max(weight);
    }
    (estimate, most)
}

/// The estimate of a piece, and the greatest weight of each occurrence there, which the room gets.
///
/// Where a row is opened the piece is gone over position by position.
pub(crate) fn say<I: Copy>(
    alloc: Global,
    t: &Series,
    first: i64,
    tables: &[Table<I>],
    readers: &[Reader],
    from: u64,
    n: u64,
    room: &mut Room,
) -> Result<i128, Memory>
    requires read { (s : SumTerm) × AreRead (shown tables.now) s (term_of t.now) first readers.now from n }
    requires still { AllStay (shown tables.now) readers.now from n }
    requires room { IsRoomFor room.old (names_in (term_of t.now)) }
    ensures said { IfOk result (λ e. IsSaid (shown tables.now) (term_of t.now) first from n e
        (λ o. slice_index room.new.weights.items o)) }
    ensures room { OnOk result (IsRoomFor room.new (names_in (term_of t.now))) }
{
    room.clear();
    if all_closed(tables, readers, from) {
        return say_same(alloc, t, first, tables, readers, from, n, room);
    }
    if readers.len() == 1 {
        let (estimate, most) = say_alone(t, first, tables, &readers[0], from, n);
        room.put_only(most);
        return Ok(estimate);
    }
    say_each(t, first, tables, readers, from, n, room)
}
