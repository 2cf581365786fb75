//! What a cut keeps of a sum of its query.

ghost use Rattle.std.specs.Prelude.{◌≡◌, ◌⊎◌, ℕ, ℤ, ◌+◌, ◌-◌, ◌*◌, ◌/◌, ◌^◌, ◌<◌, ◌≤◌, length, replicate, slice_index, slice_set, unsigned_abs, IfOk, OnOk};
ghost use Rattle.std.specs.Option.{option_map};
ghost use Rattle.expr.specs.Terms.{range_of, term_of};
ghost use Rattle.semantics.specs.Admission.{SumTerm};
ghost use Rattle.semantics.specs.Measures.{names_in};
ghost use Rattle.semantics.specs.Readings.{positions_in};
ghost use Rattle.semantics.specs.Sums.{most_below};
ghost use Rattle.semantics.specs.Term.{Term};
ghost use Rattle.tops.specs.Tops.{number};
ghost use Rattle.descent.specs.Cells.{AreCells, cells_in, offset_of};
ghost use Rattle.descent.specs.Changed.{CanKeep, HasChanged};
ghost use Rattle.descent.specs.Charges.{AreRecharged};
ghost use Rattle.descent.specs.Held.{row_in, shown};
ghost use Rattle.descent.specs.Kept.{kept_in};
ghost use Rattle.descent.specs.KeptSums.{band_of, charge_in, numbers_at, IsKeptSum};
ghost use Rattle.descent.specs.Laid.{held};
ghost use Rattle.descent.specs.Readers.{reader_at};
ghost use Rattle.descent.specs.Rows.{Cut};
ghost use Rattle.descent.specs.Said.{AllStay, IsRoomFor};
ghost use Rattle.descent.specs.Settled.{lens_of, AreAtBorders, AreJointsFor, AreReadIn, AreRightIn, CanBeCharged, CanBeRead, CanSay, HasOtherWeights, IsJointOf, IsKeptBefore, IsOfSum, IsRest, IsRightAt, IsSameAt, IsSameSum, IsSettled, IsShaped, IsTrimmed};
ghost use Rattle.descent.specs.Sound.{IsSound};

use crate::cells::Cells;
use crate::charges::Charges;
use crate::choosing::range_of_sum;
use crate::cuts::Change;
use crate::estimates::Estimates;
use crate::frames::facts_of;
use crate::readers::{Reader, cells_for, position_of, readers_of};
use crate::said::{Room, say, stretch};
use crate::tables::Table;
use expr::{Bounds, Series};
use num_text::Memory;
use pages::Pages;
use segment::Seg;
use std::alloc::{AllocError, Global};
use tops::Tops;

/// The cells of a sum joined to pieces: how many cells a piece has, its estimate and the greatest weight of each
/// occurrence stand at its first cell, and 0 at all others.
#[derive(Drop)]
pub(crate) struct KeptSum {
    pub(crate) cells: Cells,
    pub(crate) first: i64,
    pub(crate) readers: Vec<Reader>,
    pub(crate) lens: Pages<u32>,
    pub(crate) estimates: Estimates,
    pub(crate) weights: Vec<Tops>,
    pub(crate) charges: Charges,
}

/// The cells whose first offset an occurrence reads in a segment, from one to before another.
fn cells_read(cells: &Cells, reader: &Reader, seg: &Seg) -> (usize, usize)
    requires cells { AreCells cells.now }
    requires near { 0 < cells.now.count → unsigned_abs reader.now.at ≤ 2 ^ 60 }
    requires within { seg.now.start + seg.now.len ≤ 2 ^ 20 }
    ensures { AreReadIn cells.now reader.now.at seg.now result.0 result.1 }
{
    if cells.count == 0 {
        return (0, 0);
    }
    let from = cells.border(reader, seg.start);
    let until = cells.border(reader, seg.start + seg.len);
    (from, until)
}

/// What is left of a range of cells without those of another one; all of it where what is left would be in two parts.
fn rest_of(cells: (usize, usize), other: (usize, usize)) -> (usize, usize)
    requires { cells.0 ≤ cells.1 }
    ensures { IsRest cells.0 cells.1 other.0 other.1 result.0 result.1 }
{
    let (from, until) = cells;
    if other.0 <= from && from < other.1 {
        return (other.1.min(until), until);
    }
    if from < other.0 && other.0 < until && until <= other.1 {
        return (from, other.0);
    }
    cells
}

/// The greatest of an occurrence's weights at the cells that it reads in a segment.
fn most_read(cells: &Cells, weights: &Tops, reader: &Reader, seg: &Seg) -> u128
    requires cells { AreCells cells.now }
    requires near { 0 < cells.now.count → unsigned_abs reader.now.at ≤ 2 ^ 60 }
    requires enough { cells_in cells.now ≤ length weights.now }
    requires within { seg.now.start + seg.now.len ≤ 2 ^ 20 }
    ensures { result ≡ most_below (kept_in (offset_of cells.now) (number weights.now) reader.now.at seg.now)
        (cells_in cells.now) }
{
    let (from, until) = cells_read(cells, reader, seg);
    weights.most(from, until)
}

/// The first place of a track's rows, where each block of each track has a place.
fn band<I: Copy>(tables: &[Table<I>], i: usize) -> usize
    requires few { length tables.now ≤ 16 }
    requires within { i ≤ length tables.now }
    ensures place { result ≡ band_of (shown tables.now) i }
    ensures bound { result ≤ 2 ^ 16 * i }
    ensures borders { AreAtBorders (shown tables.now) i }
{
    let mut band = 0;
    for j in 0..i {
        band += tables[j].blocks() as usize;
    }
    band
}

/// How many positions there are from the first to before the second.
fn positions(bounds: Bounds) -> usize
    requires { positions_in (range_of bounds).left (range_of bounds).right ≤ 2 ^ 41 }
    ensures { result ≡ positions_in (range_of bounds).left (range_of bounds).right }
{
    if bounds.r <= bounds.l {
        return 0;
    }
    (bounds.r - bounds.l) as usize
}

/// One piece over so many cells.
fn one_piece(alloc: Global, cells: usize) -> Result<Pages<u32>, AllocError>
    requires { cells ≤ 2 ^ 20 }
    ensures { IfOk result (λ lens. lens ≡ slice_set (replicate cells 0) 0 cells) }
{
    let mut lens = Pages::filled(alloc, cells, 0u32)?;
    if cells > 0 {
        lens.put(0, cells as u32);
    }
    Ok(lens)
}

/// No weights, for so many occurrences at so many cells.
fn no_weights(alloc: Global, occurrences: usize, cells: usize) -> Result<Vec<Tops>, Memory>
    requires { cells ≤ 2 ^ 20 }
    ensures count { IfOk result (λ weights. length weights.items ≡ occurrences) }
    ensures room { IfOk result (λ weights. (o : ℕ) → o < occurrences
        → cells ≤ length (numbers_at weights.items o)) }
    ensures zeros { IfOk result (λ weights. (o c : ℕ) → number (numbers_at weights.items o) c ≡ 0) }
{
    let mut weights = Vec::new(alloc);
    for _o in 0..occurrences {
        let zeros = Tops::zeros(alloc, cells)?;
        weights.push(zeros)?;
    }
    Ok(weights)
}

/// The piece at a cell keeps so many cells, and its others become a piece of their own.
fn trim(lens: &mut Pages<u32>, c: usize, len: usize)
    requires some { 0 < len }
    requires least { len ≤ slice_index lens.old c }
    requires within { c + slice_index lens.old c ≤ length lens.old }
    requires few { length lens.old ≤ 2 ^ 20 }
    ensures trimmed { IsTrimmed (slice_index lens.old) (slice_index lens.new) c len }
    ensures length { length lens.new ≡ length lens.old }
{
    let whole = lens.get(c);
    let kept = len as u32;
    if kept < whole {
        lens.put(c, kept);
        lens.put(c + len, whole - kept);
    }
}

fn weight_at(weights: &[Tops], o: usize, c: usize) -> u128
    requires occurrence { o < length weights.now }
    requires cell { c < length (numbers_at weights.now o) }
    ensures { result ≡ number (numbers_at weights.now o) c }
{
    weights[o].get(c)
}

fn put_at(weights: &mut Vec<Tops>, o: usize, c: usize, weight: u128)
    requires occurrence { o < length weights.old.items }
    requires cell { c < length (numbers_at weights.old.items o) }
    ensures { weights.new.items
        ≡ slice_set weights.old.items o (slice_set (numbers_at weights.old.items o) c weight) }
{
    weights[o].put(c, weight);
}

impl KeptSum {
    /// What the occurrences charge a segment of a track, wrapped to 128 bits.
    fn charge(&self, i: usize, seg: &Seg) -> u128
        requires read { CanBeRead self.now }
        requires within { seg.now.start + seg.now.len ≤ 2 ^ 20 }
        ensures { result ≡ charge_in self.now i seg.now }
    {
        let mut sum = 0u128;
        for o in 0..self.readers.len() {
            let reader = &self.readers[o];
            if reader.track as usize == i {
                let most = most_read(&self.cells, &self.weights[o], reader, seg);
                sum = sum.wrapping_add(seg.l.wrapping_mul(most));
            }
        }
        sum
    }

    /// Charges a closed row of a track anew.
    fn recharge<I: Copy>(&mut self, tables: &[Table<I>], i: usize, seg: &Seg)
        requires read { CanBeRead self.old }
        requires few { length tables.now ≤ 16 }
        requires track { i < length tables.now }
        requires within { seg.now.start + seg.now.len ≤ 2 ^ 20 }
        requires room { band_of (shown tables.now) i + seg.now.start / 16 < length self.old.charges }
        ensures { self.new ≡ record self.old {
          charges = slice_set self.old.charges (band_of (shown tables.now) i + seg.now.start / 16)
              (charge_in self.old i seg.now);
        } }
    {
        let charge = self.charge(i, seg);
        let at = band(tables, i) + (seg.start / 16) as usize;
        self.charges.put(at, charge);
    }

    /// Puts the greatest weight of an occurrence in a piece. Where it is another one than before, the row that the
    /// occurrence reads there is charged anew.
    fn put_weight<I: Copy>(&mut self, tables: &[Table<I>], o: usize, c: usize, weight: u128)
        requires can { CanBeCharged (shown tables.now) self.old }
        requires occurrence { o < length self.old.readers.items }
        requires cell { c < cells_in self.old.cells }
        ensures can { CanBeCharged (shown tables.now) self.new }
        ensures weights { self.new.weights.items
            ≡ slice_set self.old.weights.items o (slice_set (numbers_at self.old.weights.items o) c weight) }
        ensures same { HasOtherWeights self.old self.new }
    {
        if weight_at(self.weights.as_slice(), o, c) == weight {
            return;
        }
        put_at(&mut self.weights, o, c, weight);
        let reader = self.readers[o];
        let position = position_of(&reader, self.cells.offset(c) as u64);
        let i = reader.track as usize;
        if let Some(seg) = tables[i].closed_at(position) {
            self.recharge(tables, i, &seg);
        }
    }

    /// Puts the greatest weight of each occurrence in a piece.
    fn put_weights<I: Copy>(&mut self, tables: &[Table<I>], c: usize, weights: &[u128])
        requires can { CanBeCharged (shown tables.now) self.old }
        requires each { length weights.now ≡ length self.old.readers.items }
        requires cell { c < cells_in self.old.cells }
        ensures can { CanBeCharged (shown tables.now) self.new }
        ensures here { (o : ℕ) → o < length weights.now
            → number (numbers_at self.new.weights.items o) c ≡ slice_index weights.now o }
        ensures others { (o d : ℕ) → (d ≡ c → ⊥)
            → number (numbers_at self.new.weights.items o) d ≡ number (numbers_at self.old.weights.items o) d }
        ensures same { HasOtherWeights self.old self.new }
    {
        for o in 0..weights.len() {
            self.put_weight(tables, o, c, weights[o]);
        }
    }

    /// A piece is cut off where an occurrence goes on in another row. Answers how many offsets are left of it.
    fn cut_off<I: Copy>(&mut self, tables: &[Table<I>], c: usize) -> u64
        requires say { (t : Term) × CanSay (shown tables.now) t self.old × IsShaped (shown tables.now) t self.old }
        requires piece { 0 < lens_of self.old c }
        ensures trimmed { (len : ℕ) × (0 < len) × (len ≤ lens_of self.old c)
            × IsTrimmed (lens_of self.old) (lens_of self.new) c len }
        ensures count { result ≡ offset_of self.new.cells (c + lens_of self.new c) - offset_of self.new.cells c }
        ensures some { 0 < result }
        ensures still { AllStay (shown tables.now) self.new.readers.items (offset_of self.new.cells c) result }
        ensures length { length self.new.lens ≡ length self.old.lens }
        ensures same { self.new ≡ record self.old { lens = self.new.lens } }
    {
        let from = self.cells.offset(c);
        let until = self.cells.offset(c + self.lens.get(c) as usize);
        let len = stretch(
            tables,
            self.readers.as_slice(),
            from as u64,
            (until - from) as u64,
        );
        let next = self.cells.cell_at(from + len as usize);
        trim(&mut self.lens, c, next - c);
        len
    }

    /// A piece is cut off where an occurrence goes on in another row, and what is left of it is put right.
    fn settle_at<I: Copy>(
        &mut self,
        alloc: Global,
        t: &Series,
        tables: &[Table<I>],
        c: usize,
        room: &mut Room,
    ) -> Result<(), Memory>
        requires say { CanSay (shown tables.now) (term_of t.now) self.old }
        requires shaped { IsShaped (shown tables.now) (term_of t.now) self.old }
        requires piece { 0 < lens_of self.old c }
        requires room { IsRoomFor room.old (names_in (term_of t.now)) }
        ensures shaped { OnOk result (IsShaped (shown tables.now) (term_of t.now) self.new) }
        ensures piece { OnOk result (0 < lens_of self.new c) }
        ensures right { OnOk result (IsRightAt (shown tables.now) (term_of t.now) self.new c) }
        ensures others { OnOk result ((d : ℕ) → (d < c) ⊎ (c + lens_of self.old c ≤ d)
            → IsSameAt self.old self.new d) }
        ensures same { OnOk result (IsSameSum self.old self.new) }
        ensures room { OnOk result (IsRoomFor room.new (names_in (term_of t.now))) }
    {
        let len = self.cut_off(tables, c);
        let from = self.cells.offset(c) as u64;
        let readers = self.readers.as_slice();
        let estimate = say(alloc, t, self.first, tables, readers, from, len, room)?;
        self.estimates.put(c, estimate);
        self.put_weights(tables, c, room.weights());
        Ok(())
    }

    /// The pieces from a cell to before another are put right.
    fn settle<I: Copy>(
        &mut self,
        alloc: Global,
        t: &Series,
        tables: &[Table<I>],
        from: usize,
        until: usize,
    ) -> Result<(), Memory>
        requires say { CanSay (shown tables.now) (term_of t.now) self.old }
        requires shaped { IsShaped (shown tables.now) (term_of t.now) self.old }
        requires order { from ≤ until }
        requires within { until ≤ cells_in self.old.cells }
        requires begins { from < until → 0 < lens_of self.old from }
        requires ends { from < until → IsJointOf self.old until }
        ensures { OnOk result (IsSettled (shown tables.now) (term_of t.now) from until self.old self.new) }
    {
        let mut room = Room::new(alloc, self.readers.len())?;
        let mut c = from;
        while c < until {
            self.settle_at(alloc, t, tables, c, &mut room)?;
            c += self.lens.get(c) as usize;
        }
        Ok(())
    }

    /// What is to be kept of a sum: one piece, of which nothing is said yet.
    fn unsettled<I: Copy>(
        alloc: Global,
        t: &Series,
        range: Option<Bounds>,
        tables: &[Table<I>],
    ) -> Result<KeptSum, Memory>
        requires { CanKeep (shown tables.now) (record { series = term_of t.now; range = option_map range_of range }) }
        ensures say { IfOk result (CanSay (shown tables.now) (term_of t.now)) }
        ensures sum { IfOk result (IsOfSum (shown tables.now)
            (record { series = term_of t.now; range = option_map range_of range })) }
        ensures shaped { IfOk result (IsShaped (shown tables.now) (term_of t.now)) }
    {
        let facts = facts_of(alloc, tables)?;
        let bounds = range_of_sum(t, range, facts.as_slice());
        let readers = readers_of(alloc, t, bounds.l, tables)?;
        let cells = cells_for(readers.as_slice(), positions(bounds));
        let lens = one_piece(alloc, cells.len())?;
        let estimates = Estimates::zeros(alloc, cells.len())?;
        let weights = no_weights(alloc, readers.len(), cells.len())?;
        let charges = Charges::zeros(alloc, band(tables, tables.len()))?;
        Ok(KeptSum {
            cells,
            first: bounds.l,
            readers,
            lens,
            estimates,
            weights,
            charges,
        })
    }

    /// What is kept of a sum, over the rows as they are.
    pub(crate) fn build<I: Copy>(
        alloc: Global,
        t: &Series,
        range: Option<Bounds>,
        tables: &[Table<I>],
    ) -> Result<KeptSum, Memory>
        requires { CanKeep (shown tables.now) (record { series = term_of t.now; range = option_map range_of range }) }
        ensures { IfOk result (IsKeptSum (shown tables.now)
            (record { series = term_of t.now; range = option_map range_of range })) }
    {
        let mut kept = KeptSum::unsettled(alloc, t, range, tables)?;
        let cells = kept.cells.len();
        kept.settle(alloc, t, tables, 0, cells)?;
        Ok(kept)
    }

    /// Charges the rows anew that a closed one of a track gave way to. It is charged nothing any more where it was
    /// opened.
    fn charge_anew<I: Copy>(&mut self, tables: &[Table<I>], change: &Change<I>)
        requires read { CanBeRead self.old }
        requires sound { IsSound (shown tables.now) }
        requires room { band_of (shown tables.now) (length tables.now) ≤ length self.old.charges }
        requires changed { (before : Cut) × HasChanged change.now.table (row_in (held change.now.row)) before
            (shown tables.now) }
        ensures charged { (before : Cut) → (h : HasChanged change.now.table (row_in (held change.now.row)) before
            (shown tables.now)) → AreRecharged (shown tables.now) change.now.table h.new self.old self.new.charges }
        ensures same { self.new ≡ record self.old { charges = self.new.charges } }
    {
        let start = change.row.seg.start;
        let table = &tables[change.table];
        let Some(left) = table.closed_at(start) else {
            let at = band(tables, change.table) + (start / 16) as usize;
            self.charges.put(at, 0);
            return;
        };
        self.recharge(tables, change.table, &left);
        if let Some(right) = table.closed_at(left.start + left.len) {
            self.recharge(tables, change.table, &right);
        }
    }

    /// What an occurrence reads of the positions of a segment is put right, but for a range of cells that is right.
    /// Answers the cells that the occurrence reads.
    fn settle_in<I: Copy>(
        &mut self,
        alloc: Global,
        t: &Series,
        tables: &[Table<I>],
        o: usize,
        seg: &Seg,
        right: (usize, usize),
    ) -> Result<(usize, usize), Memory>
        requires say { CanSay (shown tables.now) (term_of t.now) self.old }
        requires shaped { IsShaped (shown tables.now) (term_of t.now) self.old }
        requires occurrence { o < length self.old.readers.items }
        requires within { seg.now.start + seg.now.len ≤ 2 ^ 20 }
        requires joints { AreJointsFor self.old o seg.now }
        requires right { AreRightIn (shown tables.now) (term_of t.now) self.old right.0 right.1 }
        ensures read { IfOk result (λ cells. AreReadIn self.old.cells (reader_at self.old.readers.items o).at seg.now
            cells.0 cells.1) }
        ensures settled { IfOk result (λ cells. (from until : ℕ) × IsRest cells.0 cells.1 right.0 right.1 from until
            × IsSettled (shown tables.now) (term_of t.now) from until self.old self.new) }
    {
        let cells = cells_read(&self.cells, &self.readers[o], seg);
        let (from, until) = rest_of(cells, right);
        self.settle(alloc, t, tables, from, until)?;
        Ok(cells)
    }

    /// What is kept is made that of the rows as they are, where it was right before one of them gave way.
    pub(crate) fn take_over<I: Copy>(
        &mut self,
        alloc: Global,
        t: &Series,
        tables: &[Table<I>],
        change: &Change<I>,
    ) -> Result<(), Memory>
        requires { (s : SumTerm) × IsKeptBefore change.now.table (row_in (held change.now.row)) (shown tables.now)
            (term_of t.now) s self.old }
        ensures { OnOk result ((s : SumTerm) → IsKeptBefore change.now.table (row_in (held change.now.row))
            (shown tables.now) (term_of t.now) s self.old → IsKeptSum (shown tables.now) s self.new) }
    {
        self.charge_anew(tables, change);
        let mut right = (0, 0);
        for o in 0..self.readers.len() {
            if self.readers[o].track as usize != change.table {
                continue;
            }
            right = self.settle_in(alloc, t, tables, o, &change.row.seg, right)?;
        }
        Ok(())
    }
}
