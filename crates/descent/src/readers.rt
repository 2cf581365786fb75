//! The occurrences of a sum, as readers of the tracks of a cut.

ghost use Rattle.std.specs.Prelude.{◌≡◌, ℕ, ◌+◌, ◌*◌, ◌%◌, ◌^◌, ◌<◌, ◌≤◌, ◌++◌, ℤ, pos, ◌+ℤ◌, ◌-ℤ◌, ◌≤ℤ◌, unsigned_abs, true, length, map, IfOk, OnOk};
ghost use Rattle.semantics.specs.Admission.{SumTerm};
ghost use Rattle.semantics.specs.Limits.{series_depth, IsNearSeries};
ghost use Rattle.expr.specs.Terms.{term_of};
ghost use Rattle.bounds.specs.Cut.{occurrences};
ghost use Rattle.descent.specs.Cells.{AreCells};
ghost use Rattle.descent.specs.Held.{shown};
ghost use Rattle.descent.specs.declared.readers.Reader.{Reader};
ghost use Rattle.descent.specs.Readers.{reader_at, reader_of, track_of, AreAligned, AreReadersOf, ComesToCells, IsAtPlace, IsGrain, IsInBlock, IsInEither};
ghost use Rattle.descent.specs.Said.{IsSumFrom};
ghost use Rattle.descent.specs.Sums.{count_of};

use crate::cells::Cells;
use crate::tables::Table;
use expr::{Name, Series};
use num_text::Memory;
use std::alloc::{AllocError, Global};

/// An occurrence of a series: at an offset it reads its track at the offset plus `at`.
#[derive(Clone, Copy, Debug, Drop)]
pub(crate) struct Reader {
    pub(crate) track: u32,
    pub(crate) at: i64,
}

/// The position that a reader reads at an offset.
pub(crate) fn position_of(reader: &Reader, offset: u64) -> u32
    requires from { pos 0 ≤ℤ reader.now.at }
    requires until { (reader.now.at +ℤ pos offset) ≤ℤ pos (2 ^ 20) }
    ensures { pos result ≡ (reader.now.at +ℤ pos offset) }
{
    (reader.at as u64 + offset) as u32
}

/// The first table of a name, behind all where there is none.
fn table_of<I: Copy>(tables: &[Table<I>], name: &Name) -> u32
    requires { length tables.now ≤ 16 }
    ensures { result ≡ track_of (shown tables.now) name.now }
{
    for i in 0..tables.len() {
        if tables[i].name() == *name {
            return i as u32;
        }
    }
    tables.len() as u32
}

/// A position moved back by a shift.
fn moved_back(at: i64, k: i64) -> i64
    requires at { unsigned_abs at ≤ 2 ^ 47 }
    requires k { unsigned_abs k ≤ 2 ^ 40 }
    ensures { result ≡ (at -ℤ k) }
{
    at - k
}

/// Puts a reader for each occurrence of a series whose first position is read at one, from left to right.
fn put_readers<I: Copy>(
    readers: &mut Vec<Reader>,
    t: &Series,
    tables: &[Table<I>],
    at: i64,
) -> Result<(), AllocError>
    requires few { length tables.now ≤ 16 }
    requires near { IsNearSeries (term_of t.now) }
    requires at { unsigned_abs at + 2 ^ 40 * series_depth (term_of t.now) ≤ 2 ^ 47 }
    ensures { OnOk result (readers.new.items
        ≡ readers.old.items ++ map (reader_of (shown tables.now)) (occurrences (term_of t.now) at)) }
{
    match t {
        Series::Base(name) => {
            let track = table_of(tables, name);
            readers.push(Reader { track, at })?;
            Ok(())
        }
        Series::Const { .. } | Series::Bare(_) => Ok(()),
        Series::Plus(u, v) | Series::Minus(u, v) | Series::Times(u, v) => {
            put_readers(readers, u, tables, at)?;
            put_readers(readers, v, tables, at)?;
            Ok(())
        }
        Series::Shift(u, k) => {
            let back = moved_back(at, *k);
            put_readers(readers, u, tables, back)?;
            Ok(())
        }
    }
}

/// The readers of a sum from its first position on, one for each occurrence, from left to right.
pub(crate) fn readers_of<I: Copy>(
    alloc: Global,
    t: &Series,
    first: i64,
    tables: &[Table<I>],
) -> Result<Vec<Reader>, Memory>
    requires { (s : SumTerm) × IsSumFrom (shown tables.now) s (term_of t.now) first }
    ensures { IfOk result (λ v. (s : SumTerm) → IsSumFrom (shown tables.now) s (term_of t.now) first
        → AreReadersOf (shown tables.now) (term_of t.now) first (count_of (shown tables.now) s) v.items) }
{
    let mut readers = Vec::new(alloc);
    put_readers(&mut readers, t, tables, first)?;
    Ok(readers)
}

/// Where a reader reads the first offset.
fn first_place(reader: &Reader) -> u64
    requires { pos 0 ≤ℤ reader.now.at }
    ensures { pos result ≡ reader.now.at }
{
    reader.at as u64
}

/// Whether all readers read the first offset at the same place of their grains.
fn have_grain(readers: &[Reader], grain: u64) -> bool
    requires some { 0 < grain }
    requires from { (o : ℕ) → o < length readers.now → pos 0 ≤ℤ (reader_at readers.now o).at }
    ensures { result ≡ true → (o : ℕ) → o < length readers.now → IsAtPlace readers.now grain o }
{
    for o in 0..readers.len() {
        if first_place(&readers[o]) % grain != first_place(&readers[0]) % grain {
            return false;
        }
    }
    true
}

/// The greatest grain that all readers have.
fn grain_of(readers: &[Reader]) -> u64
    requires { (o : ℕ) → o < length readers.now → pos 0 ≤ℤ (reader_at readers.now o).at }
    ensures whole { IsGrain result }
    ensures same { (o : ℕ) → o < length readers.now → IsAtPlace readers.now result o }
{
    if have_grain(readers, 16) {
        16
    } else if have_grain(readers, 8) {
        8
    } else if have_grain(readers, 4) {
        4
    } else if have_grain(readers, 2) {
        2
    } else {
        1
    }
}

/// The place in its block at which a reader reads the first offset.
fn place_in_block(reader: &Reader) -> u64
    requires { pos 0 ≤ℤ reader.now.at }
    ensures place { IsInBlock reader.now result }
    ensures bound { result < 16 }
{
    first_place(reader) % 16
}

/// A place in blocks at which a reader reads the first offset, another one than a given one if there is any.
fn other_place(readers: &[Reader], first: u64) -> u64
    requires first { first < 16 }
    requires from { (o : ℕ) → o < length readers.now → pos 0 ≤ℤ (reader_at readers.now o).at }
    ensures { result < 16 }
{
    for o in 0..readers.len() {
        let place = place_in_block(&readers[o]);
        if place != first {
            return place;
        }
    }
    first
}

/// Whether a reader reads the first offset at one of two places in its block.
fn is_in_either(reader: &Reader, first: u64, other: u64) -> bool
    requires { pos 0 ≤ℤ reader.now.at }
    ensures { result ≡ true → IsInEither first other reader.now }
{
    let place = place_in_block(reader);
    if place == first {
        return true;
    }
    if place == other {
        return true;
    }
    false
}

/// Whether each reader reads the first offset at one of two places in its block.
fn are_in_either(readers: &[Reader], first: u64, other: u64) -> bool
    requires { (o : ℕ) → o < length readers.now → pos 0 ≤ℤ (reader_at readers.now o).at }
    ensures { result ≡ true → (o : ℕ) → o < length readers.now → IsInEither first other (reader_at readers.now o) }
{
    for o in 0..readers.len() {
        if !is_in_either(&readers[o], first, other) {
            return false;
        }
    }
    true
}

/// The cells of a sum whose readers read the first offset at one of two places of blocks.
fn two_cells(count: usize, first: u64, other: u64) -> Cells
    requires some { 0 < count }
    requires room { count ≤ 2 ^ 20 }
    requires first { first < 16 }
    requires other { other < 16 }
    ensures cells { AreCells result }
    ensures count { result.count ≡ count }
    ensures aligned { (r : Reader) → IsInEither first other r → ComesToCells result r }
{
    let least = first.min(other);
    let most = first.max(other);
    let second = (16 + least - most) % 16;
    Cells {
        count,
        grain: 16,
        second: second as usize,
        pad: least as usize,
    }
}

/// The cells of a sum whose readers read the first offset at more places of blocks.
fn fine_cells(readers: &[Reader], count: usize) -> Cells
    requires some { 0 < length readers.now }
    requires positions { 0 < count }
    requires few { count ≤ 2 ^ 20 }
    requires from { (o : ℕ) → o < length readers.now → pos 0 ≤ℤ (reader_at readers.now o).at }
    ensures cells { AreCells result }
    ensures count { result.count ≡ count }
    ensures aligned { AreAligned result readers.now }
{
    let grain = grain_of(readers);
    let pad = first_place(&readers[0]) % grain;
    Cells {
        count,
        grain: grain as usize,
        second: 0,
        pad: pad as usize,
    }
}

/// The cells of a sum whose readers come to blocks at the borders of cells, where there are some.
fn read_cells(readers: &[Reader], count: usize) -> Cells
    requires some { 0 < length readers.now }
    requires positions { 0 < count }
    requires few { count ≤ 2 ^ 20 }
    requires from { (o : ℕ) → o < length readers.now → pos 0 ≤ℤ (reader_at readers.now o).at }
    ensures cells { AreCells result }
    ensures count { result.count ≡ count }
    ensures aligned { AreAligned result readers.now }
{
    let first = place_in_block(&readers[0]);
    let other = other_place(readers, first);
    if !are_in_either(readers, first, other) {
        return fine_cells(readers, count);
    }
    two_cells(count, first, other)
}

/// The cells of a sum, of which one begins wherever a reader comes to a block. A sum without readers is one cell.
pub(crate) fn cells_for(readers: &[Reader], count: usize) -> Cells
    requires room { count ≤ 2 ^ 41 }
    requires few { 0 < length readers.now → count ≤ 2 ^ 20 }
    requires from { (o : ℕ) → o < length readers.now → 0 < count → pos 0 ≤ℤ (reader_at readers.now o).at }
    ensures cells { AreCells result }
    ensures count { result.count ≡ count }
    ensures aligned { AreAligned result readers.now }
{
    if count == 0 {
        return Cells {
            count,
            grain: 16,
            second: 0,
            pad: 0,
        };
    }
    if readers.is_empty() {
        return Cells {
            count,
            grain: count,
            second: 0,
            pad: 0,
        };
    }
    read_cells(readers, count)
}
