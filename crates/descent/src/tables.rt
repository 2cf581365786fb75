//! The rows of one series of a cut, each at the place of its first block.

ghost use Rattle.std.specs.Prelude.{◌≡◌, ℕ, ◌+◌, ◌-◌, ◌*◌, ◌/◌, ◌<◌, ◌≤◌, length, List, [], ◌∷◌, map, None, Some, slice_set, IfSome, IfOk, get_or, ◌^◌, replicate, ◌++◌, OnOk, take, slice_index, ◌⊎◌, MatchOption, pos, true};
ghost use Rattle.segment.specs.Shape.{IsSplit};
ghost use Rattle.bounds.specs.Segments.{covers, seg_at as seg_over};
ghost use Rattle.descent.specs.Standing.{IsClosedOver, IsEndOver, IsOpenedOver};
ghost use Rattle.descent.specs.Held.{Held, row_in as row_held};
ghost use Rattle.descent.specs.Told.{told_row};
ghost use Rattle.descent.specs.Laid.{blocks, held, replaced, IsRowFrom, IsOpened, AreHalves, CanGoBack, IsRootOf, restored, root_table};
ghost use Rattle.descent.specs.Choice.{Has};
ghost use Rattle.descent.specs.Known.{fact_of};
ghost use Rattle.expr.specs.Facts.{fact_of as fact_by};
ghost use Rattle.descent.specs.Rows.{segs_of_row, segs_of_rows, with_rows};
ghost use Rattle.descent.specs.Sound.{AreSmall, IsSoundRow, IsSoundTrack};
ghost use Rattle.segment.specs.Measure.{IsSane};

use crate::rows::CutRow;
use expr::{Fact, Name};
use pages::Sparse;
use segment::{Seg, unit};
use std::alloc::{AllocError, Global};
use std::marker::Model;

/// A node that stands in a cut; a leaf may be opened, and holds its readings then.
#[derive(Clone, Copy, Drop)]
pub(crate) struct Row<I> {
    pub(crate) id: I,
    pub(crate) seg: Seg,
    pub(crate) readings: Option<[i32; 16]>,
}

impl<I: Copy> Row<I> {
    /// The segment that the row gives at one of its positions: that of a reading where it is opened.
    pub(crate) fn seg_at(&self, position: u32) -> Seg
        requires sound { (d : ℕ) × IsSoundRow d (held self.now).row }
        requires covered { covers self.now.seg (pos position) ≡ true }
        ensures { result ≡ seg_over (segs_of_row (held self.now).row) (pos position) }
    {
        match &self.readings {
            None => self.seg,
            Some(xs) => unit(xs[(position - self.seg.start) as usize], position),
        }
    }
}

/// What a cut has of one series, seen as a track. To split a row takes two writes and no memory.
#[derive(Drop)]
pub(crate) struct Table<I> {
    series: u32,
    name: Name,
    len: u32,
    greatest: u64,
    /// Each row stands at the place of its first block of 16 readings.
    places: Sparse<Option<Row<I>>>,
    /// The first block of the row that covers a block.
    owners: Vec<u32>,
}

impl<I> Model for Table<I> {
    ghost use Rattle.descent.specs.Held.{Held};
    ghost use Rattle.descent.specs.Rows.{Track};

    ghost Value = { Track (Held I) };

    ghost use Rattle.descent.specs.Laid.{view_of, IsTable};

    ghost view = { view_of };

    ghost invariant = { IsTable };
}

fn row_in<I: Copy>(places: &Sparse<Option<Row<I>>>, block: usize) -> Option<Row<I>>
    ensures { result ≡ get_or places.now block None }
{
    if block < places.len() {
        places.get(block)
    } else {
        None
    }
}

fn put_one<I: Copy>(places: &mut Sparse<Option<Row<I>>>, at: usize, row: Row<I>)
    requires { at < length places.old }
    ensures { places.new ≡ slice_set places.old at (Some row) }
{
    places.put(at, Some(row));
}

fn put_two<I: Copy>(
    places: &mut Sparse<Option<Row<I>>>,
    first: usize,
    second: usize,
    left: Row<I>,
    right: Row<I>,
)
    requires first { first < length places.old }
    requires second { second < length places.old }
    ensures { places.new ≡ slice_set (slice_set places.old first (Some left)) second (Some right) }
{
    places.put(first, Some(left));
    places.put(second, Some(right));
}

fn join_two<I: Copy>(places: &mut Sparse<Option<Row<I>>>, first: usize, second: usize, row: Row<I>)
    requires first { first < length places.old }
    requires second { second < length places.old }
    ensures { places.new ≡ slice_set (slice_set places.old first (Some row)) second None }
{
    places.put(first, Some(row));
    places.put(second, None);
}

/// Blocks go over to the row that begins at one of them.
fn give(owners: &mut Vec<u32>, from: usize, until: usize, owner: u32)
    requires { until ≤ length owners.old.items }
    ensures given { (b : ℕ) → from ≤ b → b < until → slice_index owners.new.items b ≡ owner }
    ensures others { (b : ℕ) → (b < from) ⊎ (until ≤ b)
        → slice_index owners.new.items b ≡ slice_index owners.old.items b }
    ensures count { length owners.new.items ≡ length owners.old.items }
{
    for b in from..until {
        owners[b] = owner;
    }
}

impl<I: Copy> Table<I> {
    /// The rows of a series of `len` readings: its root, or none.
    pub(crate) fn of_root(
        alloc: Global,
        series: u32,
        name: Name,
        len: u32,
        root: Option<(I, Seg)>,
    ) -> Result<Table<I>, AllocError>
        requires few { len ≤ 2 ^ 20 }
        requires whole { IsRootOf len root }
        ensures { IfOk result (λ t. t ≡ root_table series name len root) }
    {
        let Some(node) = root else {
            let places = Sparse::filled(alloc, 0, None)?;
            return Ok(Table {
                series,
                name,
                len,
                greatest: 0,
                places,
                owners: Vec::new(alloc),
            });
        };
        let mut places = Sparse::filled(alloc, len.div_ceil(16) as usize, None)?;
        let row = Row {
            id: node.0,
            seg: node.1,
            readings: None,
        };
        put_one(&mut places, 0, row);
        let owners = vec![in alloc; 0u32; len.div_ceil(16) as usize]?;
        Ok(Table {
            series,
            name,
            len,
            greatest: node.1.d,
            places,
            owners,
        })
    }

    pub(crate) fn series(&self) -> u32
        ensures { result ≡ self.now.series }
    {
        self.series
    }

    /// How many blocks of 16 readings the series has.
    pub(crate) fn blocks(&self) -> u32
        ensures count { result ≡ blocks self.now.len }
        ensures sound { IsSoundTrack (with_rows row_held self.now) }
        ensures borders { (h : Held I) → Has h self.now.rows → h.row.seg.start ≡ 16 * (h.row.seg.start / 16) }
    {
        self.len.div_ceil(16)
    }

    /// The row from a position on, or none where no row begins there.
    pub(crate) fn row_from(&self, start: u32) -> Option<Row<I>>
        ensures sound { IsSoundTrack (with_rows row_held self.now) }
        ensures some { IfSome result (IsRowFrom self.now.rows start) }
        ensures none { result ≡ None → (h : Held I) → Has h self.now.rows → h.row.seg.start ≡ start → ⊥ }
    {
        let Some(row) = row_in(&self.places, (start / 16) as usize) else {
            return None;
        };
        if row.seg.start != start {
            return None;
        }
        Some(row)
    }

    /// A row is put, opened, into the place of the same one.
    pub(crate) fn open(&mut self, row: Row<I>)
        requires opened { IsOpened self.old.rows row }
        requires small { IfSome row.readings (λ xs. AreSmall self.old.greatest row.seg.len (take row.seg.len xs)) }
        ensures { self.new ≡ record self.old { rows = replaced row.seg.start (held row ∷ []) self.old.rows } }
    {
        put_one(&mut self.places, (row.seg.start / 16) as usize, row);
    }

    /// A row gives way to two.
    pub(crate) fn split(&mut self, left: Row<I>, right: Row<I>)
        requires halves { AreHalves self.old.rows left.seg right.seg }
        requires left_closed { left.readings ≡ None }
        requires left_sane { IsSane left.seg self.old.greatest }
        requires right_closed { right.readings ≡ None }
        requires right_sane { IsSane right.seg self.old.greatest }
        ensures { self.new ≡ record self.old {
          rows = replaced left.seg.start (held left ∷ held right
              ∷ []) self.old.rows;
        } }
    {
        let first = (left.seg.start / 16) as usize;
        let second = first + (left.seg.len / 16) as usize;
        put_two(&mut self.places, first, second, left, right);
        let end = second + right.seg.len.div_ceil(16) as usize;
        give(&mut self.owners, second, end, right.seg.start / 16);
    }

    /// A row takes back the place of what it gave way to.
    pub(crate) fn put_back(&mut self, row: Row<I>)
        requires back { CanGoBack row self.old.rows }
        requires sound { IsSoundTrack (with_rows row_held (record self.old {
          rows = restored
              (held row) self.old.rows;
        })) }
        ensures { self.new ≡ record self.old { rows = restored (held row) self.old.rows } }
    {
        let first = (row.seg.start / 16) as usize;
        let Some(left) = row_in(&self.places, first) else {
            unreachable!()
        };
        if left.seg.len == row.seg.len {
            put_one(&mut self.places, first, row);
        } else {
            let second = first + (left.seg.len / 16) as usize;
            let end = first + row.seg.len.div_ceil(16) as usize;
            join_two(&mut self.places, first, second, row);
            give(&mut self.owners, second, end, row.seg.start / 16);
        }
    }

    /// The row at a position.
    pub(crate) fn row_at(&self, position: u32) -> &Row<I>
        requires { position < self.now.len }
        ensures there { Has (held result.now) self.now.rows }
        ensures covered { covers result.now.seg (pos position) ≡ true }
        ensures sound { IsSoundTrack (with_rows row_held self.now) }
        ensures borders { (h : Held I) → Has h self.now.rows → h.row.seg.start ≡ 16 * (h.row.seg.start / 16) }
    {
        let owner = self.owners[(position / 16) as usize];
        let Some(row) = self.places.item(owner as usize) else {
            unreachable!()
        };
        row
    }

    /// The segment of the row at a position, none where that row is opened.
    pub(crate) fn closed_at(&self, position: u32) -> Option<Seg>
        requires { position < self.now.len }
        ensures { MatchOption result (IsOpenedOver (map row_held self.now.rows) position)
            (IsClosedOver (map row_held self.now.rows) position) }
    {
        let row = self.row_at(position);
        match row.readings {
            None => Some(row.seg),
            Some(_) => None,
        }
    }

    /// The segment that the cut gives at a position: that of a reading where the row is opened.
    pub(crate) fn seg_at(&self, position: u32) -> Seg
        requires { position < self.now.len }
        ensures { result ≡ seg_over (segs_of_rows (map row_held self.now.rows)) (pos position) }
    {
        self.row_at(position).seg_at(position)
    }

    /// The position behind the row at one.
    pub(crate) fn end_at(&self, position: u32) -> u32
        requires { position < self.now.len }
        ensures { IsEndOver (map row_held self.now.rows) self.now.len position result }
    {
        let row = self.row_at(position);
        row.seg.start + row.seg.len
    }

    pub(crate) fn name(&self) -> Name
        ensures { result ≡ self.now.name }
    {
        self.name
    }

    pub(crate) fn fact(&self) -> Fact
        ensures { fact_by result ≡ fact_of self.now }
    {
        Fact {
            name: self.name,
            n: self.len,
            d: self.greatest,
        }
    }

    /// The rows are told, in order.
    pub(crate) fn tell(&self, rows: &mut Vec<CutRow>) -> Result<(), AllocError>
        ensures told { OnOk result (rows.new.items ≡ rows.old.items ++ map (told_row self.now.series)
            (map row_held self.now.rows)) }
        ensures few { OnOk result (length rows.new.items ≤ length rows.old.items + 2 ^ 16) }
    {
        for i in 0..self.places.len() {
            let Some(row) = self.places.item(i) else {
                continue;
            };
            rows.push(CutRow {
                series: self.series,
                start: row.seg.start,
                len: row.seg.len,
                opened: row.readings.is_some(),
            })?;
        }
        Ok(())
    }
}
