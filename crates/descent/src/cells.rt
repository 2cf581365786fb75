//! The offsets of a sum, cut into cells.

ghost use Rattle.std.specs.Prelude.{◌≡◌, ◌⊎◌, ℕ, ◌+◌, ◌-◌, ◌*◌, ◌/◌, ◌^◌, ◌≤◌, unsigned_abs};
ghost use Rattle.descent.specs.Cells.{begin_of, cells_in, first_from, offset_of, AreCells, IsBorder};

use crate::readers::Reader;

/// One cell for each `grain` offsets, or two for each 16 where there is a `second` one. The first cell has `pad` fewer,
/// and the last one ends with the sum.
#[derive(Clone, Copy, Debug, Drop)]
pub(crate) struct Cells {
    pub(crate) count: usize,
    pub(crate) grain: usize,
    /// Where the second cell of each 16 offsets begins, or 0.
    pub(crate) second: usize,
    pub(crate) pad: usize,
}

impl Cells {
    /// Where a cell begins, with the pad.
    fn begin(&self, c: usize) -> usize
        requires cells { AreCells self.now }
        requires within { c ≤ cells_in self.now }
        ensures { result ≡ begin_of self.now c }
    {
        let second = self.second;
        if second == 0 {
            return c * self.grain;
        }
        16 * (c / 2) + second.min(16 * (c % 2))
    }

    /// The first cell that begins so far from the first one's beginning or behind.
    fn first_from(&self, n: usize) -> usize
        requires cells { AreCells self.now }
        requires room { n ≤ 2 ^ 42 }
        ensures { result ≡ first_from self.now n }
    {
        let second = self.second;
        if second == 0 {
            return (n + (self.grain - 1)) / self.grain;
        }
        let rest = n % 16;
        2 * (n / 16) + rest.min(1) + rest.saturating_sub(second).min(1)
    }

    /// How many cells there are.
    pub(crate) fn len(&self) -> usize
        requires { AreCells self.now }
        ensures { result ≡ cells_in self.now }
    {
        self.first_from(self.count + self.pad)
    }

    /// The first offset of a cell.
    pub(crate) fn offset(&self, c: usize) -> usize
        requires cells { AreCells self.now }
        requires within { c ≤ cells_in self.now }
        ensures { result ≡ offset_of self.now c }
    {
        self.count.min(self.begin(c).saturating_sub(self.pad))
    }

    /// The cell that begins at an offset.
    pub(crate) fn cell_at(&self, offset: usize) -> usize
        requires cells { AreCells self.now }
        requires within { offset ≤ self.now.count }
        requires aligned { (offset ≡ self.now.count) ⊎ ((c : ℕ) × (offset + self.now.pad ≡ begin_of self.now c)) }
        ensures offset { offset_of self.now result ≡ offset }
        ensures within { result ≤ cells_in self.now }
    {
        self.first_from(offset + self.pad)
    }

    /// The first cell that an occurrence reads from a position on.
    pub(crate) fn border(&self, reader: &Reader, position: u32) -> usize
        requires cells { AreCells self.now }
        requires near { unsigned_abs reader.now.at ≤ 2 ^ 60 }
        ensures { IsBorder self.now reader.now.at position result }
    {
        let distance = i64::from(position) - reader.at;
        if distance <= 0 {
            return 0;
        }
        let offset = self.count.min(distance as usize);
        self.first_from(offset + self.pad)
    }
}
