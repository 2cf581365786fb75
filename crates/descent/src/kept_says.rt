//! What is kept of a sum says its estimate, its error and the row that it charges most.

ghost use Rattle.std.specs.Prelude.{◌≡◌, ℕ, ◌+◌, ◌*◌, ◌<◌, length, Some};
ghost use Rattle.semantics.specs.Admission.{SumTerm};
ghost use Rattle.descent.specs.Changed.{CanKeep};
ghost use Rattle.descent.specs.Choice.{charge, charged_rows, heaviest, pick_if};
ghost use Rattle.descent.specs.Held.{shown};
ghost use Rattle.descent.specs.KeptSums.{band_of, IsKeptSum};
ghost use Rattle.descent.specs.Laid.{blocks};
ghost use Rattle.descent.specs.Readers.{track_at};
ghost use Rattle.descent.specs.Rows.{Cut};
ghost use Rattle.descent.specs.Sums.{sum_in};

use crate::Pick;
use crate::kept::KeptSum;
use crate::tables::Table;
use error_prop::SumIn;

/// The block at a place, where each block of each table has a place.
fn pick_at<I: Copy>(tables: &[Table<I>], place: usize) -> Option<Pick>
    ensures { (i block : ℕ) → i < length tables.now → block < blocks (track_at (shown tables.now) i).len
        → place ≡ band_of (shown tables.now) i + block
        → result ≡ Some (record { series = (track_at (shown tables.now) i).series; start = 16 * block }) }
{
    let mut rest = place;
    for i in 0..tables.len() {
        let table = &tables[i];
        let blocks = table.blocks() as usize;
        if rest < blocks {
            return Some(Pick {
                series: table.series(),
                start: 16 * rest as u32,
            });
        }
        rest -= blocks;
    }
    None
}

impl KeptSum {
    /// The estimate and the error of the sum, over each cut for which it is kept right.
    pub(crate) fn sum(&self) -> SumIn
        ensures { (cut : Cut) (s : SumTerm) → CanKeep cut s → IsKeptSum cut s self.now → result ≡ sum_in cut s }
    {
        SumIn {
            est: self.estimates.sum(),
            err: self.charges.sum(),
        }
    }

    /// The first of the rows that are charged most, or none where none is charged anything, if it is kept right.
    pub(crate) fn heaviest<I: Copy>(&self, tables: &[Table<I>]) -> Option<Pick>
        ensures { (s : SumTerm) → CanKeep (shown tables.now) s → IsKeptSum (shown tables.now) s self.now
            → result ≡ pick_if (heaviest charge (charged_rows (shown tables.now) s)) }
    {
        let Some(place) = self.charges.heaviest() else {
            return None;
        };
        pick_at(tables, place)
    }
}
