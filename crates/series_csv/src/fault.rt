ghost use Rattle.std.specs.Prelude.{◌≡◌};
ghost use Rattle.series_csv.specs.declared.fault.CsvErr.TheVariants.{Memory};

use std::alloc::AllocFailed;

/// The first refusal of a column. The numbers are those of records; the first record after the header is 1.
#[derive(Clone, Copy, Debug, PartialEq, Eq)]
pub enum CsvErr {
    NoHeader,
    NoColumn,
    Short(u32),
    Bad(u32),
    TooLarge(u32),
    MissingFirst(u32),
    TooLong(u32),
    Memory,
}

impl<T: Drop> From<AllocFailed<T>> for CsvErr {
    ghost from_gives = { λ _ e. e ≡ Memory };

    fn from(_e: AllocFailed<T>) -> CsvErr {
        CsvErr::Memory
    }
}
