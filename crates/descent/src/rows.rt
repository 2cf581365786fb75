//! The rows of a cut, as they are told.

use std::marker::Model;

/// A row of a cut: its series by the place in the store, its first position and how many it has, and whether it is
/// opened.
#[derive(Clone, Copy, Debug, Drop, PartialEq, Eq)]
pub struct CutRow {
    pub series: u32,
    pub start: u32,
    pub len: u32,
    pub opened: bool,
}

/// Rows of a cut. They stand series by series in the order of the store, and in each series by start.
#[derive(Drop)]
pub struct Rows {
    items: Vec<CutRow>,
}

impl Model for Rows {
    ghost use Rattle.std.specs.Prelude.{List};
    ghost use Rattle.descent.specs.declared.rows.CutRow.{CutRow};

    ghost Value = { List CutRow };

    ghost view = { λ r. r.items.items };
}

ghost use Rattle.std.specs.Prelude.{◌≡◌};

impl Rows {
    pub fn of(items: Vec<CutRow>) -> Rows
        ensures { result ≡ items.items }
    {
        Rows { items }
    }

    pub fn as_slice(&self) -> &[CutRow]
        ensures { result.now ≡ self.now }
    {
        self.items.as_slice()
    }
}
