// Series that are added to a store.

ghost use Rattle.std.specs.Prelude.{◌≡◌, ◌⊎◌, ◌+◌, length, OnOk, OnErr, IfErr, None, Some};
ghost use Rattle.segment.specs.Measure.{AreReadings};
ghost use Rattle.segment.specs.Shape.{node_count};
ghost use Rattle.seg_tree.specs.Linked.{Extends, used};
ghost use Rattle.store_file.specs.Added.{IsAddable, add_refusal, name_refusal, with_series};
ghost use Rattle.store_file.specs.Stored.{store_value};

use crate::{Store, Stored};
use expr::Name;
use seg_tree::TreeErr;
use std::alloc::AllocError;

/// Why a series was not added.
#[derive(Clone, Copy, Debug, Drop, PartialEq, Eq)]
pub enum SeriesErr {
    /// There is a series of that name.
    Exists,
    /// There are 16 series.
    TooMany,
    /// There is no series of that name.
    Unknown,
    /// It would have more than 2 ^ 20 readings.
    TooLong,
    /// The arena's nodes would pass its limit.
    ArenaFull,
    Memory,
}

impl Store {
    /// Why no series of this name is added, whatever its readings are.
    pub fn name_refusal(&self, name: &Name) -> Option<SeriesErr>
        ensures { result ≡ name_refusal (store_value self.now) name.now }
    {
        if self.series.contains_key(name) {
            return Some(SeriesErr::Exists);
        }
        if self.series.len() >= 16 {
            return Some(SeriesErr::TooMany);
        }
        None
    }

    /// Adds a series, last. After a refusal the store is as before.
    pub fn add_series(&mut self, name: Name, xs: &[i32]) -> Result<(), SeriesErr>
        requires { AreReadings xs.now }
        ensures added { OnOk result (store_value self.new ≡ with_series (store_value self.old) name xs.now) }
        ensures addable { OnOk result (IsAddable (store_value self.old) name xs.now) }
        ensures ok { OnOk result (add_refusal self.old name xs.now ≡ None) }
        ensures refused { IfErr result (λ e. (e ≡ SeriesErr.Memory)
            ⊎ (add_refusal self.old name xs.now ≡ Some e)) }
        ensures stay { OnErr result (self.new ≡ self.old) }

        ensures extends { Extends self.old.arena.nodes self.new.arena.nodes }
        ensures count { OnOk result (used self.new.arena.nodes
            ≡ used self.old.arena.nodes + node_count (length xs.now)) }
        ensures limit { self.new.arena.limit ≡ self.old.arena.limit }
    {
        if let Some(refusal) = self.name_refusal(&name) {
            return Err(refusal);
        }
        // A name's bytes are a name, as its type keeps it.
        let _ = name.bytes();
        self.series.reserve(1)?;
        let tree = self.arena.build(xs)?;
        let _ = self.series.insert(name, Stored { tree }).unwrap();
        Ok(())
    }
}

impl From<TreeErr> for SeriesErr {
    ghost use Rattle.store_file.specs.Added.{series_err_of};

    ghost from_gives = { λ e r. r ≡ series_err_of e };

    fn from(error: TreeErr) -> SeriesErr {
        match error {
            TreeErr::TooLong => SeriesErr::TooLong,
            TreeErr::ArenaFull => SeriesErr::ArenaFull,
            TreeErr::Memory => SeriesErr::Memory,
        }
    }
}

impl From<AllocError> for SeriesErr {
    ghost use Rattle.store_file.specs.declared.adding.SeriesErr.TheVariants.{Memory};

    ghost from_gives = { λ _ r. r ≡ Memory };

    fn from(_: AllocError) -> SeriesErr {
        SeriesErr::Memory
    }
}
