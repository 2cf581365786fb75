// Readings that are added to a series of a store.

ghost use Rattle.std.specs.Prelude.{◌≡◌, ◌⊎◌, ◌+◌, ◌*◌, ◌/◌, ◌≤◌, length, OnOk, OnErr, IfOk, IfErr, None, Some};
ghost use Rattle.segment.specs.Measure.{AreReadings};
ghost use Rattle.seg_tree.specs.Linked.{Extends, used};
ghost use Rattle.store_file.specs.Grown.{IsGrowable, append_refusal, grown_length, grown_store, made_in};
ghost use Rattle.store_file.specs.Stored.{store_value};

use crate::{SeriesErr, Store, Stored};
use expr::Name;

impl Store {
    /// Puts readings behind those of a series, and answers how many it then has. After a refusal the store is as
    /// before.
    pub fn append_series(&mut self, name: &Name, xs: &[i32]) -> Result<u32, SeriesErr>
        requires { AreReadings xs.now }
        ensures grown { OnOk result (store_value self.new ≡ grown_store (store_value self.old) name.now xs.now) }
        ensures growable { OnOk result (IsGrowable (store_value self.old) name.now xs.now) }
        ensures len { IfOk result (λ n. n ≡ grown_length (store_value self.old) name.now xs.now) }
        ensures ok { OnOk result (append_refusal self.old name.now xs.now ≡ None) }
        ensures refused { IfErr result (λ e. (e ≡ SeriesErr.Memory)
            ⊎ (append_refusal self.old name.now xs.now ≡ Some e)) }
        ensures kept { OnErr result (self.new ≡ self.old) }

        ensures extends { Extends self.old.arena.nodes self.new.arena.nodes }
        ensures count { OnOk result (used self.new.arena.nodes
            ≡ used self.old.arena.nodes + made_in (store_value self.old) name.now xs.now) }
        ensures limit { self.new.arena.limit ≡ self.old.arena.limit }
    {
        let Some(stored) = self.series.get(name) else {
            return Err(SeriesErr::Unknown);
        };
        let tree = self.arena.append(stored.tree, xs)?;
        let _ = self.series.insert(*name, Stored { tree }).unwrap();
        Ok(tree.n)
    }
}
