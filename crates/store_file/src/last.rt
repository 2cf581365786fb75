// The last reading of a series.

ghost use Rattle.std.specs.Prelude.{◌≡◌, ◌^◌, ◌≤◌, unsigned_abs, IfOk, IfSome};
ghost use Rattle.store_file.specs.Last.{last_in};
ghost use Rattle.store_file.specs.Stored.{store_value};

use crate::{SeriesErr, Store};
use expr::Name;

impl Store {
    /// The last reading of a series, where it has readings.
    pub fn last_reading(&self, name: &Name) -> Result<Option<i32>, SeriesErr>
        ensures value { result ≡ last_in (store_value self.now) name.now }
        ensures small { IfOk result (λ o. IfSome o (λ x. unsigned_abs x ≤ 10 ^ 9)) }
    {
        let Some(stored) = self.series.get(name) else {
            return Err(SeriesErr::Unknown);
        };
        Ok(self.arena.last_reading(stored.tree))
    }
}
