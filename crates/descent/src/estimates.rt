//! The estimates of the pieces of a sum, each at the cell where its piece begins, and their sum.

ghost use Rattle.std.specs.Prelude.{◌≡◌, ◌^◌, ◌<◌, ◌≤◌, length, slice_set, pos, ℤ, IfOk, List, replicate};
ghost use Rattle.std.specs.Int.{int_wrap, w128};
ghost use Rattle.semantics.specs.Readings.{reading};
ghost use Rattle.semantics.specs.Sums.{total_below};

use pages::Pages;
use std::alloc::{AllocError, Global};
use std::marker::Model;

/// Estimates, seen as a list.
#[derive(Drop)]
pub(crate) struct Estimates {
    items: Pages<i128>,
    /// The sum of the estimates, wrapped to 128 bits.
    sum: i128,
}

impl Model for Estimates {
    ghost use Rattle.std.specs.Prelude.{◌≡◌, length, List, ℤ};
    ghost use Rattle.std.specs.Int.{int_wrap, w128};
    ghost use Rattle.semantics.specs.Readings.{reading};
    ghost use Rattle.semantics.specs.Sums.{total_below};

    ghost Value = { List ℤ };

    ghost view = { λ e. e.items };

    ghost invariant = { λ e. e.sum ≡ int_wrap w128 (total_below (reading e.items) (length e.items)) };
}

impl Estimates {
    pub(crate) fn zeros(alloc: Global, count: usize) -> Result<Estimates, AllocError>
        requires { count ≤ 2 ^ 28 }
        ensures { IfOk result (λ e. e ≡ replicate count (pos 0)) }
    {
        let items = Pages::filled(alloc, count, 0)?;
        Ok(Estimates { items, sum: 0 })
    }

    /// The sum of the estimates, wrapped to 128 bits.
    pub(crate) fn sum(&self) -> i128
        ensures { result ≡ int_wrap w128 (total_below (reading self.now) (length self.now)) }
    {
        self.sum
    }

    /// Puts an estimate at a cell.
    pub(crate) fn put(&mut self, at: usize, estimate: i128)
        requires { at < length self.old }
        ensures { self.new ≡ slice_set self.old at estimate }
    {
        self.sum = self
            .sum
            .wrapping_sub(self.items.get(at))
            .wrapping_add(estimate);
        self.items.put(at, estimate);
    }
}
