//! The charges of the rows of a sum, each at the place of its row, and their sum.

ghost use Rattle.std.specs.Prelude.{◌≡◌, ℕ, ◌%◌, ◌^◌, ◌<◌, ◌≤◌, length, slice_set, IfOk, List, MatchOption, replicate};
ghost use Rattle.semantics.specs.Sums.{sum_below};
ghost use Rattle.tops.specs.Tops.{number, IsTop};

use std::alloc::{AllocError, Global};
use std::marker::Model;
use tops::Tops;

/// Charges, seen as a list.
#[derive(Drop)]
pub(crate) struct Charges {
    tops: Tops,
    /// The sum of the charges, wrapped to 128 bits.
    sum: u128,
}

impl Model for Charges {
    ghost use Rattle.std.specs.Prelude.{◌≡◌, ℕ, ◌%◌, ◌^◌, length, List};
    ghost use Rattle.semantics.specs.Sums.{sum_below};
    ghost use Rattle.tops.specs.Tops.{number};

    ghost Value = { List ℕ };

    ghost view = { λ c. c.tops };

    ghost invariant = { λ c. c.sum ≡ sum_below (number c.tops) (length c.tops) % 2 ^ 128 };
}

impl Charges {
    /// So many zeros at least.
    pub(crate) fn zeros(alloc: Global, count: usize) -> Result<Charges, AllocError>
        requires { count ≤ 2 ^ 28 }
        ensures enough { IfOk result (λ c. count ≤ length c) }
        ensures zeros { IfOk result (λ c. c ≡ replicate (length c) 0) }
    {
        let tops = Tops::zeros(alloc, count)?;
        Ok(Charges { tops, sum: 0 })
    }

    /// The sum of the charges, wrapped to 128 bits.
    pub(crate) fn sum(&self) -> u128
        ensures { result ≡ sum_below (number self.now) (length self.now) % 2 ^ 128 }
    {
        self.sum
    }

    /// Charges the row at a place anew.
    pub(crate) fn put(&mut self, at: usize, charge: u128)
        requires { at < length self.old }
        ensures { self.new ≡ slice_set self.old at charge }
    {
        self.sum = self
            .sum
            .wrapping_sub(self.tops.get(at))
            .wrapping_add(charge);
        self.tops.put(at, charge);
    }

    /// The first place of the greatest charge, or none where all charges are 0.
    pub(crate) fn heaviest(&self) -> Option<usize>
        ensures { MatchOption result ((at : ℕ) → number self.now at ≡ 0)
            (λ at. IsTop self.now at × (0 < number self.now at)) }
    {
        let at = self.tops.top();
        if self.tops.get(at) == 0 {
            None
        } else {
            Some(at)
        }
    }
}
