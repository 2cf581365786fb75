ghost use Rattle.std.specs.Prelude.{◌≡◌, ◌≤◌, pos, neg_ℤ};
ghost use Rattle.semantics.specs.Most.{most_number};

use std::marker::Model;

/// The value of a number in text, at most 2^127-1.
#[derive(Clone, Copy)]
pub(crate) struct Magnitude {
    value: u128,
}

impl Model for Magnitude {
    ghost use Rattle.std.specs.Prelude.{ℕ};

    ghost Value = { ℕ };

    ghost use Rattle.expr_parse.specs.Magnitudes.{value_of, IsMagnitude, fields_of, fields_of-value_of};

    ghost view = { value_of };

    ghost invariant = { IsMagnitude };

    ghost inverse = { fields_of };

    ghost inverse_ok = { fields_of-value_of };
}

impl Magnitude {
    pub(crate) fn of(value: u128) -> Magnitude
        requires { value ≤ most_number }
        ensures { result ≡ value }
    {
        Magnitude { value }
    }

    pub(crate) fn positive(self) -> i128
        ensures { result ≡ pos self }
    {
        self.value as i128
    }

    pub(crate) fn negative(self) -> i128
        ensures { result ≡ neg_ℤ (pos self) }
    {
        -(self.value as i128)
    }
}
