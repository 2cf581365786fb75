ghost use Rattle.std.specs.Prelude.{◌≡◌};
ghost use Rattle.expr_parse.specs.declared.error.ParseErr.TheVariants.{Memory};

use std::alloc::AllocFailed;

/// Why a text has no query.
#[derive(Clone, Copy, Debug, PartialEq, Eq)]
pub enum ParseErr {
    /// The byte at this place begins no token, or a word of more than 32 bytes or a number above 2^127-1; or the tokens
    /// before it begin a query, and the one at it can't follow. Where more tokens had to follow it is the text's
    /// length.
    At(u32),
    /// The text has more than 4096 bytes.
    TooLong,
    /// More than 64 parentheses are open at one time, or the depth is above 64.
    TooDeep,
    /// There are more than 16 sums, where `varnum` and `covnum` have 3 each.
    TooManySums,
    /// A sum has more than 32 names, each time counted.
    TooManyNames,
    Memory,
}

impl<T: Drop> From<AllocFailed<T>> for ParseErr {
    ghost from_gives = { λ _ e. e ≡ Memory };

    fn from(_e: AllocFailed<T>) -> ParseErr {
        ParseErr::Memory
    }
}
