//! The verdict on a certificate.

use expr::AdmitErr;
use expr_parse::ParseErr;
use interval::Iv;

/// What a certificate comes to over a store.
#[derive(Clone, Copy, Debug, Drop, PartialEq, Eq)]
pub enum Verdict {
    /// Its cut proves its interval, which is no wider than its budget.
    Holds,
    /// The first of its lists that is missing, is not that of the series in its place, or has no cut of it.
    NotACut(u32),
    /// The interval that its cut proves, which does not lie inside of its own.
    Escapes(Iv),
    /// How wide its interval is, which is more than its budget.
    Wide(u128),
}

/// Why there is no verdict.
#[derive(Clone, Copy, Debug, Drop, PartialEq, Eq)]
pub enum VerifyErr {
    Parse(ParseErr),
    Admit(AdmitErr),
    Memory,
}
