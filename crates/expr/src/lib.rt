//! Expressions over series, queries over their sums, and the admission of a query.
#![tactic(auto)]

mod admission;
mod expression;
mod facts;
mod laws;
mod measures;
mod name;
mod size;

pub use admission::{AdmitErr, admit};
pub use expression::{Bounds, Query, Series};
pub use facts::Fact;
pub use laws::{constants_may_end, sums_read_inside};
pub use measures::{domain, h_units, rank};
pub use name::{Name, is_word_byte};
