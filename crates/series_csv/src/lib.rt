//! The readings of a column of a CSV text.
#![tactic(auto)]

mod column;
mod fault;
mod lines;
mod rows;

pub use column::read_column;
pub use fault::CsvErr;

#[cfg(test)]
mod tests;
