//! Whole numbers and scaled decimals in text, and the lists of bytes and readings.
#![tactic(auto)]

mod cells;
mod digits;
mod lists;
mod memory;
mod numbers;

pub use cells::{Cell, is_blank, read_scaled};
pub use lists::{Readings, Text};
pub use memory::Memory;
pub use numbers::{read_i128, write_i128};

#[cfg(test)]
mod tests;
