//! The bytes of numbers, of segments' records and of trees, and where a node's record stands among them.
#![tactic(auto)]

mod laws;
mod numbers;
mod offsets;
mod records;
#[cfg(test)]
mod tests;

pub use laws::{numbers_keep, records_keep, trees_keep};
pub use numbers::{get_signed, get_unsigned, put_signed, put_unsigned};
pub use offsets::{offset_of, tree_bytes};
pub use records::{read_seg, write_seg};
