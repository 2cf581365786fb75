//! Segments: a curve over readings, and how far it is from them; and the shape of the trees that they make.
#![tactic(auto)]

mod curves;
mod fitting;
mod growth;
mod measures;
mod node_access;
mod sanity;
mod segments;
mod shape;
#[cfg(test)]
mod tests;

pub use curves::Curve;
pub use fitting::fit;
pub use growth::few_nodes_are_made;
pub use measures::{GREATEST_READING, greatest_estimate, greatest_reading, measure, miss, unit};
pub use node_access::{Children, NodeErr, Nodes};
pub use sanity::{every_true_segment_is_sane, is_bounded, is_sane};
pub use segments::{Measures, Seg};
pub use shape::{laws_of_the_shape, split};
