//! The common refinement of shifted segments: a range cut into pieces on which each occurrence of a series stays in one
//! segment.
#![tactic(auto)]

mod cursors;
mod refinement;
mod spans;
#[cfg(test)]
mod tests;

pub use refinement::{Pieces, refine};
pub use spans::{Occ, Span};
