//! Variances and covariances as plain queries, which have sums alone.
#![tactic(auto)]

mod expansion;

pub use expansion::{expand, plain_queries_stand_for_theirs};

#[cfg(test)]
mod tests;
