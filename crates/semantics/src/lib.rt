//! The definitions that the contracts of several crates cite, and the laws of whole numbers that they need. No code.
#![tactic(auto)]
