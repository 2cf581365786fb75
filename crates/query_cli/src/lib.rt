//! The commands, from their words to what they print.
#![tactic(auto)]

mod commands;
mod generated;
mod laws;
mod refusals;
mod status;
mod steps;
mod stop;
mod top;
mod words;

pub use laws::{certificates_hold, histories_make_stores, stores_are_accepted};
pub use status::Status;
pub use top::run;
