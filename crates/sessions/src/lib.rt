//! Sessions over one store: the events of a script, and the line of each reply.
#![tactic(auto)]

mod appending;
mod events;
mod hub;
mod laws;
mod lines;
mod live;
mod queries;
mod replies;
mod scripts;
mod session;
mod words;

pub use events::Event;
pub use hub::Hub;
pub use laws::{hubs_are_worked, scripts_are_worked, sessions_are_alone, sessions_are_sound};
pub use replies::{Cause, Reply, write_reply};
pub use scripts::{ScriptErr, read_script};

#[cfg(test)]
mod hub_tests;
#[cfg(test)]
mod tests;
