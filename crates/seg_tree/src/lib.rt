//! Trees of segments as linked nodes of an arena.
#![tactic(auto)]

mod adopting;
mod arena;
mod arena_nodes;
mod building;
mod growing;
mod last;
mod lasting_nodes;
mod laws;
mod nodes;
mod places;
mod reading;
mod sweeping;
#[cfg(test)]
mod tests;

pub use arena::{Arena, Tree, TreeErr};
pub use arena_nodes::ArenaNodes;
pub use lasting_nodes::LastingNodes;
pub use laws::{trees_differ, trees_grow};
pub use nodes::{Below, Node};
