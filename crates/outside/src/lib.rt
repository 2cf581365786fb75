//! Files and output, each with a count of its faults.
//!
//! The layers above read files through [`Shelf`] and write through [`Out`], whose contracts say what may be known of
//! files and bytes. Shelves and outputs in memory tell what they hold, and steady ones never fail; a real folder and
//! standard output tell nothing.
#![tactic(auto)]

mod failing_calls;
mod file_bytes;
mod folder;
mod kept_file;
mod map_files;
mod memory_out;
mod memory_shelf;
mod opening;
mod output;
mod read_ahead;
mod shelves;
mod standard_output;
mod steady_out;
mod steady_shelf;
mod whole_files;
mod whole_pieces;

pub use file_bytes::Bytes;
pub use folder::DirShelf;
pub use memory_out::MemOut;
pub use memory_shelf::MemShelf;
pub use output::{Out, PutErr};
pub use shelves::{Failed, FetchErr, Fetched, ReplaceErr, Shelf};
pub use standard_output::StdOut;
pub use steady_out::SteadyOut;
pub use steady_shelf::SteadyShelf;

#[cfg(test)]
mod tests;
