//! A store of series, and its bytes.
#![tactic(auto)]

mod adding;
mod appending;
mod decoding;
mod entry_reading;
mod facts;
mod header;
mod last;
mod laws;
mod reading;
mod store;
#[cfg(test)]
mod tests;
mod tree_reading;
mod trees;
mod truth;

pub use adding::SeriesErr;
pub use decoding::{StoreErr, bytes_decode, decode};
pub use header::{Entry, Fixed};
pub use laws::{
    adding_keeps_stores, appends_are_loads, growing_keeps_stores, growth_has_room, headers_keep,
    images_differ, room_is_enough, small_stores_have_bytes, stores_have_facts,
};
pub use reading::{entry_len, read_entry, read_fixed};
pub use store::{Store, Stored};
