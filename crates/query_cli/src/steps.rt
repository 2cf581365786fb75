//! The steps of which commands are made.

pub(crate) mod answer_line;
pub(crate) mod asked;
pub(crate) mod column;
pub(crate) mod files;
pub(crate) mod lines;
pub(crate) mod parts;
pub(crate) mod question;
pub(crate) mod store;
