//! The text of queries: its tokens, the query that it is, and the text that a query is printed as.
//!
//! ```text
//! query   = term { ("+" | "-") term }
//! term    = factor { "*" factor }
//! factor  = number | "-" number | "(" query ")"
//!         | "sum" "(" series [ "," place "," place ] ")"
//!         | "varnum" "(" series "," place "," place ")"
//!         | "covnum" "(" series "," series "," place "," place ")"
//! series  = sterm { ("+" | "-") sterm }
//! sterm   = sfactor { "*" sfactor }
//! sfactor = name | number | "-" number | "(" series ")"
//!         | "const" "(" whole "," place "," place ")"
//!         | "shift" "(" series "," place ")"
//! whole   = number | "-" number
//! place   = number | "-" number, of magnitude at most 2^40
//! ```
//!
//! Spaces and tabs between tokens are passed over. All operators associate to the left.
#![tactic(auto)]

mod canonical;
mod error;
mod laws;
mod lexeme;
mod limits;
mod magnitude;
mod query;
mod series;
mod text;
mod token;

pub use canonical::{
    canonical_is_parsed, canonical_is_shortest, canonical_is_text, parsed_is_text, print,
};
pub use error::ParseErr;
pub use laws::{parsed_is_parser, parses_alone, parses_without_memory};
pub use text::{parse, tokens};
pub use token::{Kind, Token};

#[cfg(test)]
mod tests;
