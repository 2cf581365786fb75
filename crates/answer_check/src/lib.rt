//! Certificates of an answer, written, read and checked.
#![tactic(auto)]

mod certificate;
mod cutting;
mod framing;
mod laws;
mod naming;
mod reading;
#[cfg(test)]
mod tests;
mod text;
mod verdict;
mod verifying;
mod walking;
mod writing;

pub use certificate::{Cert, CertErr, CertKey, CertList, CertLists, Triples};
pub use laws::{answers_hold, holding_proves, verdicts_are_worked};
pub use reading::read_cert;
pub use verdict::{Verdict, VerifyErr};
pub use verifying::verify;
pub use writing::write_cert;
