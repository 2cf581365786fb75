//! What a certificate says.

ghost use Rattle.std.specs.Prelude.{◌≡◌};
ghost use Rattle.answer_check.specs.declared.certificate.CertErr.TheVariants.{Memory as no_memory};

use num_text::Text;
use std::alloc::{AllocError, AllocFailed};
use std::marker::Model;

/// Rows of one series: the first position of each, how many it has, and whether it is opened.
#[derive(Drop)]
pub struct Triples {
    items: Vec<(u32, u32, bool)>,
}

impl Model for Triples {
    ghost use Rattle.std.specs.Prelude.{List, ℕ, Bool};

    ghost Value = { List (ℕ × ℕ × Bool) };

    ghost view = { λ t. t.items.items };
}

impl Triples {
    pub fn of(items: Vec<(u32, u32, bool)>) -> Triples
        ensures { result ≡ items.items }
    {
        Triples { items }
    }

    pub fn as_slice(&self) -> &[(u32, u32, bool)]
        ensures { result.now ≡ self.now }
    {
        self.items.as_slice()
    }
}

/// The rows that a certificate has for a series.
#[derive(Drop)]
pub struct CertList {
    pub name: Text,
    pub rows: Triples,
}

/// Lists of a certificate, one for each series.
#[derive(Drop)]
pub struct CertLists {
    items: Vec<CertList>,
}

impl Model for CertLists {
    ghost use Rattle.std.specs.Prelude.{List};
    ghost use Rattle.answer_check.specs.declared.certificate.CertList.{CertList};

    ghost Value = { List CertList };

    ghost view = { λ l. l.items.items };
}

impl CertLists {
    pub fn of(items: Vec<CertList>) -> CertLists
        ensures { result ≡ items.items }
    {
        CertLists { items }
    }

    pub fn as_slice(&self) -> &[CertList]
        ensures { result.now ≡ self.now }
    {
        self.items.as_slice()
    }
}

/// A certificate: over this cut the interval of this query lies from `lo` to `hi`, which is no wider than the budget.
#[derive(Drop)]
pub struct Cert {
    pub budget: u128,
    pub lo: i128,
    pub hi: i128,
    pub query: Text,
    pub cut: CertLists,
}

/// What of a certificate is not in its form.
#[derive(Clone, Copy, Debug, Drop, PartialEq, Eq)]
pub enum CertKey {
    /// The whole is no object.
    Object,
    Budget,
    Cut,
    Hi,
    Lo,
    Query,
    /// There are further keys.
    Other,
}

/// Why bytes are no certificate.
#[derive(Clone, Copy, Debug, Drop, PartialEq, Eq)]
pub enum CertErr {
    NotJson,
    /// The first key, in the order in which they are written, that is missing or not in its form.
    Form(CertKey),
    Memory,
}

impl From<AllocError> for CertErr {
    ghost from_gives = { λ _ e. e ≡ no_memory };

    fn from(_e: AllocError) -> CertErr {
        CertErr::Memory
    }
}

impl<T: Drop> From<AllocFailed<T>> for CertErr {
    ghost from_gives = { λ _ e. e ≡ no_memory };

    fn from(_e: AllocFailed<T>) -> CertErr {
        CertErr::Memory
    }
}
