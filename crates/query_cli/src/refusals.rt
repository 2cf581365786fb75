ghost use Rattle.query_cli.specs.Refusals.{status_of};
ghost use Rattle.query_cli.specs.Views.{refusal_view};
ghost use Rattle.std.specs.Prelude.{◌≡◌};

pub(crate) mod lines;

use crate::status::Status;
use answer_check::CertErr;
use expr::Name;
use expr_parse::ParseErr;
use series_csv::CsvErr;
use store_file::{SeriesErr, StoreErr};

/// The first refusal of a command, with what its line names.
#[derive(Drop)]
pub(crate) enum Refusal<'a> {
    Usage,
    Absent(&'a str),
    TooBig(&'a str),
    BadCsv(CsvErr),
    BadStore(StoreErr),
    SeriesFault(Name, SeriesErr),
    Domain { sum: u32, lo: i64, hi: i64 },
    BadQuery(ParseErr),
    QueryUnknown(Name),
    /// The number of a sum.
    QueryRank(u32),
    /// The bytes stand for no store, of which no place is told.
    StoreFault,
    /// The number of a node.
    Range(u32),
    /// The place in a certificate of the first list that is none of a cut.
    NotACut(u32),
    /// The ends of the interval of a certificate's cut.
    Escapes { lo: i128, hi: i128 },
    /// How wide the interval is that a certificate states.
    Wide(u128),
    BadCert(CertErr),
    /// The number of a line.
    BadScript(u32),
    ArenaFull,
}

impl Refusal<'_> {
    pub(crate) fn status(&self) -> Status
        ensures { result ≡ status_of (refusal_view self.now) }
    {
        match self {
            Refusal::Usage => Status::Usage,
            Refusal::Absent(_) => Status::Absent,
            Refusal::TooBig(_) => Status::TooBig,
            Refusal::BadCsv(_) => Status::BadCsv,
            Refusal::BadStore(_) => Status::BadStore,
            Refusal::SeriesFault(..) => Status::SeriesFault,
            Refusal::Domain { .. } => Status::Domain,
            Refusal::BadQuery(_) | Refusal::QueryUnknown(_) | Refusal::QueryRank(_) =>
                Status::BadQuery,
            Refusal::StoreFault => Status::BadStore,
            Refusal::Range(_) => Status::Range,
            Refusal::NotACut(_) | Refusal::Escapes { .. } | Refusal::Wide(_) => Status::Rejected,
            Refusal::BadCert(_) => Status::BadCert,
            Refusal::BadScript(_) => Status::BadScript,
            Refusal::ArenaFull => Status::ArenaFull,
        }
    }
}
