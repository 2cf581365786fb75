// How a run ended.

ghost use Rattle.std.specs.Prelude.{◌≡◌};

use num_text::Memory;
use std::alloc::AllocError;

/// How a run ended. The program ends with its number.
#[derive(Clone, Copy, Debug, PartialEq, Eq)]
pub enum Status {
    Ok,
    Memory,
    Usage,
    ReadFault,
    ReplaceFault,
    OutFault,
    Absent,
    TooBig,
    BadCsv,
    BadStore,
    SeriesFault,
    BadQuery,
    Domain,
    Range,
    Rejected,
    BadCert,
    BadScript,
    ArenaFull,
}

impl From<AllocError> for Status {
    ghost use Rattle.query_cli.specs.declared.status.Status.TheVariants.{Memory as no_memory};

    ghost from_gives = { λ _ s. s ≡ no_memory };

    fn from(_e: AllocError) -> Status {
        Status::Memory
    }
}

impl From<Memory> for Status {
    ghost use Rattle.query_cli.specs.declared.status.Status.TheVariants.{Memory as no_memory};

    ghost from_gives = { λ _ s. s ≡ no_memory };

    fn from(_e: Memory) -> Status {
        Status::Memory
    }
}

impl Status {
    ghost use Rattle.query_cli.specs.Statuses.{number_of_status};

    /// From 0 for `Ok` to 17 for `ArenaFull`, in the order of the variants.
    pub fn number(self) -> u8
        ensures { result ≡ number_of_status self }
    {
        self as u8
    }
}
