ghost use Rattle.std.specs.Prelude.{◌≡◌, IfOk, string_bytes};
ghost use Rattle.query_cli.specs.Stops.{IfRefused, IsReplyOf, fault_line, fault_status};
ghost use Rattle.query_cli.specs.Views.{refusal_view};
ghost use Rattle.query_cli.specs.declared.stop.Halt.TheVariants.{Stopped};
ghost use Rattle.query_cli.specs.declared.stop.Stop.TheVariants.{Memory as no_memory};

use crate::refusals::Refusal;
use crate::refusals::lines::line_of_refusal;
use crate::status::Status;
use num_text::Memory;
use std::alloc::{AllocError, AllocFailed, Global};

/// A status, and the text that is written with it.
#[derive(Drop)]
pub(crate) struct Reply {
    pub(crate) status: Status,
    pub(crate) text: String,
}

/// A call of the shelf that failed.
#[derive(Clone, Copy, Debug, PartialEq, Eq)]
pub(crate) enum Fault {
    Reading,
    Replacing,
}

impl Fault {
    /// The reply of a fault.
    pub(crate) fn reply(self, alloc: Global) -> Result<Reply, AllocError>
        ensures status { IfOk result (λ r. r.status ≡ fault_status self) }
        ensures text { IfOk result (λ r. string_bytes r.text ≡ fault_line self) }
    {
        let (status, line) = match self {
            Fault::Reading => (Status::ReadFault, "read fault\n"),
            Fault::Replacing => (Status::ReplaceFault, "replace fault\n"),
        };
        let text = String::from_str(alloc, line)?;
        Ok(Reply { status, text })
    }
}

/// Why a step over values has no result.
#[derive(Drop)]
pub(crate) enum Stop {
    Memory,
    /// It is refused, with this reply.
    Refused(Reply),
}

/// Why a command has no answer.
#[derive(Drop)]
pub(crate) enum Halt {
    Stopped(Stop),
    Faulted(Fault),
}

impl From<AllocError> for Stop {
    ghost from_gives = { λ _ s. s ≡ no_memory };

    fn from(_e: AllocError) -> Stop {
        Stop::Memory
    }
}

impl From<Memory> for Stop {
    ghost from_gives = { λ _ s. s ≡ no_memory };

    fn from(_e: Memory) -> Stop {
        Stop::Memory
    }
}

impl From<AllocError> for Halt {
    ghost from_gives = { λ _ h. h ≡ Stopped no_memory };

    fn from(_e: AllocError) -> Halt {
        Halt::Stopped(Stop::Memory)
    }
}

impl<T: Drop> From<AllocFailed<T>> for Halt {
    ghost from_gives = { λ _ h. h ≡ Stopped no_memory };

    fn from(_e: AllocFailed<T>) -> Halt {
        Halt::Stopped(Stop::Memory)
    }
}

impl From<Stop> for Halt {
    ghost from_gives = { λ s h. h ≡ Stopped s };

    fn from(s: Stop) -> Halt {
        Halt::Stopped(s)
    }
}

// The reply of a refusal.
fn reply_of(alloc: Global, refusal: &Refusal<'_>) -> Result<Reply, AllocError>
    ensures { IfOk result (IsReplyOf (refusal_view refusal.now)) }
{
    let text = line_of_refusal(alloc, refusal)?;
    let status = refusal.status();
    Ok(Reply { status, text })
}

/// Stops a command by a refusal, or for want of memory.
pub(crate) fn refuse(alloc: Global, refusal: &Refusal<'_>) -> Stop
    ensures { IfRefused result (λ r. r ≡ refusal_view refusal.now) }
{
    match reply_of(alloc, refusal) {
        Ok(reply) => Stop::Refused(reply),
        Err(AllocError) => Stop::Memory,
    }
}
