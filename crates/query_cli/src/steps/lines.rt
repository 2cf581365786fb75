ghost use Rattle.std.specs.Io.KnownBytes.{Appends};
ghost use Rattle.std.specs.Prelude.{◌≡◌, ◌≤◌, IfErr, IfOk, OnOk, string_bytes};
ghost use Rattle.semantics.specs.Faults.{Rose};
ghost use Rattle.sessions.specs.Replies.{reply_line};
ghost use Rattle.query_cli.specs.Playing.{IsHaltText, IsPartOf, IsUnsaved, MayFail, Says};
ghost use Rattle.query_cli.specs.Run.{Grew};
ghost use Rattle.query_cli.specs.Stops.{IfStopped};

use crate::status::Status;
use crate::stop::{Halt, Reply, Stop};
use outside::{Out, PutErr};
use sessions::write_reply;
use std::alloc::{AllocError, Global};

// Writes a piece, or tells the status with which the run ends.
fn put_piece<O: Out>(out: &mut O, piece: &[u8]) -> Result<(), Status>
    ensures whole { OnOk result (Appends (O.written out.old) (O.written out.new) piece.now) }
    ensures cut { IfErr result (λ s. Grew (O.written out.old) (O.written out.new) (IsPartOf piece.now s)) }
    ensures fails { MayFail O.write_faults out.old out.new result }
{
    match out.put(piece) {
        Ok(()) => Ok(()),
        Err(PutErr::Failed) => Err(Status::OutFault),
        Err(PutErr::Memory) => Err(Status::Memory),
    }
}

/// Writes the line of a hub's reply, or tells the status with which the run ends.
pub(crate) fn put_reply<O: Out>(
    alloc: Global,
    reply: &sessions::Reply,
    out: &mut O,
) -> Result<(), Status>
    ensures whole { OnOk result (Appends (O.written out.old) (O.written out.new) (reply_line reply.now)) }
    ensures cut { IfErr result (λ s.
        Grew (O.written out.old) (O.written out.new) (IsPartOf (reply_line reply.now) s)) }
    ensures fails { MayFail O.write_faults out.old out.new result }
{
    let mut line = Vec::new(alloc);
    write_reply(alloc, &mut line, reply)?;
    put_piece(out, &line)
}

/// Writes that a save failed, and tells the status with which the run ends.
pub(crate) fn end_unsaved<O: Out>(out: &mut O) -> Status
    ensures text { Grew (O.written out.old) (O.written out.new) (IsUnsaved result) }
    ensures out_fault { result ≡ Status.OutFault → Rose (O.write_faults out.old) (O.write_faults out.new) }
    ensures faults_stay { O.write_faults out.old ≤ O.write_faults out.new }
{
    match put_piece(out, b"replace fault\n") {
        Ok(()) => Status::ReplaceFault,
        Err(status) => status,
    }
}

// The reply of a command that has no answer.
fn reply_of(alloc: Global, halt: Halt) -> Result<Reply, AllocError>
    ensures { IfOk result (λ r. IsHaltText halt r.status (string_bytes r.text)) }
{
    match halt {
        Halt::Faulted(fault) => {
            let reply = fault.reply(alloc)?;
            Ok(reply)
        }
        Halt::Stopped(Stop::Refused(reply)) => Ok(reply),
        Halt::Stopped(Stop::Memory) => Err(AllocError),
    }
}

/// Writes the line of a command that has no answer, and tells the status with which the run ends.
pub(crate) fn end_early<O: Out>(alloc: Global, halt: Halt, out: &mut O) -> Status
    requires { IfStopped halt (λ r. Unit {0}) }
    ensures said { Says halt result (O.written out.old) (O.written out.new) }
    ensures out_fault { result ≡ Status.OutFault → Rose (O.write_faults out.old) (O.write_faults out.new) }
    ensures faults_stay { O.write_faults out.old ≤ O.write_faults out.new }
{
    let Ok(reply) = reply_of(alloc, halt) else {
        return Status::Memory;
    };
    match out.put(reply.text.as_bytes()) {
        Ok(()) => reply.status,
        Err(PutErr::Failed) => Status::OutFault,
        Err(PutErr::Memory) => Status::Memory,
    }
}
