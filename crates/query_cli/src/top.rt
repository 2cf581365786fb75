ghost use Rattle.std.specs.Prelude.{◌≡◌, ◌≢◌, ◌⊎◌, ◌≤◌, [], false, true, None, Some, IfOk, OnErr, string_bytes};
ghost use Rattle.std.specs.Io.KnownBytes.{Appends};
ghost use Rattle.semantics.specs.Faults.{Rose};
ghost use Rattle.semantics.specs.Files.{IfTold};
ghost use Rattle.query_cli.specs.Commands.{HandsParts, IfSession, command_in, files_after, is_at_once, is_reader, is_writer, reads_of};
ghost use Rattle.query_cli.specs.Commands.Session.{Ending, EndsMidway, PlaysAll};
ghost use Rattle.query_cli.specs.Reading.{reading_in};
ghost use Rattle.query_cli.specs.Run.{Accepts, Grew, Hides, IsAnswer, IsCounted, IsCutShort, IsKeptOrReplayed, IsLeftOff, IsStatus, IsText, Replies, ending_of, midway};
ghost use Rattle.query_cli.specs.Shelf.{NoFault, RoseAtMost};

use crate::commands::answer;
use crate::commands::session::Session;
use crate::status::Status;
use crate::stop::{Halt, Reply, Stop};
use outside::{Out, PutErr, Shelf};
use std::alloc::{AllocError, Global};

// What is written for the words, or want of memory.
fn reply_to<S: Shelf>(alloc: Global, words: &[String], shelf: &mut S) -> Result<Reply, AllocError>
    requires { is_at_once (command_in words.now) ≡ true }
    ensures said { IfOk result (Replies (S.files shelf.old) (S.files shelf.new) (command_in words.now)) }
    ensures usage { IfOk result (λ r. r.status ≡ Status.Usage → command_in words.now ≡ None) }
    ensures no_command { IfOk result (λ r. command_in words.now ≡ None → r.status ≡ Status.Usage) }
    ensures counted { IfOk result (λ r.
        IsCounted (Rose (S.read_faults shelf.old) (S.read_faults shelf.new)) (Rose (S.replace_faults shelf.old)
        (S.replace_faults shelf.new)) r.status) }
    ensures kept { OnErr result (S.files shelf.new ≡ S.files shelf.old) }
    ensures untold { S.files shelf.old ≡ None → S.files shelf.new ≡ None }
    ensures read_faults_stay { S.read_faults shelf.old ≤ S.read_faults shelf.new }
    ensures replace_faults_stay { S.replace_faults shelf.old ≤ S.replace_faults shelf.new }
    ensures reads_nothing { is_reader (command_in words.now) ≡ false
        → S.read_faults shelf.new ≡ S.read_faults shelf.old }
    ensures writes_nothing { is_writer (command_in words.now) ≡ false
        → S.replace_faults shelf.new ≡ S.replace_faults shelf.old }
    ensures handed { IfOk result (λ r. r.status ≡ Status.Ok → HandsParts (S.files shelf.old) (command_in words.now)
        (string_bytes r.text) (S.handed shelf.old) (S.handed shelf.new)) }
    ensures fetches { IfTold (S.files shelf.old) (λ m.
        RoseAtMost (reads_of (reading_in m) (command_in words.now)) (S.fetches shelf.old) (S.fetches shelf.new)) }
{
    match answer(alloc, words, shelf) {
        Ok(text) => Ok(Reply {
            status: Status::Ok,
            text,
        }),
        Err(Halt::Faulted(fault)) => {
            let reply = fault.reply(alloc)?;
            Ok(reply)
        }
        Err(Halt::Stopped(Stop::Refused(reply))) => Ok(reply),
        Err(Halt::Stopped(Stop::Memory)) => Err(AllocError),
    }
}

/// Does what the words say, over these files, and writes the answer or the line of the refusal; for `session` the line
/// of each event before the next one begins. Only want of memory is free: it may come in place of any other answer.
pub fn run<S: Shelf, O: Out>(alloc: Global, words: &[String], shelf: &mut S, out: &mut O) -> Status
    // With status 0 the output grew by the line of the answer, over the bytes that were read: those of the files, where
    // the shelf tells them. The interval of `once` holds the plain sum of the readings, and that of `query` what the
    // query comes to; both are no wider than the budget.
    ensures answer { is_at_once (command_in words.now) ≡ true → result ≡ Status.Ok
        → Grew (O.written out.old) (O.written out.new) (IsAnswer (S.files shelf.old) (command_in words.now)) }

    // The status is the one that words and files call for; it yields to want of memory and to faults.
    ensures exact { IfTold (S.files shelf.old) (λ m. IsStatus m (command_in words.now) result) }
    ensures usage_only { result ≡ Status.Usage → command_in words.now ≡ None }
    ensures no_command { command_in words.now ≡ None
        → (result ≡ Status.Usage) ⊎ (result ≡ Status.Memory) ⊎ (result ≡ Status.OutFault) }
    // Where no count of faults rose and nothing is refused, it is Ok or want of memory.
    ensures complete { is_at_once (command_in words.now) ≡ true
        → NoFault S.read_faults S.replace_faults shelf.old shelf.new
        → ¬ Rose (O.write_faults out.old) (O.write_faults out.new)
        → IfTold (S.files shelf.old) (λ m. Accepts m (command_in words.now)
        → (result ≡ Status.Ok) ⊎ (result ≡ Status.Memory)) }

    // With a refusal or a fault of the shelf the output grew by exactly its line, but where a session ended midway.
    ensures refusal { result ≢ Status.Ok → result ≢ Status.Memory → result ≢ Status.OutFault
        → midway (command_in words.now) result ≡ None
        → Grew (O.written out.old) (O.written out.new) (IsText (S.files shelf.old) (command_in words.now) result) }
    // After a fault of the output it grew by a front of the text of the status that the fault hides, and after want of
    // memory by nothing.
    ensures cut { is_at_once (command_in words.now) ≡ true → result ≡ Status.OutFault
        → Grew (O.written out.old) (O.written out.new)
        (Hides (S.files shelf.old) (S.files shelf.new)
        (Rose (S.read_faults shelf.old) (S.read_faults shelf.new)) (Rose (S.replace_faults shelf.old)
        (S.replace_faults shelf.new))
        (command_in words.now)) }
    ensures memory { is_at_once (command_in words.now) ≡ true → result ≡ Status.Memory
        → Appends (O.written out.old) (O.written out.new) [] }

    // A session with status 0 did all events of its script, at one hub over the store that was read: the output grew by
    // the lines of their replies, and STORE is the image of the last save, or as it was.
    ensures all_played { IfSession (command_in words.now) (λ c. result ≡ Status.Ok
        → Grew (O.written out.old) (O.written out.new) (PlaysAll (S.files shelf.old) (S.files shelf.new) c)) }
    // With 17 an append found the arena full, and with 4 a save failed: the output grew by the lines of the events
    // before it and by its own, and STORE is as after the saves before it.
    ensures ended { IfSession (command_in words.now) (λ c. (ending : Ending) → ending_of result ≡ Some ending
        → Grew (O.written out.old) (O.written out.new) (EndsMidway (S.files shelf.old) (S.files shelf.new) c ending)) }
    // After a fault of the output or want of memory it grew by a front of such lines, of which only the last one may be
    // cut, and STORE is as after the saves that were done.
    ensures cut_short { IfSession (command_in words.now) (λ c. result ≡ Status.OutFault
        → Grew (O.written out.old) (O.written out.new) (IsCutShort (S.files shelf.old) (S.files shelf.new)
        (Rose (S.read_faults shelf.old) (S.read_faults shelf.new)) c)) }
    ensures left_off { IfSession (command_in words.now) (λ c. result ≡ Status.Memory
        → Grew (O.written out.old) (O.written out.new) (IsLeftOff (S.files shelf.old) (S.files shelf.new) c)) }

    // A fault is answered only where its count rose in this run, or stood at its last value; no count falls, and only a
    // call can raise it. No file is read behind the first refusal.
    ensures read_fault { result ≡ Status.ReadFault → Rose (S.read_faults shelf.old) (S.read_faults shelf.new) }
    ensures replace_fault { result ≡ Status.ReplaceFault
        → Rose (S.replace_faults shelf.old) (S.replace_faults shelf.new) }
    ensures out_fault { result ≡ Status.OutFault → Rose (O.write_faults out.old) (O.write_faults out.new) }
    ensures read_faults_stay { S.read_faults shelf.old ≤ S.read_faults shelf.new }
    ensures replace_faults_stay { S.replace_faults shelf.old ≤ S.replace_faults shelf.new }
    ensures write_faults_stay { O.write_faults out.old ≤ O.write_faults out.new }
    ensures reads_nothing { is_reader (command_in words.now) ≡ false
        → S.read_faults shelf.new ≡ S.read_faults shelf.old }
    ensures writes_nothing { is_writer (command_in words.now) ≡ false
        → S.replace_faults shelf.new ≡ S.replace_faults shelf.old }
    // A query reads the parts of STORE that its line tells, and no file whole.
    ensures handed { result ≡ Status.Ok → Grew (O.written out.old) (O.written out.new)
        (λ t. HandsParts (S.files shelf.old) (command_in words.now) t (S.handed shelf.old) (S.handed shelf.new)) }
    ensures fetches { IfTold (S.files shelf.old) (λ m.
        RoseAtMost (reads_of (reading_in m) (command_in words.now)) (S.fetches shelf.old) (S.fetches shelf.new)) }

    // With status 0 the files are as after the command, and after a refusal as before. Whatever the status, they are
    // one of the two, so after want of memory or a fault of the output all was done or nothing.
    ensures left { is_at_once (command_in words.now) ≡ true → result ≡ Status.Ok
        → IfTold (S.files shelf.old) (λ m. S.files shelf.new ≡ Some (files_after m (command_in words.now))) }
    ensures kept { result ≢ Status.Ok → result ≢ Status.Memory → result ≢ Status.OutFault
        → midway (command_in words.now) result ≡ None
        → S.files shelf.new ≡ S.files shelf.old }
    ensures all_or_nothing { is_at_once (command_in words.now) ≡ true → IfTold (S.files shelf.old) (λ m.
        (S.files shelf.new ≡ Some m) ⊎ (S.files shelf.new ≡ Some (files_after m (command_in words.now)))) }
    // After a fault of the output all was done where nothing is refused and no other fault rose.
    ensures cut_done { is_at_once (command_in words.now) ≡ true
        → result ≡ Status.OutFault → NoFault S.read_faults S.replace_faults shelf.old shelf.new
        → IfTold (S.files shelf.old) (λ m. Accepts m (command_in words.now)
        → S.files shelf.new ≡ Some (files_after m (command_in words.now))) }
    ensures untold { S.files shelf.old ≡ None → S.files shelf.new ≡ None }

    // Whatever the status, the files are as before, or STORE is one step further: a store that stood there has taken
    // this command, one that stood for a history stands for that history and this command, and every other file is as
    // it was. A session takes it as many steps further as it had accepted appends before a save.
    ensures replay { IsKeptOrReplayed (S.files shelf.old) (command_in words.now) (S.files shelf.new) }
{
    if let Some(session) = Session::read(words) {
        return session.run(alloc, shelf, out);
    }
    let Ok(reply) = reply_to(alloc, words, shelf) else {
        return Status::Memory;
    };
    match out.put(reply.text.as_bytes()) {
        Ok(()) => reply.status,
        Err(PutErr::Failed) => Status::OutFault,
        Err(PutErr::Memory) => Status::Memory,
    }
}
