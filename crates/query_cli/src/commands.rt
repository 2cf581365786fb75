ghost use Rattle.std.specs.Prelude.{◌≡◌, ◌≢◌, ◌≤◌, false, true, map, option_map, string_bytes, None, Err, OnErr, IfOk, IfErr};
ghost use Rattle.semantics.specs.Faults.{Rose};
ghost use Rattle.semantics.specs.Files.{IfTold};
ghost use Rattle.query_cli.specs.Commands.{HandsParts, command_in, is_at_once, is_reader, is_writer, reads_of};
ghost use Rattle.query_cli.specs.Reading.{reading_in};
ghost use Rattle.query_cli.specs.Run.{Accepts, IsDone, IsRefused};
ghost use Rattle.query_cli.specs.Shelf.{Replaces, RoseAtMost};
ghost use Rattle.query_cli.specs.Stops.{IfStopped};
ghost use Rattle.query_cli.specs.Views.{command_view};

mod append;
mod check;
mod generate;
mod load;
mod new;
mod once;
mod prove;
mod query;
pub(crate) mod session;
mod verify;

use crate::refusals::Refusal;
use crate::stop::{Fault, Halt, refuse};
use crate::words::is_form;
use outside::Shelf;
use std::alloc::Global;

/// What the words may ask for that is answered at once.
#[derive(Drop)]
pub(crate) enum Command<'a> {
    Once(once::Once<'a>),
    New(new::New<'a>),
    Load(load::Load<'a>),
    Append(append::Append<'a>),
    Check(check::Check<'a>),
    Query(query::Query<'a>),
    Prove(prove::Prove<'a>),
    Verify(verify::Verify<'a>),
    Gen(generate::Gen<'a>),
}

/// The command that the words spell.
#[tactic(auto, unfolding(crate::specs::Commands::command_of))]
pub(crate) fn read_command(words: &[String]) -> Option<Command<'_>>
    requires { is_at_once (command_in words.now) ≡ true }
    ensures { option_map command_view result ≡ command_in words.now }
{
    if is_form(words, "once", 7) {
        return once::Once::read(words);
    }
    if is_form(words, "new", 4) {
        return new::New::read(words);
    }
    if is_form(words, "load", 5) {
        return load::Load::read(words);
    }
    if is_form(words, "append", 5) {
        return append::Append::read(words);
    }
    if is_form(words, "check", 2) {
        return check::Check::read(words);
    }
    if is_form(words, "query", 4) {
        return query::Query::read(words);
    }
    if is_form(words, "prove", 4) {
        return prove::Prove::read(words);
    }
    if is_form(words, "verify", 3) {
        return verify::Verify::read(words);
    }
    if is_form(words, "gen", 5) {
        return generate::Gen::read(words);
    }
    None
}

/// The text of the answer to the words, or why there is none.
pub(crate) fn answer<S: Shelf>(
    alloc: Global,
    words: &[String],
    shelf: &mut S,
) -> Result<String, Halt>
    requires { is_at_once (command_in words.now) ≡ true }
    ensures done { IfOk result (λ t.
        IsDone (S.files shelf.old) (S.files shelf.new) (command_in words.now) (string_bytes t)) }
    ensures refused { IfErr result (λ h. IfStopped h (IsRefused (S.files shelf.old) (command_in words.now))) }
    ensures shelf { Replaces S.files S.read_faults S.replace_faults shelf.old shelf.new result }
    ensures reading { result ≡ Err (Halt.Faulted Fault.Reading) → is_reader (command_in words.now) ≡ true }
    ensures replacing { result ≡ Err (Halt.Faulted Fault.Replacing) → is_writer (command_in words.now) ≡ true }
    ensures unrefused { result ≡ Err (Halt.Faulted Fault.Replacing)
        → IfTold (S.files shelf.old) (λ m. Accepts m (command_in words.now)) }
    ensures reads_nothing { is_reader (command_in words.now) ≡ false
        → S.read_faults shelf.new ≡ S.read_faults shelf.old }
    ensures writes_nothing { is_writer (command_in words.now) ≡ false
        → S.replace_faults shelf.new ≡ S.replace_faults shelf.old }
    ensures fetches { IfTold (S.files shelf.old) (λ m.
        RoseAtMost (reads_of (reading_in m) (command_in words.now)) (S.fetches shelf.old) (S.fetches shelf.new)) }
    ensures handed { IfOk result (λ t. HandsParts (S.files shelf.old) (command_in words.now) (string_bytes t)
        (S.handed shelf.old) (S.handed shelf.new)) }
{
    match read_command(words) {
        None => Err(Halt::Stopped(refuse(alloc, &Refusal::Usage))),
        Some(Command::Once(once)) => once.answer(alloc, shelf),
        Some(Command::New(new)) => new.answer(alloc, shelf),
        Some(Command::Load(load)) => load.answer(alloc, shelf),
        Some(Command::Append(append)) => append.answer(alloc, shelf),
        Some(Command::Check(check)) => check.answer(alloc, shelf),
        Some(Command::Query(query)) => query.answer(alloc, shelf),
        Some(Command::Prove(prove)) => prove.answer(alloc, shelf),
        Some(Command::Verify(verify)) => verify.answer(alloc, shelf),
        Some(Command::Gen(generate)) => generate.answer(alloc, shelf),
    }
}
