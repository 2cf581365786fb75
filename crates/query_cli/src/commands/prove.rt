ghost use Rattle.std.specs.Prelude.{◌≡◌, ◌≤◌, false, true, length, map, option_map, string_bytes, Some, Err, IfOk, IfErr};
ghost use Rattle.std.specs.Str.{IsUtf8};
ghost use Rattle.answer_check.specs.Certificate.{certificate_for};
ghost use Rattle.expr.specs.Terms.{query_term_of};
ghost use Rattle.semantics.specs.Most.{most_number};
ghost use Rattle.query_cli.specs.Commands.{prove};
ghost use Rattle.query_cli.specs.Commands.Prove.{ProveHands, cert_line};
ghost use Rattle.query_cli.specs.Commands.Query.{query_of, query_reads};
ghost use Rattle.query_cli.specs.Run.{IsDone, IsRefused};
ghost use Rattle.query_cli.specs.Shelf.{OnlyReads};
ghost use Rattle.query_cli.specs.Stops.{IfStopped};
ghost use Rattle.query_cli.specs.Views.{command_view, prove_view};

use crate::commands::Command;
use crate::steps::question::{Answered, Question};
use crate::stop::{Fault, Halt};
use answer_check::write_cert;
use num_text::Memory;
use outside::Shelf;
use std::alloc::{AllocError, Global};

/// `prove STORE BUDGET QUERY`: the certificate of what a query comes to over the series of a store.
#[derive(Drop)]
pub(crate) struct Prove<'a>(Question<'a>);

impl<'a> Prove<'a> {
    pub(crate) fn read(words: &'a [String]) -> Option<Command<'a>>
        requires { length words.now ≡ 4 }
        ensures { option_map command_view result ≡ option_map prove (query_of (map string_bytes words.now)) }
    {
        match Question::read(words) {
            Some(question) => Some(Command::Prove(Prove(question))),
            None => None,
        }
    }

    /// The certificate of what the query comes to over the store.
    pub(crate) fn answer<S: Shelf>(&self, alloc: Global, shelf: &mut S) -> Result<String, Halt>
        ensures done { IfOk result (λ t.
            IsDone (S.files shelf.old) (S.files shelf.new) (Some (prove (prove_view self.now))) (string_bytes t)) }
        ensures refused { IfErr result (λ h.
            IfStopped h (IsRefused (S.files shelf.old) (Some (prove (prove_view self.now))))) }
        ensures shelf { OnlyReads S.files S.read_faults S.replace_faults shelf.old shelf.new result }
        ensures reading { result ≡ Err (Halt.Faulted Fault.Reading) → query_reads (prove_view self.now) ≡ true }
        ensures reads_nothing { query_reads (prove_view self.now) ≡ false
            → S.read_faults shelf.new ≡ S.read_faults shelf.old }
        ensures handed { IfOk result (λ t. ProveHands (S.files shelf.old) (prove_view self.now) (string_bytes t)
            (S.handed shelf.old) (S.handed shelf.new)) }
        ensures fetches { S.fetches shelf.new ≡ S.fetches shelf.old }
    {
        let answered = self.0.answer(alloc, shelf)?;
        let line = line_of(alloc, &answered, self.0.budget)?;
        Ok(line)
    }
}

// Bytes as text.
fn text_of(bytes: Vec<u8>) -> String
    requires { IsUtf8 bytes.items }
    ensures { string_bytes result ≡ bytes.items }
{
    match String::from_utf8(bytes) {
        Ok(text) => text,
        Err(_) => unreachable!(),
    }
}

// The line of the certificate.
fn line_of(alloc: Global, answered: &Answered, budget: u128) -> Result<String, AllocError>
    requires { budget ≤ most_number }
    ensures { IfOk result (λ t. string_bytes t ≡ cert_line (certificate_for answered.now.names.items
        (query_term_of answered.now.query) budget answered.now.answer)) }
{
    match write_cert(
        alloc,
        &answered.names,
        &answered.query,
        budget,
        &answered.answer,
    ) {
        Ok(bytes) => {
            let mut text = text_of(bytes);
            text.push_str("\n")?;
            Ok(text)
        }
        Err(Memory) => Err(AllocError),
    }
}
