ghost use Rattle.std.specs.Prelude.{◌≡◌, ◌≤◌, length, map, option_map, string_bytes, Some, Ok, IfErr, IfOk, OnOk};
ghost use Rattle.answer_check.specs.Verdict.{answer_of};
ghost use Rattle.answer_check.specs.declared.verdict.Verdict.TheVariants.{Holds};
ghost use Rattle.semantics.specs.Files.{IfTold};
ghost use Rattle.store_file.specs.Stored.{store_value};
ghost use Rattle.query_cli.specs.Commands.{verify};
ghost use Rattle.query_cli.specs.Commands.Verify.{IsUpheld, cert_in, rejection, upheld_by, upheld_in, verify_of, verify_reads, verify_refusal};
ghost use Rattle.query_cli.specs.Reading.{most_store, reading_in};
ghost use Rattle.query_cli.specs.Run.{IsDone, IsRefused};
ghost use Rattle.query_cli.specs.Shelf.{OnlyReads, RoseAtMost};
ghost use Rattle.query_cli.specs.Stops.{HasCause, IfRefused, IfStopped, IsStepRefusal};
ghost use Rattle.query_cli.specs.Views.{command_view, verify_view};

use crate::commands::Command;
use crate::refusals::Refusal;
use crate::steps::asked::not_admitted;
use crate::steps::files::{MOST_CERT, MOST_STORE, read_file};
use crate::steps::store::store_of;
use crate::stop::{Halt, Stop, refuse};
use crate::words::{is_file_word, word_at};
use answer_check::{Cert, CertErr, Verdict, VerifyErr, read_cert, verify};
use expr_parse::ParseErr;
use outside::Shelf;
use std::alloc::Global;
use store_file::Store;

/// `verify STORE CERT`: whether a certificate holds over a store.
#[derive(Drop)]
pub(crate) struct Verify<'a> {
    pub(crate) store: &'a str,
    pub(crate) cert: &'a str,
}

impl<'a> Verify<'a> {
    pub(crate) fn read(words: &'a [String]) -> Option<Command<'a>>
        requires { length words.now ≡ 3 }
        ensures { option_map command_view result ≡ option_map verify (verify_of (map string_bytes words.now)) }
    {
        if !is_file_word(word_at(words, 1)) {
            return None;
        }
        if !is_file_word(word_at(words, 2)) {
            return None;
        }
        Some(Command::Verify(Verify {
            store: word_at(words, 1),
            cert: word_at(words, 2),
        }))
    }

    /// The line of a certificate that holds, or why it does not.
    pub(crate) fn answer<S: Shelf>(&self, alloc: Global, shelf: &mut S) -> Result<String, Halt>
        ensures done { IfOk result (λ t.
            IsDone (S.files shelf.old) (S.files shelf.new) (Some (verify (verify_view self.now))) (string_bytes t)) }
        ensures refused { IfErr result (λ h.
            IfStopped h (IsRefused (S.files shelf.old) (Some (verify (verify_view self.now))))) }
        ensures shelf { OnlyReads S.files S.read_faults S.replace_faults shelf.old shelf.new result }
        ensures fetches { IfTold (S.files shelf.old) (λ m.
            RoseAtMost (verify_reads (reading_in m) (verify_view self.now))
            (S.fetches shelf.old) (S.fetches shelf.new)) }
    {
        let stored = read_file(alloc, shelf, MOST_STORE, self.store)?;
        let text = read_file(alloc, shelf, MOST_CERT, self.cert)?;
        let line = verdict_line(alloc, &stored, &text)?;
        Ok(line)
    }
}

// The line of a certificate that holds, by the bytes of the two files.
fn verdict_line(alloc: Global, stored: &[u8], text: &[u8]) -> Result<String, Stop>
    requires { length stored.now ≤ most_store }
    ensures ok { IfOk result (λ t. IsUpheld stored.now text.now (string_bytes t)) }
    ensures refused { IfErr result (λ s. IfRefused s (IsStepRefusal (upheld_in stored.now text.now))) }
{
    let store = store_of(alloc, stored)?;
    let cert = cert_of(alloc, text)?;
    uphold(alloc, &store, &cert)?;
    let line = String::from_str(alloc, "holds\n")?;
    Ok(line)
}

// The certificate that bytes spell.
fn cert_of(alloc: Global, text: &[u8]) -> Result<Cert, Stop>
    ensures ok { IfOk result (λ c. cert_in text.now ≡ Ok c) }
    ensures refused { IfErr result (λ s. IfRefused s (IsStepRefusal (cert_in text.now))) }
{
    match read_cert(alloc, text) {
        Ok(cert) => Ok(cert),
        Err(CertErr::Memory) => Err(Stop::Memory),
        Err(e) => Err(refuse(alloc, &Refusal::BadCert(e))),
    }
}

// Refuses a certificate that does not hold over the store.
fn uphold(alloc: Global, store: &Store, cert: &Cert) -> Result<(), Stop>
    ensures ok { OnOk result (answer_of (store_value store.now) cert.now ≡ Ok Holds) }
    ensures refused { IfErr result (λ s. IfRefused s (IsStepRefusal
        (upheld_by (store_value store.now) cert.now (answer_of (store_value store.now) cert.now)))) }
{
    match verify(alloc, store, cert) {
        Ok(verdict) => judge(alloc, verdict),
        Err(e) => Err(refuse_query(alloc, e)),
    }
}

// Refuses every other verdict than that it holds.
fn judge(alloc: Global, verdict: Verdict) -> Result<(), Stop>
    ensures ok { OnOk result (verdict ≡ Holds) }
    ensures refused { IfErr result (λ s. IfRefused s (λ r. rejection verdict ≡ Some r)) }
{
    let refusal = match verdict {
        Verdict::Holds => return Ok(()),
        Verdict::NotACut(place) => Refusal::NotACut(place),
        Verdict::Escapes(iv) => {
            let (lo, hi) = (iv.lo(), iv.hi());
            Refusal::Escapes { lo, hi }
        }
        Verdict::Wide(width) => Refusal::Wide(width),
    };
    Err(refuse(alloc, &refusal))
}

// Why the query of a certificate has no verdict.
fn refuse_query(alloc: Global, e: VerifyErr) -> Stop
    ensures { IfRefused result (λ r. (r ≡ verify_refusal e) × HasCause r) }
{
    match e {
        VerifyErr::Memory | VerifyErr::Parse(ParseErr::Memory) => Stop::Memory,
        VerifyErr::Parse(e) => refuse(alloc, &Refusal::BadQuery(e)),
        VerifyErr::Admit(e) => not_admitted(alloc, &e),
    }
}
