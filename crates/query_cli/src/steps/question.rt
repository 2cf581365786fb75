// A query over a store's file, of which the parts are read that it needs.

ghost use Rattle.std.specs.Prelude.{◌≡◌, ◌≤◌, false, true, length, map, option_map, string_bytes, Err, IfErr, IfOk, Ok};
ghost use Rattle.expr.specs.Terms.{query_term_of};
ghost use Rattle.semantics.specs.Limits.{IsWithinLimits};
ghost use Rattle.semantics.specs.Most.{most_number};
ghost use Rattle.query_cli.specs.Commands.Query.{query_in, query_of, query_reads};
ghost use Rattle.query_cli.specs.Parted.{HandsOver, IsAnsweredOver, IsFound, IsShown, IsUnanswered};
ghost use Rattle.query_cli.specs.Shelf.{OnlyReads};
ghost use Rattle.query_cli.specs.Stops.{IfRefused, IfStopped, IsStepRefusal};

use crate::refusals::Refusal;
use crate::steps::asked::plain_query;
use crate::steps::parts::{descent_over, open_store};
use crate::stop::{Fault, Halt, Stop, refuse};
use crate::words::{MOST_BUDGET, is_file_word, read_digits, word_at};
use descent::Answer;
use expr::{Name, Query};
use expr_parse::{ParseErr, parse};
use outside::Shelf;
use std::alloc::Global;

/// A query over the series of a store.
#[derive(Drop)]
pub(crate) struct Question<'a> {
    pub(crate) store: &'a str,
    /// The most that the interval may be wide.
    pub(crate) budget: u128,
    pub(crate) text: &'a str,
    ghost small: { budget ≤ most_number },
}

/// What a query comes to, beside the names of the store's series.
#[derive(Drop)]
pub(crate) struct Answered {
    pub(crate) query: Query,
    pub(crate) names: Vec<Name>,
    pub(crate) answer: Answer,
}

impl<'a> Question<'a> {
    ghost use Rattle.query_cli.specs.Views.{question_view};

    /// The words `STORE BUDGET QUERY` behind the command's name.
    pub(crate) fn read(words: &'a [String]) -> Option<Question<'a>>
        requires { length words.now ≡ 4 }
        ensures { option_map question_view result ≡ query_of (map string_bytes words.now) }
    {
        if !is_file_word(word_at(words, 1)) {
            return None;
        }
        let budget = read_digits(word_at(words, 2).as_bytes(), MOST_BUDGET)?;
        Some(Question {
            store: word_at(words, 1),
            budget,
            text: word_at(words, 3),
        })
    }

    /// What the query comes to over the store.
    pub(crate) fn answer<S: Shelf>(&self, alloc: Global, shelf: &mut S) -> Result<Answered, Halt>
        ensures query { IfOk result (λ a. query_in (question_view self.now).text ≡ Ok (query_term_of a.query)) }
        ensures found { IfOk result (λ a. IsFound (S.files shelf.old) (question_view self.now)
            (query_term_of a.query) a.names.items a.answer) }
        ensures unanswered { IfErr result (λ h.
            IfStopped h (IsUnanswered (S.files shelf.old) (question_view self.now))) }
        ensures shelf { OnlyReads S.files S.read_faults S.replace_faults shelf.old shelf.new result }
        ensures reading { result ≡ Err (Halt.Faulted Fault.Reading) → query_reads (question_view self.now) ≡ true }
        ensures reads_nothing { query_reads (question_view self.now) ≡ false
            → S.read_faults shelf.new ≡ S.read_faults shelf.old }
        ensures handed { IfOk result (λ a. HandsOver (S.files shelf.old) (question_view self.now).store
            (query_term_of a.query) (question_view self.now).budget a.names.items a.answer
            (S.handed shelf.old) (S.handed shelf.new)) }
        ensures fetches { S.fetches shelf.new ≡ S.fetches shelf.old }
    {
        let q = read_query(alloc, self.text)?;
        let answered = answer_in_file(alloc, shelf, self.store, q, self.budget)?;
        Ok(answered)
    }
}

// The query of a text.
fn read_query(alloc: Global, text: &str) -> Result<Query, Stop>
    ensures ok { IfOk result (λ q. query_in text.now ≡ Ok (query_term_of q)) }
    ensures limits { IfOk result (λ q. IsWithinLimits (query_term_of q)) }
    ensures refused { IfErr result (λ s. IfRefused s (IsStepRefusal (query_in text.now))) }
{
    match parse(alloc, text.as_bytes()) {
        Ok(q) => Ok(q),
        Err(ParseErr::Memory) => Err(Stop::Memory),
        Err(e) => Err(refuse(alloc, &Refusal::BadQuery(e))),
    }
}

// What the query comes to over a store's file.
fn answer_in_file<S: Shelf>(
    alloc: Global,
    shelf: &mut S,
    file: &str,
    query: Query,
    budget: u128,
) -> Result<Answered, Halt>
    requires { IsWithinLimits (query_term_of query) }
    ensures query { IfOk result (λ a. query_term_of a.query ≡ query_term_of query) }
    ensures ok { IfOk result (λ a. IsAnsweredOver (S.files shelf.old) file.now (query_term_of query) budget
        a.names.items a.answer) }
    ensures refused { IfErr result (λ h. IfStopped h (IsShown (S.files shelf.old) file.now (query_term_of query))) }
    ensures shelf { OnlyReads S.files S.read_faults S.replace_faults shelf.old shelf.new result }
    ensures handed { IfOk result (λ a. HandsOver (S.files shelf.old) file.now (query_term_of query) budget
        a.names.items a.answer (S.handed shelf.old) (S.handed shelf.new)) }
    ensures fetches { S.fetches shelf.new ≡ S.fetches shelf.old }
{
    let mut store = open_store(alloc, shelf, file)?;
    let plain = plain_query(alloc, &query, &store.facts)?;
    let answer = descent_over(alloc, &mut store, shelf, &plain, budget)?;
    let names = store.names;
    Ok(Answered {
        query,
        names,
        answer,
    })
}
