ghost use Rattle.std.specs.Prelude.{◌≡◌, false, true, length, map, option_map, string_bytes, Some, Err, IfOk, IfErr};
ghost use Rattle.query_cli.specs.Commands.{query};
ghost use Rattle.query_cli.specs.Commands.Query.{QueryHands, query_of, query_reads};
ghost use Rattle.query_cli.specs.Run.{IsDone, IsRefused};
ghost use Rattle.query_cli.specs.Shelf.{OnlyReads};
ghost use Rattle.query_cli.specs.Stops.{IfStopped};
ghost use Rattle.query_cli.specs.Views.{command_view, query_view};

use crate::commands::Command;
use crate::steps::answer_line::line_of;
use crate::steps::question::Question;
use crate::stop::{Fault, Halt};
use outside::Shelf;
use std::alloc::Global;

/// `query STORE BUDGET QUERY`: the interval of what a query comes to over the series of a store.
#[derive(Drop)]
pub(crate) struct Query<'a>(Question<'a>);

impl<'a> Query<'a> {
    pub(crate) fn read(words: &'a [String]) -> Option<Command<'a>>
        requires { length words.now ≡ 4 }
        ensures { option_map command_view result ≡ option_map query (query_of (map string_bytes words.now)) }
    {
        match Question::read(words) {
            Some(question) => Some(Command::Query(Query(question))),
            None => None,
        }
    }

    /// The line of what the query comes to over the store.
    pub(crate) fn answer<S: Shelf>(&self, alloc: Global, shelf: &mut S) -> Result<String, Halt>
        ensures done { IfOk result (λ t.
            IsDone (S.files shelf.old) (S.files shelf.new) (Some (query (query_view self.now))) (string_bytes t)) }
        ensures refused { IfErr result (λ h.
            IfStopped h (IsRefused (S.files shelf.old) (Some (query (query_view self.now))))) }
        ensures shelf { OnlyReads S.files S.read_faults S.replace_faults shelf.old shelf.new result }
        ensures reading { result ≡ Err (Halt.Faulted Fault.Reading) → query_reads (query_view self.now) ≡ true }
        ensures reads_nothing { query_reads (query_view self.now) ≡ false
            → S.read_faults shelf.new ≡ S.read_faults shelf.old }
        ensures handed { IfOk result (λ t. QueryHands (S.files shelf.old) (query_view self.now) (string_bytes t)
            (S.handed shelf.old) (S.handed shelf.new)) }
        ensures fetches { S.fetches shelf.new ≡ S.fetches shelf.old }
    {
        let answered = self.0.answer(alloc, shelf)?;
        let line = line_of(alloc, &answered.answer)?;
        Ok(line)
    }
}
