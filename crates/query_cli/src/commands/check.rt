ghost use Rattle.std.specs.Prelude.{◌≡◌, length, map, option_map, string_bytes, Some, IfOk, IfErr};
ghost use Rattle.expr.specs.Facts.{facts_of};
ghost use Rattle.store_file.specs.Facts.{AreFacts};
ghost use Rattle.store_file.specs.Stored.{store_value};
ghost use Rattle.query_cli.specs.Commands.{check};
ghost use Rattle.query_cli.specs.Commands.Check.{check_of, count_all, counted, ok_line};
ghost use Rattle.query_cli.specs.Run.{IsDone, IsRefused};
ghost use Rattle.query_cli.specs.Shelf.{OnlyReads, RoseAtMost};
ghost use Rattle.query_cli.specs.Stops.{IfStopped};
ghost use Rattle.query_cli.specs.Views.{command_view, check_view};

use crate::commands::Command;
use crate::steps::files::{MOST_STORE, read_file};
use crate::steps::store::store_of;
use crate::stop::Halt;
use crate::words::{is_file_word, word_at};
use expr::Fact;
use outside::Shelf;
use std::alloc::{AllocError, Global};
use store_file::Store;

/// `check STORE`: how many series and readings a store has.
#[derive(Drop)]
pub(crate) struct Check<'a> {
    pub(crate) store: &'a str,
}

impl<'a> Check<'a> {
    pub(crate) fn read(words: &'a [String]) -> Option<Command<'a>>
        requires { length words.now ≡ 2 }
        ensures { option_map command_view result ≡ option_map check (check_of (map string_bytes words.now)) }
    {
        if !is_file_word(word_at(words, 1)) {
            return None;
        }
        Some(Command::Check(Check {
            store: word_at(words, 1),
        }))
    }

    /// The counts of a store's series and readings, where the bytes of the file stand for one.
    pub(crate) fn answer<S: Shelf>(&self, alloc: Global, shelf: &mut S) -> Result<String, Halt>
        ensures done { IfOk result (λ t.
            IsDone (S.files shelf.old) (S.files shelf.new) (Some (check (check_view self.now))) (string_bytes t)) }
        ensures refused { IfErr result (λ h.
            IfStopped h (IsRefused (S.files shelf.old) (Some (check (check_view self.now))))) }
        ensures shelf { OnlyReads S.files S.read_faults S.replace_faults shelf.old shelf.new result }
        ensures fetches { RoseAtMost 1 (S.fetches shelf.old) (S.fetches shelf.new) }
    {
        let stored = read_file(alloc, shelf, MOST_STORE, self.store)?;
        let store = store_of(alloc, &stored)?;
        let line = counts_line(alloc, &store)?;
        Ok(line)
    }
}

// How many readings there are in all.
fn count_readings(facts: &[Fact]) -> u64
    requires { AreFacts (facts_of facts.now) }
    ensures { result ≡ counted (facts_of facts.now) }
{
    let mut count = 0u64;
    for fact in facts {
        count += u64::from(fact.n);
    }
    count
}

fn line_of(alloc: Global, series: usize, readings: u64) -> Result<String, AllocError>
    ensures { IfOk result (λ t. string_bytes t ≡ ok_line series readings) }
{
    let line = format!(in alloc; "ok {series} {readings}\n")?;
    Ok(line)
}

// The line of how many series and readings there are.
fn counts_line(alloc: Global, store: &Store) -> Result<String, AllocError>
    ensures { IfOk result (λ t.
        string_bytes t ≡ ok_line (length (store_value store.now).series) (count_all (store_value store.now).series)) }
{
    let Ok(facts) = store.facts() else {
        return Err(AllocError);
    };
    let line = line_of(alloc, facts.len(), count_readings(&facts))?;
    Ok(line)
}
