ghost use Rattle.std.specs.Prelude.{◌≡◌, ◌≤◌, length, map, option_map, string_bytes, Some, Ok, Err, IfOk, IfErr};
ghost use Rattle.expr.specs.Terms.{query_term_of};
ghost use Rattle.semantics.specs.Files.{IfTold};
ghost use Rattle.semantics.specs.Most.{most_readings};
ghost use Rattle.store_file.specs.Stored.{store_value};
ghost use Rattle.query_cli.specs.Asked.{Asked, admitted_in};
ghost use Rattle.query_cli.specs.Commands.Gen.{AreLines, Generates, gen_of, roomy_in, squares_of, sum_of};
ghost use Rattle.query_cli.specs.Reading.{most_store};
ghost use Rattle.query_cli.specs.Shelf.{Replaces, RoseAtMost};
ghost use Rattle.query_cli.specs.Stops.{IfRefused, IfStopped, IsStepRefusal};

use crate::commands::Command;
use crate::generated::generated;
use crate::steps::asked::answer_over;
use crate::steps::files::{MOST_STORE, read_file, replace_file};
use crate::steps::store::{Written, add, bytes_of, find_room, store_of};
use crate::stop::{Fault, Halt, Stop};
use crate::words::{MOST_READINGS, MOST_SEED, is_file_word, name_text, read_digits, word_at};
use expr::{Name, Query, Series};
use outside::Shelf;
use std::alloc::{AllocError, Global};
use store_file::Store;

/// `gen STORE NAME N SEED`: a series of readings that a seed determines.
#[derive(Drop)]
pub(crate) struct Gen<'a> {
    pub(crate) store: &'a str,
    pub(crate) name: Name,
    /// How many readings the series has.
    pub(crate) count: u32,
    pub(crate) seed: u64,
    ghost few: { count ≤ most_readings },
}

impl<'a> Gen<'a> {
    ghost use Rattle.query_cli.specs.Commands.{gen};
    ghost use Rattle.query_cli.specs.Run.{Accepts, IsDone, IsRefused};
    ghost use Rattle.query_cli.specs.Views.{command_view, gen_view};

    pub(crate) fn read(words: &'a [String]) -> Option<Command<'a>>
        requires { length words.now ≡ 5 }
        ensures { option_map command_view result ≡ option_map gen (gen_of (map string_bytes words.now)) }
    {
        if !is_file_word(word_at(words, 1)) {
            return None;
        }
        let name = Name::of(word_at(words, 2).as_bytes())?;
        let count = read_digits(word_at(words, 3).as_bytes(), MOST_READINGS)?;
        let seed = read_digits(word_at(words, 4).as_bytes(), MOST_SEED)?;
        Some(Command::Gen(Gen {
            store: word_at(words, 1),
            name,
            count: count as u32,
            seed: seed as u64,
        }))
    }

    // What is written, by the bytes of the store.
    fn written(&self, alloc: Global, stored: &[u8]) -> Result<Written, Stop>
        requires { length stored.now ≤ most_store }
        ensures ok { IfOk result (λ w.
            Generates (gen_view self.now) stored.now (string_bytes w.line) w.bytes.items) }
        ensures refused { IfErr result (λ s. IfRefused s (IsStepRefusal (roomy_in (gen_view self.now) stored.now))) }
    {
        let mut store = store_of(alloc, stored)?;
        find_room(alloc, &store, self.name)?;
        let xs = generated(alloc, self.seed, self.count)?;
        add(&mut store, self.name, &xs)?;
        let line = lines_of(alloc, &store, self.name, self.count)?;
        let bytes = bytes_of(&store)?;
        Ok(Written { line, bytes })
    }

    /// Adds a series of readings, and answers its sum and that of its squares.
    pub(crate) fn answer<S: Shelf>(&self, alloc: Global, shelf: &mut S) -> Result<String, Halt>
        ensures done { IfOk result (λ t.
            IsDone (S.files shelf.old) (S.files shelf.new) (Some (gen (gen_view self.now))) (string_bytes t)) }
        ensures refused { IfErr result (λ h.
            IfStopped h (IsRefused (S.files shelf.old) (Some (gen (gen_view self.now))))) }
        ensures shelf { Replaces S.files S.read_faults S.replace_faults shelf.old shelf.new result }
        ensures replacing { result ≡ Err (Halt.Faulted Fault.Replacing)
            → IfTold (S.files shelf.old) (λ m. Accepts m (Some (gen (gen_view self.now)))) }
        ensures fetches { RoseAtMost 1 (S.fetches shelf.old) (S.fetches shelf.new) }
    {
        let stored = read_file(alloc, shelf, MOST_STORE, self.store)?;
        let written = self.written(alloc, &stored)?;
        replace_file(shelf, self.store, &written.bytes)?;
        Ok(written.line)
    }
}

// The sum of a series.
fn sum_of(name: Name) -> Query
    ensures { query_term_of result ≡ sum_of name }
{
    Query::Sum(Series::Base(name), None)
}

// The sum of its squares.
fn squares_of(alloc: Global, name: Name) -> Result<Query, AllocError>
    ensures { IfOk result (λ q. query_term_of q ≡ squares_of name) }
{
    let left = Box::new(alloc, Series::Base(name))?;
    let right = Box::new(alloc, Series::Base(name))?;
    Ok(Query::Sum(Series::Times(left, right), None))
}

// The lines over a store that has the series, of which both sums are admitted.
fn lines_of(alloc: Global, store: &Store, name: Name, count: u32) -> Result<String, Stop>
    requires sum { admitted_in (sum_of name) (store_value store.now)
        ≡ Ok (record { store = store_value store.now; query = sum_of name }) }
    requires squares { admitted_in (squares_of name) (store_value store.now)
        ≡ Ok (record { store = store_value store.now; query = squares_of name }) }
    ensures ok { IfOk result (λ t. AreLines (store_value store.now) name count (string_bytes t)) }
    ensures unrefused { IfErr result (λ s. IfRefused s (λ r. ⊥)) }
{
    let count_of = u128::from(count);
    let sum = answer_over(alloc, store, &sum_of(name), 100 * count_of)?;
    let squares = answer_over(alloc, store, &squares_of(alloc, name)?, 400_000 * count_of)?;
    let name = name_text(&name);
    let text = format!(in alloc; "gen {name} {count}\n{sum}{squares}")?;
    Ok(text)
}
