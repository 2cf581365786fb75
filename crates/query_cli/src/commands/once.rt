ghost use Rattle.std.specs.Prelude.{◌≡◌, ◌≤◌, ◌^◌, length, map, codes, option_map, string_bytes, unsigned_abs, Some, IfOk, IfErr};
ghost use Rattle.expr.specs.Terms.{query_term_of};
ghost use Rattle.segment.specs.Measure.{AreReadings};
ghost use Rattle.semantics.specs.Limits.{IsWithinLimits};
ghost use Rattle.semantics.specs.Most.{most_readings};
ghost use Rattle.store_file.specs.Added.{with_series};
ghost use Rattle.store_file.specs.Stored.{store_value};
ghost use Rattle.query_cli.specs.Commands.Once.{IsSummed, once_of, sum_query, summed_in};
ghost use Rattle.query_cli.specs.Reading.{most_csv};
ghost use Rattle.query_cli.specs.Replay.{empty_store};
ghost use Rattle.query_cli.specs.Shelf.{OnlyReads, RoseAtMost};
ghost use Rattle.query_cli.specs.Stops.{IfRefused, IfStopped, IsStepRefusal};

use crate::commands::Command;
use crate::steps::asked::answer_over;
use crate::steps::column::readings_of;
use crate::steps::files::{MOST_CSV, read_file};
use crate::steps::store::add;
use crate::stop::{Halt, Stop};
use crate::words::{
    MOST_BUDGET, MOST_POSITION, MOST_SCALE, is_file_word, read_digit, read_digits, read_whole,
    word_at,
};
use expr::{Bounds, Name, Query, Series};
use num_text::Memory;
use outside::Shelf;
use std::alloc::{AllocError, Global};
use store_file::Store;

/// `once CSV COLUMN SCALE BUDGET L R`: the interval of the sum of a column over the positions from L up to R.
#[derive(Drop)]
pub(crate) struct Once<'a> {
    pub(crate) csv: &'a str,
    pub(crate) column: &'a str,
    /// How many decimal places of a cell are kept.
    pub(crate) scale: u8,
    /// The most that the interval may be wide.
    pub(crate) budget: u128,
    pub(crate) from: i64,
    pub(crate) until: i64,
    ghost few_places: { scale ≤ 6 },
    ghost near_from: { unsigned_abs from ≤ 2 ^ 40 },
    ghost near_until: { unsigned_abs until ≤ 2 ^ 40 },
}

impl<'a> Once<'a> {
    ghost use Rattle.query_cli.specs.Commands.{once};
    ghost use Rattle.query_cli.specs.Run.{IsDone, IsRefused};
    ghost use Rattle.query_cli.specs.Views.{command_view, once_view};

    pub(crate) fn read(words: &'a [String]) -> Option<Command<'a>>
        requires { length words.now ≡ 7 }
        ensures { option_map command_view result ≡ option_map once (once_of (map string_bytes words.now)) }
    {
        if !is_file_word(word_at(words, 1)) {
            return None;
        }
        let scale = read_digit(word_at(words, 3).as_bytes(), MOST_SCALE)?;
        let budget = read_digits(word_at(words, 4).as_bytes(), MOST_BUDGET)?;
        let from = read_whole(word_at(words, 5).as_bytes(), MOST_POSITION)?;
        let until = read_whole(word_at(words, 6).as_bytes(), MOST_POSITION)?;
        Some(Command::Once(Once {
            csv: word_at(words, 1),
            column: word_at(words, 2),
            scale,
            budget,
            from,
            until,
        }))
    }

    // The sum over the range.
    fn query(&self) -> Query
        ensures query { query_term_of result ≡ sum_query (once_view self.now) }
        ensures limits { IsWithinLimits (query_term_of result) }
    {
        let bounds = Bounds {
            l: self.from,
            r: self.until,
        };
        Query::Sum(Series::Base(series_name()), Some(bounds))
    }

    // The answer over the bytes of the file.
    fn answer_in_file(&self, alloc: Global, bytes: &[u8]) -> Result<String, Stop>
        requires { length bytes.now ≤ most_csv }
        ensures ok { IfOk result (λ t. IsSummed (once_view self.now) bytes.now (string_bytes t)) }
        ensures refused { IfErr result (λ s. IfRefused s (IsStepRefusal (summed_in (once_view self.now) bytes.now))) }
    {
        let xs = readings_of(alloc, bytes, self.column, self.scale, None)?;
        let store = one_series(alloc, self.scale, &xs)?;
        let text = answer_over(alloc, &store, &self.query(), self.budget)?;
        Ok(text)
    }

    /// The line of the sum over the column of the file, or why there is none.
    pub(crate) fn answer<S: Shelf>(&self, alloc: Global, shelf: &mut S) -> Result<String, Halt>
        ensures done { IfOk result (λ t.
            IsDone (S.files shelf.old) (S.files shelf.new) (Some (once (once_view self.now))) (string_bytes t)) }
        ensures refused { IfErr result (λ h.
            IfStopped h (IsRefused (S.files shelf.old) (Some (once (once_view self.now))))) }
        ensures shelf { OnlyReads S.files S.read_faults S.replace_faults shelf.old shelf.new result }
        ensures fetches { RoseAtMost 1 (S.fetches shelf.old) (S.fetches shelf.new) }
    {
        let bytes = read_file(alloc, shelf, MOST_CSV, self.csv)?;
        let text = self.answer_in_file(alloc, &bytes)?;
        Ok(text)
    }
}

// The name of the one series.
fn series_name() -> Name
    ensures { result ≡ codes "x" }
{
    match Name::of(b"x") {
        Some(name) => name,
        None => unreachable!(),
    }
}

// Room for the nodes of any one series.
const MOST_NODES: u32 = 1 << 24;

// The store of degree 0 of the one series.
fn one_series(alloc: Global, scale: u8, xs: &[i32]) -> Result<Store, AllocError>
    requires scale { scale ≤ 6 }
    requires few { length xs.now ≤ most_readings }
    requires small { AreReadings xs.now }
    ensures { IfOk result (λ s. store_value s ≡ with_series (empty_store scale 0) (codes "x") xs.now) }
{
    let mut store = match Store::new(alloc, scale, 0, MOST_NODES) {
        Ok(store) => store,
        Err(Memory) => return Err(AllocError),
    };
    add(&mut store, series_name(), xs)?;
    Ok(store)
}
