ghost use Rattle.query_cli.specs.Commands.Column.{column_words};
ghost use Rattle.query_cli.specs.Reading.{most_csv};
ghost use Rattle.query_cli.specs.Steps.{column_in};
ghost use Rattle.query_cli.specs.Stops.{IfRefused, IsStepRefusal};
ghost use Rattle.query_cli.specs.Views.{column_view};
ghost use Rattle.segment.specs.Measure.{AreReadings};
ghost use Rattle.semantics.specs.Most.{most_readings};
ghost use Rattle.std.specs.Option.{ForSome};
ghost use Rattle.std.specs.Prelude.{◌≡◌, ◌≤◌, ◌^◌, length, map, option_map, string_bytes, unsigned_abs, IfOk, IfErr, Ok};

use crate::refusals::Refusal;
use crate::stop::{Stop, refuse};
use crate::words::{is_file_word, word_at};
use expr::Name;
use series_csv::{CsvErr, read_column};
use std::alloc::Global;

/// A column of a CSV file, for the series of a name of a store.
#[derive(Drop)]
pub(crate) struct Column<'a> {
    pub(crate) store: &'a str,
    pub(crate) name: Name,
    pub(crate) csv: &'a str,
    pub(crate) column: &'a str,
}

impl<'a> Column<'a> {
    /// The words `STORE NAME CSV COLUMN` behind the command's name.
    pub(crate) fn read(words: &'a [String]) -> Option<Column<'a>>
        requires { length words.now ≡ 5 }
        ensures { option_map column_view result ≡ column_words (map string_bytes words.now) }
    {
        if !is_file_word(word_at(words, 1)) {
            return None;
        }
        let name = Name::of(word_at(words, 2).as_bytes())?;
        if !is_file_word(word_at(words, 3)) {
            return None;
        }
        Some(Column {
            store: word_at(words, 1),
            name,
            csv: word_at(words, 3),
            column: word_at(words, 4),
        })
    }
}

/// The readings of the column, behind the reading before, where there is one.
pub(crate) fn readings_of(
    alloc: Global,
    bytes: &[u8],
    column: &str,
    scale: u8,
    before: Option<i32>,
) -> Result<Vec<i32>, Stop>
    requires bytes { length bytes.now ≤ most_csv }
    requires scale { scale ≤ 6 }
    requires before { ForSome before (λ x. unsigned_abs x ≤ 10 ^ 9) }
    ensures few { IfOk result (λ v. length v.items ≤ most_readings) }
    ensures small { IfOk result (λ v. AreReadings v.items) }
    ensures ok { IfOk result (λ v. column_in bytes.now column.now scale before ≡ Ok v.items) }
    ensures refused { IfErr result (λ s.
        IfRefused s (IsStepRefusal (column_in bytes.now column.now scale before))) }
{
    match read_column(alloc, bytes, column.as_bytes(), scale, before) {
        Ok(xs) => Ok(xs),
        Err(CsvErr::Memory) => Err(Stop::Memory),
        Err(e) => Err(refuse(alloc, &Refusal::BadCsv(e))),
    }
}
