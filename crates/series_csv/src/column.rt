ghost use Rattle.std.specs.Prelude.{◌≡◌, ◌≤◌, ◌^◌, ◌⊎◌, ℕ, true, IfOk, IfErr, length, unsigned_abs};
ghost use Rattle.std.specs.Option.{ForSome};
ghost use Rattle.csv.specs.Reading.{default_config, records, strip_bom};
ghost use Rattle.csv.specs.Records.{fields_of};
ghost use Rattle.semantics.specs.Readings.{reading};
ghost use Rattle.semantics.specs.Most.{greatest_reading, most_readings, most_scale};
ghost use Rattle.num_text.specs.Cells.{cell_of};
ghost use Rattle.series_csv.specs.Column.{by_cell, column_of, of_records, place_from, reading_of, readings_from};
ghost use Rattle.series_csv.specs.Left.{IsPlain, rows_left};
ghost use Rattle.series_csv.specs.Lines.{is_plain_text};

use crate::fault::CsvErr;
use crate::lines::{is_plain, next_line, read_lines};
use crate::rows::{next_row, open};
use csv::{ByteRecord, Reader};
use num_text::{Cell, read_scaled};
use std::alloc::Global;

pub(crate) const MOST_READINGS: u32 = 1_048_576;

/// The bytes behind a byte order mark.
#[tactic(auto, using(crate::proofs::TextLaws::strip_by_bytes))]
fn without_mark(bytes: &[u8]) -> &[u8]
    ensures { result.now ≡ strip_bom bytes.now }
{
    if bytes.len() >= 3 && bytes[0] == 0xEF && bytes[1] == 0xBB && bytes[2] == 0xBF {
        &bytes[3..]
    } else {
        bytes
    }
}

/// The place of the column in a header.
fn place_of(header: &ByteRecord, column: &[u8]) -> Option<usize>
    ensures { result ≡ place_from 0 (fields_of header.now) column.now }
{
    for i in 0..header.len() {
        match header.get(i) {
            None => return None,
            Some(field) => {
                if field == column {
                    return Some(i);
                }
            }
        }
    }
    None
}

/// The reading of a record, behind the last reading.
fn read_row(
    row: &ByteRecord,
    place: usize,
    scale: u8,
    number: u32,
    last: Option<i32>,
) -> Result<i32, CsvErr>
    requires { scale ≤ most_scale }
    ensures { result ≡ reading_of place scale number last (fields_of row.now) }
{
    if number > MOST_READINGS {
        return Err(CsvErr::TooLong(number));
    }
    let Some(text) = row.get(place) else {
        return Err(CsvErr::Short(number));
    };
    read_cell(text, scale, number, last)
}

/// The reading of a cell of a record, behind the last reading.
pub(crate) fn read_cell(
    text: &[u8],
    scale: u8,
    number: u32,
    last: Option<i32>,
) -> Result<i32, CsvErr>
    requires { scale ≤ most_scale }
    ensures { result ≡ by_cell number last (cell_of scale text.now) }
{
    match read_scaled(text, scale) {
        Cell::Value(x) => Ok(x),
        Cell::Missing => last.ok_or(CsvErr::MissingFirst(number)),
        Cell::Bad => Err(CsvErr::Bad(number)),
        Cell::TooLarge => Err(CsvErr::TooLarge(number)),
    }
}

/// The readings of the records that are left.
fn read_rows(
    alloc: Global,
    rdr: &mut Reader<&[u8]>,
    place: usize,
    scale: u8,
    before: Option<i32>,
) -> Result<Vec<i32>, CsvErr>
    requires plain { IsPlain rdr.old }
    requires scale { scale ≤ most_scale }
    ensures few { IfOk result (λ v. length v.items ≤ most_readings) }
    ensures ok { IfOk result (λ v. readings_from place scale 1 before (rows_left rdr.old) ≡ Ok v.items) }
    ensures refused { IfErr result (λ e.
        (e ≡ CsvErr.Memory) ⊎ (readings_from place scale 1 before (rows_left rdr.old) ≡ Err e)) }
{
    let mut row = ByteRecord::new(alloc);
    let mut readings = Vec::new(alloc);
    let mut last = before;
    for number in 1..MOST_READINGS + 2 {
        let found = next_row(rdr, &mut row)?;
        if !found {
            return Ok(readings);
        }
        let reading = read_row(&row, place, scale, number, last)?;
        readings.push(reading)?;
        last = Some(reading);
    }
    // The record after the most readings was refused.
    unreachable!()
}

/// The readings of the records that are left, behind a header.
fn read_under_header(
    alloc: Global,
    rdr: &mut Reader<&[u8]>,
    column: &[u8],
    scale: u8,
    before: Option<i32>,
) -> Result<Vec<i32>, CsvErr>
    requires plain { IsPlain rdr.old }
    requires scale { scale ≤ most_scale }
    ensures few { IfOk result (λ v. length v.items ≤ most_readings) }
    ensures ok { IfOk result (λ v. of_records (rows_left rdr.old) column.now scale before ≡ Ok v.items) }
    ensures refused { IfErr result (λ e.
        (e ≡ CsvErr.Memory) ⊎ (of_records (rows_left rdr.old) column.now scale before ≡ Err e)) }
{
    let mut header = ByteRecord::new(alloc);
    let found = next_row(rdr, &mut header)?;
    if !found {
        return Err(CsvErr::NoHeader);
    }
    let Some(place) = place_of(&header, column) else {
        return Err(CsvErr::NoColumn);
    };
    read_rows(alloc, rdr, place, scale, before)
}

/// The same of a text whose records are its lines. Its header is read as any other's.
fn read_plain_text(
    alloc: Global,
    rdr: &mut Reader<&[u8]>,
    text: &[u8],
    column: &[u8],
    scale: u8,
    before: Option<i32>,
) -> Result<Vec<i32>, CsvErr>
    requires plain { IsPlain rdr.old }
    requires lines { is_plain_text text.now ≡ true }
    requires all { rows_left rdr.old ≡ records default_config text.now }
    requires scale { scale ≤ most_scale }
    ensures few { IfOk result (λ v. length v.items ≤ most_readings) }
    ensures ok { IfOk result (λ v. of_records (rows_left rdr.old) column.now scale before ≡ Ok v.items) }
    ensures refused { IfErr result (λ e.
        (e ≡ CsvErr.Memory) ⊎ (of_records (rows_left rdr.old) column.now scale before ≡ Err e)) }
{
    let mut header = ByteRecord::new(alloc);
    let found = next_row(rdr, &mut header)?;
    if !found {
        return Err(CsvErr::NoHeader);
    }
    let Some(place) = place_of(&header, column) else {
        return Err(CsvErr::NoColumn);
    };
    let Some((_, rest)) = next_line(text) else {
        unreachable!();
    };
    read_lines(alloc, rest, place, scale, before)
}

/// The readings of a column of a CSV text, each times 10^`scale` and rounded, in the order of the records. A missing
/// cell repeats the reading before it, for the first record `before`.
#[tactic(auto, using(crate::proofs::NearLaws::column_near), unfolding(crate::specs::Column::column_of))]
pub fn read_column(
    alloc: Global,
    bytes: &[u8],
    column: &[u8],
    scale: u8,
    before: Option<i32>,
) -> Result<Vec<i32>, CsvErr>
    requires size { length bytes.now ≤ 2 ^ 26 }
    requires scale { scale ≤ most_scale }
    requires before { ForSome before (λ x. unsigned_abs x ≤ greatest_reading) }
    ensures few { IfOk result (λ v. length v.items ≤ most_readings) }
    ensures near { IfOk result (λ v. (i : ℕ) → unsigned_abs (reading v.items i) ≤ greatest_reading) }

    // The answer is that of the definition, but for want of memory.
    ensures ok { IfOk result (λ v. column_of bytes.now column.now scale before ≡ Ok v.items) }
    ensures refused { IfErr result (λ e. (e ≡ CsvErr.Memory)
        ⊎ (column_of bytes.now column.now scale before ≡ Err e)) }
{
    let marked = without_mark(bytes);
    let mut rdr = open(alloc, marked);
    let text = without_mark(marked);
    if is_plain(text) {
        return read_plain_text(alloc, &mut rdr, text, column, scale, before);
    }
    read_under_header(alloc, &mut rdr, column, scale, before)
}
