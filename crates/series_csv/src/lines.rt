// Texts with no quote and no carriage return, whose records are their lines.

ghost use Rattle.std.specs.Prelude.{◌≡◌, ◌≤◌, ◌+◌, ◌⊎◌, ◌∷◌, [], length, take, drop, IsTrue, IsNone, IfSome, IfOk, IfErr, MatchOption, None, Some, true, Ok, Err};
ghost use Rattle.std.specs.List.{before_first, position_or_len, prefix_len};
ghost use Rattle.csv.specs.Reading.{default_config, records};
ghost use Rattle.csv.specs.Records.{field_at};
ghost use Rattle.semantics.specs.Most.{most_readings, most_scale};
ghost use Rattle.series_csv.specs.Column.{by_field, reading_of, readings_from};
ghost use Rattle.series_csv.specs.Lines.{fields_in, is_comma, is_line_feed, is_plain_byte, is_plain_text};

use crate::column::{MOST_READINGS, read_cell};
use crate::fault::CsvErr;
use std::alloc::Global;

fn is_comma(byte: u8) -> bool
    ensures { result ≡ is_comma byte }
{
    byte == b','
}

fn is_line_feed(byte: u8) -> bool
    ensures { result ≡ is_line_feed byte }
{
    byte == b'\n'
}

fn is_plain_byte(byte: u8) -> bool
    ensures { result ≡ is_plain_byte byte }
{
    !(byte == b'"' || byte == b'\r')
}

/// Whether a text has neither a quote nor a carriage return.
pub(crate) fn is_plain(text: &[u8]) -> bool
    ensures { result ≡ is_plain_text text.now }
{
    text.iter().all(|byte| is_plain_byte(*byte))
}

/// How many line feeds a text begins with.
#[tactic(auto, using(crate::proofs::LineLaws::feeds_within))]
fn feeds_before(text: &[u8]) -> usize
    ensures within { result ≤ length text.now }
    ensures value { result ≡ prefix_len is_line_feed text.now }
{
    text.iter().take_while(|byte| is_line_feed(**byte)).count()
}

/// The length of the line that a text begins with.
#[tactic(auto, using(crate::proofs::LineLaws::end_within))]
fn line_len(text: &[u8]) -> usize
    ensures within { result ≤ length text.now }
    ensures value { result ≡ position_or_len is_line_feed text.now }
{
    text.iter().take_while(|byte| !is_line_feed(**byte)).count()
}

/// The length of the field that a line begins with.
#[tactic(auto, using(crate::proofs::LineLaws::comma_within))]
fn field_len(line: &[u8]) -> usize
    ensures within { result ≤ length line.now }
    ensures value { result ≡ position_or_len is_comma line.now }
{
    line.iter().take_while(|byte| !is_comma(**byte)).count()
}

/// What stands before a place.
fn before(text: &[u8], place: usize) -> &[u8]
    requires { place ≤ length text.now }
    ensures { result.now ≡ take place text.now }
{
    &text[..place]
}

/// What stands from a place on.
fn behind(text: &[u8], place: usize) -> &[u8]
    requires { place ≤ length text.now }
    ensures { result.now ≡ drop place text.now }
{
    &text[place..]
}

/// What stands behind the byte at a place, or nothing where there is none.
fn past(text: &[u8], place: usize) -> &[u8]
    requires { place ≤ length text.now }
    ensures { result.now ≡ drop (place + 1) text.now }
{
    if place < text.len() {
        return behind(text, place + 1);
    }
    behind(text, place)
}

/// The first line that has a byte, and what stands behind it.
pub(crate) fn next_line(text: &[u8]) -> Option<(&[u8], &[u8])>
    requires { is_plain_text text.now ≡ true }
    ensures none { IsNone result → records default_config text.now ≡ [] }
    ensures some { IfSome result (λ r.
        records default_config text.now ≡ fields_in r.0.now ∷ records default_config r.1.now) }
    ensures plain { IfSome result (λ r. is_plain_text r.1.now ≡ true) }
{
    let text = behind(text, feeds_before(text));
    if text.is_empty() {
        return None;
    }
    let len = line_len(text);
    Some((before(text, len), past(text, len)))
}

/// The field at a place.
fn field_of(line: &[u8], place: usize) -> Option<&[u8]>
    ensures { MatchOption result (field_at (fields_in line.now) place ≡ None)
        (λ field. field_at (fields_in line.now) place ≡ Some field.now) }
{
    let mut rest = line;
    let mut left = place;
    while left > 0 {
        let len = field_len(rest);
        if len == rest.len() {
            return None;
        }
        rest = past(rest, len);
        left -= 1;
    }
    Some(before(rest, field_len(rest)))
}

/// The reading of a line, behind the last reading.
fn read_line(
    line: &[u8],
    place: usize,
    scale: u8,
    number: u32,
    last: Option<i32>,
) -> Result<i32, CsvErr>
    requires { scale ≤ most_scale }
    ensures { result ≡ reading_of place scale number last (fields_in line.now) }
{
    if number > MOST_READINGS {
        return Err(CsvErr::TooLong(number));
    }
    let Some(text) = field_of(line, place) else {
        return Err(CsvErr::Short(number));
    };
    read_cell(text, scale, number, last)
}

/// The readings of the lines of a text.
pub(crate) fn read_lines(
    alloc: Global,
    text: &[u8],
    place: usize,
    scale: u8,
    first: Option<i32>,
) -> Result<Vec<i32>, CsvErr>
    requires plain { is_plain_text text.now ≡ true }
    requires scale { scale ≤ most_scale }
    ensures few { IfOk result (λ v. length v.items ≤ most_readings) }
    ensures ok { IfOk result (λ v.
        readings_from place scale 1 first (records default_config text.now) ≡ Ok v.items) }
    ensures refused { IfErr result (λ e. (e ≡ CsvErr.Memory)
        ⊎ (readings_from place scale 1 first (records default_config text.now) ≡ Err e)) }
{
    let mut readings = Vec::new(alloc);
    let mut last = first;
    let mut rest = text;
    for number in 1..MOST_READINGS + 2 {
        let Some((line, more)) = next_line(rest) else {
            return Ok(readings);
        };
        let reading = read_line(line, place, scale, number, last)?;
        readings.push(reading)?;
        last = Some(reading);
        rest = more;
    }
    // The record after the most readings was refused.
    unreachable!()
}
