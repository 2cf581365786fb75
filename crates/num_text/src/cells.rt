ghost use Rattle.std.specs.Prelude.{◌≡◌, ◌≤◌, ◌+◌, ◌*◌, ◌^◌, ◌&&◌, if◌then◌else◌, IsTrue, length, min, nat_le, nat_lt, slice_index};
ghost use Rattle.std.specs.Char.{is_ascii_digit};
ghost use Rattle.std.specs.List.{list_all, position_or_len, prefix_len, suffix_len};
ghost use Rattle.semantics.specs.Most.{greatest_reading, most_scale};
ghost use Rattle.num_text.specs.Cells.{before_blanks, behind_blanks, cell_of, decimal_of, is_blank, is_missing, is_point, scaled, value_of, without_sign};

use crate::digits::{are_digits, number_on};

/// What a cell says.
#[derive(Clone, Copy, Debug, PartialEq, Eq)]
pub enum Cell {
    Value(i32),
    Missing,
    Bad,
    TooLarge,
}

/// Whether a byte is a space or a tab.
pub fn is_blank(byte: u8) -> bool
    ensures { result ≡ is_blank byte }
{
    byte == b' ' || byte == b'\t'
}

#[tactic(auto, using(crate::proofs::CellLaws::prefix_within))]
fn blanks_before(text: &[u8]) -> usize
    ensures within { result ≤ length text.now }
    ensures value { result ≡ prefix_len is_blank text.now }
{
    text.iter().take_while(|byte| is_blank(**byte)).count()
}

#[tactic(auto, using(crate::proofs::CellLaws::suffix_within))]
fn blanks_behind(text: &[u8]) -> usize
    ensures within { result ≤ length text.now }
    ensures value { result ≡ suffix_len is_blank text.now }
{
    text.iter()
        .rev()
        .take_while(|byte| is_blank(**byte))
        .count()
}

fn trimmed(text: &[u8]) -> &[u8]
    ensures { result.now ≡ before_blanks (behind_blanks text.now) }
{
    let text = &text[blanks_before(text)..];
    &text[..text.len() - blanks_behind(text)]
}

fn is_missing(text: &[u8]) -> bool
    ensures { result ≡ is_missing text.now }
{
    matches!(text, b"" | b"NaN" | b"nan" | b"NA" | b"null")
}

fn without_sign(text: &[u8]) -> &[u8]
    ensures { result.now ≡ without_sign text.now }
{
    match text.first() {
        Some(b'-' | b'+') => &text[1..],
        _ => text,
    }
}

fn is_point(byte: u8) -> bool
    ensures { result ≡ is_point byte }
{
    byte == b'.'
}

/// The place of the first point, or the length where there is none.
#[tactic(auto, using(crate::proofs::CellLaws::point_within))]
fn point_in(text: &[u8]) -> usize
    ensures within { result ≤ length text.now }
    ensures value { result ≡ position_or_len is_point text.now }
{
    text.iter().take_while(|byte| !is_point(**byte)).count()
}

const GREATEST_READING: u128 = 1_000_000_000;

/// One where the digit behind so many places rounds up.
fn carry(fraction: &[u8], places: usize) -> u128
    ensures { result
        ≡ (if nat_lt places (length fraction.now) && nat_le 53 (slice_index fraction.now places) then 1 else 0) }
{
    if places < fraction.len() && fraction[places] >= b'5' {
        1
    } else {
        0
    }
}

/// A number with so many zeros behind its digits, or `limit` where that is greater.
#[tactic(auto, using(crate::proofs::ScaleLaws::small_power))]
fn filled(number: u128, zeros: usize, limit: u128) -> u128
    requires few { zeros ≤ 6 }
    requires number { number ≤ limit }
    requires small { limit ≤ 2 ^ 59 }
    ensures { result ≡ min (number * 10 ^ zeros) limit }
{
    if zeros == 0 {
        return number;
    }
    (number * 10u128.pow(zeros as u32)).min(limit)
}

/// The magnitude of a decimal times 10^scale, rounded, or one above the greatest reading where it is greater.
fn scaled(scale: u8, whole: &[u8], fraction: &[u8]) -> u128
    requires scale { scale ≤ most_scale }
    requires digits { IsTrue (list_all is_ascii_digit fraction.now) }
    ensures { result ≡ min (scaled scale whole.now fraction.now) (greatest_reading + 1) }
{
    let limit = GREATEST_READING + 1;
    let places = usize::from(scale);
    let kept = fraction.len().min(places);
    let number = number_on(number_on(0, whole, limit), &fraction[..kept], limit);
    let floor = filled(number, places - kept, limit);
    (floor + carry(fraction, places)).min(limit)
}

/// The reading of this magnitude.
fn value_of(negative: bool, magnitude: u128) -> Cell
    ensures { result ≡ value_of negative magnitude }
{
    if magnitude > GREATEST_READING {
        Cell::TooLarge
    } else if negative {
        Cell::Value(-(magnitude as i32))
    } else {
        Cell::Value(magnitude as i32)
    }
}

/// The reading of a decimal without its sign.
#[tactic(auto, using(crate::proofs::CellLaws::any_point, crate::proofs::CellLaws::value_of_capped))]
fn decimal_of(scale: u8, negative: bool, text: &[u8]) -> Cell
    requires { scale ≤ most_scale }
    ensures { result ≡ decimal_of scale negative text.now }
{
    let point = point_in(text);
    let whole = &text[..point];
    if !are_digits(whole) {
        return Cell::Bad;
    }
    if point == text.len() {
        return value_of(negative, scaled(scale, whole, b""));
    }
    let fraction = &text[point + 1..];
    if !are_digits(fraction) {
        return Cell::Bad;
    }
    value_of(negative, scaled(scale, whole, fraction))
}

/// Reads a cell: a decimal times 10^`scale`, rounded to a whole number, halves away from zero. Blanks at both ends
/// don't count, and an empty cell, `NaN`, `nan`, `NA` and `null` are missing.
pub fn read_scaled(text: &[u8], scale: u8) -> Cell
    requires { scale ≤ most_scale }
    ensures { result ≡ cell_of scale text.now }
{
    let text = trimmed(text);
    if is_missing(text) {
        return Cell::Missing;
    }
    let negative = text.first() == Some(&b'-');
    decimal_of(scale, negative, without_sign(text))
}
