ghost use Rattle.query_cli.specs.Words.{has_form, is_file, word, digit_up_to, digits_up_to, whole_up_to};
ghost use Rattle.std.specs.Prelude.{◌≡◌, ◌<◌, unsigned_abs, length, map, string_bytes, ◌≤◌, ◌^◌, IfSome};

use expr::Name;
use num_text::read_i128;
use std::str;

pub(crate) const MOST_SCALE: u8 = 6;

pub(crate) const MOST_DEGREE: u8 = 2;

pub(crate) const MOST_BUDGET: u128 = (1 << 127) - 1;

pub(crate) const MOST_READINGS: u128 = 1 << 20;

pub(crate) const MOST_SEED: u128 = (1 << 64) - 1;

pub(crate) const MOST_POSITION: u64 = 1 << 40;

pub(crate) fn word_at(words: &[String], i: usize) -> &str
    requires { i < length words.now }
    ensures { result.now ≡ word (map string_bytes words.now) i }
{
    words[i].as_str()
}

// Whether there are so many words, of which the first is the command's name.
pub(crate) fn is_form(words: &[String], name: &str, count: usize) -> bool
    requires { 0 < count }
    ensures { result ≡ has_form (map string_bytes words.now) name.now count }
{
    words.len() == count && word_at(words, 0) == name
}

// A file word isn't empty.
pub(crate) fn is_file_word(word: &str) -> bool
    ensures { result ≡ is_file word.now }
{
    !word.is_empty()
}

/// Digits of value at most so much.
pub(crate) fn read_digits(text: &[u8], most: u128) -> Option<u128>
    requires { most < 2 ^ 127 }
    ensures value { result ≡ digits_up_to most text.now }
    ensures bound { IfSome result (λ n. n ≤ most) }
{
    if text.first() == Some(&b'-') {
        return None;
    }
    let n = read_i128(text)?.unsigned_abs();
    if n <= most { Some(n) } else { None }
}

/// One digit, of value at most so much.
pub(crate) fn read_digit(text: &[u8], most: u8) -> Option<u8>
    ensures value { result ≡ digit_up_to most text.now }
    ensures bound { IfSome result (λ n. n ≤ most) }
{
    if text.len() != 1 {
        return None;
    }
    let n = read_digits(text, u128::from(most))?;
    Some(n as u8)
}

/// A number of magnitude at most so much.
pub(crate) fn read_whole(text: &[u8], most: u64) -> Option<i64>
    requires { most ≤ 2 ^ 40 }
    ensures value { result ≡ whole_up_to most text.now }
    ensures bound { IfSome result (λ n. unsigned_abs n ≤ most) }
{
    let n = read_i128(text)?;
    if n.unsigned_abs() <= u128::from(most) {
        Some(n as i64)
    } else {
        None
    }
}

/// The name as text.
pub(crate) fn name_text(name: &Name) -> &str
    ensures { result.now ≡ name.now }
{
    match str::from_utf8(name.bytes()) {
        Ok(text) => text,
        Err(_) => unreachable!(),
    }
}
