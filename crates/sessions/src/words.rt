// The words of a line, and the numbers in them.

ghost use Rattle.std.specs.Prelude.{◌≡◌, ◌≤◌, ◌<◌, ◌^◌, [], ◌∷◌, ◌++◌, length, unsigned_abs, IfSome, IfOk, OnOk};
ghost use Rattle.std.specs.List.{position_or_len, slice_split};
ghost use Rattle.std.specs.Str.{bytes_eq};
ghost use Rattle.semantics.specs.Most.{greatest_reading};
ghost use Rattle.sessions.specs.Script.{behind_of, digits_up_to, has_space, is_space, reading_in, readings_in, slot_in, word_of};

use num_text::{Memory, Readings, read_i128};
use std::alloc::Global;

/// The magnitude of a reading, in scaled units.
const MOST_READING: u128 = 1_000_000_000;

/// The last slot.
const LAST_SLOT: u128 = 15;

pub(crate) fn is_text(bytes: &[u8], text: &str) -> bool
    ensures { result ≡ bytes_eq bytes.now text.now }
{
    bytes == text.as_bytes()
}

fn is_space(byte: u8) -> bool
    ensures { result ≡ is_space byte }
{
    byte == b' '
}

/// The place of the first space, or the length where there is none.
#[tactic(auto, using(crate::proofs::WordLaws::space_within))]
fn space_in(text: &[u8]) -> usize
    ensures within { result ≤ length text.now }
    ensures value { result ≡ position_or_len is_space text.now }
{
    text.iter().take_while(|byte| !is_space(**byte)).count()
}

pub(crate) fn has_space(text: &[u8]) -> bool
    ensures { result ≡ has_space text.now }
{
    text.iter().any(|byte| is_space(*byte))
}

/// The word at the front.
pub(crate) fn word_of(text: &[u8]) -> &[u8]
    ensures { result.now ≡ word_of text.now }
{
    &text[..space_in(text)]
}

/// What stands behind that word and its space.
pub(crate) fn behind_of(text: &[u8]) -> &[u8]
    ensures { result.now ≡ behind_of text.now }
{
    let space = space_in(text);
    if space < text.len() {
        &text[space + 1..]
    } else {
        &[]
    }
}

/// Digits of value at most so much.
pub(crate) fn read_digits(text: &[u8], most: u128) -> Option<u128>
    requires { most < 2 ^ 127 }
    ensures value { result ≡ digits_up_to most text.now }
    ensures bound { IfSome result (λ n. n ≤ most) }
{
    if text.first() == Some(&b'-') {
        return None;
    }
    let n = read_i128(text)?.unsigned_abs();
    if n <= most { Some(n) } else { None }
}

pub(crate) fn read_slot(text: &[u8]) -> Option<u8>
    ensures value { result ≡ slot_in text.now }
{
    let slot = read_digits(text, LAST_SLOT)?;
    Some(slot as u8)
}

/// A number within 10^9.
fn read_reading(text: &[u8]) -> Option<i32>
    ensures { result ≡ reading_in text.now }
{
    let x = read_i128(text)?;
    if x.unsigned_abs() <= MOST_READING {
        Some(x as i32)
    } else {
        None
    }
}

fn put_reading(xs: &mut Vec<i32>, x: i32) -> Result<(), Memory>
    ensures { OnOk result (xs.new.items ≡ xs.old.items ++ x ∷ []) }
{
    xs.push(x)?;
    Ok(())
}

/// Readings with one space between two, or none where a word is no reading.
pub(crate) fn read_readings(alloc: Global, text: &[u8]) -> Result<Option<Readings>, Memory>
    ensures { IfOk result (λ xs. xs ≡ readings_in (slice_split is_space text.now)) }
{
    let mut xs = Vec::new(alloc);
    let mut rest = text;
    'words: while has_space(rest) {
        let Some(x) = read_reading(word_of(rest)) else {
            return Ok(None);
        };
        put_reading(&mut xs, x)?;
        rest = behind_of(rest);
    }
    let Some(x) = read_reading(rest) else {
        return Ok(None);
    };
    put_reading(&mut xs, x)?;
    Ok(Some(Readings::of(xs)))
}
