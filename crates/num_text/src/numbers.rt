ghost use Rattle.std.specs.Prelude.{◌≡◌, ◌≤◌, ◌++◌, Some, OnOk, OnErr, unsigned_abs};
ghost use Rattle.std.specs.Fmt.{signed_decimal};
ghost use Rattle.semantics.specs.Most.{most_number};
ghost use Rattle.semantics.specs.Numbers.{number_in, without_minus};

use crate::Memory;
use crate::digits::{are_digits, number_on};
use std::alloc::Global;

const MOST: u128 = i128::MAX as u128;

fn without_minus(text: &[u8]) -> &[u8]
    ensures { result.now ≡ without_minus text.now }
{
    if text.first() == Some(&b'-') {
        &text[1..]
    } else {
        text
    }
}

/// Reads an optional `-` and one or more digits, of magnitude at most 2^127-1. `None` says that the text is no such
/// number.
pub fn read_i128(text: &[u8]) -> Option<i128>
    ensures { result ≡ number_in text.now }
{
    let digits = without_minus(text);
    if !are_digits(digits) {
        return None;
    }
    let magnitude = number_on(0, digits, MOST + 1);
    if magnitude > MOST {
        return None;
    }
    if text.first() == Some(&b'-') {
        Some(-(magnitude as i128))
    } else {
        Some(magnitude as i128)
    }
}

/// Appends the digits of a number, with no leading zero and with `-` only below zero.
#[tactic(auto, using(crate::proofs::Written::read_again))]
pub fn write_i128(alloc: Global, into: &mut Vec<u8>, v: i128) -> Result<(), Memory>
    ensures appended { OnOk result (into.new.items ≡ into.old.items ++ signed_decimal v) }
    ensures unchanged { OnErr result (into.new.items ≡ into.old.items) }

    // What is written of a number is read again.
    ensures read_again { unsigned_abs v ≤ most_number → number_in (signed_decimal v) ≡ Some v }
{
    let text = format!(in alloc; "{v}")?;
    into.extend_from_slice(text.as_bytes())?;
    Ok(())
}
