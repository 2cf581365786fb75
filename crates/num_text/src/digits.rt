ghost use Rattle.std.specs.Prelude.{◌≡◌, ◌≤◌, ◌^◌, min};
ghost use Rattle.std.specs.Char.{is_ascii_digit};
ghost use Rattle.std.specs.List.{list_all};
ghost use Rattle.semantics.specs.Numbers.{are_digits, number_on};

fn all_digits(text: &[u8]) -> bool
    ensures { result ≡ list_all is_ascii_digit text.now }
{
    text.iter().all(|d| d.is_ascii_digit())
}

/// Whether a text is one or more digits.
pub(crate) fn are_digits(text: &[u8]) -> bool
    ensures { result ≡ are_digits text.now }
{
    !text.is_empty() && all_digits(text)
}

/// The number whose digits are those of `n`, followed by these, or `limit` where it is greater.
pub(crate) fn number_on(n: u128, digits: &[u8], limit: u128) -> u128
    requires start { n ≤ limit }
    requires small { limit ≤ 2 ^ 127 }
    ensures { result ≡ min (number_on n digits.now) limit }
{
    if limit <= SHORT {
        return u128::from(short_number_on(n as u64, digits, limit as u64));
    }
    long_number_on(n, digits, limit)
}

/// Up to this limit there is room for one more digit within 64 bits.
const SHORT: u128 = 1 << 59;

/// The same within 64 bits.
fn short_number_on(n: u64, digits: &[u8], limit: u64) -> u64
    requires start { n ≤ limit }
    requires small { limit ≤ 2 ^ 59 }
    ensures { result ≡ min (number_on n digits.now) limit }
{
    let mut number = n;
    for digit in digits {
        number = (10 * number + u64::from(digit.saturating_sub(b'0'))).min(limit);
    }
    number
}

/// The same within 128 bits.
fn long_number_on(n: u128, digits: &[u8], limit: u128) -> u128
    requires start { n ≤ limit }
    requires small { limit ≤ 2 ^ 127 }
    ensures { result ≡ min (number_on n digits.now) limit }
{
    let mut number = n;
    for digit in digits {
        number = number
            .saturating_mul(10)
            .saturating_add(u128::from(digit.saturating_sub(b'0')))
            .min(limit);
    }
    number
}
