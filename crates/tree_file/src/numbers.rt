ghost use Rattle.std.specs.Prelude.{◌≡◌, ◌+◌, ◌^◌, ◌<◌, ◌≤◌, ◌++◌, length, take, drop};
ghost use Rattle.tree_file.specs.Bytes.{IsSignedOf, bytes_of, number_of, wrapped, unwrapped};

use byteorder::{BigEndian, ByteOrder};

/// Fills `into`, of 1 to 16 bytes, with `v`, big-endian.
#[tactic(auto, unfolding(crate::specs::Bytes::bytes_of))]
pub fn put_unsigned(v: u128, into: &mut [u8])
    requires some { 1 ≤ length into.old }
    requires few { length into.old ≤ 16 }
    requires fits { v < 256 ^ length into.old }
    ensures { into.new ≡ bytes_of (length into.old) v }
{
    let n = into.len();
    BigEndian::write_uint128(into, v, n);
}

/// The number that 1 to 16 bytes write, big-endian.
#[tactic(auto, unfolding(crate::specs::Bytes::number_of))]
pub fn get_unsigned(bytes: &[u8]) -> u128
    requires some { 1 ≤ length bytes.now }
    requires few { length bytes.now ≤ 16 }
    ensures { result ≡ number_of (length bytes.now) bytes.now }
{
    BigEndian::read_uint128(bytes, bytes.len())
}

/// Fills `into`, of 1 to 16 bytes, with `v`, big-endian in two's complement.
pub fn put_signed(v: i128, into: &mut [u8])
    requires some { 1 ≤ length into.old }
    requires few { length into.old ≤ 16 }
    requires fits { IsSignedOf (length into.old) v }
    ensures { into.new ≡ bytes_of (length into.old) (wrapped (length into.old) v) }
{
    let n = into.len();
    BigEndian::write_int128(into, v, n);
}

/// The number that 1 to 16 bytes write, big-endian in two's complement.
pub fn get_signed(bytes: &[u8]) -> i128
    requires some { 1 ≤ length bytes.now }
    requires few { length bytes.now ≤ 16 }
    ensures { result ≡ unwrapped (length bytes.now) (number_of (length bytes.now) bytes.now) }
{
    BigEndian::read_int128(bytes, bytes.len())
}

/// Writes a number into the `n` bytes from a place on.
#[tactic(auto, unfolding(crate::specs::Bytes::bytes_of))]
pub(crate) fn put_at(into: &mut [u8], at: usize, n: usize, v: u128)
    requires some { 1 ≤ n }
    requires few { n ≤ 16 }
    requires room { at + n ≤ length into.old }
    requires fits { v < 256 ^ n }
    ensures { take (at + n) into.new ≡ take at into.old ++ bytes_of n v }
{
    BigEndian::write_uint128(&mut into[at..], v, n);
}

/// The number in the `n` bytes from a place on.
#[tactic(auto, unfolding(crate::specs::Bytes::number_of))]
pub(crate) fn get_at(bytes: &[u8], at: usize, n: usize) -> u128
    requires some { 1 ≤ n }
    requires few { n ≤ 16 }
    requires room { at + n ≤ length bytes.now }
    ensures number { result ≡ number_of n (drop at bytes.now) }
    ensures bound { result < 256 ^ n }
{
    BigEndian::read_uint128(&bytes[at..], n)
}
