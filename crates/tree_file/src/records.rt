ghost use Rattle.std.specs.Prelude.{◌≡◌, ◌+◌, ◌^◌, ◌<◌, ◌≤◌, length, drop};
ghost use Rattle.tree_file.specs.Bytes.{number_of, wrapped, unwrapped};
ghost use Rattle.tree_file.specs.Record.{record_of, seg_in};

use crate::numbers::{get_at, put_at};
use segment::Seg;

/// Writes the record of a segment: `a`, `b`, `c`, `l`, `d` and `f`, big-endian.
#[tactic(auto, unfolding(crate::specs::Record::record_of))]
pub fn write_seg(s: &Seg, into: &mut [u8; 56])
    ensures { into.new ≡ record_of s.now }
{
    let Seg {
        a,
        b,
        c,
        l,
        d,
        f,
        ..
    } = *s;
    put_at(into, 0, 8, bits(a));
    put_at(into, 8, 8, bits(b));
    put_at(into, 16, 8, bits(c));
    put_at(into, 24, 16, l);
    put_at(into, 40, 8, u128::from(d));
    put_at(into, 48, 8, u128::from(f));
}

/// The segment of a record, over the readings `start..start + len`.
#[tactic(auto, unfolding(crate::specs::Record::seg_in))]
pub fn read_seg(bytes: &[u8; 56], start: u32, len: u32) -> Seg
    ensures { result ≡ seg_in bytes.now start len }
{
    Seg {
        start,
        len,
        a: signed_at(bytes, 0),
        b: signed_at(bytes, 8),
        c: signed_at(bytes, 16),
        l: get_at(bytes, 24, 16),
        d: unsigned_at(bytes, 40),
        f: unsigned_at(bytes, 48),
    }
}

/// The eight bytes of two's complement, as a number from 0 up.
fn bits(v: i64) -> u128
    ensures value { result ≡ wrapped 8 v }
    ensures bound { result < 256 ^ 8 }
{
    u128::from(v.cast_unsigned())
}

/// The signed number in the eight bytes from a place on.
fn signed_at(bytes: &[u8], at: usize) -> i64
    requires { at + 8 ≤ length bytes.now }
    ensures { result ≡ unwrapped 8 (number_of 8 (drop at bytes.now)) }
{
    (get_at(bytes, at, 8) as u64).cast_signed()
}

/// The number in the eight bytes from a place on.
fn unsigned_at(bytes: &[u8], at: usize) -> u64
    requires { at + 8 ≤ length bytes.now }
    ensures { result ≡ number_of 8 (drop at bytes.now) }
{
    get_at(bytes, at, 8) as u64
}
