ghost use Rattle.std.specs.Prelude.{◌≡◌, ◌*◌, ◌^◌, ◌≤◌, ◌↔◌, max, IsTrue};
ghost use Rattle.segment.specs.Measure.{unit, coefficient_bound, curve_of, IsBounded, IsSane, EveryTrueIsSane};

use crate::curves::UNITS;
use crate::measures::GREATEST_READING;
use crate::{Curve, Seg};

/// Whether a segment keeps the bounds that every true segment keeps, where no reading of its series has a greater
/// magnitude than `root_d`.
pub fn is_sane(s: &Seg, root_d: u64) -> bool
    ensures { IsTrue result ↔ IsSane s.now root_d }
{
    let most = u128::from(s.d.max(1));
    let len = u128::from(s.len);
    let curve = Curve {
        a: s.a,
        b: s.b,
        c: s.c,
    };
    is_bounded(&curve, s.len, s.d)
        && s.d <= root_d
        && root_d <= u64::from(GREATEST_READING)
        && u128::from(s.f) <= 24 * u128::from(UNITS) * most
        && s.l <= 25 * u128::from(UNITS) * most * len
}

/// Whether the coefficients of a curve over `n` readings of magnitude at most `d` keep their bound.
pub fn is_bounded(curve: &Curve, n: u32, d: u64) -> bool
    ensures { IsTrue result ↔ IsBounded curve.now n d }
{
    let most = greatest_coefficient(d);
    let n = u128::from(n);
    u128::from(curve.a.unsigned_abs()) <= most
        && u128::from(curve.b.unsigned_abs()) * n <= most
        && u128::from(curve.c.unsigned_abs()) * (n * n) <= most
}

/// The most that a coefficient may come to over readings of magnitude at most `d`.
pub(crate) fn greatest_coefficient(d: u64) -> u128
    ensures { result ≡ coefficient_bound d }
{
    8 * u128::from(UNITS) * u128::from(d.max(1))
}

/// Every true segment of readings is sane for the greatest magnitude of their series.
pub fn every_true_segment_is_sane()
    ensures { EveryTrueIsSane }
{}
