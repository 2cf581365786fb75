ghost use Rattle.std.specs.Prelude.{◌≡◌, ◌^◌, ◌<◌, ◌≤◌, length};
ghost use Rattle.std.specs.List.{All, find};
ghost use Rattle.segment.specs.Measure.{greatest_reading, curve_of, is_bounded, AreReadings, IsBounded};
ghost use Rattle.store_file.specs.Good.{is_measured, is_good, own_readings, is_bad, IsOver};

use segment::{
    Curve, GREATEST_READING, Measures, Seg, greatest_estimate, greatest_reading, is_bounded, miss,
};

/// The first segment that isn't true of its readings, of those of its series.
pub(crate) fn first_bad(segs: &[Seg], xs: &[i32]) -> Option<Seg>
    requires few { length xs.now ≤ 2 ^ 20 }
    requires over { All (IsOver (length xs.now)) segs.now }
    ensures { result ≡ find (is_bad xs.now) segs.now }
{
    for seg in segs {
        let own = readings_of(seg, xs);
        if !is_good(seg, own) {
            return Some(*seg);
        }
    }
    None
}

/// The readings of a segment, of those of its series.
fn readings_of<'a>(seg: &Seg, xs: &'a [i32]) -> &'a [i32]
    requires { IsOver (length xs.now) seg.now }
    ensures own { result.now ≡ own_readings xs.now seg.now }
    ensures len { length result.now ≡ seg.now.len }
{
    let (_, rest) = xs.split_at(seg.start as usize);
    let (front, _) = rest.split_at(seg.len as usize);
    front
}

/// Whether a segment is true of the readings, which are within 10^9.
fn is_good(seg: &Seg, xs: &[i32]) -> bool
    requires some { 0 < length xs.now }
    requires few { length xs.now ≤ 2 ^ 20 }
    requires len { seg.now.len ≡ length xs.now }
    ensures { result ≡ is_good xs.now seg.now }
{
    let d = greatest_reading(xs);
    if d > u64::from(GREATEST_READING) {
        return false;
    }
    let curve = Curve {
        a: seg.a,
        b: seg.b,
        c: seg.c,
    };
    if !is_bounded(&curve, seg.len, d) {
        return false;
    }
    is_measured(seg, &curve, xs, d)
}

/// Whether a segment tells the measures of its curve over the readings, of which `d` is the greatest magnitude.
fn is_measured(seg: &Seg, curve: &Curve, xs: &[i32], d: u64) -> bool
    requires some { 0 < length xs.now }
    requires few { length xs.now ≤ 2 ^ 20 }
    requires small { AreReadings xs.now }
    requires curve { curve.now ≡ curve_of seg.now }
    requires bounded { IsBounded curve.now (length xs.now) (greatest_reading xs.now) }
    requires most { d ≡ greatest_reading xs.now }
    requires len { seg.now.len ≡ length xs.now }
    ensures { result ≡ is_measured xs.now seg.now }
{
    let told = Measures {
        l: seg.l,
        d: seg.d,
        f: seg.f,
    };
    let l = miss(xs, curve);
    let f = greatest_estimate(curve, xs.len());
    told == Measures { l, d, f }
}
