//! The choice of a sum: the first of those that matter most; and the range of one.

ghost use Rattle.std.specs.Prelude.{◌≡◌, ◌^◌, ◌<◌, ◌≤◌, ℕ, length, MatchOption};
ghost use Rattle.std.specs.List.{All};
ghost use Rattle.std.specs.Option.{option_map};
ghost use Rattle.semantics.specs.Admission.{count_at};
ghost use Rattle.semantics.specs.Limits.{series_depth, IsNearSeries};
ghost use Rattle.expr.specs.Facts.{facts_of};
ghost use Rattle.expr.specs.Terms.{range_of, term_of};
ghost use Rattle.segment.specs.Measure.{unit};
ghost use Rattle.error_prop.specs.QueryOver.{range_by};
ghost use Rattle.descent.specs.Choice.{says_weight};
ghost use Rattle.descent.specs.Charging.{weight_in, IsFirst, IsLight};

use error_prop::SumLine;
use expr::{Bounds, Fact, Series, domain};

/// How many units of a rank make a whole.
fn units(rank: u8) -> u128
    requires { rank ≤ 2 }
    ensures value { result ≡ unit ^ rank }
    ensures some { 0 < result }
    ensures few { result ≤ 2 ^ 28 }
{
    match rank {
        0 => 1,
        1 => 1 << 14,
        _ => 1 << 28,
    }
}

/// How much a sum matters: its sensitivity times its error in whole numbers, rounded up.
fn weight(line: &SumLine) -> u128
    requires { IsLight line.now }
    ensures { result ≡ says_weight line.now }
{
    let unit = units(line.rank);
    let whole = (line.err + (unit - 1)) / unit;
    line.sensitivity * whole
}

/// The place of the first of the lines that weigh most, or none where none weighs anything.
pub(crate) fn heaviest_line(lines: &[SumLine]) -> Option<usize>
    requires { All IsLight lines.now }
    ensures { MatchOption result ((j : ℕ) → weight_in lines.now j ≡ 0)
        (IsFirst (weight_in lines.now) (length lines.now)) }
{
    let mut most = 0u128;
    let mut at = 0;
    for i in 0..lines.len() {
        let next = weight(&lines[i]);
        if next > most {
            most = next;
            at = i;
        }
    }
    if most == 0 { None } else { Some(at) }
}

/// The ends of the range of a sum.
pub(crate) fn range_of_sum(t: &Series, range: Option<Bounds>, facts: &[Fact]) -> Bounds
    requires depth { series_depth (term_of t.now) ≤ 64 }
    requires near { IsNearSeries (term_of t.now) }
    ensures { range_of result ≡ range_by (count_at (facts_of facts.now)) (term_of t.now) (option_map range_of range) }
{
    match range {
        Some(bounds) => bounds,
        None => {
            let (l, r) = domain(t, facts);
            Bounds { l, r }
        }
    }
}
