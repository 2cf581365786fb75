//! Sums of powers and of polynomials over the positions below a bound, by closed forms.
#![tactic(auto)]

ghost use Rattle.std.specs.Prelude.{◌≡◌, ℕ, suc, ◌+◌, ◌-◌, ◌*◌, ◌^◌, ◌<◌, ◌≤◌, pos, ◌*ℤ◌, unsigned_abs};
ghost use Rattle.semantics.specs.Most.{most_readings, most_shift, range_limit};
ghost use Rattle.poly.specs.Terms.{norm_at, degree_of};
ghost use Rattle.power_sum.specs.Totals.{power_total, total_of};

use poly::{N_TERMS, Poly, plus, times};

/// The sum of `i ^ k` over `0 <= i < m`, where `0 ^ 0` is 1.
pub fn power(k: u32, m: u64) -> i128
    requires order { k ≤ 4 }
    requires few { m ≤ 2 * most_shift }
    requires fewer { 1 ≤ k → m ≤ most_readings }
    ensures { result ≡ pos (power_total k m) }
{
    closed(k, u128::from(m)) as i128
}

/// The same, in whole numbers from 0 up.
fn closed(k: u32, m: u128) -> u128
    requires order { k ≤ 4 }
    requires few { m ≤ 2 * most_shift }
    requires fewer { 1 ≤ k → m ≤ most_readings }
    ensures value { result ≡ power_total k m }
    ensures bound { result < 2 ^ 120 }
{
    let n = m.saturating_sub(1);
    match k {
        0 => m,
        1 => numbers(n),
        2 => squares(n),
        3 => cubes(n),
        _ => fourth_powers(n),
    }
}

/// The sum of the numbers up to `n`.
#[tactic(auto, using(crate::proofs::ClosedForms::closed_1, crate::proofs::ClosedForms::pow_below))]
fn numbers(n: u128) -> u128
    requires { n < most_readings }
    ensures value { result ≡ power_total 1 (suc n) }
    ensures bound { result < 2 ^ 120 }
{
    (n.pow(2) + n) / 2
}

/// The sum of the squares up to `n`.
#[tactic(auto, using(crate::proofs::ClosedForms::closed_2, crate::proofs::ClosedForms::pow_below))]
fn squares(n: u128) -> u128
    requires { n < most_readings }
    ensures value { result ≡ power_total 2 (suc n) }
    ensures bound { result < 2 ^ 120 }
{
    (2 * n.pow(3) + 3 * n.pow(2) + n) / 6
}

/// The sum of the cubes up to `n`.
#[tactic(auto, using(crate::proofs::ClosedForms::closed_3, crate::proofs::ClosedForms::pow_below))]
fn cubes(n: u128) -> u128
    requires { n < most_readings }
    ensures value { result ≡ power_total 3 (suc n) }
    ensures bound { result < 2 ^ 120 }
{
    (n.pow(4) + 2 * n.pow(3) + n.pow(2)) / 4
}

/// The sum of the fourth powers up to `n`.
#[tactic(auto, using(crate::proofs::ClosedForms::fourth_power))]
fn fourth_powers(n: u128) -> u128
    requires { n < most_readings }
    ensures value { result ≡ power_total 4 (suc n) }
    ensures bound { result < 2 ^ 120 }
{
    (6 * n.pow(5) + 15 * n.pow(4) + 10 * n.pow(3) - n) / 30
}

/// The sum of `p(i)` over `0 <= i < m`.
pub fn sum_over(p: &Poly, m: u64) -> i128
    requires few { m ≤ 2 * most_shift }
    requires fewer { 1 ≤ degree_of p.now.c → m ≤ most_readings }
    requires small { m * norm_at p.now.c m ≤ range_limit }
    ensures value { result ≡ total_of p.now.c m }
    ensures bound { unsigned_abs result ≤ m * norm_at p.now.c m }
{
    let mut sum = 0;
    for k in (0..N_TERMS).rev() {
        let part = term(p.c[k], k as u32, m);
        sum = plus(sum, part);
    }
    sum
}

/// The sum of `c * i ^ k`. No power is summed where `c` is 0, since `m` may then be too great for it.
fn term(c: i128, k: u32, m: u64) -> i128
    requires order { k < N_TERMS }
    requires few { 0 < unsigned_abs c → m ≤ 2 * most_shift }
    requires fewer { 0 < unsigned_abs c → 1 ≤ k → m ≤ most_readings }
    requires small { unsigned_abs c * power_total k m ≤ range_limit }
    ensures value { result ≡ c *ℤ pos (power_total k m) }
    ensures bound { unsigned_abs result ≡ unsigned_abs c * power_total k m }
{
    if c == 0 { 0 } else { times(c, power(k, m)) }
}

#[cfg(test)]
mod tests {
    use super::*;

    /// By hand: 1 + 8 + 27 and 1 + 16 + 81 + 256. The last was added up one by one, elsewhere.
    #[test]
    fn powers(rt: HostRuntime) {
        assert_eq!(rt; power(0, 0), 0);
        assert_eq!(rt; power(0, 1), 1);
        assert_eq!(rt; power(0, 1 << 41), 2199023255552);
        assert_eq!(rt; power(3, 4), 36);
        assert_eq!(rt; power(4, 5), 354);
        assert_eq!(rt; power(4, 1 << 20), 253529515583120380152955535360);
    }

    /// By hand: 640 + 3 * 2016, and 10 + 52 + 272 + 760.
    #[test]
    fn polynomials(rt: HostRuntime) {
        let line = Poly::of_three(10, 3, 0);
        let curve = Poly::of_three(1, -2, 5);
        assert_eq!(rt; sum_over(&line, 64), 6688);
        assert_eq!(rt; sum_over(&line.mul(&curve, 4), 4), 1094);
    }
}
