//! Polynomials over whole numbers, exact at every position.
//!
//! The norm of a polynomial at `m` is its value there with the magnitude of each coefficient. It bounds the magnitude
//! of the value at every position up to `m`, and for `m` from 1 on that of each coefficient. Operations take the `m`
//! at which their arguments are known to be small, so that no number on the way leaves 128 bits.
#![tactic(auto)]

mod exact;

ghost use Rattle.std.specs.Prelude.{◌≡◌, ℕ, ◌+◌, ◌-◌, ◌*◌, ◌^◌, ◌<◌, ◌≤◌, max, ℤ, pos, ◌+ℤ◌, ◌-ℤ◌, ◌*ℤ◌, length, List, unsigned_abs, slice_index_or};
ghost use Rattle.semantics.specs.Most.{range_limit};
ghost use Rattle.poly.specs.Raised.{IsRaised};
ghost use Rattle.poly.specs.Terms.{value_at, norm_at, size_of, degree_of};

use exact::nested;
pub use exact::{minus, plus, times};

/// How many coefficients a polynomial has.
pub const N_TERMS: usize = 5;

/// A polynomial: its coefficients, the constant first.
#[derive(Clone, Copy, Debug, Drop, PartialEq, Eq)]
pub struct Poly {
    pub c: [i128; N_TERMS],
}

impl Poly {
    /// The polynomial that is `v` everywhere.
    pub fn constant(v: i128) -> Poly
        ensures value { (x : ℤ) → value_at result.c x ≡ v }
        ensures norm { (m : ℕ) → norm_at result.c m ≡ unsigned_abs v }
        ensures size { size_of result.c ≤ 1 }
    {
        let mut c = [0; N_TERMS];
        c[0] = v;
        Poly { c }
    }

    /// The polynomial `a + b * x + c * x ^ 2`.
    pub fn of_three(a: i64, b: i64, c: i64) -> Poly
        ensures value { (x : ℤ) → value_at result.c x ≡ a +ℤ x *ℤ (b +ℤ x *ℤ c) }
        ensures norm { (m : ℕ) → norm_at result.c m ≡ unsigned_abs a + m * (unsigned_abs b + m * unsigned_abs c) }
        ensures size { size_of result.c ≤ 3 }
    {
        quadratic(i128::from(a), i128::from(b), i128::from(c))
    }

    /// The value at position `i`, by nested multiplication.
    pub fn eval(&self, i: u64) -> i128
        requires { norm_at self.now.c (max 1 i) ≤ range_limit }
        ensures value { result ≡ value_at self.now.c (pos i) }
        ensures bound { unsigned_abs result ≤ norm_at self.now.c i }
    {
        let mut sum = 0;
        for k in (0..N_TERMS).rev() {
            sum = nested(self.c[k], i, sum);
        }
        sum
    }

    pub fn add(&self, other: &Poly, m: u64) -> Poly
        requires place { 1 ≤ m }
        requires left { norm_at self.now.c m ≤ range_limit }
        requires right { norm_at other.now.c m ≤ range_limit }
        ensures value { (x : ℤ) → value_at result.c x ≡ value_at self.now.c x +ℤ value_at other.now.c x }
        ensures norm { (n : ℕ) → norm_at result.c n ≤ norm_at self.now.c n + norm_at other.now.c n }
        ensures size { size_of result.c ≤ max (size_of self.now.c) (size_of other.now.c) }
    {
        let mut c = [0; N_TERMS];
        for k in 0..N_TERMS {
            c[k] = plus(self.c[k], other.c[k]);
        }
        Poly { c }
    }

    pub fn sub(&self, other: &Poly, m: u64) -> Poly
        requires place { 1 ≤ m }
        requires left { norm_at self.now.c m ≤ range_limit }
        requires right { norm_at other.now.c m ≤ range_limit }
        ensures value { (x : ℤ) → value_at result.c x ≡ value_at self.now.c x -ℤ value_at other.now.c x }
        ensures norm { (n : ℕ) → norm_at result.c n ≤ norm_at self.now.c n + norm_at other.now.c n }
        ensures size { size_of result.c ≤ max (size_of self.now.c) (size_of other.now.c) }
    {
        self.add(&other.scale(-1, m), m)
    }

    /// The `k`-fold.
    pub fn scale(&self, k: i128, m: u64) -> Poly
        requires place { 1 ≤ m }
        requires small { unsigned_abs k * norm_at self.now.c m ≤ range_limit }
        ensures value { (x : ℤ) → value_at result.c x ≡ k *ℤ value_at self.now.c x }
        ensures norm { (n : ℕ) → norm_at result.c n ≡ unsigned_abs k * norm_at self.now.c n }
        ensures size { size_of result.c ≤ size_of self.now.c }
        ensures none { k ≡ pos 0 → size_of result.c ≡ 0 }
    {
        let mut c = [0; N_TERMS];
        for j in 0..N_TERMS {
            c[j] = times(k, self.c[j]);
        }
        Poly { c }
    }

    /// The product, from the last coefficient of the left factor down; one that is 0 adds nothing.
    pub fn mul(&self, other: &Poly, m: u64) -> Poly
        requires place { 1 ≤ m }
        requires small { norm_at self.now.c m * norm_at other.now.c m ≤ range_limit }
        requires degree { degree_of self.now.c + degree_of other.now.c < N_TERMS }
        ensures value { (x : ℤ) → value_at result.c x ≡ value_at self.now.c x *ℤ value_at other.now.c x }
        ensures norm { (n : ℕ) → norm_at result.c n ≤ norm_at self.now.c n * norm_at other.now.c n }
        ensures degree { degree_of result.c ≤ degree_of self.now.c + degree_of other.now.c }
    {
        let mut product = Poly { c: [0; N_TERMS] };
        for j in (0..N_TERMS).rev() {
            product = product.raised();
            let factor = self.c[j];
            if factor != 0 {
                product = product.add(&other.scale(factor, m), m);
            }
        }
        product
    }

    /// `x` times the polynomial.
    fn raised(&self) -> Poly
        requires { size_of self.now.c < N_TERMS }
        ensures { IsRaised self.now.c result.c }
    {
        let mut c = [0; N_TERMS];
        for k in 1..N_TERMS {
            c[k] = self.c[k - 1];
        }
        Poly { c }
    }

    /// The polynomial whose value at `i` is this one's at `i + offset`.
    pub fn recentre(&self, offset: u64, m: u64) -> Poly
        requires place { 1 ≤ m }
        requires degree { degree_of self.now.c ≤ 2 }
        requires small { norm_at self.now.c (offset + m) ≤ range_limit }
        ensures value { (x : ℤ) → value_at result.c x ≡ value_at self.now.c (x +ℤ pos offset) }
        ensures norm { norm_at result.c m ≤ norm_at self.now.c (offset + m) }
        ensures size { size_of result.c ≤ 3 }
    {
        let steeper = nested(self.c[1], offset, self.c[2]);
        let level = nested(self.c[0], offset, steeper);
        let linear = nested(steeper, offset, self.c[2]);
        quadratic(level, linear, self.c[2])
    }
}

/// The polynomial `a + b * x + c * x ^ 2`.
fn quadratic(a: i128, b: i128, c: i128) -> Poly
    ensures value { (x : ℤ) → value_at result.c x ≡ a +ℤ x *ℤ (b +ℤ x *ℤ c) }
    ensures norm { (m : ℕ) → norm_at result.c m ≡ unsigned_abs a + m * (unsigned_abs b + m * unsigned_abs c) }
    ensures size { size_of result.c ≤ 3 }
{
    let mut terms = [0; N_TERMS];
    terms[0] = a;
    terms[1] = b;
    terms[2] = c;
    Poly { c: terms }
}

#[cfg(test)]
mod tests {
    use super::*;

    /// By hand: `10 + 3i` is 19 at 3, and `1 - 2i + 5i^2` is 40 there, 4 at 1 and 73 at 4.
    #[test]
    fn values(rt: HostRuntime) {
        let line = Poly::of_three(10, 3, 0);
        let curve = Poly::of_three(1, -2, 5);
        assert_eq!(rt; Poly::constant(-4).eval(1000), -4);
        assert_eq!(rt; line.eval(3), 19);
        assert_eq!(rt; curve.eval(0), 1);
        assert_eq!(rt; line.add(&curve, 3).eval(3), 59);
        assert_eq!(rt; line.sub(&curve, 3).eval(3), -21);
        assert_eq!(rt; curve.scale(-7, 3).eval(3), -280);
        assert_eq!(rt; line.mul(&curve, 3).eval(3), 760);
        assert_eq!(rt; curve.recentre(1, 3).eval(3), 73);
    }
}
