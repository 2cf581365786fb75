//! Intervals of whole numbers, their ends included: the least interval that holds each result of an operation.
#![tactic(auto)]

ghost use Rattle.std.specs.Prelude.{◌≡◌, ℕ, ◌≤◌, ◌+◌, ◌^◌, ◌*◌, ℤ, ◌≤ℤ◌, ◌<ℤ◌, ◌+ℤ◌, ◌-ℤ◌, ◌*ℤ◌, pos, IsTrue, ◌↔◌, IfSome, IsNone, unsigned_abs};
ghost use Rattle.interval.specs.Interval.{Interval, Has, IsOrdered, IsWithin, ShareNone, most_of, sum_of, difference_of, least_of, greatest_of, around_of, product_of, meet_of};

use poly::{minus, plus, times};
use std::marker::Model;

/// An interval. Its ends are at most 2^126 in magnitude, and the lower one is at most the upper one.
#[derive(Clone, Copy, Debug, Drop, PartialEq, Eq)]
pub struct Iv {
    lo: i128,
    hi: i128,
}

impl Model for Iv {
    ghost use Rattle.interval.specs.Interval.{Interval};

    ghost Value = { Interval };

    ghost use Rattle.interval.specs.Fields.{view_of, IsIv, fields_of};

    ghost view = { view_of };

    ghost invariant = { IsIv };

    ghost inverse = { fields_of };
}

impl Iv {
    /// The interval of one number.
    pub fn exact(v: i128) -> Iv
        requires { unsigned_abs v ≤ 2 ^ 126 }
        ensures { result ≡ record { lo = v; hi = v } }
    {
        Iv { lo: v, hi: v }
    }

    /// The interval from one end to the other, or none where they are crossed.
    pub fn of(lo: i128, hi: i128) -> Option<Iv>
        requires low { unsigned_abs lo ≤ 2 ^ 126 }
        requires high { unsigned_abs hi ≤ 2 ^ 126 }
        ensures none { IsNone result ↔ (hi <ℤ lo) }
        ensures ends { IfSome result (λ iv. iv ≡ record { lo = lo; hi = hi }) }
    {
        if lo <= hi { Some(Iv { lo, hi }) } else { None }
    }

    pub fn lo(&self) -> i128
        ensures { result ≡ self.now.lo }
    {
        self.lo
    }

    pub fn hi(&self) -> i128
        ensures { result ≡ self.now.hi }
    {
        self.hi
    }

    /// How far the ends are apart.
    pub fn width(&self) -> u128
        ensures value { pos result ≡ (self.now.hi -ℤ self.now.lo) }
        ensures bound { result ≤ 2 ^ 127 }
    {
        self.hi.abs_diff(self.lo)
    }

    /// The greatest magnitude in the interval.
    pub fn most(&self) -> u128
        ensures value { result ≡ most_of self.now }
        ensures bound { result ≤ 2 ^ 126 }
    {
        self.lo.unsigned_abs().max(self.hi.unsigned_abs())
    }

    /// The interval of all sums.
    pub fn add(self, o: Iv) -> Iv
        requires { most_of self + most_of o ≤ 2 ^ 126 }
        ensures ends { result ≡ sum_of self o }
        ensures holds { (x y : ℤ) → Has self x → Has o y → Has result (x +ℤ y) }
    {
        Iv {
            lo: plus(self.lo, o.lo),
            hi: plus(self.hi, o.hi),
        }
    }

    /// The interval of all differences.
    pub fn sub(self, o: Iv) -> Iv
        requires { most_of self + most_of o ≤ 2 ^ 126 }
        ensures ends { result ≡ difference_of self o }
        ensures holds { (x y : ℤ) → Has self x → Has o y → Has result (x -ℤ y) }
    {
        Iv {
            lo: minus(self.lo, o.hi),
            hi: minus(self.hi, o.lo),
        }
    }

    /// The least interval that holds all products.
    pub fn mul(self, o: Iv) -> Iv
        requires { most_of self * most_of o ≤ 2 ^ 126 }
        ensures ends { result ≡ product_of self o }
        ensures holds { (x y : ℤ) → Has self x → Has o y → Has result (x *ℤ y) }
        ensures least { (z : Interval) → ((x y : ℤ) → Has self x → Has o y → Has z (x *ℤ y))
            → IsWithin result z }
    {
        let a = times(self.lo, o.lo);
        let b = times(self.lo, o.hi);
        let c = times(self.hi, o.lo);
        let d = times(self.hi, o.hi);
        around(a, b, c, d)
    }

    /// Whether the other interval holds this one.
    pub fn inside(&self, o: &Iv) -> bool
        ensures { IsTrue result ↔ IsWithin self.now o.now }
    {
        o.lo <= self.lo && self.hi <= o.hi
    }

    /// What both intervals hold, or none where they share no number.
    pub fn meet(self, o: Iv) -> Option<Iv>
        ensures none { IsNone result ↔ ShareNone self o }
        ensures ends { IfSome result (λ iv. iv ≡ meet_of self o) }
        ensures ordered { IfSome result IsOrdered }
        ensures shared { IfSome result (λ iv. (v : ℤ) → Has iv v ↔ (Has self v × Has o v)) }
    {
        Iv::of(self.lo.max(o.lo), self.hi.min(o.hi))
    }
}

/// From the least to the greatest of four numbers.
fn around(a: i128, b: i128, c: i128, d: i128) -> Iv
    requires a { unsigned_abs a ≤ 2 ^ 126 }
    requires b { unsigned_abs b ≤ 2 ^ 126 }
    requires c { unsigned_abs c ≤ 2 ^ 126 }
    requires d { unsigned_abs d ≤ 2 ^ 126 }
    ensures { result ≡ around_of a b c d }
{
    Iv {
        lo: least(a, b, c, d),
        hi: greatest(a, b, c, d),
    }
}

fn least(a: i128, b: i128, c: i128, d: i128) -> i128
    ensures { result ≡ least_of a b c d }
{
    a.min(b).min(c.min(d))
}

fn greatest(a: i128, b: i128, c: i128, d: i128) -> i128
    ensures { result ≡ greatest_of a b c d }
{
    a.max(b).max(c.max(d))
}

#[cfg(test)]
mod tests {
    use super::*;
    use std::test::Fail;

    #[test]
    fn operations(rt: HostRuntime) -> Result<(), Fail> {
        let wide = Iv::of(-3, 5).ok_or("ordered")?;
        let narrow = Iv::of(2, 4).ok_or("ordered")?;
        assert_eq!(rt; Iv::of(5, -3), None);
        assert_eq!(rt;
            (wide.lo(), wide.hi(), wide.width(), wide.most()),
            (-3, 5, 8, 5)
        );
        assert_eq!(rt; wide.add(narrow), Iv { lo: -1, hi: 9 });
        assert_eq!(rt; wide.sub(narrow), Iv { lo: -7, hi: 3 });
        assert_eq!(rt; wide.mul(narrow), Iv { lo: -12, hi: 20 });
        assert!(rt; narrow.inside(&wide));
        assert!(rt; !wide.inside(&narrow));
        assert_eq!(rt; wide.meet(narrow), Some(narrow));
        assert_eq!(rt; Iv::exact(7).meet(wide), None);
        Ok(())
    }
}
