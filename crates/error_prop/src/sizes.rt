//! The numbers of a local form that bound what it says of a series, and the weights of its parts.

ghost use Rattle.std.specs.Prelude.{◌≡◌, ◌≤◌, ◌^◌, ◌*◌, ◌+◌, ◌++◌, [], length, pos, ◌↔◌, IsTrue};
ghost use Rattle.segment.specs.Measure.{unit};
ghost use Rattle.bounds.specs.Form.{lift as lift_of};
ghost use Rattle.bounds.specs.Shape.{base_shape, constant_shape, product_shape, sum_shape, times_each};
ghost use Rattle.bounds.specs.Small.{AreSmall, IsSmallProduct};
ghost use Rattle.error_prop.specs.Sizes.{shape_at, weights_of_sum, CanAdd, CanMultiply, IsSize, MissNothing, ProductNeeds, SumNeeds};

use crate::weights::{cost_of_two, weigh};
use segment::Seg;

/// The size of a local form: `x` bounds the magnitude of the value, and `f` that of the estimate, which is in units of
/// 1/16384 to the power of `rank`.
#[derive(Clone, Copy, Drop)]
pub(crate) struct Size {
    pub(crate) x: u128,
    pub(crate) f: u128,
    pub(crate) rank: usize,
}

/// The factor that brings a form of one rank to another.
pub(crate) fn lift(from: usize, to: usize) -> u128
    requires { to ≤ 3 }
    ensures value { result ≡ lift_of from to }
    ensures bound { result ≤ 2 ^ 42 }
    ensures some { 1 ≤ result }
{
    match to.saturating_sub(from) {
        0 => 1,
        1 => 16384,
        2 => 16384 * 16384,
        _ => 16384 * 16384 * 16384,
    }
}

/// The factor of units of a rank.
pub(crate) fn raise(rank: usize) -> u128
    requires { rank ≤ 3 }
    ensures value { result ≡ unit ^ rank }
    ensures bound { result ≤ 2 ^ 42 }
    ensures some { 1 ≤ result }
{
    lift(0, rank)
}

/// A factor as a signed number.
pub(crate) fn signed(k: u128) -> i128
    requires { k ≤ 2 ^ 42 }
    ensures value { result ≡ pos k }
{
    k as i128
}

/// The size of a base, over the segment that it reads.
pub(crate) fn base_size(g: &Seg) -> Size
    ensures { IsSize result (base_shape g.now) }
{
    Size {
        rank: 1,
        x: u128::from(g.d),
        f: u128::from(g.f),
    }
}

/// The size of a constant.
pub(crate) fn constant_size(v: i128) -> Size
    ensures { IsSize result (constant_shape v) }
{
    Size {
        rank: 0,
        x: v.unsigned_abs(),
        f: v.unsigned_abs(),
    }
}

/// The size of a sum.
pub(crate) fn joined(u: &Size, v: &Size) -> Size
    requires { CanAdd u.now v.now }
    ensures { IsSize result (sum_shape (shape_at u.now 0 []) (shape_at v.now 0 [])) }
{
    Size {
        rank: u.rank.max(v.rank),
        x: u.x + v.x,
        f: lift(u.rank, v.rank) * u.f + lift(v.rank, u.rank) * v.f,
    }
}

/// The size of a product.
pub(crate) fn multiplied(u: &Size, v: &Size) -> Size
    requires { CanMultiply u.now v.now }
    ensures { IsSize result (product_shape [] (shape_at u.now 0 []) (shape_at v.now 0 [])) }
{
    Size {
        rank: u.rank + v.rank,
        x: u.x * v.x,
        f: u.f * v.f,
    }
}

/// Whether no segment misses anything.
fn miss_nothing(segs: &[Seg]) -> bool
    ensures { IsTrue result ↔ MissNothing segs.now }
{
    segs.iter().all(|g| g.l == 0)
}

/// The factors of the weights of a product's parts, by the cheaper form; on a tie form A. Over segments that miss
/// nothing both forms cost nothing.
fn factors(u: &Size, us: &[u128], v: &Size, vs: &[u128], segs: &[Seg]) -> (u128, u128)
    requires length { length us.now + length vs.now ≤ length segs.now }
    requires rank_u { u.now.rank ≤ 2 }
    requires rank_v { v.now.rank ≤ 2 }
    requires small { IsSmallProduct (shape_at u.now 0 us.now) (shape_at v.now 0 vs.now) segs.now }
    ensures weights { times_each result.0 us.now ++ times_each result.1 vs.now
        ≡ (product_shape segs.now (shape_at u.now 0 us.now) (shape_at v.now 0 vs.now)).weights }
    ensures small { AreSmall (times_each result.0 us.now ++ times_each result.1 vs.now) }
{
    let raised_u = u.x * raise(u.rank);
    if miss_nothing(segs) {
        return (v.f, raised_u);
    }
    let raised_v = v.x * raise(v.rank);
    let a = cost_of_two(us, v.f, vs, raised_u, segs);
    let b = cost_of_two(us, raised_v, vs, u.f, segs);
    if a <= b {
        (v.f, raised_u)
    } else {
        (raised_v, u.f)
    }
}

/// Brings the weights of a sum's parts to one rank.
#[tactic(auto, using(crate::proofs::Costs::small_left, crate::proofs::Costs::small_right))]
pub(crate) fn weigh_sum(us: &mut [u128], vs: &mut [u128], u: &Size, v: &Size)
    requires { SumNeeds us.old vs.old u.now v.now }
    ensures { us.new ++ vs.new ≡ weights_of_sum u.now v.now us.old vs.old }
{
    weigh(us, lift(u.rank, v.rank));
    weigh(vs, lift(v.rank, u.rank));
}

/// Weighs the parts of a product by the cheaper form.
#[tactic(auto, using(crate::proofs::Costs::small_left, crate::proofs::Costs::small_right))]
pub(crate) fn weigh_product(us: &mut [u128], vs: &mut [u128], u: &Size, v: &Size, segs: &[Seg])
    requires { ProductNeeds us.old vs.old segs.now u.now v.now }
    ensures { us.new ++ vs.new
        ≡ (product_shape segs.now (shape_at u.now 0 us.old) (shape_at v.now 0 vs.old)).weights }
{
    let (left, right) = factors(u, us, v, vs, segs);
    weigh(us, left);
    weigh(vs, right);
}
