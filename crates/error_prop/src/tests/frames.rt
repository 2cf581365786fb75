ghost use Rattle.std.specs.Prelude.{◌≡◌, ◌≤◌, ◌^◌, ◌∷◌, [], codes, map, pos, IfOk, List, None, Some, ℕ};
ghost use Rattle.semantics.specs.Limits.{IsWithinLimits};
ghost use Rattle.semantics.specs.Plain.{IsPlain};
ghost use Rattle.semantics.specs.Term.{bare, base, constant, minus, mul, shift, sum, times};
ghost use Rattle.segment.specs.Measure.{IsSane};
ghost use Rattle.bounds.specs.Cut.{occurrences};
ghost use Rattle.expr.specs.Facts.{facts_of};
ghost use Rattle.expr.specs.Terms.{query_term_of, term_of};
ghost use Rattle.error_prop.specs.Entries.{IsFrame};
ghost use Rattle.error_prop.specs.Places.{flat, occ_of, span_of, IsShort};
ghost use Rattle.error_prop.specs.QueryOver.{IsAsKnown};

use super::{LINE, STEPS, TURNS, ends, product_of};
use crate::{Frame, Local, QueryOut, SumOut, propagate, query_interval, sum_interval};
use expr::{Bounds, Fact, Name, Query, Series, admit};
use pieces::{Occ, Span, refine};
use segment::Seg;
use std::alloc::Global;
use std::test::Fail;

const Q: u128 = 16384;

const Q2: u128 = Q * Q;

/// The mean of nine readings 0 and one 10.
const PEAK: Seg = Seg {
    start: 0,
    len: 10,
    a: 16384,
    b: 0,
    c: 0,
    l: 294912,
    d: 10,
    f: 16384,
};

/// No readings are so: the estimate is no whole number, and nothing is missed.
const NOT_WHOLE: Seg = Seg {
    start: 0,
    len: 1,
    a: 1,
    b: 0,
    c: 0,
    l: 0,
    d: 1,
    f: 1,
};

/// The readings 0, 10, 0, each by itself.
const LOW: Seg = Seg {
    start: 0,
    len: 1,
    a: 0,
    b: 0,
    c: 0,
    l: 0,
    d: 0,
    f: 0,
};

const HIGH: Seg = Seg {
    start: 1,
    len: 1,
    a: 163840,
    b: 0,
    c: 0,
    l: 0,
    d: 10,
    f: 163840,
};

const LAST: Seg = Seg {
    start: 2,
    len: 1,
    a: 0,
    b: 0,
    c: 0,
    l: 0,
    d: 0,
    f: 0,
};

fn x() -> Result<Name, Fail>
    ensures { IfOk result (λ name. name ≡ codes "x") }
{
    let name = Name::of(b"x").ok_or("x")?;
    Ok(name)
}

fn y() -> Result<Name, Fail>
    ensures { IfOk result (λ name. name ≡ codes "y") }
{
    let name = Name::of(b"y").ok_or("y")?;
    Ok(name)
}

/// The root of a first series, and that of the readings 1, 2, 3.
fn roots(alloc: Global, root: Seg) -> Result<Frame, Fail>
    requires { root.start ≡ 0 }
    ensures { IfOk result (λ f. f ≡ record { name = codes "x"; segs = root ∷ [] }
        ∷ record { name = codes "y"; segs = STEPS ∷ [] } ∷ []) }
{
    let mut f = Frame::new(alloc);
    f.begin_series(alloc, x()?)?;
    f.push(root)?;
    f.begin_series(alloc, y()?)?;
    f.push(STEPS)?;
    Ok(f)
}

/// The readings 0, 10, 0, and the root of the readings 1, 2, 3.
fn opened(alloc: Global) -> Result<Frame, Fail>
    ensures { IfOk result (λ f. f ≡ record { name = codes "x"; segs = LOW ∷ HIGH ∷ LAST ∷ [] }
        ∷ record { name = codes "y"; segs = STEPS ∷ [] } ∷ []) }
{
    let mut f = Frame::new(alloc);
    f.begin_series(alloc, x()?)?;
    f.push(LOW)?;
    f.push(HIGH)?;
    f.push(LAST)?;
    f.begin_series(alloc, y()?)?;
    f.push(STEPS)?;
    Ok(f)
}

/// What is known of both series where the first has `n` readings of 10 at most.
fn facts(n: u32) -> Result<[Fact; 2], Fail>
    ensures { IfOk result (λ facts. facts_of facts ≡ record { name = codes "x"; count = n; greatest = 10 }
        ∷ record { name = codes "y"; count = 3; greatest = 3 } ∷ []) }
{
    let x = x()?;
    let y = y()?;
    Ok([
        Fact { name: x, n, d: 10 },
        Fact {
            name: y,
            n: 3,
            d: 3,
        },
    ])
}

/// What a frame says of a sum that is admitted over it.
fn summed(
    alloc: Global,
    t: &Series,
    l: i64,
    r: i64,
    f: &Frame,
    facts: &[Fact],
) -> Result<SumOut, Fail>
    requires limits { IsWithinLimits (sum (term_of t.now) (Some (record { left = l; right = r }))) }
    requires short { IsShort f.now }
    requires known { (name : List ℕ) → IsAsKnown (facts_of facts.now) f.now name }
{
    let q = Query::Sum(t.copy(alloc)?, Some(Bounds { l, r }));
    admit(&q, facts)?;
    let out = sum_interval(alloc, t, l, r, f)?;
    Ok(out)
}

/// What the roots of two series say of a sum.
fn summed_by_roots(alloc: Global, t: &Series, l: i64, r: i64, root: Seg) -> Result<SumOut, Fail>
    requires limits { IsWithinLimits (sum (term_of t.now) (Some (record { left = l; right = r }))) }
    requires start { root.start ≡ 0 }
    requires few { root.len ≤ 2 ^ 20 }
    requires sane { IsSane root 10 }
{
    let f = roots(alloc, root)?;
    let facts = facts(root.len)?;
    let out = summed(alloc, t, l, r, &f, &facts)?;
    Ok(out)
}

/// What the readings 0, 10, 0 say of a sum, with the root of the readings 1, 2, 3.
fn summed_opened(alloc: Global, t: &Series, l: i64, r: i64) -> Result<SumOut, Fail>
    requires limits { IsWithinLimits (sum (term_of t.now) (Some (record { left = l; right = r }))) }
{
    let f = opened(alloc)?;
    let facts = facts(3)?;
    let out = summed(alloc, t, l, r, &f, &facts)?;
    Ok(out)
}

/// A series times itself, one position later.
fn lagged(alloc: Global) -> Result<Series, Fail>
    ensures { IfOk result (λ t. term_of t ≡ times (base (codes "x")) (shift (base (codes "x")) (pos 1))) }
{
    let x = x()?;
    let later = Series::Shift(Box::new(alloc, Series::Base(x))?, 1);
    Ok(Series::Times(Box::new(alloc, Series::Base(x))?, Box::new(alloc, later)?))
}

/// That, less the series three positions later.
fn lagged_twice(alloc: Global) -> Result<Series, Fail>
    ensures { IfOk result (λ t. term_of t
        ≡ minus (times (base (codes "x")) (shift (base (codes "x")) (pos 1))) (shift (base (codes "x")) (pos 3))) }
{
    let product = lagged(alloc)?;
    let later = Series::Shift(Box::new(alloc, Series::Base(x()?))?, 3);
    Ok(Series::Minus(Box::new(alloc, product)?, Box::new(alloc, later)?))
}

/// Three times a series.
fn tripled(alloc: Global) -> Result<Series, Fail>
    ensures { IfOk result (λ t. term_of t ≡ times (bare (pos 3)) (base (codes "x"))) }
{
    Ok(Series::Times(
        Box::new(alloc, Series::Bare(3))?,
        Box::new(alloc, Series::Base(x()?))?,
    ))
}

/// A product of both series.
fn product(alloc: Global) -> Result<Series, Fail>
    ensures { IfOk result (λ t. term_of t ≡ times (base (codes "x")) (base (codes "y"))) }
{
    let t = product_of(alloc, x()?, y()?)?;
    Ok(t)
}

/// The estimate, the error and the ends of the interval of a sum.
fn told(out: &SumOut) -> (i128, u128, Option<(i128, i128)>) {
    (out.est, out.err, ends(out.iv))
}

#[test]
fn sums_by_one_root(rt: HostRuntime) -> Result<(), Fail> {
    let alloc = rt.alloc();

    let t = lagged(alloc)?;
    let out = summed_by_roots(alloc, &t, 1, 32, TURNS)?;
    assert_eq!(rt;
        told(&out),
        (208037478400, 644245094400, Some((-1625, 3175)))
    );
    assert_eq!(rt; out.charges.as_slice(), [2400 * Q2, 0].as_slice());

    // no position
    let out = summed_by_roots(alloc, &t, 0, 0, TURNS)?;
    assert_eq!(rt; told(&out), (0, 0, Some((0, 0))));
    assert_eq!(rt; out.charges.as_slice(), [0, 0].as_slice());

    // along a line that misses nothing: 2 * 1 and 3 * 2
    let out = summed_by_roots(alloc, &t, 1, 3, LINE)?;
    assert_eq!(rt; told(&out), (2147483648, 0, Some((8, 8))));
    assert_eq!(rt; out.charges.as_slice(), [0, 0].as_slice());

    // one root three times: 25 less 5 at each of 29 positions, and 160 misses more, in the units of the product
    let t = lagged_twice(alloc)?;
    let out = summed_by_roots(alloc, &t, 3, 32, TURNS)?;
    assert_eq!(rt;
        told(&out),
        (155692564480, 687194767360, Some((-1980, 3140)))
    );
    assert_eq!(rt; out.charges.as_slice(), [2560 * Q2, 0].as_slice());
    Ok(())
}

#[test]
fn sums_of_other_ranks(rt: HostRuntime) -> Result<(), Fail> {
    let alloc = rt.alloc();

    let t = tripled(alloc)?;
    let out = summed_by_roots(alloc, &t, 0, 32, TURNS)?;
    assert_eq!(rt; told(&out), (7864320, 7864320, Some((0, 960))));
    assert_eq!(rt; out.charges.as_slice(), [480 * Q, 0].as_slice());

    // rank 0
    let t = Series::Const { v: 5, a: 0, b: 32 };
    let out = summed_by_roots(alloc, &t, 0, 32, TURNS)?;
    assert_eq!(rt; told(&out), (160, 0, Some((160, 160))));
    assert_eq!(rt; out.charges.as_slice(), [0, 0].as_slice());

    // no readings are so
    let t = Series::Base(x()?);
    let out = summed_by_roots(alloc, &t, 0, 1, NOT_WHOLE)?;
    assert_eq!(rt; told(&out), (1, 0, None));
    Ok(())
}

#[test]
fn products_of_two_series(rt: HostRuntime) -> Result<(), Fail> {
    let alloc = rt.alloc();

    // form A: 160 misses by 2, and 2 by 10
    let t = product(alloc)?;
    let out = summed_by_roots(alloc, &t, 0, 3, TURNS)?;
    assert_eq!(rt; told(&out), (8053063680, 91268055040, Some((-310, 370))));
    assert_eq!(rt; out.charges.as_slice(), [320 * Q2, 20 * Q2].as_slice());

    // the greatest of the weights 0, 10 and 0, not the last
    let out = summed_opened(alloc, &t, 0, 3)?;
    assert_eq!(rt; told(&out), (5368709120, 5368709120, Some((0, 40))));
    assert_eq!(rt; out.charges.as_slice(), [0, 0, 0, 20 * Q2].as_slice());

    // nine readings 0 and one 10, squared
    let t = product_of(alloc, x()?, x()?)?;
    let out = summed_by_roots(alloc, &t, 0, 10, PEAK)?;
    assert_eq!(rt; told(&out), (2684354560, 53150220288, Some((-188, 208))));
    assert_eq!(rt; out.charges.as_slice(), [198 * Q2, 0].as_slice());
    Ok(())
}

/// The interval of a query over the roots of two series, where it is admitted.
fn queried(alloc: Global, q: &Query, root: Seg) -> Result<QueryOut, Fail>
    requires plain { IsPlain (query_term_of q.now) }
    requires limits { IsWithinLimits (query_term_of q.now) }
    requires start { root.start ≡ 0 }
    requires few { root.len ≤ 2 ^ 20 }
    requires sane { IsSane root 10 }
{
    let f = roots(alloc, root)?;
    let facts = facts(root.len)?;
    admit(q, &facts)?;
    let out = query_interval(alloc, q, &f)?;
    Ok(out)
}

/// The product of the sum of a whole series with itself.
fn whole_squared(alloc: Global) -> Result<Query, Fail>
    ensures { IfOk result (λ q. query_term_of q ≡ mul (sum (base (codes "x")) None) (sum (base (codes "x")) None)) }
{
    let x = x()?;
    Ok(Query::Mul(
        Box::new(alloc, Query::Sum(Series::Base(x), None))?,
        Box::new(alloc, Query::Sum(Series::Base(x), None))?,
    ))
}

/// The sum of a whole series less 5.
fn whole_less(alloc: Global) -> Result<Query, Fail>
    ensures { IfOk result (λ q. query_term_of q
        ≡ sum (minus (base (codes "x")) (constant (pos 5) (pos 0) (pos 32))) None) }
{
    let five = Series::Const { v: 5, a: 0, b: 32 };
    let less = Series::Minus(Box::new(alloc, Series::Base(x()?))?, Box::new(alloc, five)?);
    Ok(Query::Sum(less, None))
}

#[test]
fn queries_over_frames(rt: HostRuntime) -> Result<(), Fail> {
    let alloc = rt.alloc();

    let q = whole_squared(alloc)?;
    let out = queried(alloc, &q, TURNS)?;
    assert_eq!(rt; ends(out.iv), Some((0, 102400)));
    let lines = out.sums.as_slice();
    assert_eq!(rt; lines.len(), 2);
    for line in lines {
        assert_eq!(rt; (line.rank, line.err, line.sensitivity), (1, 2621440, 320));
        assert_eq!(rt; ends(line.iv), Some((0, 320)));
    }

    // no readings are so, and no sum counts
    let out = queried(alloc, &q, NOT_WHOLE)?;
    assert_eq!(rt; ends(out.iv), None);
    for line in out.sums.as_slice() {
        assert_eq!(rt; line.sensitivity, 0);
    }

    let q = whole_less(alloc)?;
    let out = queried(alloc, &q, TURNS)?;
    assert_eq!(rt; ends(out.iv), Some((-160, 160)));
    Ok(())
}

/// The forms of a series on the pieces of a range, over a frame that admits its sum there.
fn forms_over(
    alloc: Global,
    t: &Series,
    l: i64,
    r: i64,
    f: &Frame,
    facts: &[Fact],
    spans: &[Span],
    occs: &[Occ],
) -> Result<Vec<Local>, Fail>
    requires limits { IsWithinLimits (sum (term_of t.now) (Some (record { left = l; right = r }))) }
    requires frame { IsFrame f.now }
    requires short { IsShort f.now }
    requires known { (name : List ℕ) → IsAsKnown (facts_of facts.now) f.now name }
    requires spans { spans.now ≡ map span_of (flat f.now) }
    requires occs { occs.now ≡ map (occ_of f.now) (occurrences (term_of t.now) (pos 0)) }
{
    let q = Query::Sum(t.copy(alloc)?, Some(Bounds { l, r }));
    admit(&q, facts)?;
    let pieces = refine(alloc, spans, occs, l, r)?;
    let mut forms = Vec::new(alloc);
    for k in 0..pieces.count() {
        forms.push(propagate(alloc, t, f, &pieces, k)?)?;
    }
    Ok(forms)
}

/// Those of a series times itself, one position later, along the line through the readings 1, 2, 3.
fn forms_on_a_line(alloc: Global) -> Result<Vec<Local>, Fail> {
    let t = lagged(alloc)?;
    let f = roots(alloc, LINE)?;
    let facts = facts(3)?;
    let spans = [Span { start: 0, len: 3 }, Span { start: 0, len: 3 }];
    let occs = [
        Occ {
            from: 0,
            to: 1,
            shift: 0,
        },
        Occ {
            from: 0,
            to: 1,
            shift: 1,
        },
    ];
    let forms = forms_over(alloc, &t, 1, 3, &f, &facts, &spans, &occs)?;
    Ok(forms)
}

/// Those of the readings 0, 10, 0 times the root of the readings 1, 2, 3.
fn forms_opened(alloc: Global) -> Result<Vec<Local>, Fail> {
    let t = product(alloc)?;
    let f = opened(alloc)?;
    let facts = facts(3)?;
    let spans = [
        Span { start: 0, len: 1 },
        Span { start: 1, len: 1 },
        Span { start: 2, len: 1 },
        Span { start: 0, len: 3 },
    ];
    let occs = [
        Occ {
            from: 0,
            to: 3,
            shift: 0,
        },
        Occ {
            from: 3,
            to: 4,
            shift: 0,
        },
    ];
    let forms = forms_over(alloc, &t, 0, 3, &f, &facts, &spans, &occs)?;
    Ok(forms)
}

#[test]
fn forms_over_frames(rt: HostRuntime) -> Result<(), Fail> {
    // from the second position on (2 + j) * (1 + j)
    let forms = forms_on_a_line(rt.alloc())?;
    assert_eq!(rt; forms.len(), 1);
    let form = &forms[0];
    assert_eq!(rt; form.rank, 2);
    assert_eq!(rt;
        (form.poly.c[0], form.poly.c[1], form.poly.c[2]),
        (536870912, 805306368, 268435456)
    );
    assert_eq!(rt; (form.x, form.f), (9, 2415919104));
    assert_eq!(rt; form.weights.as_slice(), [3 * Q, 3 * Q].as_slice());

    // the readings weigh the root's misses
    let forms = forms_opened(rt.alloc())?;
    assert_eq!(rt; forms.len(), 3);
    for (form, (estimate, weight)) in forms.iter().zip([(0, 0), (5368709120, 163840), (0, 0)]) {
        assert_eq!(rt; (form.rank, form.poly.c[0]), (2, estimate));
        assert_eq!(rt; form.weights.as_slice(), [2 * Q, weight].as_slice());
    }
    Ok(())
}
