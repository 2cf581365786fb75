ghost use Rattle.std.specs.Prelude.{◌≡◌, ◌≤◌, ◌+◌, ◌^◌, unsigned_abs, pos, IfOk, Some};
ghost use Rattle.semantics.specs.Term.{base, times, sum, mul};
ghost use Rattle.expr.specs.Terms.{query_term_of, term_of};

mod frames;

use super::*;
use expr::{Bounds, Fact, Name, Query, Series, admit};
use interval::Iv;
use segment::Seg;
use std::alloc::Global;
use std::test::Fail;

/// The mean of 32 readings, 0 and 10 in turn.
const TURNS: Seg = Seg {
    start: 0,
    len: 32,
    a: 81920,
    b: 0,
    c: 0,
    l: 2621440,
    d: 10,
    f: 81920,
};

/// The mean of the readings 1, 2, 3.
const STEPS: Seg = Seg {
    start: 0,
    len: 3,
    a: 32768,
    b: 0,
    c: 0,
    l: 32768,
    d: 3,
    f: 32768,
};

/// The line through the readings 1, 2, 3.
const LINE: Seg = Seg {
    start: 0,
    len: 3,
    a: 16384,
    b: 16384,
    c: 0,
    l: 0,
    d: 3,
    f: 49152,
};

fn sum_in(est: u32, err: u32) -> SumIn
    ensures { unsigned_abs result.est + result.err ≤ 2 ^ 41 }
{
    SumIn {
        est: i128::from(est),
        err: u128::from(err),
    }
}

/// The product of the sum of a series with itself, over the first 2^20 positions.
fn squared_sum(alloc: Global, x: Name) -> Result<Query, Fail>
    ensures { IfOk result (λ q. query_term_of q
        ≡ mul (sum (base x) (Some (record { left = pos 0; right = pos 1048576 })))
        (sum (base x) (Some (record { left = pos 0; right = pos 1048576 })))) }
{
    let all = Bounds { l: 0, r: 1_048_576 };
    let left = Query::Sum(Series::Base(x), Some(all));
    let right = Query::Sum(Series::Base(x), Some(all));
    Ok(Query::Mul(Box::new(alloc, left)?, Box::new(alloc, right)?))
}

/// What it comes to over these estimates and errors of both sums.
fn combined(alloc: Global, x: Name, left: (u32, u32), right: (u32, u32)) -> Result<QueryOut, Fail> {
    let q = squared_sum(alloc, x)?;
    admit(
        &q,
        &[Fact {
            name: x,
            n: 1_048_576,
            d: 10,
        }],
    )?;
    let sums = [sum_in(left.0, left.1), sum_in(right.0, right.1)];
    let out = combine(alloc, &q, &sums)?;
    Ok(out)
}

fn ends(iv: Option<Iv>) -> Option<(i128, i128)> {
    match iv {
        Some(iv) => Some((iv.lo(), iv.hi())),
        None => None,
    }
}

#[test]
fn queries(rt: HostRuntime) -> Result<(), Fail> {
    let x = Name::of(b"x").ok_or("x")?;
    for (left, right, iv, sensitivities) in [
        // [0, 320] by itself
        (
            (2621440, 2621440),
            (2621440, 2621440),
            Some((0, 102400)),
            (320, 320),
        ),
        // [0, 320] by [-8, 28]
        (
            (2621440, 2621440),
            (163840, 294912),
            Some((-2560, 8960)),
            (28, 320),
        ),
        // ends that are not whole move inward: [-1, 2] by [10, 10]
        ((5, 32768), (163840, 16383), Some((-10, 20)), (10, 2)),
        // no whole number is near enough
        ((1, 0), (163840, 0), None, (0, 0)),
    ] {
        let out = combined(rt.alloc(), x, left, right)?;
        assert_eq!(rt; ends(out.iv), iv);
        let lines = out.sums.as_slice();
        assert_eq!(rt; lines.len(), 2);
        assert_eq!(rt; (lines[0].rank, lines[1].rank), (1, 1));
        assert_eq!(rt;
            (lines[0].err, lines[1].err),
            (u128::from(left.1), u128::from(right.1))
        );
        assert_eq!(rt; (lines[0].sensitivity, lines[1].sensitivity), sensitivities);
    }
    Ok(())
}

fn product_of(alloc: Global, x: Name, y: Name) -> Result<Series, Fail>
    ensures { IfOk result (λ t. term_of t ≡ times (base x) (base y)) }
{
    Ok(Series::Times(
        Box::new(alloc, Series::Base(x))?,
        Box::new(alloc, Series::Base(y))?,
    ))
}

/// The form of a product at the first three positions.
fn product_form(alloc: Global, x: Name, y: Name) -> Result<Local, Fail> {
    let product = product_of(alloc, x, y)?;
    let form = local_form(alloc, &product, 0, 3, &[TURNS, STEPS])?;
    Ok(form)
}

/// The form of a stored series at two positions, from the second on.
fn line_form(alloc: Global, x: Name) -> Result<Local, Fail> {
    let series = Series::Base(x);
    let form = local_form(alloc, &series, 1, 2, &[LINE])?;
    Ok(form)
}

/// The estimate of a product at the third position, and the weights of its names.
fn product_at(alloc: Global, x: Name, y: Name) -> Result<(i128, u128, u128), Fail> {
    let product = product_of(alloc, x, y)?;
    let mut weights = [0u128; 2];
    let estimate = estimate_at(&mut weights, &product, 2, &[TURNS, STEPS]);
    Ok((estimate, weights[0], weights[1]))
}

/// The estimate of a stored series at the third position, and its weight.
fn line_at(x: Name) -> (i128, u128) {
    let series = Series::Base(x);
    let mut weights = [0u128; 1];
    let estimate = estimate_at(&mut weights, &series, 2, &[LINE]);
    (estimate, weights[0])
}

#[test]
fn forms(rt: HostRuntime) -> Result<(), Fail> {
    let x = Name::of(b"x").ok_or("x")?;
    let y = Name::of(b"y").ok_or("y")?;

    let line = line_form(rt.alloc(), x)?;
    assert_eq!(rt; line.rank, 1);
    assert_eq!(rt;
        (line.poly.c[0], line.poly.c[1], line.poly.c[2]),
        (32768, 16384, 0)
    );
    assert_eq!(rt; (line.x, line.f), (3, 49152));
    assert_eq!(rt; line.weights.as_slice(), [1].as_slice());

    // the estimates 5 and 2: form A weighs 160 by 2 and 2 by 10, where form B weighs 160 by 3 and 2 by 5
    let product = product_form(rt.alloc(), x, y)?;
    assert_eq!(rt; product.rank, 2);
    assert_eq!(rt;
        (product.poly.c[0], product.poly.c[1], product.poly.c[2]),
        (2684354560, 0, 0)
    );
    assert_eq!(rt; (product.x, product.f), (30, 2684354560));
    assert_eq!(rt; product.weights.as_slice(), [32768, 163840].as_slice());

    // the same at one position
    assert_eq!(rt; line_at(x), (49152, 1));
    assert_eq!(rt; product_at(rt.alloc(), x, y)?, (2684354560, 32768, 163840));
    Ok(())
}
