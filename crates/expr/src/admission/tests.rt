use super::{AdmitErr, admit};
use crate::expression::{Bounds, Query, Series};
use crate::facts::Fact;
use crate::name::Name;
use std::test::Fail;

#[test]
fn ranges(rt: HostRuntime) -> Result<(), Fail> {
    let x = Name::of(b"x").ok_or("x")?;
    let facts = [Fact {
        name: x,
        n: 32,
        d: 10,
    }];
    let past = Query::Sum(Series::Base(x), Some(Bounds { l: 0, r: 33 }));
    assert_eq!(rt;
        admit(&past, &facts),
        Err(AdmitErr::Domain {
            sum: 1,
            lo: 0,
            hi: 32
        })
    );
    let nowhere = Query::Sum(
        Series::Const { v: 1, a: 40, b: 30 },
        Some(Bounds { l: 0, r: 1 }),
    );
    assert_eq!(rt;
        admit(&nowhere, &facts),
        Err(AdmitErr::Domain {
            sum: 1,
            lo: 40,
            hi: 40
        })
    );
    let no_positions = Query::Sum(
        Series::Base(x),
        Some(Bounds {
            l: 1 << 40,
            r: 1 << 40,
        }),
    );
    assert_eq!(rt; admit(&no_positions, &facts), Ok(()));
    Ok(())
}

#[test]
fn magnitudes(rt: HostRuntime) -> Result<(), Fail> {
    assert_eq!(rt; admit(&Query::Number(1 << 125), &[]), Ok(()));
    assert_eq!(rt;
        admit(&Query::Number((1 << 125) + 1), &[]),
        Err(AdmitErr::Range(1))
    );
    Ok(())
}

#[test]
fn products(rt: HostRuntime) -> Result<(), Fail> {
    let alloc = rt.alloc();
    let x = Name::of(b"x").ok_or("x")?;
    let facts = [Fact {
        name: x,
        n: 32,
        d: 10,
    }];
    let great = Series::Bare(100_000_000_000_000_000_000_000_000_000_000_000);
    let product = Series::Times(Box::new(alloc, Series::Base(x))?, Box::new(alloc, great)?);
    let sum = Query::Sum(product, None);
    assert_eq!(rt; admit(&sum, &facts), Err(AdmitErr::Range(1)));
    assert_eq!(rt;
        admit(
            &sum,
            &[Fact {
                name: x,
                n: 0,
                d: 0
            }]
        ),
        Ok(())
    );
    assert_eq!(rt; admit(&sum, &[]), Err(AdmitErr::Unknown(x)));
    Ok(())
}

#[test]
fn ranks(rt: HostRuntime) -> Result<(), Fail> {
    let alloc = rt.alloc();
    let x = Name::of(b"x").ok_or("x")?;
    let facts = [Fact {
        name: x,
        n: 32,
        d: 10,
    }];
    let square = Series::Times(
        Box::new(alloc, Series::Base(x))?,
        Box::new(alloc, Series::Base(x))?,
    );
    let cube = Series::Times(Box::new(alloc, square)?, Box::new(alloc, Series::Base(x))?);
    assert_eq!(rt;
        admit(&Query::Sum(cube, None), &facts),
        Err(AdmitErr::Rank(1))
    );
    Ok(())
}

#[test]
fn copies(rt: HostRuntime) -> Result<(), Fail> {
    let alloc = rt.alloc();
    let x = Name::of(b"x").ok_or("x")?;
    let sum = Query::Sum(Series::Base(x), Some(Bounds { l: 0, r: 33 }));
    let product = Query::Mul(Box::new(alloc, Query::Number(7))?, Box::new(alloc, sum)?);
    let copy = product.copy(alloc).map_err(|_| "a copy")?;
    let Query::Mul(p, q) = &copy else {
        return Err(Fail::from("a product"));
    };
    assert!(rt; matches!(&**p, Query::Number(7)));
    assert!(rt;
        matches!(
            &**q,
            Query::Sum(Series::Base(_), Some(Bounds { l: 0, r: 33 }))
        )
    );
    Ok(())
}
