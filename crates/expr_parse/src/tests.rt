use crate::{Kind, ParseErr, Token, parse, print, tokens};
use std::test::Fail;

#[test]
fn spans(rt: HostRuntime) -> Result<(), Fail> {
    let found = tokens(rt.alloc(), b"sum(x_1, 12)").map_err(|_| "tokens")?;
    let want = [
        (Kind::Word, 0, 3),
        (Kind::Sign, 3, 4),
        (Kind::Word, 4, 7),
        (Kind::Sign, 7, 8),
        (Kind::Number, 9, 11),
        (Kind::Sign, 11, 12),
    ];
    assert_eq!(rt; found.len(), want.len());
    for (token, (kind, from, to)) in found.iter().zip(want) {
        assert_eq!(rt; *token, Token { kind, from, to });
    }
    assert!(rt; tokens(rt.alloc(), b"1;") == Err(ParseErr::At(1)));
    Ok(())
}

#[test]
fn refusals(rt: HostRuntime) -> Result<(), Fail> {
    let alloc = rt.alloc();
    for (text, want) in [
        ("", ParseErr::At(0)),
        ("1 2", ParseErr::At(2)),
        ("1+", ParseErr::At(2)),
        ("-(1)", ParseErr::At(1)),
        ("x", ParseErr::At(0)),
        ("sum(x", ParseErr::At(5)),
        ("sum(x,0)", ParseErr::At(7)),
        ("sum(x))", ParseErr::At(6)),
        ("sum(,", ParseErr::At(4)),
        ("sum(x,0,", ParseErr::At(8)),
        ("sum(sum)", ParseErr::At(4)),
        ("1 + $", ParseErr::At(4)),
        ("sum(aaaaaaaaaaaaaaaaaaaaaaaaaaaaaaaaa)", ParseErr::At(4)),
        ("170141183460469231731687303715884105728", ParseErr::At(0)),
        ("sum(x,0,1099511627777)", ParseErr::At(8)),
        ("sum(shift(x,-1099511627777))", ParseErr::At(13)),
        (
            "(((((((((((((((((((((((((((((((((((((((((((((((((((((((((((((((((1))))))))))))))))))))))))\
             )))))))))))))))))))))))))))))))))))))))))",
            ParseErr::TooDeep,
        ),
        (
            "1+1+1+1+1+1+1+1+1+1+1+1+1+1+1+1+1+1+1+1+1+1+1+1+1+1+1+1+1+1+1+1+1+1+1+1+1+1+1+1+1+1+1+1+1+\
             1+1+1+1+1+1+1+1+1+1+1+1+1+1+1+1+1+1+1+1",
            ParseErr::TooDeep,
        ),
        (
            "sum(x)+sum(x)+sum(x)+sum(x)+sum(x)+sum(x)+sum(x)+sum(x)+sum(x)+sum(x)+sum(x)+sum(x)+\
             sum(x)+sum(x)+sum(x)+sum(x)+sum(x)",
            ParseErr::TooManySums,
        ),
        (
            "varnum(x,0,9)+varnum(x,0,9)+varnum(x,0,9)+varnum(x,0,9)+varnum(x,0,9)+sum(x)+sum(x)",
            ParseErr::TooManySums,
        ),
        (
            "sum(x+x+x+x+x+x+x+x+x+x+x+x+x+x+x+x+x+x+x+x+x+x+x+x+x+x+x+x+x+x+x+x+x)",
            ParseErr::TooManyNames,
        ),
        (
            "varnum(x+x+x+x+x+x+x+x+x+x+x+x+x+x+x+x+x,0,9)",
            ParseErr::TooManyNames,
        ),
        (
            "sum(x+x+x+x+x+x+x+x+x+x+x+x+x+x+x+x+x+x+x+x+x+x+x+x+x+x+x+x+x+x+x+x+x)+\
             sum(x)+sum(x)+sum(x)+sum(x)+sum(x)+sum(x)+sum(x)+sum(x)+\
             sum(x)+sum(x)+sum(x)+sum(x)+sum(x)+sum(x)+sum(x)+sum(x)",
            ParseErr::TooManySums,
        ),
        (
            "sum(x)+sum(x)+sum(x)+sum(x)+sum(x)+sum(x)+sum(x)+sum(x)+sum(x)+\
             sum(x)+sum(x)+sum(x)+sum(x)+sum(x)+sum(x)+sum(x)+sum(x)+\
             1+1+1+1+1+1+1+1+1+1+1+1+1+1+1+1+1+1+1+1+1+1+1+1+1+1+1+1+1+1+1+1+1+1+1+1+1+1+1+1+1+1+1+1+1+1+1+1",
            ParseErr::TooDeep,
        ),
        (
            "(((((((((((((((((((((((((((((((((((((((((((((((((((((((((((((((((",
            ParseErr::TooDeep,
        ),
    ] {
        assert!(rt; parse(alloc, text.as_bytes()).err() == Some(want), "{text}");
    }
    Ok(())
}

#[test]
fn printed(rt: HostRuntime) -> Result<(), Fail> {
    let alloc = rt.alloc();
    for (text, want) in [
        ("2*(3 - 5)", "2*(3-5)"),
        ("(1 - 2) - (sum(x))", "1-2-sum(x)"),
        ("1-(2-3)", "1-(2-3)"),
        ("(2*3)*4+1", "2*3*4+1"),
        ("2*(3*4)", "2*(3*4)"),
        ("1+2*-3", "1+2*-3"),
        ("\t007 -\t-0 ", "7-0"),
        (
            "170141183460469231731687303715884105727",
            "170141183460469231731687303715884105727",
        ),
        (
            "-170141183460469231731687303715884105727",
            "-170141183460469231731687303715884105727",
        ),
        (
            "sum(aaaaaaaaaaaaaaaaaaaaaaaaaaaaaaaa)",
            "sum(aaaaaaaaaaaaaaaaaaaaaaaaaaaaaaaa)",
        ),
        (
            "((((((((((((((((((((((((((((((((((((((((((((((((((((((((((((((((1)))))))))))))))))))))))))\
             )))))))))))))))))))))))))))))))))))))))",
            "1",
        ),
        (
            "1+1+1+1+1+1+1+1+1+1+1+1+1+1+1+1+1+1+1+1+1+1+1+1+1+1+1+1+1+1+1+1+1+1+1+1+1+1+1+1+1+1+1+1+1+\
             1+1+1+1+1+1+1+1+1+1+1+1+1+1+1+1+1+1+1",
            "1+1+1+1+1+1+1+1+1+1+1+1+1+1+1+1+1+1+1+1+1+1+1+1+1+1+1+1+1+1+1+1+1+1+1+1+1+1+1+1+1+1+1+1+1+\
             1+1+1+1+1+1+1+1+1+1+1+1+1+1+1+1+1+1+1",
        ),
        (
            "sum(x)+sum(x)+sum(x)+sum(x)+sum(x)+sum(x)+sum(x)+sum(x)+sum(x)+sum(x)+sum(x)+sum(x)+\
             sum(x)+sum(x)+sum(x)+sum(x)",
            "sum(x)+sum(x)+sum(x)+sum(x)+sum(x)+sum(x)+sum(x)+sum(x)+sum(x)+sum(x)+sum(x)+sum(x)+\
             sum(x)+sum(x)+sum(x)+sum(x)",
        ),
        (
            "sum(shift(x*y-(2+-3),-4),0,-1)",
            "sum(shift(x*y-(2+-3),-4),0,-1)",
        ),
        (
            "varnum(x - const(-1, 0, 2)*y, 0, 9)",
            "varnum(x-const(-1,0,2)*y,0,9)",
        ),
        (
            "covnum((x), 1*(y+z), 0, 1099511627776)",
            "covnum(x,1*(y+z),0,1099511627776)",
        ),
    ] {
        let q = parse(alloc, text.as_bytes()).map_err(|_| "a query")?;
        let printed = print(alloc, &q).map_err(|_| "memory")?;
        assert!(rt; printed.as_slice() == want.as_bytes(), "{text}");
    }
    Ok(())
}

#[test]
fn longest_chain(rt: HostRuntime) -> Result<(), Fail> {
    let alloc = rt.alloc();
    let mut text = Vec::new(alloc);
    text.push(b'1').map_err(|_| "memory")?;
    for _ in 0..2047 {
        text.push(b'+').map_err(|_| "memory")?;
        text.push(b'1').map_err(|_| "memory")?;
    }
    assert!(rt; parse(alloc, text.as_slice()).err() == Some(ParseErr::TooDeep));
    Ok(())
}
