use crate::expand;
use expr_parse::{parse, print};
use std::test::Fail;

#[test]
fn plain_texts(rt: HostRuntime) -> Result<(), Fail> {
    let alloc = rt.alloc();
    for (text, want) in [
        (
            "varnum(x+y,0,32)",
            "32*sum((x+y)*(x+y),0,32)-sum(x+y,0,32)*sum(x+y,0,32)",
        ),
        (
            "covnum(x,shift(x,1),1,9)",
            "8*sum(x*shift(x,1),1,9)-sum(x,1,9)*sum(shift(x,1),1,9)",
        ),
        (
            "2*varnum(x,7,7)+sum(x)",
            "2*(0*sum(x*x,7,7)-sum(x,7,7)*sum(x,7,7))+sum(x)",
        ),
        (
            "3-varnum(x,5,2)",
            "3-(-3*sum(x*x,5,2)-sum(x,5,2)*sum(x,5,2))",
        ),
    ] {
        let query = parse(alloc, text.as_bytes()).map_err(|_| "parse")?;
        let plain = expand(alloc, &query).map_err(|_| "expand")?;
        let printed = print(alloc, &plain).map_err(|_| "print")?;
        assert_eq!(rt; printed.as_slice(), want.as_bytes());
    }
    Ok(())
}
