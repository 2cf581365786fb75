ghost use Rattle.std.specs.Prelude.{◌≡◌, length, string_bytes, IfOk};
ghost use Rattle.descent.specs.Sums.{width_of};
ghost use Rattle.query_cli.specs.Asked.{answer_line};

use descent::Answer;
use std::alloc::{AllocError, Global};

fn text_of(
    alloc: Global,
    lo: i128,
    hi: i128,
    width: u128,
    nodes: usize,
    opened: u32,
) -> Result<String, AllocError>
    ensures { IfOk result (λ t. string_bytes t ≡ answer_line lo hi width nodes opened) }
{
    let text = format!(in alloc; "{lo} {hi} {width} {nodes} {opened}\n")?;
    Ok(text)
}

/// The line of an answer.
pub(crate) fn line_of(alloc: Global, answer: &Answer) -> Result<String, AllocError>
    ensures { IfOk result (λ t. string_bytes t
        ≡ answer_line answer.now.iv.lo answer.now.iv.hi (width_of answer.now.iv)
        (length answer.now.cut) answer.now.opened) }
{
    let (lo, hi) = (answer.iv.lo(), answer.iv.hi());
    let width = answer.iv.width();
    let nodes = answer.cut.as_slice().len();
    let text = text_of(alloc, lo, hi, width, nodes, answer.opened)?;
    Ok(text)
}
