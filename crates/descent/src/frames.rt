//! The segments of a cut as a frame, and what is known of its series.

ghost use Rattle.std.specs.Prelude.{◌≡◌, IfOk};
ghost use Rattle.expr.specs.Facts.{facts_of as facts_by};
ghost use Rattle.descent.specs.Known.{facts_in};
ghost use Rattle.descent.specs.Sound.{CutsAreFrames};

use crate::tables::Table;
use expr::Fact;
use num_text::Memory;
use std::alloc::Global;

/// The segments of a sound cut make a frame for each query that is admitted for what the cut knows.
pub fn cuts_are_frames()
    ensures { CutsAreFrames }
{}

/// What is known of some series.
pub(crate) fn facts_of<I: Copy>(alloc: Global, tables: &[Table<I>]) -> Result<Vec<Fact>, Memory>
    ensures { IfOk result (λ facts. facts_by facts.items ≡ facts_in tables.now) }
{
    let mut facts = Vec::new(alloc);
    for i in 0..tables.len() {
        let Ok(()) = facts.push(tables[i].fact()) else {
            return Err(Memory);
        };
    }
    Ok(facts)
}
