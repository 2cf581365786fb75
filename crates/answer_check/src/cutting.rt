//! The segments of the rows of a series.

ghost use Rattle.std.specs.Prelude.{◌≡◌, ◌+◌, ◌<◌, ◌≤◌, ◌^◌, ◌++◌, length, true, IfOk, IfSome, OnOk, option_map};
ghost use Rattle.error_prop.specs.Entries.{Touches};
ghost use Rattle.seg_tree.specs.Linked.{IsLinked};
ghost use Rattle.seg_tree.specs.Trees.{IsTreeOf, value_of};
ghost use Rattle.segment.specs.Measure.{AreReadings};
ghost use Rattle.segment.specs.Shape.{plan};
ghost use Rattle.segment.specs.Tree.{readings_of, IsTreeOver};
ghost use Rattle.descent.specs.Descents.{row_of};
ghost use Rattle.descent.specs.Rows.{segs_of_row, units};
ghost use Rattle.answer_check.specs.Verdict.{nodes_from, nodes_of};
ghost use Rattle.answer_check.specs.Walked.{tree_over, node_over, segs_under, IsOver};

use crate::walking::node_for;
use num_text::Memory;
use seg_tree::{Arena, Tree};
use segment::{Seg, unit};
use std::alloc::Global;

/// Appends the exact segments of readings.
fn push_units(segs: &mut Vec<Seg>, start: u32, readings: &[i32]) -> Result<(), Memory>
    requires few { start + length readings.now ≤ 2 ^ 20 }
    requires small { AreReadings readings.now }
    ensures { OnOk result (segs.new.items ≡ segs.old.items ++ units start readings.now) }
{
    for i in 0..readings.len() {
        let reading = readings[i];
        let seg = unit(reading, start + i as u32);
        segs.push(seg)?;
    }
    Ok(())
}

/// Appends the segments of a row, whose node is at a place: its own, or where it is opened one for each reading.
fn push_row(
    arena: &Arena,
    place: u32,
    row: (u32, u32, bool),
    segs: &mut Vec<Seg>,
) -> Result<(), Memory>
    requires over { IsOver arena.now.nodes place row.0 row.1 }
    requires leaf { row.2 ≡ true → row.1 ≤ 16 }
    requires few { row.0 + row.1 ≤ 2 ^ 20 }
    requires small { AreReadings (readings_of (tree_over arena.now.nodes place row.0 row.1)) }
    ensures { OnOk result (segs.new.items
        ≡ segs.old.items ++ segs_of_row (row_of (node_over arena.now.nodes row place))) }
{
    let node = arena.node(place);
    if row.2 {
        return push_units(segs, row.0, node.below.readings(row.1));
    }
    segs.push(node.seg)?;
    Ok(())
}

/// The segments of rows that are a cut of the tree over `n` readings.
fn cut_segs(
    alloc: Global,
    arena: &Arena,
    root: u32,
    n: u32,
    rows: &[(u32, u32, bool)],
) -> Result<Option<Vec<Seg>>, Memory>
    requires linked { IsLinked arena.now.nodes root (plan 0 n) }
    requires tree { IsTreeOver n (tree_over arena.now.nodes root 0 n) }
    ensures { IfOk result (λ o. option_map segs_under (nodes_from (tree_over arena.now.nodes root 0 n) 0 rows.now)
        ≡ option_map (λ v. v.items) o) }
{
    let mut segs = Vec::new(alloc);
    let mut at = 0;
    for i in 0..rows.len() {
        let row = rows[i];
        if row.0 != at {
            return Ok(None);
        }
        let Some(place) = node_for(arena, root, n, row) else {
            return Ok(None);
        };
        push_row(arena, place, row, &mut segs)?;
        at += row.1;
    }
    if at != n {
        return Ok(None);
    }
    Ok(Some(segs))
}

/// The segments of rows that are a cut of a tree.
pub(crate) fn tree_segs(
    alloc: Global,
    arena: &Arena,
    tree: Tree,
    rows: &[(u32, u32, bool)],
) -> Result<Option<Vec<Seg>>, Memory>
    requires { IsTreeOf arena.now.nodes tree }
    ensures segs { IfOk result (λ o. option_map segs_under (nodes_of (value_of arena.now.nodes tree) rows.now)
        ≡ option_map (λ v. v.items) o) }
    ensures touch { IfOk result (λ o. IfSome o (λ v. Touches v.items)) }
{
    match tree.root {
        Some(root) => cut_segs(alloc, arena, root, tree.n, rows),
        None => {
            if rows.is_empty() {
                return Ok(Some(Vec::new(alloc)));
            }
            Ok(None)
        }
    }
}
