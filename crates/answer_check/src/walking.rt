//! From a row to its node in an arena.

ghost use Rattle.std.specs.Prelude.{◌≡◌, ◌+◌, ◌<◌, ◌≤◌, ◌^◌, ◌==◌, ◌&&◌, true, IfSome, option_map};
ghost use Rattle.answer_check.specs.Verdict.{node_for, part_with};
ghost use Rattle.answer_check.specs.Walked.{tree_over, node_over, IsOver};

use seg_tree::Arena;
use segment::split;

/// Whether a row has this range.
fn has_range(start: u32, len: u32, row: (u32, u32, bool)) -> bool
    ensures { result ≡ ((start == row.0) && (len == row.1)) }
{
    start == row.0 && len == row.1
}

/// The place of the node with the range of a row, in the tree over `len` positions from `start`.
fn place_with(arena: &Arena, place: u32, start: u32, len: u32, row: (u32, u32, bool)) -> Option<u32>
    requires few { start + len ≤ 2 ^ 20 }
    requires some { 0 < len }
    requires over { IsOver arena.now.nodes place start len }
    ensures part { part_with row (tree_over arena.now.nodes place start len)
        ≡ option_map (λ p. tree_over arena.now.nodes p row.0 row.1) result }
    ensures over { IfSome result (λ p. IsOver arena.now.nodes p row.0 row.1) }
    ensures within { IfSome result (λ p. row.0 + row.1 ≤ start + len) }
{
    if has_range(start, len, row) {
        return Some(place);
    }
    match split(len) {
        None => None,
        Some(s) => {
            let (left, right) = arena.node(place).below.children();
            if row.0 < start + s {
                place_with(arena, left, start, s, row)
            } else {
                place_with(arena, right, start + s, len - s, row)
            }
        }
    }
}

/// The place of the node that a row stands for, in the tree over `n` readings. Only a leaf is opened.
pub(crate) fn node_for(arena: &Arena, root: u32, n: u32, row: (u32, u32, bool)) -> Option<u32>
    requires few { n ≤ 2 ^ 20 }
    requires some { 0 < n }
    requires over { IsOver arena.now.nodes root 0 n }
    ensures node { node_for (tree_over arena.now.nodes root 0 n) row
        ≡ option_map (node_over arena.now.nodes row) result }
    ensures part { IfSome result (λ p. part_with row (tree_over arena.now.nodes root 0 n)
        ≡ Some (tree_over arena.now.nodes p row.0 row.1)) }
    ensures over { IfSome result (λ p. IsOver arena.now.nodes p row.0 row.1) }
    ensures within { IfSome result (λ p. row.0 + row.1 ≤ n) }
    ensures leaf { IfSome result (λ p. row.2 ≡ true → row.1 ≤ 16) }
{
    let place = place_with(arena, root, 0, n, row)?;
    if row.2 && row.1 > 16 {
        return None;
    }
    Some(place)
}
