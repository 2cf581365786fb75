ghost use Rattle.std.specs.Prelude.{◌≡◌, ◌+◌, ◌-◌, ◌*◌, ◌/◌, ◌^◌, ◌<◌, ◌≤◌, length, map, take, Some};
ghost use Rattle.segment.specs.Fit.{readings_in};
ghost use Rattle.segment.specs.Growth.{behind, kept_or_fit, made, tree_by};
ghost use Rattle.segment.specs.Measure.{AreReadings};
ghost use Rattle.segment.specs.Shape.{plan, ranges, shape};
ghost use Rattle.segment.specs.Tree.{SegTree, segs_of, all_readings, all_segs};
ghost use Rattle.seg_tree.specs.Grown.{IsOldPart, told_series};
ghost use Rattle.seg_tree.specs.Linked.{Extends, Holds, IsLinked, used};
ghost use Rattle.seg_tree.specs.Trees.{IsTreeAt, IsTreeOf, value_at, value_of};

use crate::building::add_nodes;
use crate::nodes::{block, nodes_for};
use crate::places::Places;
use crate::{Below, Node, Tree};
use segment::{fit, split};

/// How many nodes of the tree over `new` readings the tree over `old` lacks.
pub(crate) fn nodes_made(old: u32, new: u32) -> u32
    requires more { old ≤ new }
    requires few { new ≤ 2 ^ 20 }
    ensures value { result ≡ made old new }
    ensures bound { result ≤ 2 ^ 17 }
{
    if new == 0 {
        return 0;
    }
    if old == 0 {
        return nodes_for(new);
    }
    nodes_behind(old, 0, new)
}

/// How many of the nodes over `len` readings from `start` on end behind the first `old` ones.
fn nodes_behind(old: u32, start: u32, len: u32) -> u32
    requires from { start < old }
    requires some { 0 < len }
    requires few { start + len ≤ 2 ^ 20 }
    ensures value { result ≡ behind old (ranges (plan start len)) }
    ensures bound { result + 1 ≤ 2 * ((len + 15) / 16) }
{
    if start + len <= old {
        return 0;
    }
    match split(len) {
        None => 1,
        Some(s) => {
            if old <= start + s {
                1 + nodes_behind(old, start, s) + nodes_for(len - s)
            } else {
                1 + nodes_behind(old, start + s, len - s)
            }
        }
    }
}

/// Adds the nodes that the tree over the first `old` readings lacks, of those over `len` readings from `start` on.
/// The old tree's node from `start` on stands at `place`.
pub(crate) fn grow_nodes(
    nodes: &mut Places,
    place: u32,
    old: u32,
    xs: &[i32],
    start: u32,
    len: u32,
    degree: u8,
) -> u32
    requires from { start < old }
    requires to { old ≤ start + len }
    requires inside { start + len ≤ length xs.now }
    requires few { length xs.now ≤ 2 ^ 20 }
    requires small { AreReadings xs.now }
    requires degree { degree ≤ 2 }
    requires linked { IsLinked nodes.old.nodes place (plan start (old - start)) }
    requires room { used nodes.old.nodes + behind old (ranges (plan start len)) ≤ 2 ^ 24 }
    requires spare { behind old (ranges (plan start len)) ≤ nodes.old.spare }
    ensures extends { Extends nodes.old.nodes nodes.new.nodes }
    ensures count { used nodes.new.nodes ≡ used nodes.old.nodes + behind old (ranges (plan start len)) }
    ensures spare { nodes.new.spare + behind old (ranges (plan start len)) ≡ nodes.old.spare }
    ensures holds { (t : SegTree) → IsOldPart nodes.old.nodes place start old xs.now t
        → Holds nodes.new.nodes result (plan start len)
        (tree_by (kept_or_fit degree xs.now (segs_of t)) (plan start len)
        (readings_in xs.now (record { start = start; len = len }))) }
{
    if start + len == old {
        return place;
    }
    let own = &xs[start as usize..(start + len) as usize];
    let seg = fit(own, start, degree);
    match split(len) {
        None => {
            let leaf = nodes.put(Node {
                seg,
                below: Below::Readings(block(own)),
            });
            leaf
        }
        Some(s) => {
            if old <= start + s {
                let left = grow_nodes(nodes, place, old, xs, start, s, degree);
                let behind = &xs[(start + s) as usize..(start + len) as usize];
                let right = add_nodes(nodes, behind, start + s, degree);
                let fork = nodes.put(Node {
                    seg,
                    below: Below::Children(left, right),
                });
                fork
            } else {
                let (left, rest) = nodes.node(place).below.children();
                let right = grow_nodes(nodes, rest, old, xs, start + s, len - s, degree);
                let fork = nodes.put(Node {
                    seg,
                    below: Below::Children(left, right),
                });
                fork
            }
        }
    }
}

/// Adds the nodes that the tree over all of these readings lacks, of which a tree has the first `old`.
pub(crate) fn grow_tree(nodes: &mut Places, root: u32, old: u32, xs: &[i32], degree: u8) -> Tree
    requires more { old ≤ length xs.now }
    requires few { length xs.now ≤ 2 ^ 20 }
    requires small { AreReadings xs.now }
    requires degree { degree ≤ 2 }
    requires tree { IsTreeAt nodes.old.nodes (Some root) old }
    requires front { take old xs.now ≡ all_readings (value_at nodes.old.nodes (Some root) old) }
    requires room { used nodes.old.nodes + made old (length xs.now) ≤ 2 ^ 24 }
    requires spare { made old (length xs.now) ≤ nodes.old.spare }
    ensures tree { IsTreeOf nodes.new.nodes result }
    ensures len { result.n ≡ length xs.now }
    ensures told { value_of nodes.new.nodes result
        ≡ told_series (kept_or_fit degree xs.now (all_segs (value_at nodes.old.nodes (Some root) old))) xs.now }
    ensures readings { all_readings (value_of nodes.new.nodes result) ≡ xs.now }
    ensures segs { all_segs (value_of nodes.new.nodes result)
        ≡ map (kept_or_fit degree xs.now (all_segs (value_at nodes.old.nodes (Some root) old)))
        (shape (length xs.now)) }
    ensures extends { Extends nodes.old.nodes nodes.new.nodes }
    ensures count { used nodes.new.nodes ≡ used nodes.old.nodes + made old (length xs.now) }
{
    let n = xs.len() as u32;
    let grown = grow_nodes(nodes, root, old, xs, 0, n, degree);
    Tree {
        root: Some(grown),
        n,
    }
}
