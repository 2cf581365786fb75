ghost use Rattle.std.specs.Prelude.{◌≡◌, ◌+◌, ◌^◌, ◌<◌, ◌≤◌, length, map};
ghost use Rattle.segment.specs.Fit.{fit_over};
ghost use Rattle.segment.specs.Measure.{AreReadings};
ghost use Rattle.segment.specs.Shape.{plan, count, node_count, shape};
ghost use Rattle.segment.specs.Tree.{fits, fitted_series, all_readings, all_segs};
ghost use Rattle.seg_tree.specs.Linked.{Extends, Holds, used};
ghost use Rattle.seg_tree.specs.Trees.{IsTreeOf, value_of};

use crate::nodes::block;
use crate::places::Places;
use crate::{Below, Node, Tree};
use segment::{fit, split};

/// Adds the fitted tree over the readings of a series.
pub(crate) fn add_tree(nodes: &mut Places, xs: &[i32], degree: u8) -> Tree
    requires some { 0 < length xs.now }
    requires few { length xs.now ≤ 2 ^ 20 }
    requires small { AreReadings xs.now }
    requires degree { degree ≤ 2 }
    requires room { used nodes.old.nodes + node_count (length xs.now) ≤ 2 ^ 24 }
    requires spare { node_count (length xs.now) ≤ nodes.old.spare }
    ensures tree { IsTreeOf nodes.new.nodes result }
    ensures len { result.n ≡ length xs.now }
    ensures fitted { value_of nodes.new.nodes result ≡ fitted_series degree xs.now }
    ensures readings { all_readings (value_of nodes.new.nodes result) ≡ xs.now }
    ensures segs { all_segs (value_of nodes.new.nodes result) ≡ map (fit_over degree xs.now) (shape (length xs.now)) }
    ensures extends { Extends nodes.old.nodes nodes.new.nodes }
    ensures count { used nodes.new.nodes ≡ used nodes.old.nodes + node_count (length xs.now) }
{
    let root = add_nodes(nodes, xs, 0, degree);
    Tree {
        root: Some(root),
        n: xs.len() as u32,
    }
}

/// Adds the nodes of the tree over readings that stand from `start` on, each child before its parent.
pub(crate) fn add_nodes(nodes: &mut Places, xs: &[i32], start: u32, degree: u8) -> u32
    requires some { 0 < length xs.now }
    requires few { start + length xs.now ≤ 2 ^ 20 }
    requires small { AreReadings xs.now }
    requires degree { degree ≤ 2 }
    requires room { used nodes.old.nodes + count (plan start (length xs.now)) ≤ 2 ^ 24 }
    requires spare { count (plan start (length xs.now)) ≤ nodes.old.spare }
    ensures extends { Extends nodes.old.nodes nodes.new.nodes }
    ensures count { used nodes.new.nodes ≡ used nodes.old.nodes + count (plan start (length xs.now)) }
    ensures spare { nodes.new.spare + count (plan start (length xs.now)) ≡ nodes.old.spare }
    ensures holds { Holds nodes.new.nodes result (plan start (length xs.now))
        (fits degree (plan start (length xs.now)) xs.now) }
{
    let seg = fit(xs, start, degree);
    match split(seg.len) {
        None => {
            let leaf = nodes.put(Node {
                seg,
                below: Below::Readings(block(xs)),
            });
            leaf
        }
        Some(s) => {
            let (front, back) = xs.split_at(s as usize);
            let left = add_nodes(nodes, front, start, degree);
            let right = add_nodes(nodes, back, start + s, degree);
            let fork = nodes.put(Node {
                seg,
                below: Below::Children(left, right),
            });
            fork
        }
    }
}
