ghost use Rattle.std.specs.Prelude.{◌≡◌, ℕ, ◌+◌, ◌^◌, ◌<◌, ◌≤◌, length, Option};
ghost use Rattle.segment.specs.Shape.{plan, node_count};
ghost use Rattle.segment.specs.Tree.{SegTree};
ghost use Rattle.seg_tree.specs.Adopted.{HaveTree, IsTreeWith, rebuilt};
ghost use Rattle.seg_tree.specs.Linked.{Extends, Holds, used};
ghost use Rattle.seg_tree.specs.Trees.{IsTreeOf, value_of};

use crate::nodes::{block, nodes_for};
use crate::places::Places;
use crate::{Below, Node, Tree};
use segment::{Seg, split};

/// Adds the tree that has these segments in preorder over the readings of a series.
pub(crate) fn adopt_tree(nodes: &mut Places, segs: &[Seg], xs: &[i32]) -> Tree
    requires some { 0 < length xs.now }
    requires whole { HaveTree segs.now xs.now }
    requires room { used nodes.old.nodes + node_count (length xs.now) ≤ 2 ^ 24 }
    requires spare { node_count (length xs.now) ≤ nodes.old.spare }
    ensures tree { IsTreeOf nodes.new.nodes result }
    ensures len { result.n ≡ length xs.now }
    ensures value { (whole : Option SegTree) → IsTreeWith segs.now xs.now whole
        → value_of nodes.new.nodes result ≡ whole }
    ensures extends { Extends nodes.old.nodes nodes.new.nodes }
    ensures count { used nodes.new.nodes ≡ used nodes.old.nodes + node_count (length xs.now) }
{
    let root = adopt_nodes(nodes, segs, xs);
    Tree {
        root: Some(root),
        n: xs.len() as u32,
    }
}

/// Adds the nodes with these segments in preorder over readings, each child before its parent.
fn adopt_nodes(nodes: &mut Places, segs: &[Seg], xs: &[i32]) -> u32
    requires some { 0 < length xs.now }
    requires few { length xs.now ≤ 2 ^ 20 }
    requires whole { length segs.now ≡ node_count (length xs.now) }
    requires room { used nodes.old.nodes + node_count (length xs.now) ≤ 2 ^ 24 }
    requires spare { node_count (length xs.now) ≤ nodes.old.spare }
    ensures extends { Extends nodes.old.nodes nodes.new.nodes }
    ensures count { used nodes.new.nodes ≡ used nodes.old.nodes + node_count (length xs.now) }
    ensures spare { nodes.new.spare + node_count (length xs.now) ≡ nodes.old.spare }
    ensures holds { (start : ℕ) → Holds nodes.new.nodes result (plan start (length xs.now))
        (rebuilt (plan start (length xs.now)) segs.now xs.now) }
{
    let seg = segs[0];
    match split(xs.len() as u32) {
        None => {
            let leaf = nodes.put(Node {
                seg,
                below: Below::Readings(block(xs)),
            });
            leaf
        }
        Some(s) => {
            let (front, back) = xs.split_at(s as usize);
            let (left_segs, right_segs) = segs[1..].split_at(nodes_for(s) as usize);
            let left = adopt_nodes(nodes, left_segs, front);
            let right = adopt_nodes(nodes, right_segs, back);
            let fork = nodes.put(Node {
                seg,
                below: Below::Children(left, right),
            });
            fork
        }
    }
}
