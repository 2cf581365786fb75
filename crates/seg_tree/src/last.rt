// The last reading of a tree.

ghost use Rattle.std.specs.Prelude.{◌≡◌, ℕ, ℤ, ◌+◌, ◌^◌, ◌<◌, ◌≤◌, unsigned_abs, Option, Some, None, IfSome};
ghost use Rattle.std.specs.List.{last_or};
ghost use Rattle.segment.specs.Shape.{plan};
ghost use Rattle.segment.specs.Tree.{all_readings, readings_of};
ghost use Rattle.seg_tree.specs.Linked.{IsLinked, tree_at};
ghost use Rattle.seg_tree.specs.Trees.{IsTreeOf, value_of};

use crate::places::Places;
use crate::{Arena, Tree};
use segment::split;

impl Arena {
    /// The last reading of a tree, which is found by the right children alone.
    pub fn last_reading(&self, tree: Tree) -> Option<i32>
        requires { IsTreeOf self.now.nodes tree }
        ensures value { result ≡ last_or None (all_readings (value_of self.now.nodes tree)) }
        ensures small { IfSome result (λ x. unsigned_abs x ≤ 10 ^ 9) }
    {
        match tree.root {
            None => None,
            Some(root) => Some(last_below(&self.nodes, root, 0, tree.n)),
        }
    }
}

// The last reading below a node that covers `len` readings from `start` on.
fn last_below(nodes: &Places, place: u32, start: u32, len: u32) -> i32
    requires few { start + len ≤ 2 ^ 20 }
    requires some { 0 < len }
    requires linked { IsLinked nodes.now.nodes place (plan start len) }
    ensures { (before : Option ℤ) → last_or before (readings_of (tree_at nodes.now.nodes place (plan start len)))
        ≡ Some result }
{
    match split(len) {
        None => nodes.node(place).below.readings(len)[len as usize - 1],
        Some(s) => {
            let (_left, right) = nodes.node(place).below.children();
            last_below(nodes, right, start + s, len - s)
        }
    }
}
