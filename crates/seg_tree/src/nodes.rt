ghost use Rattle.std.specs.Prelude.{◌≡◌, ◌^◌, ◌≤◌, length, take};
ghost use Rattle.segment.specs.Shape.{node_count};

use segment::Seg;

/// A node of a tree: its segment, and what is below it.
#[derive(Clone, Copy, Drop)]
pub struct Node {
    pub seg: Seg,
    pub below: Below,
}

/// What is below a node.
#[derive(Clone, Copy, Drop)]
pub enum Below {
    /// The readings of a leaf, as many as its segment has; the rest is 0.
    Readings([i32; 16]),
    /// The places of the left and of the right child.
    Children(u32, u32),
}

impl Below {
    ghost use Rattle.seg_tree.specs.Linked.{IsFork, IsLeaf, kept, left_child, right_child};

    /// The readings of a leaf that has `len` of them.
    pub fn readings(&self, len: u32) -> &[i32]
        requires short { len ≤ 16 }
        requires leaf { IsLeaf len self.now }
        ensures { result.now ≡ take len (kept self.now) }
    {
        match self {
            Below::Readings(xs) => &xs[..len as usize],
            Below::Children(_, _) => unreachable!(),
        }
    }

    /// The places of a fork's children.
    pub fn children(&self) -> (u32, u32)
        requires { IsFork self.now }
        ensures left { result.0 ≡ left_child self.now }
        ensures right { result.1 ≡ right_child self.now }
    {
        match *self {
            Below::Children(left, right) => (left, right),
            Below::Readings(_) => unreachable!(),
        }
    }
}

/// A leaf's readings, with 0 behind them.
pub(crate) fn block(xs: &[i32]) -> [i32; 16]
    requires { length xs.now ≤ 16 }
    ensures front { take (length xs.now) result ≡ xs.now }
    ensures len { length xs.now ≤ length result }
{
    let mut items = [0; 16];
    items[..xs.len()].copy_from_slice(xs);
    items
}

/// How many nodes the tree over `n` readings has.
pub(crate) fn nodes_for(n: u32) -> u32
    requires { n ≤ 2 ^ 20 }
    ensures value { result ≡ node_count n }
    ensures bound { result ≤ 2 ^ 17 }
{
    (2 * n.div_ceil(16)).saturating_sub(1)
}
