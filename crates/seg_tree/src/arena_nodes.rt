ghost use Rattle.std.specs.Prelude.{◌≡◌, ◌≤◌, ◌↔◌, length, map, IsNone, IfSome};
ghost use Rattle.std.specs.List.{All};
ghost use Rattle.seg_tree.specs.Linked.{IsUsed, node_at, IsFork, IsLeaf, kept, left_child, right_child};
ghost use Rattle.seg_tree.specs.Trees.{IsTreeOf, value_of};

use crate::places::Places;
use crate::{Arena, Below, Tree};
use segment::{Children, NodeErr, Nodes, Seg};
use std::marker::Model;

/// The nodes of an arena that the trees of several series reach. An id is a node's place in the arena.
#[derive(Drop)]
pub struct ArenaNodes<'a> {
    arena: &'a Arena,
    trees: &'a [Tree],
}

impl<'a> Model for ArenaNodes<'a> {
    ghost use Rattle.std.specs.Prelude.{◌≤◌, length};
    ghost use Rattle.std.specs.List.{All};
    ghost use Rattle.seg_tree.specs.Reached.{Reached};
    ghost use Rattle.seg_tree.specs.Trees.{IsTreeOf};

    ghost Value = { Reached };

    ghost view = { λ a. record { nodes = a.arena.now.nodes; trees = a.trees.now } };

    ghost invariant = { λ a. (length a.trees.now ≤ 16) × All (IsTreeOf a.arena.now.nodes) a.trees.now };
}

impl<'a> ArenaNodes<'a> {
    ghost use Rattle.seg_tree.specs.Reached.{Means};

    pub fn new(arena: &'a Arena, trees: &'a [Tree]) -> ArenaNodes<'a>
        requires few { length trees.now ≤ 16 }
        requires of_arena { All (IsTreeOf arena.now.nodes) trees.now }
        ensures nodes { result.nodes ≡ arena.now.nodes }
        ensures trees { result.trees ≡ trees.now }
        ensures means { Means result (map (value_of arena.now.nodes) trees.now) }
    {
        ArenaNodes { arena, trees }
    }
}

impl<'a> Nodes for ArenaNodes<'a> {
    type Id = u32;

    type Source = ();

    ghost use Rattle.std.specs.Prelude.{Some};
    ghost use Rattle.seg_tree.specs.Reached.{Means, Stands, roots_of, lengths_of};
    ghost use Rattle.seg_tree.specs.ReachedLaws.{forest_fits, stands_placed};

    ghost means = { λ s _ forest. Means s forest };

    ghost faults = { λ _. 0 };

    ghost stands = { λ s _ i p. Stands s i p };

    ghost roots = { roots_of };

    ghost handed = { λ _. Some 0 };

    ghost Lasting = { Unit {0} };

    ghost lasting = { λ _. tt };

    ghost lengths = { lengths_of };

    fn count(&self) -> u32 {
        self.trees.len() as u32
    }

    fn readings_len(&self, series: u32) -> u32 {
        self.trees[series as usize].n
    }

    fn root(&mut self, _source: &mut (), series: u32) -> Result<Option<(u32, Seg)>, NodeErr> {
        let tree = self.trees[series as usize];
        let arena = self.arena;
        Ok(root_of(&arena.nodes, tree))
    }

    fn children(&mut self, _source: &mut (), id: u32) -> Result<Children<u32>, NodeErr> {
        let arena = self.arena;
        Ok(children_of(&arena.nodes, id))
    }

    fn readings(
        &mut self,
        _source: &mut (),
        id: u32,
        into: &mut [i32; 16],
    ) -> Result<u32, NodeErr> {
        let arena = self.arena;
        Ok(leaf_of(&arena.nodes, id, into))
    }

    ghost fits = { λ s _ forest h. forest_fits s forest h };

    ghost placed = { λ s _ i p h. stands_placed s i p h };
}

/// The segment of the node at a place.
fn seg_of(nodes: &Places, place: u32) -> Seg
    requires { IsUsed nodes.now.nodes place }
    ensures { result ≡ (node_at nodes.now.nodes place).seg }
{
    nodes.node(place).seg
}

/// The root of a tree, where it has readings.
pub(crate) fn root_of(nodes: &Places, tree: Tree) -> Option<(u32, Seg)>
    requires { IsTreeOf nodes.now.nodes tree }
    ensures none { IsNone result ↔ (tree.root ≡ None) }
    ensures place { IfSome result (λ r. tree.root ≡ Some r.0) }
    ensures seg { IfSome result (λ r. r.1 ≡ (node_at nodes.now.nodes r.0).seg) }
{
    let place = tree.root?;
    Some((place, seg_of(nodes, place)))
}

/// The children of the fork at a place.
pub(crate) fn children_of(nodes: &Places, place: u32) -> Children<u32>
    requires within { IsUsed nodes.now.nodes place }
    requires fork { IsFork (node_at nodes.now.nodes place).below }
    requires left_within { IsUsed nodes.now.nodes (left_child (node_at nodes.now.nodes place).below) }
    requires right_within { IsUsed nodes.now.nodes (right_child (node_at nodes.now.nodes place).below) }
    ensures left { result.left ≡ left_child (node_at nodes.now.nodes place).below }
    ensures left_seg { result.left_seg
        ≡ (node_at nodes.now.nodes (left_child (node_at nodes.now.nodes place).below)).seg }
    ensures right { result.right ≡ right_child (node_at nodes.now.nodes place).below }
    ensures right_seg { result.right_seg
        ≡ (node_at nodes.now.nodes (right_child (node_at nodes.now.nodes place).below)).seg }
{
    let (left, right) = nodes.node(place).below.children();
    Children {
        left,
        left_seg: seg_of(nodes, left),
        right,
        right_seg: seg_of(nodes, right),
    }
}

/// Puts the readings of the leaf at a place into `into`, and answers how many it has.
pub(crate) fn leaf_of(nodes: &Places, place: u32, into: &mut [i32; 16]) -> u32
    requires within { IsUsed nodes.now.nodes place }
    requires leaf { IsLeaf (node_at nodes.now.nodes place).seg.len (node_at nodes.now.nodes place).below }
    ensures readings { into.new ≡ kept (node_at nodes.now.nodes place).below }
    ensures len { result ≡ (node_at nodes.now.nodes place).seg.len }
{
    let node = nodes.node(place);
    match node.below {
        Below::Readings(xs) => {
            *into = xs;
            node.seg.len
        }
        Below::Children(_, _) => unreachable!(),
    }
}
