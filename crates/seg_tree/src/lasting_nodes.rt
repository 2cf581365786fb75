ghost use Rattle.std.specs.Prelude.{◌≡◌, ◌≤◌, length};
ghost use Rattle.std.specs.List.{All};
ghost use Rattle.seg_tree.specs.Trees.{IsTreeOf};

use crate::arena_nodes::{ArenaNodes, children_of, leaf_of, root_of};
use crate::{Arena, Tree};
use segment::{Children, NodeErr, Nodes, Seg};
use std::marker::Model;

/// The nodes of an arena that the trees of several series reach, for whoever keeps their places from one call to the
/// next. The source is the same nodes once more, and by what stays of it they are still the same behind a call.
#[derive(Drop)]
pub struct LastingNodes<'a> {
    arena: &'a Arena,
    trees: &'a [Tree],
}

impl<'a> Model for LastingNodes<'a> {
    ghost use Rattle.std.specs.Prelude.{◌≤◌, length};
    ghost use Rattle.std.specs.List.{All};
    ghost use Rattle.seg_tree.specs.Reached.{Reached};
    ghost use Rattle.seg_tree.specs.Trees.{IsTreeOf};

    ghost Value = { Reached };

    ghost view = { λ a. record { nodes = a.arena.now.nodes; trees = a.trees.now } };

    ghost invariant = { λ a. (length a.trees.now ≤ 16) × All (IsTreeOf a.arena.now.nodes) a.trees.now };
}

impl<'a> LastingNodes<'a> {
    pub fn new(arena: &'a Arena, trees: &'a [Tree]) -> LastingNodes<'a>
        requires few { length trees.now ≤ 16 }
        requires of_arena { All (IsTreeOf arena.now.nodes) trees.now }
        ensures nodes { result.nodes ≡ arena.now.nodes }
        ensures trees { result.trees ≡ trees.now }
    {
        LastingNodes { arena, trees }
    }
}

impl<'a> Nodes for LastingNodes<'a> {
    type Id = u32;

    type Source = ArenaNodes<'a>;

    ghost use Rattle.std.specs.Prelude.{◌≡◌, Some};
    ghost use Rattle.seg_tree.specs.Reached.{Means, Reached, Stands, roots_of, lengths_of};
    ghost use Rattle.seg_tree.specs.ReachedLaws.{forest_fits, stands_placed};

    ghost means = { λ s source forest. (s ≡ source) × Means s forest };

    ghost faults = { λ _. 0 };

    ghost stands = { λ s _ i p. Stands s i p };

    ghost roots = { roots_of };

    ghost handed = { λ _. Some 0 };

    ghost Lasting = { Reached };

    ghost lasting = { λ source. source };

    ghost lengths = { lengths_of };

    fn count(&self) -> u32 {
        self.trees.len() as u32
    }

    fn readings_len(&self, series: u32) -> u32 {
        self.trees[series as usize].n
    }

    fn root(
        &mut self,
        _source: &mut ArenaNodes<'a>,
        series: u32,
    ) -> Result<Option<(u32, Seg)>, NodeErr> {
        let tree = self.trees[series as usize];
        let arena = self.arena;
        Ok(root_of(&arena.nodes, tree))
    }

    fn children(
        &mut self,
        _source: &mut ArenaNodes<'a>,
        id: u32,
    ) -> Result<Children<u32>, NodeErr> {
        let arena = self.arena;
        Ok(children_of(&arena.nodes, id))
    }

    fn readings(
        &mut self,
        _source: &mut ArenaNodes<'a>,
        id: u32,
        into: &mut [i32; 16],
    ) -> Result<u32, NodeErr> {
        let arena = self.arena;
        Ok(leaf_of(&arena.nodes, id, into))
    }

    ghost fits = { λ s _ forest h. forest_fits s forest h.1 };

    ghost placed = { λ s _ i p h. stands_placed s i p h };
}
