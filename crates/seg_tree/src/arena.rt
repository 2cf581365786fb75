ghost use Rattle.std.specs.Prelude.{◌≡◌, ℕ, ◌+◌, ◌*◌, ◌/◌, ◌^◌, ◌<◌, ◌≤◌, ◌↔◌, length, map, [], ◌++◌, Option, IsTrue, IfOk, OnOk, OnErr};
ghost use Rattle.segment.specs.Fit.{fit_over};
ghost use Rattle.segment.specs.Growth.{kept_or_fit, made};
ghost use Rattle.segment.specs.Measure.{AreReadings};
ghost use Rattle.segment.specs.Shape.{node_count, shape};
ghost use Rattle.segment.specs.Tree.{SegTree, fitted_series, all_readings, all_segs};
ghost use Rattle.seg_tree.specs.declared.arena.TreeErr.TheVariants.{Memory as no_memory};
ghost use Rattle.seg_tree.specs.Adopted.{HaveTree, IsTreeWith};
ghost use Rattle.seg_tree.specs.Grown.{grown_tree};
ghost use Rattle.seg_tree.specs.Linked.{Extends, IsUsed, held_at, node_at, used};
ghost use Rattle.seg_tree.specs.Trees.{IsReached, IsTreeOf, value_of};
ghost use Rattle.std.specs.List.{All};

use crate::Node;
use crate::adopting::adopt_tree;
use crate::building::add_tree;
use crate::growing::{grow_tree, nodes_made};
use crate::nodes::nodes_for;
use crate::places::Places;
use crate::reading::{push_readings, push_segs};
use num_text::Memory;
use segment::Seg;
use std::alloc::{AllocError, Global};
use std::marker::Model;

/// A tree of an arena: its root's place, where it has readings, and how many it has.
#[derive(Clone, Copy, Debug, Drop, PartialEq, Eq)]
pub struct Tree {
    pub root: Option<u32>,
    pub n: u32,
}

/// Why no tree was made.
#[derive(Clone, Copy, Debug, Drop, PartialEq, Eq)]
pub enum TreeErr {
    /// It would have more than 2 ^ 20 readings.
    TooLong,
    /// The arena's nodes would pass its limit.
    ArenaFull,
    Memory,
}

impl From<AllocError> for TreeErr {
    ghost from_gives = { λ _ e. e ≡ no_memory };

    fn from(_e: AllocError) -> TreeErr {
        TreeErr::Memory
    }
}

impl From<Memory> for TreeErr {
    ghost from_gives = { λ _ e. e ≡ no_memory };

    fn from(_e: Memory) -> TreeErr {
        TreeErr::Memory
    }
}

/// Nodes, of which trees are made.
#[derive(Drop)]
pub struct Arena {
    alloc: Global,
    pub(crate) nodes: Places,
    degree: u8,
    limit: u32,
}

impl Model for Arena {
    ghost use Rattle.std.specs.Prelude.{◌≤◌, ◌^◌};
    ghost use Rattle.seg_tree.specs.Held.{Held};
    ghost use Rattle.seg_tree.specs.Linked.{used};

    ghost Value = { Held };

    ghost view = { λ a. record { nodes = a.nodes.nodes; degree = a.degree; limit = a.limit } };

    ghost invariant = { λ a. (used a.nodes.nodes ≤ a.limit) × (a.limit ≤ 2 ^ 24) × (a.degree ≤ 2) };
}

impl Arena {
    /// An arena without nodes, whose trees are fitted up to the degree. It takes no memory yet.
    pub fn new(alloc: Global, degree: u8, limit: u32) -> Arena
        requires degree { degree ≤ 2 }
        requires some { 1 ≤ limit }
        requires few { limit ≤ 2 ^ 24 }
        ensures { result ≡ record { nodes = []; degree = degree; limit = limit } }
    {
        Arena {
            alloc,
            nodes: Places::new(alloc),
            degree,
            limit,
        }
    }

    /// Adds the tree over the readings of a series, in which each node is the fit of its readings.
    pub fn build(&mut self, xs: &[i32]) -> Result<Tree, TreeErr>
        requires { AreReadings xs.now }
        ensures tree { IfOk result (λ t. IsTreeOf self.new.nodes t) }
        ensures len { IfOk result (λ t. t.n ≡ length xs.now) }
        ensures fitted { IfOk result (λ t. value_of self.new.nodes t ≡ fitted_series self.old.degree xs.now) }
        ensures readings { IfOk result (λ t. all_readings (value_of self.new.nodes t) ≡ xs.now) }
        ensures segs { IfOk result (λ t. all_segs (value_of self.new.nodes t)
            ≡ map (fit_over self.old.degree xs.now) (shape (length xs.now))) }

        ensures extends { Extends self.old.nodes self.new.nodes }
        ensures count { OnOk result (used self.new.nodes ≡ used self.old.nodes + node_count (length xs.now)) }
        ensures degree { self.new.degree ≡ self.old.degree }
        ensures limit { self.new.limit ≡ self.old.limit }

        ensures too_long { (result ≡ Err TreeErr.TooLong) ↔ (2 ^ 20 < length xs.now) }
        ensures full { (result ≡ Err TreeErr.ArenaFull)
            ↔ ((length xs.now ≤ 2 ^ 20) × (self.old.limit < used self.old.nodes + node_count (length xs.now))) }
        ensures err { OnErr result (self.new ≡ self.old) }
    {
        if xs.len() > 1 << 20 {
            return Err(TreeErr::TooLong);
        }
        let n = xs.len() as u32;
        if !self.has_room(n) {
            return Err(TreeErr::ArenaFull);
        }
        if xs.is_empty() {
            return Ok(Tree { root: None, n });
        }
        self.nodes.reserve(nodes_for(n))?;
        Ok(add_tree(&mut self.nodes, xs, self.degree))
    }

    /// Adds the tree that has `xs` behind the readings of a tree. It shares the nodes whose ranges stay, and each other
    /// node is the fit of its readings.
    pub fn append(&mut self, tree: Tree, xs: &[i32]) -> Result<Tree, TreeErr>
        requires of_arena { IsTreeOf self.old.nodes tree }
        requires small { AreReadings xs.now }
        ensures tree { IfOk result (λ t. IsTreeOf self.new.nodes t) }
        ensures len { IfOk result (λ t. t.n ≡ tree.n + length xs.now) }
        ensures grown { IfOk result (λ t. value_of self.new.nodes t
            ≡ grown_tree self.old.degree (value_of self.old.nodes tree) xs.now) }
        ensures readings { IfOk result (λ t. all_readings (value_of self.new.nodes t)
            ≡ all_readings (value_of self.old.nodes tree) ++ xs.now) }
        ensures segs { IfOk result (λ t. all_segs (value_of self.new.nodes t)
            ≡ map (kept_or_fit self.old.degree (all_readings (value_of self.old.nodes tree) ++ xs.now)
            (all_segs (value_of self.old.nodes tree))) (shape (tree.n + length xs.now))) }

        ensures extends { Extends self.old.nodes self.new.nodes }
        ensures count { OnOk result (used self.new.nodes
            ≡ used self.old.nodes + made tree.n (tree.n + length xs.now)) }
        ensures few { OnOk result (used self.new.nodes
            ≤ used self.old.nodes + (2 * ((length xs.now + 15) / 16) + 44)) }
        ensures none { length xs.now ≡ 0 → OnOk result (used self.new.nodes ≡ used self.old.nodes) }
        ensures degree { self.new.degree ≡ self.old.degree }
        ensures limit { self.new.limit ≡ self.old.limit }

        ensures too_long { (result ≡ Err TreeErr.TooLong) ↔ (2 ^ 20 < tree.n + length xs.now) }
        ensures full { (result ≡ Err TreeErr.ArenaFull)
            ↔ ((tree.n + length xs.now ≤ 2 ^ 20)
            × (self.old.limit < used self.old.nodes + made tree.n (tree.n + length xs.now))) }
        ensures err { OnErr result (self.new ≡ self.old) }
    {
        if xs.len() > (1 << 20) - tree.n as usize {
            return Err(TreeErr::TooLong);
        }
        let made = nodes_made(tree.n, tree.n + xs.len() as u32);
        if self.nodes.used() + made > self.limit {
            return Err(TreeErr::ArenaFull);
        }
        let Some(root) = tree.root else {
            return self.build(xs);
        };
        let mut all = self.readings_of(tree)?;
        all.extend_from_slice(xs)?;
        self.nodes.reserve(made)?;
        Ok(grow_tree(&mut self.nodes, root, tree.n, &all, self.degree))
    }

    /// Adds the tree that has these segments in preorder over the readings of a series.
    pub fn adopt(&mut self, segs: &[Seg], xs: &[i32]) -> Result<Tree, TreeErr>
        requires { HaveTree segs.now xs.now }
        ensures tree { IfOk result (λ t. IsTreeOf self.new.nodes t) }
        ensures len { IfOk result (λ t. t.n ≡ length xs.now) }
        ensures segs { IfOk result (λ t. all_segs (value_of self.new.nodes t) ≡ segs.now) }
        ensures readings { IfOk result (λ t. all_readings (value_of self.new.nodes t) ≡ xs.now) }
        ensures value { IfOk result (λ t. (whole : Option SegTree) → IsTreeWith segs.now xs.now whole
            → value_of self.new.nodes t ≡ whole) }

        ensures extends { Extends self.old.nodes self.new.nodes }
        ensures count { OnOk result (used self.new.nodes ≡ used self.old.nodes + node_count (length xs.now)) }
        ensures degree { self.new.degree ≡ self.old.degree }
        ensures limit { self.new.limit ≡ self.old.limit }

        ensures too_long { result ≡ Err TreeErr.TooLong → ⊥ }
        ensures full { (result ≡ Err TreeErr.ArenaFull)
            ↔ (self.old.limit < used self.old.nodes + node_count (length xs.now)) }
        ensures err { OnErr result (self.new ≡ self.old) }
    {
        let n = xs.len() as u32;
        if !self.has_room(n) {
            return Err(TreeErr::ArenaFull);
        }
        if xs.is_empty() {
            return Ok(Tree { root: None, n });
        }
        self.nodes.reserve(nodes_for(n))?;
        Ok(adopt_tree(&mut self.nodes, segs, xs))
    }

    /// Whether the nodes of a tree over `n` readings stay within the limit.
    fn has_room(&self, n: u32) -> bool
        requires { n ≤ 2 ^ 20 }
        ensures { IsTrue result ↔ (used self.now.nodes + node_count n ≤ self.now.limit) }
    {
        self.nodes.used() + nodes_for(n) <= self.limit
    }

    /// The node at a place.
    pub fn node(&self, place: u32) -> &Node
        requires { IsUsed self.now.nodes place }
        ensures { result.now ≡ node_at self.now.nodes place }
    {
        self.nodes.node(place)
    }

    /// Makes vacant each place that none of the trees reaches.
    pub fn sweep(&mut self, live: &[Tree])
        requires { All (IsTreeOf self.old.nodes) live.now }
        ensures reached { (p : ℕ) → IsUsed self.new.nodes p ↔ IsReached self.old.nodes live.now p }
        ensures kept { (p : ℕ) → IsUsed self.new.nodes p → held_at self.new.nodes p ≡ held_at self.old.nodes p }
        ensures trees { All (IsTreeOf self.new.nodes) live.now }
        ensures values { map (value_of self.new.nodes) live.now ≡ map (value_of self.old.nodes) live.now }
        ensures degree { self.new.degree ≡ self.old.degree }
        ensures limit { self.new.limit ≡ self.old.limit }
    {
        self.nodes.sweep(live);
    }

    /// How many places are used.
    pub fn used(&self) -> u32
        ensures { result ≡ used self.now.nodes }
    {
        self.nodes.used()
    }

    /// The readings of a tree in order.
    pub fn readings_of(&self, tree: Tree) -> Result<Vec<i32>, Memory>
        requires { IsTreeOf self.now.nodes tree }
        ensures { IfOk result (λ xs. xs.items ≡ all_readings (value_of self.now.nodes tree)) }
    {
        let mut xs = Vec::with_capacity(self.alloc, tree.n as usize)?;
        if let Some(root) = tree.root {
            push_readings(&self.nodes, root, 0, tree.n, &mut xs)?;
        }
        Ok(xs)
    }

    /// The segments of a tree in preorder.
    pub fn segs_of(&self, tree: Tree) -> Result<Vec<Seg>, Memory>
        requires { IsTreeOf self.now.nodes tree }
        ensures { IfOk result (λ segs. segs.items ≡ all_segs (value_of self.now.nodes tree)) }
    {
        let mut segs = Vec::new(self.alloc);
        if let Some(root) = tree.root {
            push_segs(&self.nodes, root, 0, tree.n, &mut segs)?;
        }
        Ok(segs)
    }
}
