// The places that a hub keeps: those that the trees of its store and of its sessions reach.

ghost use Rattle.std.specs.Prelude.{◌≡◌, ◌+◌, ◌*◌, ◌≤◌, ◌<◌, List, ◌++◌, ◌∷◌, [], drop, length, map, take};
ghost use Rattle.std.specs.List.{All, flat_map};
ghost use Rattle.seg_tree.specs.declared.arena.Tree.{Tree};
ghost use Rattle.seg_tree.specs.Linked.{used};
ghost use Rattle.seg_tree.specs.Trees.{IsTreeOf};
ghost use Rattle.sessions.specs.Kept.{IsLive, entry_tree, live_trees, trees_kept};
ghost use Rattle.sessions.specs.Places.{HasFewTrees, IsLeftOf, KeepsNodes, hub_view, most_live, with_nodes};
ghost use Rattle.store_file.specs.Stored.{store_value};

use crate::session::Session;
use expr::Name;
use indexmap::IndexMap;
use seg_tree::Tree;
use std::marker::Model;
use store_file::{Store, Stored};

/// How many trees are live at most: 16 of a store, and 16 of the session in each of 16 slots.
const MOST_LIVE: usize = 272;

const NO_TREE: Tree = Tree { root: None, n: 0 };

/// Trees, for which no memory is asked.
#[derive(Drop)]
struct LiveTrees {
    trees: [Tree; MOST_LIVE],
    len: usize,
}

impl Model for LiveTrees {
    ghost Value = { List Tree };

    ghost view = { λ l. take l.len l.trees };

    ghost invariant = { λ l. (l.len ≤ most_live) × (length l.trees ≡ most_live) };
}

impl LiveTrees {
    fn new() -> LiveTrees
        ensures { result ≡ [] }
    {
        LiveTrees {
            trees: [NO_TREE; MOST_LIVE],
            len: 0,
        }
    }

    fn push(&mut self, tree: Tree)
        requires { length self.old < MOST_LIVE }
        ensures { self.new ≡ self.old ++ tree ∷ [] }
    {
        self.trees[self.len] = tree;
        self.len += 1;
    }

    fn as_slice(&self) -> &[Tree]
        ensures { result.now ≡ self.now }
    {
        &self.trees[..self.len]
    }
}

fn push_all(live: &mut LiveTrees, trees: &[Tree])
    requires { length live.old + length trees.now ≤ MOST_LIVE }
    ensures { live.new ≡ live.old ++ trees.now }
{
    for tree in trees {
        live.push(*tree);
    }
}

/// The tree of the series at a place.
fn tree_at(series: &IndexMap<Name, Stored>, place: usize) -> Tree
    requires { place < length series.now.entries }
    ensures { drop place (map entry_tree series.now.entries)
        ≡ result ∷ drop (place + 1) (map entry_tree series.now.entries) }
{
    match series.get_index(place) {
        Some((_name, stored)) => stored.tree,
        None => unreachable!(),
    }
}

/// Adds the trees of the series of a store.
fn push_stored(live: &mut LiveTrees, series: &IndexMap<Name, Stored>)
    requires { length live.old + length series.now.entries ≤ MOST_LIVE }
    ensures { live.new ≡ live.old ++ map entry_tree series.now.entries }
{
    for i in 0..series.len() {
        live.push(tree_at(series, i));
    }
}

/// The trees that the session in a slot keeps, where there is one.
fn trees_in(slot: &Option<Session>) -> &[Tree]
    ensures { result.now ≡ trees_kept slot.now }
{
    match slot {
        Some(session) => session.trees(),
        None => &[],
    }
}

/// Adds the trees of the sessions.
fn push_kept(live: &mut LiveTrees, slots: &[Option<Session>])
    requires few { All HasFewTrees slots.now }
    requires room { length live.old + 16 * length slots.now ≤ MOST_LIVE }
    ensures { live.new ≡ live.old ++ flat_map trees_kept slots.now }
{
    for slot in slots {
        push_all(live, trees_in(slot));
    }
}

/// Makes vacant each place that the trees of the store and of the sessions do not reach. It takes no memory.
pub(crate) fn sweep(store: &mut Store, slots: &[Option<Session>])
    requires slots { length slots.now ≤ 16 }
    requires few { All HasFewTrees slots.now }
    requires trees { All (IsTreeOf store.old.arena.nodes) (flat_map trees_kept slots.now) }
    ensures live { IsLive (hub_view store.new slots.now) }
    ensures reached { KeepsNodes store.old.arena.nodes store.new.arena.nodes
        (live_trees (hub_view store.old slots.now)) }
    ensures left { IsLeftOf store.old.arena.nodes store.new.arena.nodes }
    ensures fewer { used store.new.arena.nodes ≤ used store.old.arena.nodes }
    ensures value { store_value store.new ≡ store_value store.old }
    ensures same { store.new ≡ with_nodes store.old store.new.arena.nodes }
{
    let mut live = LiveTrees::new();
    push_stored(&mut live, &store.series);
    push_kept(&mut live, slots);
    store.arena.sweep(live.as_slice());
}
