ghost use Rattle.std.specs.Prelude.{◌≡◌, ◌+◌, ◌^◌, ◌≤◌, ◌<◌, ◌++◌, length, drop, OnOk};
ghost use Rattle.seg_tree.specs.Linked.{IsLinked, tree_at};
ghost use Rattle.seg_tree.specs.Trees.{IsTreeOf, value_of};
ghost use Rattle.segment.specs.Shape.{plan};
ghost use Rattle.store_file.specs.StoreValue.{tree_image, trees_image};
ghost use Rattle.store_file.specs.Stored.{series_of, AreOf};
ghost use Rattle.tree_file.specs.Bytes.{bytes_of, wrapped};
ghost use Rattle.tree_file.specs.Image.{image, words};
ghost use Rattle.tree_file.specs.Record.{record_of};

use crate::Stored;
use crate::store::entry_at;
use expr::Name;
use indexmap::IndexMap;
use num_text::Memory;
use seg_tree::{Arena, Tree};
use segment::{Seg, split};
use std::alloc::AllocError;
use tree_file::{put_signed, write_seg};

/// Appends the trees of all series.
pub(crate) fn push_trees(
    series: &IndexMap<Name, Stored>,
    arena: &Arena,
    into: &mut Vec<u8>,
) -> Result<(), Memory>
    requires { AreOf arena.now.nodes series.now.entries }
    ensures { OnOk result (into.new.items
        ≡ into.old.items ++ trees_image (series_of arena.now.nodes series.now.entries)) }
{
    for i in 0..series.len() {
        let (_name, stored) = entry_at(series, i);
        push_tree(arena, stored.tree, into)?;
    }
    Ok(())
}

/// Appends a tree.
fn push_tree(arena: &Arena, tree: Tree, into: &mut Vec<u8>) -> Result<(), Memory>
    requires { IsTreeOf arena.now.nodes tree }
    ensures { OnOk result (into.new.items ≡ into.old.items ++ tree_image (value_of arena.now.nodes tree)) }
{
    let Some(root) = tree.root else {
        return Ok(());
    };
    push_nodes(arena, root, 0, tree.n, into)?;
    Ok(())
}

/// Appends the nodes of the tree below a node that covers `len` readings from `start` on, in preorder, each leaf's
/// followed by its readings.
fn push_nodes(
    arena: &Arena,
    place: u32,
    start: u32,
    len: u32,
    into: &mut Vec<u8>,
) -> Result<(), AllocError>
    requires few { start + len ≤ 2 ^ 20 }
    requires some { 0 < len }
    requires linked { IsLinked arena.now.nodes place (plan start len) }
    ensures { OnOk result (into.new.items
        ≡ into.old.items ++ image (tree_at arena.now.nodes place (plan start len))) }
{
    let node = arena.node(place);
    push_record(&node.seg, into)?;
    match split(len) {
        None => {
            push_words(node.below.readings(len), into)?;
            Ok(())
        }
        Some(s) => {
            let (left, right) = node.below.children();
            push_nodes(arena, left, start, s, into)?;
            push_nodes(arena, right, start + s, len - s, into)?;
            Ok(())
        }
    }
}

/// Appends the record of a node.
fn push_record(seg: &Seg, into: &mut Vec<u8>) -> Result<(), AllocError>
    ensures { OnOk result (into.new.items ≡ into.old.items ++ record_of seg.now) }
{
    let mut record = [0; 56];
    write_seg(seg, &mut record);
    into.extend_from_slice(&record)?;
    Ok(())
}

/// Appends readings, four bytes each.
fn push_words(xs: &[i32], into: &mut Vec<u8>) -> Result<(), AllocError>
    ensures { OnOk result (into.new.items ≡ into.old.items ++ words xs.now) }
{
    for i in 0..xs.len() {
        let word = word_at(xs, i);
        into.extend_from_slice(&word)?;
    }
    Ok(())
}

/// The bytes of the reading at a place.
fn word_at(xs: &[i32], place: usize) -> [u8; 4]
    requires { place < length xs.now }
    ensures { words (drop place xs.now) ≡ result ++ words (drop (place + 1) xs.now) }
{
    word_of(xs[place])
}

/// The bytes of a reading.
fn word_of(x: i32) -> [u8; 4]
    ensures { result ≡ bytes_of 4 (wrapped 4 x) }
{
    let mut word = [0; 4];
    put_signed(i128::from(x), &mut word);
    word
}
