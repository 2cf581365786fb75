ghost use Rattle.std.specs.Prelude.{◌≡◌, ◌⊎◌, ◌+◌, ◌-◌, ◌*◌, ◌^◌, ◌<◌, ◌≤◌, ◌++◌, length, take, drop, None, Some, IfOk, OnOk, IfErr};
ghost use Rattle.segment.specs.Shape.{plan, IsSplit};
ghost use Rattle.segment.specs.Tree.{readings_of, segs_of, all_readings, all_segs};
ghost use Rattle.seg_tree.specs.Linked.{Extends, used};
ghost use Rattle.seg_tree.specs.Trees.{IsTreeOf, value_of};
ghost use Rattle.tree_file.specs.Bytes.{number_of, unwrapped};
ghost use Rattle.tree_file.specs.Image.{words_in, size, tree_size, tree_in};
ghost use Rattle.tree_file.specs.Record.{seg_in};
ghost use Rattle.store_file.specs.Decoded.{series_tree, bad_in_tree};

use crate::StoreErr;
use crate::truth::first_bad;
use expr::Name;
use seg_tree::{Arena, Tree, TreeErr};
use segment::{Seg, split};
use std::alloc::{AllocError, Global};
use tree_file::{get_unsigned, read_seg, tree_bytes};

/// Reads the tree of a series, which bytes begin with, into an arena.
pub(crate) fn read_tree(
    alloc: Global,
    name: Name,
    n: u32,
    bytes: &[u8],
    arena: &mut Arena,
) -> Result<Tree, StoreErr>
    requires few { n ≤ 2 ^ 20 }
    requires room { tree_size n ≤ length bytes.now }
    requires places { used arena.old.nodes + 2 ^ 17 ≤ arena.old.limit }
    ensures tree { IfOk result (λ t. IsTreeOf arena.new.nodes t) }
    ensures value { IfOk result (λ t. value_of arena.new.nodes t ≡ series_tree n bytes.now) }
    ensures good { OnOk result (bad_in_tree name (series_tree n bytes.now) ≡ None) }
    ensures bad { IfErr result (λ e. (e ≡ StoreErr.Memory)
        ⊎ (bad_in_tree name (series_tree n bytes.now) ≡ Some e)) }

    ensures extends { Extends arena.old.nodes arena.new.nodes }
    ensures count { OnOk result (used arena.new.nodes ≤ used arena.old.nodes + 2 ^ 17) }
    ensures degree { arena.new.degree ≡ arena.old.degree }
    ensures limit { arena.new.limit ≡ arena.old.limit }
{
    let mut segs = Vec::with_capacity(alloc, 2 * n.div_ceil(16) as usize)?;
    let mut xs = Vec::with_capacity(alloc, n as usize)?;
    push_series_nodes(bytes, n, &mut segs, &mut xs)?;
    if let Some(seg) = first_bad(&segs, &xs) {
        return Err(StoreErr::BadNode(name, seg.start, seg.len));
    }
    match arena.adopt(&segs, &xs) {
        Ok(tree) => Ok(tree),
        Err(TreeErr::Memory) => Err(StoreErr::Memory),
        Err(TreeErr::TooLong) => unreachable!(),
        Err(TreeErr::ArenaFull) => unreachable!(),
    }
}

/// Appends the segments and the readings of the tree over `n` readings that bytes begin with.
fn push_series_nodes(
    bytes: &[u8],
    n: u32,
    segs: &mut Vec<Seg>,
    xs: &mut Vec<i32>,
) -> Result<(), AllocError>
    requires few { n ≤ 2 ^ 20 }
    requires room { tree_size n ≤ length bytes.now }
    ensures segs { OnOk result (segs.new.items ≡ segs.old.items ++ all_segs (series_tree n bytes.now)) }
    ensures readings { OnOk result (xs.new.items ≡ xs.old.items ++ all_readings (series_tree n bytes.now)) }
{
    if n == 0 {
        return Ok(());
    }
    push_nodes(bytes, 0, n, segs, xs)?;
    Ok(())
}

/// Appends the segments and the readings of the tree over `len` readings from `start` that bytes begin with.
fn push_nodes(
    bytes: &[u8],
    start: u32,
    len: u32,
    segs: &mut Vec<Seg>,
    xs: &mut Vec<i32>,
) -> Result<(), AllocError>
    requires some { 0 < len }
    requires few { start + len ≤ 2 ^ 20 }
    requires room { size (plan start len) ≤ length bytes.now }
    ensures segs { OnOk result (segs.new.items ≡ segs.old.items ++ segs_of (tree_in (plan start len) bytes.now)) }
    ensures readings { OnOk result (xs.new.items ≡ xs.old.items ++ readings_of (tree_in (plan start len) bytes.now)) }
{
    segs.push(root_in(bytes, start, len))?;
    match split(len) {
        None => {
            push_readings(behind(bytes, RECORD), len, xs)?;
            Ok(())
        }
        Some(s) => {
            let (left, right) = parts(bytes, start, len, s);
            push_nodes(left, start, s, segs, xs)?;
            push_nodes(right, start + s, len - s, segs, xs)?;
            Ok(())
        }
    }
}

/// The bytes of a record.
const RECORD: usize = 56;

/// Where the bytes of the two parts of a tree begin.
fn parts(bytes: &[u8], start: u32, len: u32, s: u32) -> (&[u8], &[u8])
    requires split { IsSplit len s }
    requires few { start + len ≤ 2 ^ 20 }
    requires room { size (plan start len) ≤ length bytes.now }
    ensures left { result.0.now ≡ drop 56 bytes.now }
    ensures right { result.1.now ≡ drop (tree_size s) (drop 56 bytes.now) }
    ensures room_left { size (plan start s) ≤ length result.0.now }
    ensures room_right { size (plan (start + s) (len - s)) ≤ length result.1.now }
{
    let left = behind(bytes, RECORD);
    let right = behind(left, tree_bytes(s) as usize);
    (left, right)
}

/// What stands behind so many bytes.
pub(crate) fn behind(bytes: &[u8], n: usize) -> &[u8]
    requires { n ≤ length bytes.now }
    ensures { result.now ≡ drop n bytes.now }
{
    &bytes[n..]
}

/// The segment of the record that bytes begin with.
fn root_in(bytes: &[u8], start: u32, len: u32) -> Seg
    requires { 56 ≤ length bytes.now }
    ensures { result ≡ seg_in (take 56 bytes.now) start len }
{
    let mut record = [0; RECORD];
    record.copy_from_slice(&bytes[..RECORD]);
    read_seg(&record, start, len)
}

/// Appends the `n` readings that bytes begin with.
fn push_readings(bytes: &[u8], n: u32, xs: &mut Vec<i32>) -> Result<(), AllocError>
    requires { 4 * n ≤ length bytes.now }
    ensures { OnOk result (xs.new.items ≡ xs.old.items ++ words_in n bytes.now) }
{
    for i in 0..n as usize {
        xs.push(reading_at(bytes, 4 * i))?;
    }
    Ok(())
}

/// The reading that the four bytes from a place on write.
fn reading_at(bytes: &[u8], place: usize) -> i32
    requires { place + 4 ≤ length bytes.now }
    ensures { result ≡ unwrapped 4 (number_of 4 (drop place bytes.now)) }
{
    (get_unsigned(&bytes[place..place + 4]) as u32).cast_signed()
}
