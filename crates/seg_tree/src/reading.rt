ghost use Rattle.std.specs.Prelude.{◌≡◌, ◌+◌, ◌-◌, ◌*◌, ◌^◌, ◌<◌, ◌≤◌, length, take, ◌++◌, OnOk};
ghost use Rattle.segment.specs.Shape.{plan};
ghost use Rattle.segment.specs.Tree.{segs_of, readings_of};
ghost use Rattle.seg_tree.specs.Linked.{IsLinked, tree_at};

use crate::places::Places;
use segment::{Seg, split};
use std::alloc::AllocError;

/// Appends the segments of the tree below a node that covers `len` readings from `start` on.
pub(crate) fn push_segs(
    nodes: &Places,
    place: u32,
    start: u32,
    len: u32,
    into: &mut Vec<Seg>,
) -> Result<(), AllocError>
    requires few { start + len ≤ 2 ^ 20 }
    requires some { 0 < len }
    requires linked { IsLinked nodes.now.nodes place (plan start len) }
    ensures { OnOk result (into.new.items
        ≡ into.old.items ++ segs_of (tree_at nodes.now.nodes place (plan start len))) }
{
    into.push(nodes.node(place).seg)?;
    match split(len) {
        None => Ok(()),
        Some(s) => {
            let (left, right) = nodes.node(place).below.children();
            push_segs(nodes, left, start, s, into)?;
            push_segs(nodes, right, start + s, len - s, into)?;
            Ok(())
        }
    }
}

/// Appends the readings below a node that covers `len` readings from `start` on.
pub(crate) fn push_readings(
    nodes: &Places,
    place: u32,
    start: u32,
    len: u32,
    into: &mut Vec<i32>,
) -> Result<(), AllocError>
    requires few { start + len ≤ 2 ^ 20 }
    requires some { 0 < len }
    requires linked { IsLinked nodes.now.nodes place (plan start len) }
    ensures { OnOk result (into.new.items
        ≡ into.old.items ++ readings_of (tree_at nodes.now.nodes place (plan start len))) }
{
    match split(len) {
        None => {
            into.extend_from_slice(nodes.node(place).below.readings(len))?;
            Ok(())
        }
        Some(s) => {
            let (left, right) = nodes.node(place).below.children();
            push_readings(nodes, left, start, s, into)?;
            push_readings(nodes, right, start + s, len - s, into)?;
            Ok(())
        }
    }
}
