ghost use Rattle.std.specs.Prelude.{◌≡◌, ◌⊎◌, ℕ, ◌+◌, ◌^◌, ◌<◌, ◌≤◌, ◌↔◌, Bool, true, length, map, get_or, set};
ghost use Rattle.segment.specs.Shape.{plan};
ghost use Rattle.seg_tree.specs.Linked.{IsFork, IsLinked, IsUsed, Reaches, held_at, used, left_child, node_at, right_child};
ghost use Rattle.seg_tree.specs.Slots.{AreClosed, AreKept, IsMarked, held, held_if_marked, mark_of, marked, NoMarks, no_slot, settled};
ghost use Rattle.seg_tree.specs.Trees.{IsReached, IsTreeOf};
ghost use Rattle.std.specs.List.{All};

use crate::Tree;
use crate::places::Slot;
use segment::split;

/// Makes vacant each place that none of the trees reaches. It answers the last vacant place, and how many are vacant.
pub(crate) fn sweep_slots(slots: &mut [Slot], live: &[Tree]) -> (Option<u32>, u32)
    requires few { length slots.old ≤ 2 ^ 24 }
    requires trees { All (IsTreeOf (map held slots.old)) live.now }
    requires unmarked { NoMarks slots.old }
    ensures kept { AreKept slots.new result.0 result.1 }
    ensures reached { (p : ℕ) → IsUsed (map held slots.new) p ↔ IsReached (map held slots.old) live.now p }
    ensures same { (p : ℕ) → IsUsed (map held slots.new) p
        → held_at (map held slots.new) p ≡ held_at (map held slots.old) p }
    ensures fewer { used (map held slots.new) ≤ used (map held slots.old) }
{
    mark_trees(slots, live);
    settle(slots)
}

/// Marks the nodes below a place, which covers `len` readings from `start` on.
fn mark(slots: &mut [Slot], place: u32, start: u32, len: u32)
    requires few { start + len ≤ 2 ^ 20 }
    requires some { 0 < len }
    requires linked { IsLinked (map held slots.old) place (plan start len) }
    requires closed { AreClosed slots.old }
    ensures nodes { map held slots.new ≡ map held slots.old }
    ensures marked { (q : ℕ) → IsMarked slots.new q
        ↔ (IsMarked slots.old q ⊎ Reaches (map held slots.old) place (plan start len) q) }
    ensures closed { AreClosed slots.new }
{
    if is_marked(slots, place) {
        return;
    }
    match split(len) {
        None => set_mark(slots, place),
        Some(s) => {
            let (left, right) = children(slots, place);
            mark(slots, left, start, s);
            mark(slots, right, start + s, len - s);
            set_mark(slots, place);
        }
    }
}

/// Whether a place is marked.
fn is_marked(slots: &[Slot], place: u32) -> bool
    requires { place < length slots.now }
    ensures { result ≡ mark_of (get_or slots.now place no_slot) }
{
    match slots[place as usize] {
        Slot::Used(_, mark) => mark,
        Slot::Vacant(_) => false,
    }
}

/// The places of a fork's children.
fn children(slots: &[Slot], place: u32) -> (u32, u32)
    requires used { IsUsed (map held slots.now) place }
    requires fork { IsFork (node_at (map held slots.now) place).below }
    ensures left { result.0 ≡ left_child (node_at (map held slots.now) place).below }
    ensures right { result.1 ≡ right_child (node_at (map held slots.now) place).below }
{
    match &slots[place as usize] {
        Slot::Used(node, _) => node.below.children(),
        Slot::Vacant(_) => unreachable!(),
    }
}

/// Marks a place.
fn set_mark(slots: &mut [Slot], place: u32)
    requires { place < length slots.old }
    ensures { slots.new ≡ set slots.old place (marked (get_or slots.old place no_slot)) }
{
    slots[place as usize] = with_mark(slots[place as usize]);
}

fn with_mark(slot: Slot) -> Slot
    ensures { result ≡ marked slot }
{
    match slot {
        Slot::Used(node, _) => Slot::Used(node, true),
        Slot::Vacant(before) => Slot::Vacant(before),
    }
}

/// Makes vacant all that isn't marked, and takes the marks off. It answers the last vacant place, and how many are
/// vacant.
fn settle(slots: &mut [Slot]) -> (Option<u32>, u32)
    requires { length slots.old ≤ 2 ^ 24 }
    ensures kept { AreKept slots.new result.0 result.1 }
    ensures nodes { map held slots.new ≡ map held_if_marked slots.old }
{
    let mut last = None;
    let mut vacancies = 0;
    for i in 0..slots.len() {
        let stays = is_marked(slots, i as u32);
        slots[i] = settled(slots[i], last);
        if !stays {
            last = Some(i as u32);
            vacancies += 1;
        }
    }
    (last, vacancies)
}

fn settled(slot: Slot, before: Option<u32>) -> Slot
    ensures { result ≡ settled before slot }
{
    match slot {
        Slot::Used(node, mark) => {
            if mark {
                Slot::Used(node, false)
            } else {
                Slot::Vacant(before)
            }
        }
        Slot::Vacant(_) => Slot::Vacant(before),
    }
}

/// Marks what the trees reach.
fn mark_trees(slots: &mut [Slot], live: &[Tree])
    requires trees { All (IsTreeOf (map held slots.old)) live.now }
    requires unmarked { NoMarks slots.old }
    ensures nodes { map held slots.new ≡ map held slots.old }
    ensures marked { (q : ℕ) → IsMarked slots.new q ↔ IsReached (map held slots.old) live.now q }
{
    for tree in live {
        if let Some(root) = tree.root {
            mark(slots, root, 0, tree.n);
        }
    }
}
