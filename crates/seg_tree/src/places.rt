ghost use Rattle.std.specs.List.{All};
ghost use Rattle.seg_tree.specs.Trees.{IsReached, IsTreeOf};
ghost use Rattle.std.specs.Prelude.{◌≡◌, ◌↔◌, ℕ, ◌+◌, ◌^◌, ◌<◌, ◌≤◌, [], OnOk, length, get_or};
ghost use Rattle.seg_tree.specs.Slots.{IsVacant, link_of, no_slot};
ghost use Rattle.seg_tree.specs.Linked.{IsPut, IsUsed, held_at, node_at, used};

use crate::sweeping::sweep_slots;
use crate::{Node, Tree};
use std::alloc::{AllocError, Global};
use std::marker::Model;

/// What stands at a place.
#[derive(Clone, Copy, Drop)]
pub(crate) enum Slot {
    /// A node, and whether a sweep has reached it.
    Used(Node, bool),
    /// No node. It names the vacant place before it.
    Vacant(Option<u32>),
}

/// Nodes by their places. A place is used or vacant, and a node is put at a vacant one.
#[derive(Drop)]
pub(crate) struct Places {
    slots: Vec<Slot>,
    /// The last vacant place.
    last: Option<u32>,
    vacancies: u32,
}

impl Model for Places {
    ghost use Rattle.seg_tree.specs.Held.{Room};

    ghost Value = { Room };

    ghost use Rattle.std.specs.Prelude.{◌+◌, ◌-◌, length, map, vec_capacity};
    ghost use Rattle.seg_tree.specs.Slots.{AreKept, held};

    ghost view = { λ p. record {
      nodes = map held p.slots.items;
      spare = p.vacancies + (vec_capacity p.slots - length p.slots.items);
    } };

    ghost invariant = { λ p. AreKept p.slots.items p.last p.vacancies };
}

impl Places {
    pub(crate) fn new(alloc: Global) -> Places
        ensures { result.nodes ≡ [] }
    {
        Places {
            slots: Vec::new(alloc),
            last: None,
            vacancies: 0,
        }
    }

    /// How many places are used.
    pub(crate) fn used(&self) -> u32
        ensures value { result ≡ used self.now.nodes }
        ensures bound { result ≤ 2 ^ 24 }
    {
        self.slots.len() as u32 - self.vacancies
    }

    /// The node at a place.
    pub(crate) fn node(&self, place: u32) -> &Node
        requires { IsUsed self.now.nodes place }
        ensures { result.now ≡ node_at self.now.nodes place }
    {
        match &self.slots[place as usize] {
            Slot::Used(node, _) => node,
            Slot::Vacant(_) => unreachable!(),
        }
    }

    /// Makes room for `more` nodes.
    pub(crate) fn reserve(&mut self, more: u32) -> Result<(), AllocError>
        ensures nodes { self.new.nodes ≡ self.old.nodes }
        ensures ok { OnOk result (more ≤ self.new.spare) }
    {
        self.slots
            .reserve(more.saturating_sub(self.vacancies) as usize)
    }

    /// Puts a node at a vacant place, and answers the place.
    pub(crate) fn put(&mut self, node: Node) -> u32
        requires few { used self.old.nodes < 2 ^ 24 }
        requires spare { 0 < self.old.spare }
        ensures put { IsPut self.old.nodes self.new.nodes result node }
        ensures spare { self.new.spare + 1 ≡ self.old.spare }
    {
        match self.last {
            None => {
                let place = self.slots.len() as u32;
                self.slots.push_reserved(Slot::Used(node, false));
                place
            }
            Some(place) => {
                self.last = before(&self.slots, place);
                self.vacancies -= 1;
                self.slots[place as usize] = Slot::Used(node, false);
                place
            }
        }
    }

    /// Makes vacant each place that none of the trees reaches.
    pub(crate) fn sweep(&mut self, live: &[Tree])
        requires { All (IsTreeOf self.old.nodes) live.now }
        ensures reached { (p : ℕ) → IsUsed self.new.nodes p ↔ IsReached self.old.nodes live.now p }
        ensures kept { (p : ℕ) → IsUsed self.new.nodes p → held_at self.new.nodes p ≡ held_at self.old.nodes p }
        ensures fewer { used self.new.nodes ≤ used self.old.nodes }
    {
        let (last, vacancies) = sweep_slots(&mut self.slots, live);
        self.last = last;
        self.vacancies = vacancies;
    }
}

/// The vacant place before a vacant one.
fn before(slots: &[Slot], place: u32) -> Option<u32>
    requires within { place < length slots.now }
    requires vacant { IsVacant (get_or slots.now place no_slot) }
    ensures { result ≡ link_of (get_or slots.now place no_slot) }
{
    match slots[place as usize] {
        Slot::Vacant(before) => before,
        Slot::Used(_, _) => unreachable!(),
    }
}
