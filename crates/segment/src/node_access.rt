ghost use Rattle.std.specs.Prelude.{◌≡◌, ℕ, ◌+◌, ◌-◌, ◌*◌, ◌^◌, ◌≤◌, ◌<◌, ◌↔◌, List, length, take, slice_index, Option, Some, Ok, Err, IfOk, IfSome, IsNone, OnErr, unsigned_abs};
ghost use Rattle.semantics.specs.Faults.{Rose};
ghost use Rattle.semantics.specs.Readings.{reading};
ghost use Rattle.segment.specs.Measure.{IsSane};
ghost use Rattle.segment.specs.Nodes.{Forest, IsForest, Place, IsPlaceOf, root_place, left_of, right_of, seg_at, readings_at, known_root, KeepsRoots, HandsOut};
ghost use Rattle.segment.specs.Shape.{IsSplit};
ghost use Rattle.segment.specs.declared.node_access.NodeErr.TheVariants.{Failed, Bad};
ghost use Rattle.segment.specs.declared.segments.Seg.{Seg};

use crate::Seg;

/// Why no node was handed out.
#[derive(Clone, Copy, Debug, Drop, PartialEq, Eq)]
pub enum NodeErr {
    /// The source failed.
    Failed,
    /// The nodes are true of no readings.
    Bad,
}

/// A node's children, with their segments.
#[derive(Clone, Copy, Drop)]
pub struct Children<I> {
    pub left: I,
    pub left_seg: Seg,
    pub right: I,
    pub right_seg: Seg,
}

/// The nodes of the trees of several series, read from a source that is lent to each call that may read.
///
/// An id that was handed out for a node stands for it from then on, and a root that was handed out is known from
/// then on.
pub trait Nodes {
    type Id: Copy;

    type Source;

    /// That the nodes are true of readings: they are those of these trees.
    ghost means: { Self → Self.Source → Forest → Type 0 };

    /// How often reading from the source failed.
    ghost faults: { Self.Source → ℕ };

    /// That an id stands for the node at a place.
    ghost stands: { Self → Self.Source → Self.Id → Place → Type 0 };

    /// For each series the root's segment, where it is known. They are as many as the series, as `count` says.
    ghost roots: { Self → List (Option Seg) };

    /// The bytes that the source handed out, where it tells them.
    ghost handed: { Self.Source → Option ℕ };

    /// What of the source stays in each call.
    ghost Lasting: { Type 0 };

    ghost lasting: { Self.Source → Lasting };

    /// The lengths of the series.
    ghost lengths: { Self → List ℕ };

    /// How many series there are.
    fn count(&self) -> u32
        ensures value { result ≡ length (lengths self.now) }
        ensures rooted { length (roots self.now) ≡ length (lengths self.now) };

    /// How many readings a series has.
    fn readings_len(&self, series: u32) -> u32
        requires { series < length (lengths self.now) }
        ensures value { result ≡ slice_index (lengths self.now) series }
        ensures few { result ≤ 2 ^ 20 };

    /// The root of a series, or `None` where it has no readings.
    fn root(
        &mut self,
        source: &mut Self::Source,
        series: u32,
    ) -> Result<Option<(Self::Id, Seg)>, NodeErr>
        requires { series < length (lengths self.old) }

        ensures none { IfOk result (λ o. IsNone o ↔ (slice_index (lengths self.old) series ≡ 0)) }
        ensures stands { IfOk result (λ o. IfSome o (λ r. stands self.new source.new r.0
            (root_place series (slice_index (lengths self.old) series)))) }
        ensures starts { IfOk result (λ o. IfSome o (λ r. r.1.start ≡ 0)) }
        ensures spans { IfOk result (λ o. IfSome o (λ r. r.1.len ≡ slice_index (lengths self.old) series)) }
        ensures sane { IfOk result (λ o. IfSome o (λ r. IsSane r.1 r.1.d)) }
        ensures seg { IfOk result (λ o. IfSome o (λ r. (forest : Forest) → means self.old source.old forest
            → seg_at forest (root_place series (slice_index (lengths self.old) series)) ≡ Some r.1)) }
        ensures known { IfOk result (λ o. IfSome o (λ r. known_root (roots self.new) series ≡ Some r.1)) }

        ensures failed { result ≡ Err Failed → Rose (faults source.old) (faults source.new) }
        ensures bad { result ≡ Err Bad → (forest : Forest) → means self.old source.old forest → ⊥ }

        ensures handed { HandsOut 56 (handed source.old) (handed source.new) }
        ensures handed_known { (g : Seg) → known_root (roots self.old) series ≡ Some g
            → HandsOut 0 (handed source.old) (handed source.new) }
        ensures handed_empty { slice_index (lengths self.old) series ≡ 0
            → HandsOut 0 (handed source.old) (handed source.new) }

        ensures means { (forest : Forest) → means self.old source.old forest ↔ means self.new source.new forest }
        ensures later { faults source.old ≤ faults source.new }
        ensures ids { (i : Self.Id) (p : Place) → stands self.old source.old i p → stands self.new source.new i p }
        ensures roots { KeepsRoots (roots self.old) (roots self.new) }
        ensures lasting { lasting source.new ≡ lasting source.old }
        ensures lengths { lengths self.new ≡ lengths self.old };

    /// The children of a node of more than 16 readings.
    fn children(
        &mut self,
        source: &mut Self::Source,
        id: Self::Id,
    ) -> Result<Children<Self::Id>, NodeErr>
        requires { (p : Place) × stands self.old source.old id p × (16 < p.range.len) }

        ensures left { IfOk result (λ c. (p : Place) (s : ℕ) → stands self.old source.old id p
            → IsSplit p.range.len s → stands self.new source.new c.left (left_of p s)) }
        ensures left_starts { IfOk result (λ c. (p : Place) (s : ℕ) → stands self.old source.old id p
            → IsSplit p.range.len s → c.left_seg.start ≡ p.range.start) }
        ensures left_spans { IfOk result (λ c. (p : Place) (s : ℕ) → stands self.old source.old id p
            → IsSplit p.range.len s → c.left_seg.len ≡ s) }
        ensures left_sane { IfOk result (λ c. (p : Place) (g : Seg) → stands self.old source.old id p
            → known_root (roots self.old) p.series ≡ Some g → IsSane c.left_seg g.d) }
        ensures left_seg { IfOk result (λ c. (p : Place) (s : ℕ) (forest : Forest)
            → stands self.old source.old id p → IsSplit p.range.len s → means self.old source.old forest
            → seg_at forest (left_of p s) ≡ Some c.left_seg) }

        ensures right { IfOk result (λ c. (p : Place) (s : ℕ) → stands self.old source.old id p
            → IsSplit p.range.len s → stands self.new source.new c.right (right_of p s)) }
        ensures right_starts { IfOk result (λ c. (p : Place) (s : ℕ) → stands self.old source.old id p
            → IsSplit p.range.len s → c.right_seg.start ≡ p.range.start + s) }
        ensures right_spans { IfOk result (λ c. (p : Place) (s : ℕ) → stands self.old source.old id p
            → IsSplit p.range.len s → c.right_seg.len ≡ p.range.len - s) }
        ensures right_sane { IfOk result (λ c. (p : Place) (g : Seg) → stands self.old source.old id p
            → known_root (roots self.old) p.series ≡ Some g → IsSane c.right_seg g.d) }
        ensures right_seg { IfOk result (λ c. (p : Place) (s : ℕ) (forest : Forest)
            → stands self.old source.old id p → IsSplit p.range.len s → means self.old source.old forest
            → seg_at forest (right_of p s) ≡ Some c.right_seg) }

        ensures failed { result ≡ Err Failed → Rose (faults source.old) (faults source.new) }
        ensures bad { result ≡ Err Bad → (forest : Forest) → means self.old source.old forest → ⊥ }

        ensures handed { HandsOut 112 (handed source.old) (handed source.new) }

        ensures means { (forest : Forest) → means self.old source.old forest ↔ means self.new source.new forest }
        ensures later { faults source.old ≤ faults source.new }
        ensures ids { (i : Self.Id) (p : Place) → stands self.old source.old i p → stands self.new source.new i p }
        ensures roots { KeepsRoots (roots self.old) (roots self.new) }
        ensures lasting { lasting source.new ≡ lasting source.old }
        ensures lengths { lengths self.new ≡ lengths self.old };

    /// The readings of a node of at most 16, at the front of `into`, and how many there are.
    fn readings(
        &mut self,
        source: &mut Self::Source,
        id: Self::Id,
        into: &mut [i32; 16],
    ) -> Result<u32, NodeErr>
        requires { (p : Place) × stands self.old source.old id p × (p.range.len ≤ 16) }

        ensures len { IfOk result (λ n. (p : Place) → stands self.old source.old id p → n ≡ p.range.len) }
        ensures small { IfOk result (λ n. (p : Place) (g : Seg) (i : ℕ) → stands self.old source.old id p
            → known_root (roots self.old) p.series ≡ Some g → i < n
            → unsigned_abs (reading into.new i) ≤ g.d) }
        ensures readings { IfOk result (λ n. (p : Place) (forest : Forest) → stands self.old source.old id p
            → means self.old source.old forest → take n into.new ≡ readings_at forest p) }
        ensures err { OnErr result (into.new ≡ into.old) }

        ensures failed { result ≡ Err Failed → Rose (faults source.old) (faults source.new) }
        ensures bad { result ≡ Err Bad → (forest : Forest) → means self.old source.old forest → ⊥ }

        ensures handed { (p : Place) → stands self.old source.old id p
            → HandsOut (4 * p.range.len) (handed source.old) (handed source.new) }

        ensures means { (forest : Forest) → means self.old source.old forest ↔ means self.new source.new forest }
        ensures later { faults source.old ≤ faults source.new }
        ensures ids { (i : Self.Id) (p : Place) → stands self.old source.old i p → stands self.new source.new i p }
        ensures roots { KeepsRoots (roots self.old) (roots self.new) }
        ensures lasting { lasting source.new ≡ lasting source.old }
        ensures lengths { lengths self.new ≡ lengths self.old };

    /// The trees are those of series of these lengths.
    ghost fits: { (nodes : Self) (source : Self.Source) (forest : Forest) → means nodes source forest
        → IsForest (lengths nodes) forest };

    /// An id stands for a place in the shape of a series whose root is known.
    ghost placed: { (nodes : Self) (source : Self.Source) (i : Self.Id) (p : Place) → stands nodes source i p
        → IsPlaceOf (lengths nodes) (roots nodes) p };
}
