ghost use Rattle.std.specs.Prelude.{◌≡◌, ◌+◌, ◌^◌, ◌≤◌, ◌<◌, ◌∷◌, [], length, drop, Ok, IfOk};
ghost use Rattle.store_file.specs.StoreValue.{header_of, store_image, IsStoreValue};
ghost use Rattle.store_file.specs.Stored.{store_value, AreShort, trees_size};

use crate::header::push_header;
use crate::trees::push_trees;
use expr::Name;
use indexmap::IndexMap;
use num_text::Memory;
use seg_tree::{Arena, Tree};
use std::alloc::Global;
use std::marker::Model;
use tree_file::tree_bytes;

/// A series of a store.
#[derive(Clone, Copy, Debug, Drop)]
pub struct Stored {
    pub tree: Tree,
}

/// Series by name, in order of loading, and the nodes of their trees.
#[derive(Drop)]
pub struct Store {
    pub(crate) alloc: Global,
    /// How many digits after the point a reading has.
    pub scale: u8,
    /// The degree up to which nodes are fitted, which is that of the arena.
    pub degree: u8,
    pub series: IndexMap<Name, Stored>,
    pub arena: Arena,
}

impl Model for Store {
    ghost use Rattle.store_file.specs.Stored.{StoreParts, IsSound};

    ghost Value = { StoreParts };

    ghost view = { λ s. record { scale = s.scale; degree = s.degree; entries = s.series.entries; arena = s.arena } };

    ghost invariant = { λ s. IsSound (record {
      scale = s.scale;
      degree = s.degree;
      entries = s.series.entries;
      arena = s.arena;
    }) };
}

impl Store {
    /// A store without series, whose arena has room for `limit` nodes. It takes no memory yet.
    pub fn new(alloc: Global, scale: u8, degree: u8, limit: u32) -> Result<Store, Memory>
        requires scale { scale ≤ 6 }
        requires degree { degree ≤ 2 }
        requires some { 1 ≤ limit }
        requires few { limit ≤ 2 ^ 24 }
        ensures { result ≡ Ok (record {
          scale = scale;
          degree = degree;
          entries = [];
          arena = record { nodes = []; degree = degree; limit = limit };
        }) }
    {
        Ok(Store {
            alloc,
            scale,
            degree,
            series: IndexMap::new(alloc),
            arena: Arena::new(alloc, degree, limit),
        })
    }

    /// The header of the store's bytes: the fixed part, and for each series its name and its count of readings.
    pub fn header(&self) -> Result<Vec<u8>, Memory>
        ensures { IfOk result (λ bytes. bytes.items ≡ header_of (store_value self.now)) }
    {
        let mut bytes = Vec::with_capacity(self.alloc, HEADER)?;
        push_header(self.scale, self.degree, &self.series, &mut bytes)?;
        Ok(bytes)
    }

    /// The store's bytes: the header, and the trees in the same order.
    pub fn encode(&self) -> Result<Vec<u8>, Memory>
        ensures bytes { IfOk result (λ bytes. bytes.items ≡ store_image (store_value self.now)) }
        ensures value { IsStoreValue (store_value self.now) }
    {
        let size = HEADER + trees_len(&self.series);
        let mut bytes = Vec::with_capacity(self.alloc, size)?;
        push_header(self.scale, self.degree, &self.series, &mut bytes)?;
        push_trees(&self.series, &self.arena, &mut bytes)?;
        Ok(bytes)
    }
}

/// Room for the longest header: 16 entries of 37 bytes after the fixed part.
const HEADER: usize = 600;

/// How many bytes all trees have.
fn trees_len(series: &IndexMap<Name, Stored>) -> usize
    requires few { length series.now.entries ≤ 16 }
    requires short { AreShort series.now.entries }
    ensures size { result ≡ trees_size series.now.entries }
    ensures bound { result ≤ 2 ^ 28 }
{
    let mut len = 0;
    for i in 0..series.len() {
        let (_name, stored) = entry_at(series, i);
        len += tree_bytes(stored.tree.n) as usize;
    }
    len
}

/// The series at a place.
pub(crate) fn entry_at(series: &IndexMap<Name, Stored>, place: usize) -> (Name, Stored)
    requires { place < length series.now.entries }
    ensures { drop place series.now.entries ≡ (result.0, result.1) ∷ drop (place + 1) series.now.entries }
{
    match series.get_index(place) {
        Some((name, stored)) => (*name, *stored),
        None => unreachable!(),
    }
}
