ghost use Rattle.std.specs.Prelude.{◌≡◌, ◌⊎◌, ◌+◌, ◌^◌, ◌<◌, ◌≤◌, length, take, drop, [], ◌∷◌, ◌++◌, false, Ok, Err, Some, IfOk, OnOk, IfErr, MatchResult};
ghost use Rattle.std.specs.List.{All};
ghost use Rattle.std.specs.Map.{keys_of};
ghost use Rattle.seg_tree.specs.Linked.{used};
ghost use Rattle.store_file.specs.Decoded.{IsShort, bad_in, by_series, decode_of, names_of, series_in, trees_size};
ghost use Rattle.store_file.specs.Header.{fixed_of};
ghost use Rattle.store_file.specs.StoreValue.{AreNames, StoreValue, has_name, IsStoreValue, store_image};
ghost use Rattle.store_file.specs.Laws.{ImageDecodes, DecodedIsImage};
ghost use Rattle.store_file.specs.Restored.{HoldsSeries};
ghost use Rattle.store_file.specs.Stored.{store_value};

use crate::entry_reading::{FIXED, header_len, read_entries, trees_len};
use crate::tree_reading::{behind, read_tree};
use crate::{Entry, Fixed, Store, Stored, read_fixed};
use expr::Name;
use indexmap::IndexMap;
use seg_tree::{Arena, Tree};
use std::alloc::{AllocError, AllocFailed, Global};
use tree_file::tree_bytes;

#[cfg(test)]
mod tests;

/// Why bytes are no store.
#[derive(Clone, Copy, Debug, Drop, PartialEq, Eq)]
pub enum StoreErr {
    /// They have not the form of a store's bytes; the place is that of the part that is refused.
    NotAStore(u64),
    /// The node of a series, by its start and its length, isn't true of its readings.
    BadNode(Name, u32, u32),
    Memory,
}

impl From<AllocError> for StoreErr {
    ghost use Rattle.store_file.specs.declared.decoding.StoreErr.TheVariants.{Memory};

    ghost from_gives = { λ _ r. r ≡ Memory };

    fn from(_: AllocError) -> StoreErr {
        StoreErr::Memory
    }
}

impl<T: Drop> From<AllocFailed<T>> for StoreErr {
    ghost use Rattle.store_file.specs.declared.decoding.StoreErr.TheVariants.{Memory};

    ghost from_gives = { λ _ r. r ≡ Memory };

    fn from(_: AllocFailed<T>) -> StoreErr {
        StoreErr::Memory
    }
}

/// The store for which bytes stand, with an arena of limit 2^24, or the first refusal.
pub fn decode(alloc: Global, bytes: &[u8]) -> Result<Store, StoreErr>
    requires { length bytes.now ≤ 2 ^ 28 }
    ensures ok { IfOk result (λ s. decode_of bytes.now ≡ Ok (store_value s)) }
    ensures err { IfErr result (λ e. (e ≡ StoreErr.Memory) ⊎ (decode_of bytes.now ≡ Err e)) }

    // In plain words: a store is answered exactly where it has these bytes.
    ensures stands { IfOk result (λ s. store_image (store_value s) ≡ bytes.now) }
    ensures store { IfOk result (λ s. IsStoreValue (store_value s)) }
    ensures found { (m : StoreValue) → IsStoreValue m → store_image m ≡ bytes.now
        → MatchResult result (λ s. store_value s ≡ m) (λ e. e ≡ StoreErr.Memory) }

    // Its arena has room for every series that can still be added.
    ensures limit { IfOk result (λ s. s.arena.limit ≡ 2 ^ 24) }
    ensures room { IfOk result (λ s. used s.arena.nodes ≤ 2 ^ 21) }
{
    read_store(alloc, bytes)
}

/// Reads a store from its bytes.
fn read_store(alloc: Global, bytes: &[u8]) -> Result<Store, StoreErr>
    requires { length bytes.now ≤ 2 ^ 28 }
    ensures ok { IfOk result (λ s. decode_of bytes.now ≡ Ok (store_value s)) }
    ensures err { IfErr result (λ e. (e ≡ StoreErr.Memory) ⊎ (decode_of bytes.now ≡ Err e)) }
    ensures limit { IfOk result (λ s. s.arena.limit ≡ 2 ^ 24) }
    ensures room { IfOk result (λ s. used s.arena.nodes ≤ 2 ^ 21) }
{
    let fixed = fixed_part(bytes)?;
    let entries = read_entries(alloc, bytes, fixed.count)?;
    let header = header_len(&entries);
    if bytes.len() != header + trees_len(&entries) {
        return Err(StoreErr::NotAStore(header as u64));
    }
    let store = read_series(alloc, fixed, &entries, behind(bytes, header))?;
    Ok(store)
}

/// The fixed part that bytes begin with.
fn fixed_part(bytes: &[u8]) -> Result<Fixed, StoreErr>
    ensures long { OnOk result (8 ≤ length bytes.now) }
    ensures ok { IfOk result (λ f. fixed_of (take 8 bytes.now) ≡ Ok f) }
    ensures err { IfErr result (λ e. decode_of bytes.now ≡ Err e) }
{
    if bytes.len() < FIXED {
        return Err(StoreErr::NotAStore(0));
    }
    let mut fixed = [0; FIXED];
    fixed.copy_from_slice(&bytes[..FIXED]);
    match read_fixed(&fixed) {
        Ok(fixed) => Ok(fixed),
        Err(place) => Err(StoreErr::NotAStore(place)),
    }
}

/// The store with these parts of a header, whose trees are these bytes.
fn read_series(
    alloc: Global,
    fixed: Fixed,
    entries: &[Entry],
    bytes: &[u8],
) -> Result<Store, StoreErr>
    requires scale { fixed.scale ≤ 6 }
    requires degree { fixed.degree ≤ 2 }
    requires few { length entries.now ≤ 16 }
    requires names { AreNames [] (names_of entries.now) }
    requires short { All IsShort entries.now }
    requires room { length bytes.now ≡ trees_size entries.now }
    ensures ok { IfOk result (λ s. by_series fixed (series_in entries.now bytes.now) ≡ Ok (store_value s)) }
    ensures err { IfErr result (λ e. (e ≡ StoreErr.Memory)
        ⊎ (by_series fixed (series_in entries.now bytes.now) ≡ Err e)) }
    ensures limit { IfOk result (λ s. s.arena.limit ≡ 2 ^ 24) }
    ensures room { IfOk result (λ s. used s.arena.nodes ≤ 2 ^ 21) }
{
    let mut arena = Arena::new(alloc, fixed.degree, LIMIT);
    let mut series = IndexMap::new(alloc);
    push_series(alloc, entries, bytes, &mut arena, &mut series)?;
    Ok(Store {
        alloc,
        scale: fixed.scale,
        degree: fixed.degree,
        series,
        arena,
    })
}

/// The limit of the arena of a store that is read: eight times the nodes of 16 series.
const LIMIT: u32 = 1 << 24;

/// Adds the series of these entries, whose trees are these bytes.
fn push_series(
    alloc: Global,
    entries: &[Entry],
    bytes: &[u8],
    arena: &mut Arena,
    series: &mut IndexMap<Name, Stored>,
) -> Result<(), StoreErr>
    requires few { length entries.now ≤ 16 }
    requires names { AreNames [] (names_of entries.now) }
    requires short { All IsShort entries.now }
    requires room { length bytes.now ≡ trees_size entries.now }
    requires no_nodes { arena.old.nodes ≡ [] }
    requires limit { arena.old.limit ≡ 2 ^ 24 }
    requires no_series { series.old.entries ≡ [] }
    ensures added { OnOk result (HoldsSeries arena.new.nodes series.new.entries entries.now bytes.now) }
    ensures bad { IfErr result (λ e. (e ≡ StoreErr.Memory)
        ⊎ (bad_in (series_in entries.now bytes.now) ≡ Some e)) }
    ensures degree { arena.new.degree ≡ arena.old.degree }
    ensures limit { arena.new.limit ≡ arena.old.limit }
    ensures room { OnOk result (used arena.new.nodes ≤ 2 ^ 21) }
{
    let mut place = 0;
    for i in 0..entries.len() {
        let Entry { name, n } = nth_entry(entries, i);
        let tree = read_tree(alloc, name, n, behind(bytes, place), arena)?;
        add_last(series, name, tree)?;
        place += tree_bytes(n) as usize;
    }
    Ok(())
}

/// The entry at a place.
fn nth_entry(entries: &[Entry], place: usize) -> Entry
    requires { place < length entries.now }
    ensures { drop place entries.now ≡ result ∷ drop (place + 1) entries.now }
{
    entries[place]
}

/// Adds a series, last.
fn add_last(series: &mut IndexMap<Name, Stored>, name: Name, tree: Tree) -> Result<(), StoreErr>
    requires { has_name (keys_of series.old.entries) name ≡ false }
    ensures ok { OnOk result (series.new.entries ≡ series.old.entries ++ (name, record { tree = tree }) ∷ []) }
    ensures err { IfErr result (λ e. e ≡ StoreErr.Memory) }
{
    let _ = series.insert(name, Stored { tree })?;
    Ok(())
}

/// Bytes decode exactly where they are those of a store, and then to that one.
pub fn bytes_decode()
    ensures read { ImageDecodes }
    ensures written { DecodedIsImage }
{}
