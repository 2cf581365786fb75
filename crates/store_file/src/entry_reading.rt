ghost use Rattle.std.specs.Prelude.{◌≡◌, ◌⊎◌, ◌+◌, ◌*◌, ◌^◌, ◌≤◌, ◌<◌, ℕ, length, drop, [], Ok, Err, IfOk, IfErr};
ghost use Rattle.std.specs.List.{All};
ghost use Rattle.store_file.specs.Decoded.{IsShort, entries_in, entries_size, first_entry, names_of, trees_size};
ghost use Rattle.store_file.specs.StoreValue.{has_name};

use crate::header::VERSION;
use crate::{Entry, StoreErr, entry_len, read_entry};
use expr::Name;
use std::alloc::Global;
use tree_file::tree_bytes;

/// The bytes of the fixed part of a header.
pub(crate) const FIXED: usize = 8;

/// Reads the entries of a header, which stand behind its fixed part.
pub(crate) fn read_entries(alloc: Global, bytes: &[u8], count: u8) -> Result<Vec<Entry>, StoreErr>
    requires { 8 ≤ length bytes.now }
    ensures ok { IfOk result (λ es. entries_in count 8 [] (drop 8 bytes.now) ≡ Ok es.items) }
    ensures err { IfErr result (λ e. (e ≡ StoreErr.Memory)
        ⊎ ((place : ℕ) × (e ≡ StoreErr.NotAStore place)
        × (entries_in count 8 [] (drop 8 bytes.now) ≡ Err place))) }
{
    let mut entries = Vec::new(alloc);
    let mut place = FIXED;
    'entries: for _ in 0..count {
        let Some(entry) = entry_at(bytes, place) else {
            return Err(StoreErr::NotAStore(place as u64))
        };
        if has(&entries, &entry.name) {
            return Err(StoreErr::NotAStore(place as u64));
        }
        place += len_of(entry);
        entries.push(entry)?;
    }
    Ok(entries)
}

/// The entry that stands at a place.
fn entry_at(bytes: &[u8], place: usize) -> Option<Entry>
    requires { place ≤ length bytes.now }
    ensures { result ≡ first_entry (drop place bytes.now) }
{
    if place == bytes.len() {
        return None;
    }
    let len = match entry_len(VERSION, bytes[place]) {
        Some(len) => len as usize,
        None => return None,
    };
    if bytes.len() - place < len {
        return None;
    }
    read_entry(VERSION, &bytes[place..place + len])
}

/// Whether an entry has the name.
fn has(entries: &[Entry], name: &Name) -> bool
    ensures { result ≡ has_name (names_of entries.now) name.now }
{
    for entry in entries {
        if *name == entry.name {
            return true;
        }
    }
    false
}

/// How many bytes an entry has.
fn len_of(entry: Entry) -> usize
    ensures value { result ≡ length entry.name + 5 }
    ensures bound { result ≤ 37 }
{
    entry.name.bytes().len() + 5
}

/// How many bytes the header with these entries has.
pub(crate) fn header_len(entries: &[Entry]) -> usize
    requires { length entries.now ≤ 16 }
    ensures value { result ≡ 8 + entries_size entries.now }
    ensures bound { result ≤ 600 }
{
    let mut len = FIXED;
    for entry in entries {
        len += len_of(*entry);
    }
    len
}

/// How many bytes the trees of these entries have.
pub(crate) fn trees_len(entries: &[Entry]) -> usize
    requires few { length entries.now ≤ 16 }
    requires short { All IsShort entries.now }
    ensures value { result ≡ trees_size entries.now }
    ensures bound { result ≤ 2 ^ 28 }
{
    let mut len = 0;
    for entry in entries {
        len += tree_bytes(entry.n) as usize;
    }
    len
}
