ghost use Rattle.query_cli.specs.Reading.{most_store};
ghost use Rattle.query_cli.specs.Refusals.{series_fault};
ghost use Rattle.query_cli.specs.Steps.{last_reading_in, room_in, short_in, store_in};
ghost use Rattle.query_cli.specs.Stops.{IfRefused, IsStepRefusal};
ghost use Rattle.seg_tree.specs.Linked.{used};
ghost use Rattle.segment.specs.Measure.{AreReadings};
ghost use Rattle.semantics.specs.Most.{most_readings};
ghost use Rattle.std.specs.Option.{ForSome};
ghost use Rattle.std.specs.Prelude.{◌≡◌, ◌≢◌, ◌≤◌, ◌^◌, length, unsigned_abs, Ok, OnOk, IfOk, IfErr, Some};
ghost use Rattle.store_file.specs.Added.{HasRoom, IsAddable, with_series};
ghost use Rattle.store_file.specs.Grown.{IsGrowable, grown_length, grown_store};
ghost use Rattle.store_file.specs.StoreValue.{IsStoreValue, store_image};
ghost use Rattle.store_file.specs.Stored.{store_value};

use crate::refusals::Refusal;
use crate::stop::{Stop, refuse};
use expr::Name;
use num_text::Memory;
use std::alloc::{AllocError, Global};
use store_file::{SeriesErr, Store, StoreErr, decode};

/// The command's line, and the new bytes of the store.
#[derive(Drop)]
pub(crate) struct Written {
    pub(crate) line: String,
    pub(crate) bytes: Vec<u8>,
}

/// The store for which bytes stand. Its arena has room for any series that it has room for.
pub(crate) fn store_of(alloc: Global, bytes: &[u8]) -> Result<Store, Stop>
    requires { length bytes.now ≤ most_store }
    ensures ok { IfOk result (λ s. store_in bytes.now ≡ Ok (store_value s)) }
    ensures refused { IfErr result (λ s. IfRefused s (IsStepRefusal (store_in bytes.now))) }
    ensures stands { IfOk result (λ s. store_image (store_value s) ≡ bytes.now) }
    ensures store { IfOk result (λ s. IsStoreValue (store_value s)) }
    ensures nodes { IfOk result HasRoom }
    ensures limit { IfOk result (λ s. s.arena.limit ≡ 2 ^ 24) }
    ensures count { IfOk result (λ s. used s.arena.nodes ≤ 2 ^ 21) }
{
    match decode(alloc, bytes) {
        Ok(store) => Ok(store),
        Err(StoreErr::Memory) => Err(Stop::Memory),
        Err(e) => Err(refuse(alloc, &Refusal::BadStore(e))),
    }
}

/// How many decimal places of a cell the store keeps.
pub(crate) fn scale_of(store: &Store) -> u8
    ensures value { result ≡ (store_value store.now).scale }
    ensures few { result ≤ 6 }
{
    store.scale
}

/// Refuses where the store has no room for a series of this name.
pub(crate) fn find_room(alloc: Global, store: &Store, name: Name) -> Result<(), Stop>
    ensures ok { OnOk result (room_in (store_value store.now) name ≡ Ok (store_value store.now)) }
    ensures refused { IfErr result (λ s. IfRefused s (IsStepRefusal (room_in (store_value store.now) name))) }
{
    match store.name_refusal(&name) {
        None => Ok(()),
        Some(e) => Err(refuse(alloc, &Refusal::SeriesFault(name, e))),
    }
}

/// Adds a series for which there is room.
#[tactic(auto, using(crate::proofs::StepLaws::never_refused))]
pub(crate) fn add(store: &mut Store, name: Name, xs: &[i32]) -> Result<(), AllocError>
    requires room { room_in (store_value store.old) name ≡ Ok (store_value store.old) }
    requires few { length xs.now ≤ most_readings }
    requires small { AreReadings xs.now }
    requires nodes { HasRoom store.old }
    ensures added { OnOk result (store_value store.new ≡ with_series (store_value store.old) name xs.now) }
    ensures addable { OnOk result (IsAddable (store_value store.old) name xs.now) }
{
    match store.add_series(name, xs) {
        Ok(()) => Ok(()),
        Err(SeriesErr::Memory) => Err(AllocError),
        Err(
            SeriesErr::Exists
            | SeriesErr::TooMany
            | SeriesErr::Unknown
            | SeriesErr::TooLong
            | SeriesErr::ArenaFull,
        ) => unreachable!(),
    }
}

/// The last reading of a series, where there is such a series.
pub(crate) fn last_of(alloc: Global, store: &Store, name: Name) -> Result<Option<i32>, Stop>
    ensures ok { IfOk result (λ last. last_reading_in (store_value store.now) name ≡ Ok last) }
    ensures small { IfOk result (λ last. ForSome last (λ x. unsigned_abs x ≤ 10 ^ 9)) }
    ensures refused { IfErr result (λ s. IfRefused s (IsStepRefusal (last_reading_in (store_value store.now) name))) }
{
    match store.last_reading(&name) {
        Ok(last) => Ok(last),
        Err(e) => Err(refuse(alloc, &Refusal::SeriesFault(name, e))),
    }
}

// Why a series was not given readings.
fn refuse_series(alloc: Global, name: Name, e: SeriesErr) -> Stop
    ensures { IfRefused result (λ r. (r ≡ series_fault name e) × (e ≢ SeriesErr.Memory)) }
{
    match e {
        SeriesErr::Memory => Stop::Memory,
        _ => refuse(alloc, &Refusal::SeriesFault(name, e)),
    }
}

/// Puts readings behind those of a series, and answers how many it then has.
pub(crate) fn grow(alloc: Global, store: &mut Store, name: Name, xs: &[i32]) -> Result<u32, Stop>
    requires small { AreReadings xs.now }
    requires nodes { HasRoom store.old }
    ensures ok { OnOk result (short_in (store_value store.old) name xs.now ≡ Ok xs.now) }
    ensures grown { OnOk result (store_value store.new ≡ grown_store (store_value store.old) name xs.now) }
    ensures growable { OnOk result (IsGrowable (store_value store.old) name xs.now) }
    ensures total { IfOk result (λ n. n ≡ grown_length (store_value store.old) name xs.now) }
    ensures refused { IfErr result (λ s. IfRefused s (IsStepRefusal (short_in (store_value store.old) name xs.now))) }
{
    match store.append_series(&name, xs) {
        Ok(total) => Ok(total),
        Err(e) => Err(refuse_series(alloc, name, e)),
    }
}

/// The bytes of a store.
pub(crate) fn bytes_of(store: &Store) -> Result<Vec<u8>, AllocError>
    ensures { IfOk result (λ bytes. bytes.items ≡ store_image (store_value store.now)) }
{
    match store.encode() {
        Ok(bytes) => Ok(bytes),
        Err(Memory) => Err(AllocError),
    }
}
