// Files that a map holds.

ghost use Rattle.std.specs.Prelude.{◌≡◌, ◌≤◌, IfErr, IfOk, OnErr, OnOk, Some, length, option_copied};
ghost use Rattle.std.specs.Option.{option_map};
ghost use Rattle.semantics.specs.Files.{file_of, with_file};
ghost use Rattle.outside.specs.Fetching.{IsFetched};
ghost use Rattle.outside.specs.MapFiles.{files_of};
ghost use Rattle.outside.specs.Parts.{IsPartRead};

use crate::file_bytes::Bytes;
use crate::shelves::{FetchErr, Fetched, ReplaceErr};
use std::alloc::{AllocError, Global};
use std::collections::BTreeMap;

/// The bytes of a file.
#[tactic(auto, using(crate::proofs::FileLaws::file_of_map))]
pub(crate) fn file_in<'a>(files: &'a BTreeMap<String, Bytes>, name: &str) -> Option<&'a [u8]>
    ensures { option_copied result ≡ file_of (files_of files.now) name.now }
{
    match files.get(name) {
        None => None,
        Some(bytes) => Some(bytes.as_slice()),
    }
}

/// Puts a file's bytes in the place of those that `into` holds, where they are no more than `limit`.
pub(crate) fn fetch_in(
    files: &BTreeMap<String, Bytes>,
    name: &str,
    limit: u64,
    into: &mut Vec<u8>,
) -> Result<Fetched, FetchErr>
    ensures answer { IfOk result (λ found.
        IsFetched (file_of (files_of files.now) name.now) limit found into.new.items) }
    ensures within { result ≡ Ok Fetched.Whole → length into.new.items ≤ limit }
    ensures err { IfErr result (λ e. e ≡ FetchErr.Memory) }
{
    let Some(held) = file_in(files, name) else {
        return Ok(Fetched::Absent);
    };
    if held.len() as u64 > limit {
        return Ok(Fetched::OverLimit);
    }
    fill(into, held)?;
    Ok(Fetched::Whole)
}

// Puts these bytes in the place of those that are there.
fn fill(into: &mut Vec<u8>, held: &[u8]) -> Result<(), FetchErr>
    ensures ok { OnOk result (into.new.items ≡ held.now) }
    ensures err { IfErr result (λ e. e ≡ FetchErr.Memory) }
{
    into.clear();
    into.extend_from_slice(held)?;
    Ok(())
}

/// The length of a file.
pub(crate) fn size_in(files: &BTreeMap<String, Bytes>, name: &str) -> Option<u64>
    ensures { result ≡ option_map length (file_of (files_of files.now) name.now) }
{
    match file_in(files, name) {
        Some(bytes) => Some(bytes.len() as u64),
        None => None,
    }
}

/// Fills `buf` with the bytes of a file from `at` on, or says false where the file ends before or there is none.
pub(crate) fn part_in(files: &BTreeMap<String, Bytes>, name: &str, at: u64, buf: &mut [u8]) -> bool
    ensures { IsPartRead (file_of (files_of files.now) name.now) at result buf.old buf.new }
{
    match file_in(files, name) {
        Some(bytes) => copy_part(bytes, at, buf),
        None => false,
    }
}

/// Copies the bytes from a place on, where there are as many, or says false.
pub(crate) fn copy_part(bytes: &[u8], at: u64, buf: &mut [u8]) -> bool
    ensures { IsPartRead (Some bytes.now) at result buf.old buf.new }
{
    let len = bytes.len() as u64;
    if at > len || len - at < buf.len() as u64 {
        return false;
    }
    let from = at as usize;
    buf.copy_from_slice(&bytes[from..from + buf.len()]);
    true
}

/// Writes a file anew, or leaves all as they are.
pub(crate) fn put(
    alloc: Global,
    files: &mut BTreeMap<String, Bytes>,
    name: &str,
    bytes: &[u8],
) -> Result<(), ReplaceErr>
    ensures ok { OnOk result (files_of files.new ≡ with_file (files_of files.old) name.now bytes.now) }
    ensures stay { OnErr result (files_of files.new ≡ files_of files.old) }
    ensures err { IfErr result (λ e. e ≡ ReplaceErr.Memory) }
{
    let name = String::from_str(alloc, name)?;
    let held = Vec::from_slice(alloc, bytes)?;
    match files.insert(name, Bytes::of(held)) {
        Ok(_) => Ok(()),
        Err(e) => Err(AllocError::from(e).into()),
    }
}
