// A shelf in memory that never fails.

ghost use Rattle.std.specs.Prelude.{◌≡◌, ◌≤◌, IfErr, IfOk, IsOkAnd, OnErr, OnOk, Ok, length, option_copied};
ghost use Rattle.std.specs.Option.{option_map};
ghost use Rattle.semantics.specs.Files.{file_of, with_file};
ghost use Rattle.outside.specs.Fetching.{IsFetched};
ghost use Rattle.outside.specs.MapFiles.{files_of};
ghost use Rattle.outside.specs.Parts.{IsPartRead};

use crate::file_bytes::Bytes;
use crate::map_files::{fetch_in, file_in, part_in, put, size_in};
use crate::shelves::{Failed, FetchErr, Fetched, ReplaceErr, Shelf};
use std::alloc::Global;
use std::collections::BTreeMap;

/// A shelf in memory that never fails, which counts nothing.
#[derive(Drop)]
pub struct SteadyShelf {
    alloc: Global,
    files: BTreeMap<String, Bytes>,
}

impl SteadyShelf {
    ghost use Rattle.outside.specs.SteadyShelves.{files_on};

    /// A shelf of these files.
    pub fn new(alloc: Global, files: BTreeMap<String, Bytes>) -> SteadyShelf
        ensures { files_on result ≡ files_of files }
    {
        SteadyShelf { alloc, files }
    }

    /// The bytes of a file.
    pub fn file(&self, name: &str) -> Option<&[u8]>
        ensures { option_copied result ≡ file_of (files_on self.now) name.now }
    {
        file_in(&self.files, name)
    }
}

impl Shelf for SteadyShelf {
    ghost use Rattle.std.specs.Prelude.{None, Some};
    ghost use Rattle.outside.specs.SteadyShelves.{files_on};

    ghost files = { λ s. Some (files_on s) };

    ghost read_faults = { λ _. 0 };

    ghost replace_faults = { λ _. 0 };

    ghost handed = { λ _. None };

    ghost fetches = { λ _. None };

    fn fetch(&mut self, name: &str, limit: u64, into: &mut Vec<u8>) -> Result<Fetched, FetchErr>
        ensures answer { IfOk result (λ found.
            IsFetched (file_of (files_on self.old) name.now) limit found into.new.items) }
        ensures within { result ≡ Ok Fetched.Whole → length into.new.items ≤ limit }
        ensures never_fails { IfErr result (λ e. e ≡ FetchErr.Memory) }
        ensures files_stay { files_on self.new ≡ files_on self.old }
    {
        fetch_in(&self.files, name, limit, into)
    }

    fn size(&mut self, name: &str) -> Result<Option<u64>, Failed>
        ensures answer { result ≡ Ok (option_map length (file_of (files_on self.old) name.now)) }
        ensures files_stay { files_on self.new ≡ files_on self.old }
    {
        Ok(size_in(&self.files, name))
    }

    fn part(&mut self, name: &str, at: u64, buf: &mut [u8]) -> Result<bool, Failed>
        ensures answer { IsOkAnd result (λ found.
            IsPartRead (file_of (files_on self.old) name.now) at found buf.old buf.new) }
        ensures files_stay { files_on self.new ≡ files_on self.old }
    {
        Ok(part_in(&self.files, name, at, buf))
    }

    fn replace(&mut self, name: &str, bytes: &[u8]) -> Result<(), ReplaceErr>
        ensures replaced { OnOk result (files_on self.new ≡ with_file (files_on self.old) name.now bytes.now) }
        ensures refused { OnErr result (files_on self.new ≡ files_on self.old) }
        ensures never_fails { IfErr result (λ e. e ≡ ReplaceErr.Memory) }
    {
        put(self.alloc, &mut self.files, name, bytes)
    }
}
