// A shelf in memory.

ghost use Rattle.std.specs.Prelude.{◌≡◌, ◌≤◌, ◌↔◌, IsTrue, IfErr, IfOk, None, OnErr, OnOk, Some, length, option_copied};
ghost use Rattle.semantics.specs.Faults.{Rose};
ghost use Rattle.semantics.specs.Files.{file_of, with_file};
ghost use Rattle.outside.specs.Calls.{fails_next};
ghost use Rattle.outside.specs.Counts.{count_after};
ghost use Rattle.outside.specs.Fetching.{IsFetched};
ghost use Rattle.outside.specs.Parts.{IsPartRead, RisesBy};
ghost use Rattle.outside.specs.MapFiles.{files_of};

use crate::failing_calls::fails_next;
use crate::file_bytes::Bytes;
use crate::map_files::{fetch_in, file_in, part_in, put, size_in};
use crate::shelves::{Failed, FetchErr, Fetched, ReplaceErr, Shelf};
use std::alloc::Global;
use std::collections::BTreeMap;

/// A shelf in memory. Reading calls and replacing calls are each numbered from 1, and a call fails exactly where its
/// number is listed.
#[derive(Drop)]
pub struct MemShelf {
    alloc: Global,
    files: BTreeMap<String, Bytes>,
    fail_reads: Vec<u64>,
    reads: u64,
    fail_replaces: Vec<u64>,
    replaces: u64,
    /// How many bytes were handed out in parts, while the number fits.
    handed: Option<u64>,
    /// How often a file was fetched, while the number fits.
    fetches: Option<u64>,
}

impl MemShelf {
    ghost use Rattle.outside.specs.MemShelves.{bytes_handed, failing_reads, failing_replaces, fetches_made, files_in, read_faults_of, reads_made, replaces_made};

    /// A shelf of these files, with the numbers of the calls that are to fail.
    pub fn new(
        alloc: Global,
        files: BTreeMap<String, Bytes>,
        fail_reads: Vec<u64>,
        fail_replaces: Vec<u64>,
    ) -> MemShelf
        ensures files { files_in result ≡ files_of files }
        ensures reads { failing_reads result ≡ fail_reads.items }
        ensures replaces { failing_replaces result ≡ fail_replaces.items }
        ensures no_reads { reads_made result ≡ 0 }
        ensures no_replaces { replaces_made result ≡ 0 }
        ensures no_bytes { bytes_handed result ≡ Some 0 }
        ensures no_fetches { fetches_made result ≡ Some 0 }
    {
        MemShelf {
            alloc,
            files,
            fail_reads,
            reads: 0,
            fail_replaces,
            replaces: 0,
            handed: Some(0),
            fetches: Some(0),
        }
    }

    /// The bytes of a file.
    pub fn file(&self, name: &str) -> Option<&[u8]>
        ensures { option_copied result ≡ file_of (files_in self.now) name.now }
    {
        file_in(&self.files, name)
    }

    // One more reading call is made: whether it is to fail.
    #[tactic(auto, using(crate::proofs::CallLaws::faults_stay, crate::proofs::CallLaws::fault_rises))]
    fn fails_reading(&mut self) -> bool
        ensures fails { result ≡ fails_next (failing_reads self.old) (reads_made self.old) }
        ensures failed { IsTrue result → Rose (read_faults_of self.old) (read_faults_of self.new) }
        ensures stay { read_faults_of self.old ≤ read_faults_of self.new }
        ensures one_more { self.new ≡ record self.old { reads = count_after (reads_made self.old) } }
    {
        let fails = fails_next(&self.fail_reads, self.reads);
        self.reads = self.reads.saturating_add(1);
        fails
    }
}

impl Shelf for MemShelf {
    ghost use Rattle.outside.specs.MemShelves.{bytes_handed, failing_reads, failing_replaces, fetches_made, files_in, read_faults_of, reads_made, replace_faults_of, replaces_made};

    ghost files = { λ s. Some (files_in s) };

    ghost read_faults = { read_faults_of };

    ghost replace_faults = { replace_faults_of };

    ghost handed = { bytes_handed };

    ghost fetches = { fetches_made };

    #[tactic(auto, using(crate::proofs::CallLaws::faults_stay, crate::proofs::CallLaws::fault_rises))]
    fn fetch(&mut self, name: &str, limit: u64, into: &mut Vec<u8>) -> Result<Fetched, FetchErr>
        ensures answer { IfOk result (λ found.
            IsFetched (file_of (files_in self.old) name.now) limit found into.new.items) }
        ensures within { result ≡ Ok Fetched.Whole → length into.new.items ≤ limit }
        ensures files_stay { files_in self.new ≡ files_in self.old }

        // It fails exactly where its number is listed.
        ensures fails { (result ≡ Err FetchErr.Failed)
            ↔ IsTrue (fails_next (failing_reads self.old) (reads_made self.old)) }
        ensures failed { result ≡ Err FetchErr.Failed → Rose (read_faults_of self.old) (read_faults_of self.new) }
        ensures read_faults_stay { read_faults_of self.old ≤ read_faults_of self.new }
        ensures replace_faults_stay { replace_faults_of self.new ≡ replace_faults_of self.old }

        ensures handed_stays { bytes_handed self.new ≡ bytes_handed self.old }
        ensures fetches { RisesBy 1 (fetches_made self.old) (fetches_made self.new) }

        // One more reading call is made.
        ensures reads { reads_made self.new ≡ count_after (reads_made self.old) }
        ensures replaces_stay { replaces_made self.new ≡ replaces_made self.old }
        ensures listed_reads_stay { failing_reads self.new ≡ failing_reads self.old }
        ensures listed_replaces_stay { failing_replaces self.new ≡ failing_replaces self.old }
    {
        self.fetches = risen(self.fetches, 1);
        if self.fails_reading() {
            return Err(FetchErr::Failed);
        }
        fetch_in(&self.files, name, limit, into)
    }

    #[tactic(auto, using(crate::proofs::CallLaws::faults_stay, crate::proofs::CallLaws::fault_rises))]
    fn replace(&mut self, name: &str, bytes: &[u8]) -> Result<(), ReplaceErr>
        ensures replaced { OnOk result (files_in self.new ≡ with_file (files_in self.old) name.now bytes.now) }
        ensures refused { OnErr result (files_in self.new ≡ files_in self.old) }

        // It fails exactly where its number is listed.
        ensures fails { (result ≡ Err ReplaceErr.Failed)
            ↔ IsTrue (fails_next (failing_replaces self.old) (replaces_made self.old)) }
        ensures failed { result ≡ Err ReplaceErr.Failed
            → Rose (replace_faults_of self.old) (replace_faults_of self.new) }
        ensures replace_faults_stay { replace_faults_of self.old ≤ replace_faults_of self.new }
        ensures read_faults_stay { read_faults_of self.new ≡ read_faults_of self.old }

        ensures handed_stays { bytes_handed self.new ≡ bytes_handed self.old }
        ensures fetches_stay { fetches_made self.new ≡ fetches_made self.old }

        // One more replacing call is made.
        ensures replaces { replaces_made self.new ≡ count_after (replaces_made self.old) }
        ensures reads_stay { reads_made self.new ≡ reads_made self.old }
        ensures listed_reads_stay { failing_reads self.new ≡ failing_reads self.old }
        ensures listed_replaces_stay { failing_replaces self.new ≡ failing_replaces self.old }
    {
        let fails = fails_next(&self.fail_replaces, self.replaces);
        self.replaces = self.replaces.saturating_add(1);
        if fails {
            return Err(ReplaceErr::Failed);
        }
        put(self.alloc, &mut self.files, name, bytes)
    }

    #[tactic(auto, using(crate::proofs::CallLaws::faults_stay, crate::proofs::CallLaws::fault_rises))]
    fn size(&mut self, name: &str) -> Result<Option<u64>, Failed> {
        if self.fails_reading() {
            return Err(Failed);
        }
        Ok(size_in(&self.files, name))
    }

    #[tactic(auto, using(crate::proofs::CallLaws::faults_stay, crate::proofs::CallLaws::fault_rises))]
    fn part(&mut self, name: &str, at: u64, buf: &mut [u8]) -> Result<bool, Failed> {
        if self.fails_reading() {
            return Err(Failed);
        }
        let found = part_in(&self.files, name, at, buf);
        if found {
            self.handed = risen(self.handed, buf.len() as u64);
        }
        Ok(found)
    }
}

/// A number that rises, while it fits.
fn risen(count: Option<u64>, by: u64) -> Option<u64>
    ensures { RisesBy by count result }
{
    count?.checked_add(by)
}
