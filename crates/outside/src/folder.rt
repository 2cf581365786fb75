// The files of the current folder.

ghost use Rattle.std.specs.Prelude.{◌≡◌, ◌≢◌, ◌≤◌, None, OnErr, OnOk, length};
ghost use Rattle.semantics.specs.Faults.{Rose};
ghost use Rattle.outside.specs.Counts.{count_after};
ghost use Rattle.outside.specs.Parts.{HandedBy, RisesBy};
ghost use Rattle.outside.specs.Untold.{untold};

use crate::kept_file::KeptFile;
use crate::opening::found;
use crate::shelves::{Failed, FetchErr, Fetched, ReplaceErr, Shelf};
use crate::whole_files::read_up_to;
use crate::whole_pieces::write_whole;
use std::alloc::Global;
use std::fs::{self, File, OpenFile};
use std::marker::Model;
use std::rt::Files;

/// The files of the current folder. It tells none of them, and counts each error of the system. A file is written anew
/// as NAME.new, which is then renamed over NAME; after a fault NAME.new may be left behind. The file whose parts are
/// read stays open until another one's are, or until a file is written anew.
#[derive(Drop)]
pub struct DirShelf<'a, R: Files<File = File>> {
    alloc: Global,
    rt: &'a R,
    read_faults: u64,
    replace_faults: u64,
    kept: Option<KeptFile>,
}

impl<'a, R: Files<File = File>> Model for DirShelf<'a, R> {
    ghost use Rattle.outside.specs.Counts.{FaultCounts};

    ghost Value = { FaultCounts };

    ghost view = { λ s. record { reads = s.read_faults; replaces = s.replace_faults } };
}

impl<'a, R: Files<File = File>> DirShelf<'a, R> {
    pub fn new(alloc: Global, rt: &'a R) -> DirShelf<'a, R>
        ensures reads { result.reads ≡ 0 }
        ensures replaces { result.replaces ≡ 0 }
    {
        DirShelf {
            alloc,
            rt,
            read_faults: 0,
            replace_faults: 0,
            kept: None,
        }
    }

    // The file of a name, which may be open already, or `None` where there is none.
    fn take_open(&mut self, name: &str) -> Result<Option<KeptFile>, Failed>
        ensures { self.new ≡ self.old }
    {
        match self.kept.take() {
            Some(kept) if kept.is_of(name) => Ok(Some(kept)),
            _ => KeptFile::open(self.alloc, self.rt, name),
        }
    }

    fn size_of(&mut self, name: &str) -> Result<Option<u64>, Failed>
        ensures { self.new ≡ self.old }
    {
        let Some(file) = self.take_open(name)? else {
            return Ok(None);
        };
        let len = file.len();
        self.kept = Some(file);
        Ok(Some(len))
    }

    fn read_part(&mut self, name: &str, at: u64, buf: &mut [u8]) -> Result<bool, Failed>
        ensures stays { self.new ≡ self.old }
        ensures long { length buf.new ≡ length buf.old }
    {
        let Some(mut file) = self.take_open(name)? else {
            return Ok(false);
        };
        let answer = file.part(self.alloc, at, buf);
        self.kept = Some(file);
        answer
    }
}

// Reads a file whole.
fn read_file<R: Files<File = File>>(
    rt: &R,
    name: &str,
    limit: u64,
    into: &mut Vec<u8>,
) -> Result<Fetched, FetchErr>
    ensures within { result ≡ Ok Fetched.Whole → length into.new.items ≤ limit }
{
    let Ok(opened) = found(fs::open(rt, name)) else {
        return Err(FetchErr::Failed);
    };
    let Some(mut file) = opened else {
        return Ok(Fetched::Absent);
    };
    let Ok(data) = file.metadata() else {
        return Err(FetchErr::Failed);
    };
    read_up_to(&mut file, data.len(), limit, into)
}

// Makes a file of these bytes, or says false at a fault.
fn write_file<R: Files<File = File>>(rt: &R, name: &str, bytes: &[u8]) -> bool {
    match fs::create(rt, name) {
        Ok(mut file) => write_whole(&mut file, bytes),
        Err(_) => false,
    }
}

// Writes the file NAME.new and renames it over NAME.
fn replace_file<R: Files<File = File>>(
    alloc: Global,
    rt: &R,
    name: &str,
    bytes: &[u8],
) -> Result<(), ReplaceErr> {
    let fresh = format!(in alloc; "{name}.new")?;
    if write_file(rt, fresh.as_str(), bytes) && fs::rename(rt, fresh.as_str(), name).is_ok() {
        Ok(())
    } else {
        Err(ReplaceErr::Failed)
    }
}

impl<'a, R: Files<File = File>> Shelf for DirShelf<'a, R> {
    ghost use Rattle.std.specs.Prelude.{None};
    ghost use Rattle.outside.specs.Untold.{untold};

    ghost files = { λ _. untold };

    ghost read_faults = { λ s. s.reads };

    ghost replace_faults = { λ s. s.replaces };

    ghost handed = { λ _. None };

    ghost fetches = { λ _. None };

    fn fetch(&mut self, name: &str, limit: u64, into: &mut Vec<u8>) -> Result<Fetched, FetchErr>
        ensures within { result ≡ Ok Fetched.Whole → length into.new.items ≤ limit }
        ensures failed { result ≡ Err FetchErr.Failed → Rose self.old.reads self.new.reads }
        ensures read_faults_stay { self.old.reads ≤ self.new.reads }
        ensures replace_faults_stay { self.new.replaces ≡ self.old.replaces }
        ensures fetches { RisesBy 1 None None }

        // The count rises by one, and at a fault alone.
        ensures by_one { result ≡ Err FetchErr.Failed → self.new.reads ≡ count_after self.old.reads }
        ensures nowhere_else { result ≢ Err FetchErr.Failed → self.new.reads ≡ self.old.reads }
    {
        let answer = read_file(self.rt, name, limit, into);
        if answer == Err(FetchErr::Failed) {
            self.read_faults = self.read_faults.saturating_add(1);
        }
        answer
    }

    fn size(&mut self, name: &str) -> Result<Option<u64>, Failed>
        ensures failed { OnErr result (Rose self.old.reads self.new.reads) }
        ensures read_faults_stay { self.old.reads ≤ self.new.reads }
        ensures replace_faults_stay { self.new.replaces ≡ self.old.replaces }

        // The count rises by one, and at a fault alone.
        ensures by_one { OnErr result (self.new.reads ≡ count_after self.old.reads) }
        ensures nowhere_else { OnOk result (self.new.reads ≡ self.old.reads) }
    {
        let answer = self.size_of(name);
        if answer.is_err() {
            self.read_faults = self.read_faults.saturating_add(1);
        }
        answer
    }

    fn part(&mut self, name: &str, at: u64, buf: &mut [u8]) -> Result<bool, Failed>
        ensures failed { OnErr result (Rose self.old.reads self.new.reads) }
        ensures read_faults_stay { self.old.reads ≤ self.new.reads }
        ensures replace_faults_stay { self.new.replaces ≡ self.old.replaces }
        ensures handed { HandedBy result (length buf.old) None None }

        // The count rises by one, and at a fault alone.
        ensures by_one { OnErr result (self.new.reads ≡ count_after self.old.reads) }
        ensures nowhere_else { OnOk result (self.new.reads ≡ self.old.reads) }
    {
        let answer = self.read_part(name, at, buf);
        if answer.is_err() {
            self.read_faults = self.read_faults.saturating_add(1);
        }
        answer
    }

    fn replace(&mut self, name: &str, bytes: &[u8]) -> Result<(), ReplaceErr>
        ensures refused { OnErr result (untold ≡ untold) }
        ensures failed { result ≡ Err ReplaceErr.Failed → Rose self.old.replaces self.new.replaces }
        ensures replace_faults_stay { self.old.replaces ≤ self.new.replaces }
        ensures read_faults_stay { self.new.reads ≡ self.old.reads }

        // The count rises by one, and at a fault alone.
        ensures by_one { result ≡ Err ReplaceErr.Failed → self.new.replaces ≡ count_after self.old.replaces }
        ensures nowhere_else { result ≢ Err ReplaceErr.Failed → self.new.replaces ≡ self.old.replaces }
    {
        self.kept = None;
        let answer = replace_file(self.alloc, self.rt, name, bytes);
        if answer == Err(ReplaceErr::Failed) {
            self.replace_faults = self.replace_faults.saturating_add(1);
        }
        answer
    }
}
