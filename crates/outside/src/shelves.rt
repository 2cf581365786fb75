// A shelf of files.

ghost use Rattle.std.specs.Prelude.{◌≡◌, ◌≤◌, ℕ, IfOk, None, OnErr, OnOk, Option, Some, length};
ghost use Rattle.semantics.specs.Faults.{Rose};
ghost use Rattle.semantics.specs.Files.{Files, IfTold, file_of, with_file};
ghost use Rattle.std.specs.Option.{option_map};
ghost use Rattle.outside.specs.Fetching.{IsFetched};
ghost use Rattle.outside.specs.declared.shelves.FetchErr.TheVariants as fetch;
ghost use Rattle.outside.specs.declared.shelves.ReplaceErr.TheVariants as replace;
ghost use Rattle.outside.specs.Parts.{HandedBy, IsPartRead, RisesBy};

use std::alloc::AllocError;

/// A call of the system that failed.
#[derive(Clone, Copy, Debug, PartialEq, Eq)]
pub struct Failed;

/// What a fetch found.
#[derive(Clone, Copy, Debug, PartialEq, Eq)]
pub enum Fetched {
    Whole,
    Absent,
    OverLimit,
}

/// Why a fetch found nothing out.
#[derive(Clone, Copy, Debug, PartialEq, Eq)]
pub enum FetchErr {
    Failed,
    Memory,
}

impl From<AllocError> for FetchErr {
    ghost from_gives = { λ _ e. e ≡ fetch.Memory };

    fn from(_e: AllocError) -> FetchErr {
        FetchErr::Memory
    }
}

/// Why a file was not written anew.
#[derive(Clone, Copy, Debug, PartialEq, Eq)]
pub enum ReplaceErr {
    Failed,
    Memory,
}

impl From<AllocError> for ReplaceErr {
    ghost from_gives = { λ _ e. e ≡ replace.Memory };

    fn from(_e: AllocError) -> ReplaceErr {
        ReplaceErr::Memory
    }
}

pub trait Shelf {
    /// The files by name, where the shelf tells them.
    ghost files: { Self → Option Files };

    /// How often a reading call has failed.
    ghost read_faults: { Self → ℕ };

    /// How often a replacing call has failed.
    ghost replace_faults: { Self → ℕ };

    /// How many bytes `part` handed out, where the shelf tells it.
    ghost handed: { Self → Option ℕ };

    /// How often `fetch` was called, where the shelf tells it.
    ghost fetches: { Self → Option ℕ };

    /// Reads a file whole, where it is no longer than `limit` bytes. After any answer but `Whole` nothing is known of
    /// `into`.
    fn fetch(&mut self, name: &str, limit: u64, into: &mut Vec<u8>) -> Result<Fetched, FetchErr>
        ensures answer { IfTold (files self.old) (λ m.
            IfOk result (λ found. IsFetched (file_of m name.now) limit found into.new.items)) }
        ensures within { result ≡ Ok Fetched.Whole → length into.new.items ≤ limit }
        ensures files_stay { files self.new ≡ files self.old }
        ensures failed { result ≡ Err FetchErr.Failed → Rose (read_faults self.old) (read_faults self.new) }
        ensures read_faults_stay { read_faults self.old ≤ read_faults self.new }
        ensures replace_faults_stay { replace_faults self.new ≡ replace_faults self.old }
        ensures handed_stays { handed self.new ≡ handed self.old }
        ensures fetches { RisesBy 1 (fetches self.old) (fetches self.new) };

    /// The length of a file, or `None` where there is no such file.
    fn size(&mut self, name: &str) -> Result<Option<u64>, Failed>
        ensures answer { IfTold (files self.old) (λ m.
            IfOk result (λ o. o ≡ option_map length (file_of m name.now))) }
        ensures files_stay { files self.new ≡ files self.old }
        ensures failed { OnErr result (Rose (read_faults self.old) (read_faults self.new)) }
        ensures read_faults_stay { read_faults self.old ≤ read_faults self.new }
        ensures replace_faults_stay { replace_faults self.new ≡ replace_faults self.old }
        ensures handed_stays { handed self.new ≡ handed self.old }
        ensures fetches_stay { fetches self.new ≡ fetches self.old };

    /// Fills `buf` with the bytes of a file from `at` on, or answers false where the file ends before.
    fn part(&mut self, name: &str, at: u64, buf: &mut [u8]) -> Result<bool, Failed>
        ensures answer { IfTold (files self.old) (λ m.
            IfOk result (λ found. IsPartRead (file_of m name.now) at found buf.old buf.new)) }
        ensures files_stay { files self.new ≡ files self.old }
        ensures failed { OnErr result (Rose (read_faults self.old) (read_faults self.new)) }
        ensures read_faults_stay { read_faults self.old ≤ read_faults self.new }
        ensures replace_faults_stay { replace_faults self.new ≡ replace_faults self.old }
        ensures handed { HandedBy result (length buf.old) (handed self.old) (handed self.new) }
        ensures fetches_stay { fetches self.new ≡ fetches self.old };

    /// Writes a file anew, whatever stood there. After a refusal the files are as before.
    fn replace(&mut self, name: &str, bytes: &[u8]) -> Result<(), ReplaceErr>
        ensures replaced { IfTold (files self.old) (λ m.
            OnOk result (files self.new ≡ Some (with_file m name.now bytes.now))) }
        ensures untold_stay { files self.old ≡ None → files self.new ≡ None }
        ensures refused { OnErr result (files self.new ≡ files self.old) }
        ensures failed { result ≡ Err ReplaceErr.Failed → Rose (replace_faults self.old) (replace_faults self.new) }
        ensures replace_faults_stay { replace_faults self.old ≤ replace_faults self.new }
        ensures read_faults_stay { read_faults self.new ≡ read_faults self.old }
        ensures handed_stays { handed self.new ≡ handed self.old }
        ensures fetches_stay { fetches self.new ≡ fetches self.old };
}
