// Output in memory.

ghost use Rattle.std.specs.Prelude.{◌≡◌, ◌≤◌, ◌++◌, ℕ, List, [], Some, OnOk, OnErr, IfErr};
ghost use Rattle.std.specs.Io.KnownBytes.{Appends};
ghost use Rattle.semantics.specs.Faults.{Rose};
ghost use Rattle.outside.specs.Calls.{cut_next};
ghost use Rattle.outside.specs.Counts.{count_after};

use crate::failing_calls::cut_next;
use crate::output::{Out, PutErr};
use std::alloc::Global;

/// Output in memory. Calls are numbered from 1, and a call fails exactly where its number is listed.
#[derive(Drop)]
pub struct MemOut {
    bytes: Vec<u8>,
    fail: Vec<(u64, u64)>,
    calls: u64,
}

impl MemOut {
    ghost use Rattle.outside.specs.MemOuts.{bytes_in, failing_puts, puts_made};

    /// An output that holds nothing. Each pair is the number of a call that is to fail and how many bytes of its piece
    /// go out first; where the piece is shorter all of it goes out.
    pub fn new(alloc: Global, fail: Vec<(u64, u64)>) -> MemOut
        ensures bytes { bytes_in result ≡ [] }
        ensures fail { failing_puts result ≡ fail.items }
        ensures no_calls { puts_made result ≡ 0 }
    {
        MemOut {
            bytes: Vec::new(alloc),
            fail,
            calls: 0,
        }
    }

    /// The bytes that were written.
    pub fn bytes(&self) -> &[u8]
        ensures { result.now ≡ bytes_in self.now }
    {
        &self.bytes
    }
}

/// Appends a piece, or nothing.
pub(crate) fn append(bytes: &mut Vec<u8>, piece: &[u8]) -> Result<(), PutErr>
    ensures ok { OnOk result (bytes.new.items ≡ bytes.old.items ++ piece.now) }
    ensures none { OnErr result (bytes.new.items ≡ bytes.old.items) }
    ensures err { IfErr result (λ e. e ≡ PutErr.Memory) }
{
    bytes.extend_from_slice(piece)?;
    Ok(())
}

impl Out for MemOut {
    ghost use Rattle.outside.specs.MemOuts.{IsPut, bytes_in, failing_puts, put_faults_of, puts_made};

    ghost written = { λ o. Some (bytes_in o) };

    ghost write_faults = { put_faults_of };

    #[tactic(auto, using(crate::proofs::CallLaws::faults_stay, crate::proofs::CallLaws::cut_rises))]
    fn put(&mut self, piece: &[u8]) -> Result<(), PutErr>
        ensures ok { OnOk result (Appends (Some (bytes_in self.old)) (Some (bytes_in self.new)) piece.now) }
        ensures cut { result ≡ Err PutErr.Failed
            → (front : List ℕ) × (rest : List ℕ) × (piece.now ≡ front ++ rest)
            × Appends (Some (bytes_in self.old)) (Some (bytes_in self.new)) front }
        ensures none { result ≡ Err PutErr.Memory
            → Appends (Some (bytes_in self.old)) (Some (bytes_in self.new)) [] }

        // It fails exactly where its number is listed, after as many bytes as the pair says.
        ensures exact { IsPut (cut_next (failing_puts self.old) (puts_made self.old))
            (bytes_in self.old) piece.now (bytes_in self.new) result }

        ensures failed { result ≡ Err PutErr.Failed → Rose (put_faults_of self.old) (put_faults_of self.new) }
        ensures faults_stay { put_faults_of self.old ≤ put_faults_of self.new }

        // One more call is made.
        ensures calls { puts_made self.new ≡ count_after (puts_made self.old) }
        ensures listed_stay { failing_puts self.new ≡ failing_puts self.old }
    {
        let cut = cut_next(&self.fail, self.calls);
        self.calls = self.calls.saturating_add(1);
        let Some(cut) = cut else {
            append(&mut self.bytes, piece)?;
            return Ok(());
        };
        let front = &piece[..cut.min(piece.len() as u64) as usize];
        append(&mut self.bytes, front)?;
        Err(PutErr::Failed)
    }
}
