// Where output goes.

ghost use Rattle.std.specs.Prelude.{◌≡◌, ◌≤◌, ◌++◌, ℕ, List, OnOk, Option, []};
ghost use Rattle.std.specs.Io.KnownBytes.{Appends};
ghost use Rattle.outside.specs.declared.output.PutErr.TheVariants as put;
ghost use Rattle.semantics.specs.Faults.{Rose};

use std::alloc::AllocError;

/// Why a piece was not written whole.
#[derive(Clone, Copy, Debug, PartialEq, Eq)]
pub enum PutErr {
    Failed,
    Memory,
}

impl From<AllocError> for PutErr {
    ghost from_gives = { λ _ e. e ≡ put.Memory };

    fn from(_e: AllocError) -> PutErr {
        PutErr::Memory
    }
}

pub trait Out {
    /// The bytes that were written, where the output tells them.
    ghost written: { Self → Option (List ℕ) };

    /// How often a write has failed.
    ghost write_faults: { Self → ℕ };

    /// Writes the whole piece. After `Failed` a prefix of it was written, and after `Memory` nothing.
    fn put(&mut self, piece: &[u8]) -> Result<(), PutErr>
        ensures ok { OnOk result (Appends (written self.old) (written self.new) piece.now) }
        ensures cut { result ≡ Err PutErr.Failed
            → (front : List ℕ) × (rest : List ℕ) × (piece.now ≡ front ++ rest)
            × Appends (written self.old) (written self.new) front }
        ensures none { result ≡ Err PutErr.Memory → Appends (written self.old) (written self.new) [] }
        ensures failed { result ≡ Err PutErr.Failed → Rose (write_faults self.old) (write_faults self.new) }
        ensures faults_stay { write_faults self.old ≤ write_faults self.new };
}
