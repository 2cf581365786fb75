// Output in memory that never fails.

ghost use Rattle.std.specs.Prelude.{◌≡◌, ◌++◌, [], IfErr, OnErr, OnOk};

use crate::memory_out::append;
use crate::output::{Out, PutErr};
use std::alloc::Global;
use std::marker::Model;

/// Output in memory that never fails, seen as the bytes that were written.
#[derive(Drop)]
pub struct SteadyOut {
    bytes: Vec<u8>,
}

impl Model for SteadyOut {
    ghost use Rattle.std.specs.Prelude.{ℕ, List};

    ghost Value = { List ℕ };

    ghost view = { λ o. o.bytes.items };
}

impl SteadyOut {
    pub fn new(alloc: Global) -> SteadyOut
        ensures { result ≡ [] }
    {
        SteadyOut {
            bytes: Vec::new(alloc),
        }
    }

    /// The bytes that were written.
    pub fn bytes(&self) -> &[u8]
        ensures { result.now ≡ self.now }
    {
        &self.bytes
    }
}

impl Out for SteadyOut {
    ghost use Rattle.std.specs.Prelude.{Some};

    ghost written = { λ bytes. Some bytes };

    ghost write_faults = { λ _. 0 };

    fn put(&mut self, piece: &[u8]) -> Result<(), PutErr>
        ensures ok { OnOk result (self.new ≡ self.old ++ piece.now) }
        ensures err { OnErr result (self.new ≡ self.old) }
        ensures never_fails { IfErr result (λ e. e ≡ PutErr.Memory) }
    {
        append(&mut self.bytes, piece)
    }
}
