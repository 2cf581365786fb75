// Standard output.

ghost use Rattle.std.specs.Prelude.{◌≡◌, ◌≢◌, ◌≤◌, ◌++◌, ℕ, List, None, OnOk};
ghost use Rattle.std.specs.Io.KnownBytes.{Appends};
ghost use Rattle.semantics.specs.Faults.{Rose};
ghost use Rattle.outside.specs.Counts.{count_after};

use crate::output::{Out, PutErr};
use crate::whole_pieces::write_whole;
use std::io;
use std::marker::Model;

/// Standard output. It tells no bytes, and counts each error of the system and each write that takes nothing.
#[derive(Drop)]
pub struct StdOut<'a, P: Print> {
    to: &'a P,
    faults: u64,
}

impl<'a, P: Print> Model for StdOut<'a, P> {
    ghost use Rattle.std.specs.Prelude.{ℕ};

    ghost Value = { ℕ };

    ghost view = { λ o. o.faults };
}

impl<'a, P: Print> StdOut<'a, P> {
    pub fn new(to: &'a P) -> StdOut<'a, P>
        ensures faults { result ≡ 0 }
    {
        StdOut { to, faults: 0 }
    }
}

impl<'a, P: Print> Out for StdOut<'a, P> {
    ghost use Rattle.std.specs.Prelude.{None};

    ghost written = { λ _. None };

    ghost write_faults = { λ faults. faults };

    fn put(&mut self, piece: &[u8]) -> Result<(), PutErr>
        ensures ok { OnOk result (Appends None None piece.now) }
        ensures cut { result ≡ Err PutErr.Failed
            → (front : List ℕ) × (rest : List ℕ) × (piece.now ≡ front ++ rest)
            × Appends None None front }
        ensures failed { result ≡ Err PutErr.Failed → Rose self.old self.new }
        ensures faults_stay { self.old ≤ self.new }

        // The count rises by one, and at a fault alone.
        ensures by_one { result ≡ Err PutErr.Failed → self.new ≡ count_after self.old }
        ensures nowhere_else { result ≢ Err PutErr.Failed → self.new ≡ self.old }
    {
        if write_whole(&mut io::writer(self.to), piece) {
            Ok(())
        } else {
            self.faults = self.faults.saturating_add(1);
            Err(PutErr::Failed)
        }
    }
}
