// Pieces that are written whole.

ghost use Rattle.std.specs.Prelude.{◌≡◌, ◌++◌, ℕ, List, true, false};
ghost use Rattle.std.specs.Io.KnownBytes.{Appends};

use std::io::Write;

/// Writes the whole piece, or says false at the first fault: an error, or a write that takes nothing.
pub(crate) fn write_whole<W: Write>(to: &mut W, piece: &[u8]) -> bool
    ensures whole { result ≡ true → Appends (W.contents to.old) (W.contents to.new) piece.now }
    ensures cut { result ≡ false → (front : List ℕ) × (rest : List ℕ) × (piece.now ≡ front ++ rest)
        × Appends (W.contents to.old) (W.contents to.new) front }
{
    let mut done = 0;
    while done < piece.len() {
        match to.write(&piece[done..]) {
            Ok(0) => return false,
            Ok(count) => done += count,
            Err(_) => return false,
        }
    }
    true
}
