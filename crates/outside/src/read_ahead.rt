// Bytes that were read behind the parts of a file.

ghost use Rattle.std.specs.Prelude.{◌≡◌, false, length};

use std::alloc::{AllocError, Global};

/// So many bytes behind a part are read with it: in a store those of a node's left child, which stands behind the node.
pub(crate) const AHEAD: usize = 56;

// How many pieces can be found. A prime number, since offsets of nodes are often a multiple of a power of two apart.
const PLACES: usize = 8191;

/// Bytes of a file from `at` on.
#[derive(Clone, Copy, Drop)]
pub(crate) struct Piece {
    pub(crate) at: u64,
    pub(crate) bytes: [u8; AHEAD],
}

/// The pieces that were read behind parts.
#[derive(Drop)]
pub(crate) struct ReadAhead {
    pieces: Vec<Piece>,
    /// For each place how many pieces there were when the last one came that is found there.
    counts: Vec<u32>,
}

// Where the piece from an offset on is found.
fn place_of(at: u64) -> usize {
    (at / 4 % PLACES as u64) as usize
}

impl ReadAhead {
    pub(crate) fn new(alloc: Global) -> Result<ReadAhead, AllocError> {
        Ok(ReadAhead {
            pieces: Vec::new(alloc),
            counts: vec![in alloc; 0u32; PLACES]?,
        })
    }

    /// Keeps a piece where there is memory for it. The one that was found at its place before is found no more.
    pub(crate) fn keep(&mut self, piece: Piece) {
        let place = place_of(piece.at);
        if self.pieces.len() >= 1 << 20 || self.pieces.push(piece).is_err() {
            return;
        }
        if let Some(count) = self.counts.get_mut(place) {
            *count = self.pieces.len() as u32;
        }
    }

    // The piece from an offset on.
    fn piece_at(&self, at: u64) -> Option<&Piece> {
        let count = *self.counts.get(place_of(at))?;
        let piece = self.pieces.get((count as usize).checked_sub(1)?)?;
        if piece.at == at { Some(piece) } else { None }
    }

    /// Fills `buf` with the bytes from `at` on, or says false where no piece has them.
    pub(crate) fn copy(&self, at: u64, buf: &mut [u8]) -> bool
        ensures stays { result ≡ false → buf.new ≡ buf.old }
        ensures long { length buf.new ≡ length buf.old }
    {
        let Some(piece) = self.piece_at(at) else {
            return false;
        };
        let len = buf.len();
        if len > AHEAD {
            return false;
        }
        buf.copy_from_slice(&piece.bytes[..len]);
        true
    }
}
