ghost use Rattle.std.specs.Prelude.{◌≡◌, ℕ, ◌<◌, length, IfOk};
ghost use Rattle.pieces.specs.Refinement.{piece_at};

use super::*;
use num_text::Memory;
use std::alloc::Global;
use std::process::Abort;

/// The two segments of a series of 32 readings.
const SPANS: [Span; 2] = [Span { start: 0, len: 16 }, Span { start: 16, len: 16 }];

/// The series, and the series moved up by one.
const OCCS: [Occ; 2] = [
    Occ {
        from: 0,
        to: 2,
        shift: 0,
    },
    Occ {
        from: 0,
        to: 2,
        shift: 1,
    },
];

/// The pieces of all positions that both occurrences have.
fn shifted_pieces(alloc: Global) -> Result<Pieces, Memory>
    ensures { IfOk result (λ p. (k : ℕ) → k < length p → length (piece_at p k).segs ≡ 2) }
{
    let pieces = refine(alloc, &SPANS, &OCCS, 1, 32)?;
    Ok(pieces)
}

#[test]
fn pieces_of_a_shift(rt: HostRuntime) -> Result<(), Memory> {
    let pieces = shifted_pieces(rt.alloc())?;
    assert_eq!(rt; pieces.count(), 3);
    for (k, start, len, first, second) in [(0, 1, 15, 0, 0), (1, 16, 1, 1, 0), (2, 17, 15, 1, 1)] {
        assert!(rt; k < pieces.count());
        assert_eq!(rt; (pieces.start(k), pieces.len(k)), (start, len));
        assert_eq!(rt; (pieces.seg(k, 0), pieces.seg(k, 1)), (first, second));
    }
    Ok(())
}

#[test]
fn no_occurrences(rt: HostRuntime) -> Result<(), Memory> {
    for (l, r, len) in [(3, 8, Some(5)), (-5, 0, Some(5)), (7, 7, None)] {
        assert!(rt; l <= r);
        let pieces = refine(rt.alloc(), &[], &[], l, r)?;
        match len {
            None => assert_eq!(rt; pieces.count(), 0),
            Some(len) => {
                assert_eq!(rt; pieces.count(), 1);
                assert_eq!(rt; (pieces.start(0), pieces.len(0)), (l, len));
            }
        }
    }
    Ok(())
}
