//! The laws of error propagation: what segments say of series and of their sums. No code: each law is the contract of a
//! function that does nothing.
#![tactic(auto)]

ghost use Rattle.bounds.specs.Cut.{SumsAreWithin};
ghost use Rattle.bounds.specs.Form.{FormsBoundValues};
ghost use Rattle.bounds.specs.Magnitudes.{NumbersAreWithin};
ghost use Rattle.bounds.specs.Pieces.{FormsGoByPieces};
ghost use Rattle.bounds.specs.Segments.{SegsAreFound};
ghost use Rattle.bounds.specs.Shape.{FormsAreByReads};
ghost use Rattle.bounds.specs.Small.{FormsAreSmall};
ghost use Rattle.bounds.specs.Worked.{SumsAreWorked};
ghost use Rattle.bounds.specs.WrongRules.{CrossTermsCount, GreatestWeightsCount};

/// Over true segments a series' local form bounds its value, at every position.
pub fn forms_bound_values()
    ensures { FormsBoundValues }
{}

/// A local form depends on the position by the segments that are read, and by their estimates alone.
pub fn forms_are_by_reads()
    ensures { FormsAreByReads }
{}

/// Of segments that lie one behind the other, one covers a position, and it is found there.
pub fn segs_are_found()
    ensures { SegsAreFound }
{}

/// On positions in a row at which the same segments are read, forms and greatest weights need no look at each position.
pub fn forms_go_by_pieces()
    ensures { FormsGoByPieces }
{}

/// Over true segments the interval of a sum contains the plain sum.
pub fn sums_are_within()
    ensures { SumsAreWithin }
{}

/// Over sane segments, true or not, all numbers of a sum are within the magnitudes of its series.
pub fn numbers_are_within()
    ensures { NumbersAreWithin }
{}

/// No number of a local form of rank 3 at most passes 2^125 where its series is in range.
pub fn forms_are_small()
    ensures { FormsAreSmall }
{}

/// Worked sums.
pub fn sums_are_worked()
    ensures { SumsAreWorked }
{}

/// A product's error by both estimates, and by no value, is not enough.
pub fn cross_terms_count()
    ensures { CrossTermsCount }
{}

/// The last weight with which a segment is read, in place of the greatest, is not enough.
pub fn greatest_weights_count()
    ensures { GreatestWeightsCount }
{}
