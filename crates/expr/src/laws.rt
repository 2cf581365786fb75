ghost use Rattle.semantics.specs.Reads.{ConstantsMayEnd, SumsReadInside};

/// At the positions of its domain a series has the same value where its constants are 0 outside of their positions.
pub fn constants_may_end()
    ensures { ConstantsMayEnd }
{}

/// An admitted sum reads stored series and constants at their own positions alone.
pub fn sums_read_inside()
    ensures { SumsReadInside }
{}
