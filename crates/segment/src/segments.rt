/// A curve over the readings `start..start + len` of a series, and how far it is from them.
///
/// The estimate of the reading at `start + i` is `a + b * i + c * i ^ 2`, in units of 1 / 2 ^ 14.
#[derive(Clone, Copy, Debug, Drop, PartialEq, Eq)]
pub struct Seg {
    pub start: u32,
    pub len: u32,
    pub a: i64,
    pub b: i64,
    pub c: i64,
    /// The sum of what the estimates miss, in their units.
    pub l: u128,
    /// The greatest magnitude of a reading.
    pub d: u64,
    /// The greatest magnitude of an estimate, in its units.
    pub f: u64,
}

/// What a curve's estimates miss, and the greatest magnitudes of readings and estimates, as in [`Seg`].
#[derive(Clone, Copy, Debug, Drop, PartialEq, Eq)]
pub struct Measures {
    pub l: u128,
    pub d: u64,
    pub f: u64,
}
