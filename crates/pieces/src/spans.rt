ghost use Rattle.std.specs.Prelude.{◌≡◌, ◌≤◌, ◌<◌, ◌^◌, length};
ghost use Rattle.semantics.specs.Most.{most_readings};
ghost use Rattle.pieces.specs.Refinement.{end_of, span_at};

/// The positions of a segment.
#[derive(Clone, Copy, Debug, Drop, PartialEq, Eq)]
pub struct Span {
    pub start: u32,
    pub len: u32,
}

/// One occurrence of a series: its segments are the spans `from..to`, which touch one another in order. At a position
/// the occurrence reads the series at that position less the shift.
#[derive(Clone, Copy, Debug, Drop, PartialEq, Eq)]
pub struct Occ {
    pub from: u32,
    pub to: u32,
    pub shift: i64,
}

/// The place behind a span.
pub(crate) fn end(spans: &[Span], s: u32) -> u32
    requires place { s < length spans.now }
    requires small { end_of (span_at spans.now s) ≤ most_readings }
    ensures { result ≡ end_of (span_at spans.now s) }
{
    let span = spans[s as usize];
    span.start + span.len
}
