ghost use Rattle.std.specs.Prelude.{◌≡◌, ◌+◌, ◌-◌, ◌*◌, ◌^◌, ◌<◌, ◌≤◌, ◌↔◌, IfSome, IsSome};
ghost use Rattle.std.specs.List.{Contains};
ghost use Rattle.segment.specs.Shape.{plan, node_count, shape};
ghost use Rattle.tree_file.specs.Image.{tree_size};
ghost use Rattle.tree_file.specs.Offsets.{range, is_range, moved, offset_in, record_offset};

use segment::split;

/// The bytes of a record.
const RECORD: u64 = 56;

/// How many bytes the tree over `n` readings has: 56 for each node, and 4 for each reading.
pub fn tree_bytes(n: u32) -> u64
    requires { n ≤ 2 ^ 20 }
    ensures value { result ≡ tree_size n }
    ensures sum { 0 < n → result ≡ 56 * node_count n + 4 * n }
    ensures bound { result ≤ 2 ^ 24 }
{
    if n == 0 {
        return 0;
    }
    RECORD * (2 * u64::from(n).div_ceil(16) - 1) + 4 * u64::from(n)
}

/// The offset of the record of the node over `start..start + len` within the bytes of the tree over `n` readings, or
/// `None` where the shape of the tree has no such node.
pub fn offset_of(n: u32, start: u32, len: u32) -> Option<u64>
    requires { n ≤ 2 ^ 20 }
    ensures value { result ≡ record_offset n (range start len) }
    ensures found { IsSome result ↔ Contains (shape n) (range start len) }
{
    if n == 0 {
        return None;
    }
    offset_below(0, n, start, len)
}

/// The same within the bytes of the tree over `span` readings from `from` on.
fn offset_below(from: u32, span: u32, start: u32, len: u32) -> Option<u64>
    requires some { 0 < span }
    requires few { from + span ≤ 2 ^ 20 }
    ensures { result ≡ offset_in (plan from span) (range start len) }
{
    if is_same(from, span, start, len) {
        return Some(0);
    }
    match split(span) {
        None => None,
        Some(s) => {
            if start < from + s {
                let left = offset_below(from, s, start, len);
                moved(left, RECORD)
            } else {
                let right = offset_below(from + s, span - s, start, len);
                moved(right, RECORD + tree_bytes(s))
            }
        }
    }
}

/// Whether two ranges are the same.
fn is_same(from: u32, span: u32, start: u32, len: u32) -> bool
    ensures { result ≡ is_range from span (range start len) }
{
    from == start && span == len
}

fn moved(offset: Option<u64>, by: u64) -> Option<u64>
    requires small { IfSome offset (λ k. k ≤ 2 ^ 24) }
    requires few { by ≤ 2 ^ 25 }
    ensures { result ≡ moved by offset }
{
    match offset {
        Some(k) => Some(k + by),
        None => None,
    }
}
