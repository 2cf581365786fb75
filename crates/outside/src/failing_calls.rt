// Numbered calls, some of which are to fail.

ghost use Rattle.std.specs.Prelude.{◌≡◌};
ghost use Rattle.outside.specs.Calls.{cut_at, cut_next, fails_next};

/// Whether the call after so many calls is to fail.
pub(crate) fn fails_next(listed: &[u64], calls: u64) -> bool
    ensures { result ≡ fails_next listed.now calls }
{
    calls < u64::MAX && listed.contains(&(calls + 1))
}

// What the first pair of a number says.
fn cut_at(pairs: &[(u64, u64)], number: u64) -> Option<u64>
    ensures { result ≡ cut_at pairs.now number }
{
    for (k, cut) in pairs {
        if *k == number {
            return Some(*cut);
        }
    }
    None
}

/// How many bytes go out before the call after so many calls fails.
pub(crate) fn cut_next(pairs: &[(u64, u64)], calls: u64) -> Option<u64>
    ensures { result ≡ cut_next pairs.now calls }
{
    if calls == u64::MAX {
        return None;
    }
    cut_at(pairs, calls + 1)
}
