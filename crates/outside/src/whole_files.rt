// Files that are read whole.

ghost use Rattle.std.specs.Prelude.{◌≡◌, ◌≢◌, ◌≤◌, ◌<◌, ◌++◌, ℕ, List, IfOk, Ok, length};
ghost use Rattle.std.specs.Io.KnownBytes.{Consumes, IsAtEnd};

use crate::shelves::{FetchErr, Fetched};
use std::io::Read;

// How many bytes are asked for at a time where a file turns out longer than it said.
const BLOCK: u64 = 4096;

/// Puts what is left of a file in the place of what `into` holds, up to one byte past the limit. A file that is as
/// long as it said is read in one call, and a second one finds its end.
pub(crate) fn read_up_to<F: Read>(
    file: &mut F,
    said: u64,
    limit: u64,
    into: &mut Vec<u8>,
) -> Result<Fetched, FetchErr>
    ensures within { result ≡ Ok Fetched.Whole → length into.new.items ≤ limit }
    ensures whole { result ≡ Ok Fetched.Whole
        → Consumes (F.remaining file.old) (F.remaining file.new) into.new.items × IsAtEnd (F.remaining file.new) }
    ensures over { result ≡ Ok Fetched.OverLimit → (bytes : List ℕ)
        × Consumes (F.remaining file.old) (F.remaining file.new) bytes × (limit < length bytes) }
    ensures there { result ≢ Ok Fetched.Absent }
{
    into.clear();
    let mut expected = said;
    loop {
        let room = limit - into.len() as u64;
        let most = (expected.min(room) as usize).saturating_add(1);
        let count = read_more(file, most, into)?;
        if count == 0 {
            return Ok(Fetched::Whole);
        }
        if count as u64 > room {
            return Ok(Fetched::OverLimit);
        }
        expected = if count == most {
            BLOCK
        } else {
            expected.saturating_sub(count as u64)
        };
    }
}

// Appends what one call reads, at most so many bytes.
fn read_more<F: Read>(file: &mut F, most: usize, into: &mut Vec<u8>) -> Result<usize, FetchErr>
    ensures bytes { IfOk result (λ n. (bytes : List ℕ)
        × Consumes (F.remaining file.old) (F.remaining file.new) bytes
        × (into.new.items ≡ into.old.items ++ bytes) × (length bytes ≡ n)) }
    ensures bound { IfOk result (λ n. n ≤ most) }
    ensures end { result ≡ Ok 0 → 0 < most → IsAtEnd (F.remaining file.new) }
{
    let start = into.len();
    let Some(long) = start.checked_add(most) else {
        return Err(FetchErr::Memory);
    };
    into.resize(long, 0)?;
    match file.read(&mut into[start..]) {
        Ok(count) => {
            into.truncate(start + count);
            Ok(count)
        }
        Err(_) => Err(FetchErr::Failed),
    }
}
