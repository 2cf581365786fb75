ghost use Rattle.std.specs.Prelude.{◌≡◌, ◌∷◌};
ghost use Rattle.store_file.specs.Header.{fixed_of, entry_len_of, entry_of};

use crate::header::VERSION;
use crate::{Entry, Fixed};
use expr::Name;
use tree_file::get_unsigned;

/// Reads the fixed part of a header, or answers the place of its first byte that is refused.
pub fn read_fixed(bytes: &[u8; 8]) -> Result<Fixed, u64>
    ensures { result ≡ fixed_of bytes.now }
{
    if bytes[..4] != b"PLAT"[..] {
        return Err(0);
    }
    if bytes[4] != VERSION {
        return Err(4);
    }
    if bytes[5] > 6 {
        return Err(5);
    }
    if bytes[6] > 2 {
        return Err(6);
    }
    if bytes[7] > 16 {
        return Err(7);
    }
    Ok(Fixed {
        version: bytes[4],
        scale: bytes[5],
        degree: bytes[6],
        count: bytes[7],
    })
}

/// The length of an entry whose first byte is `first`, or `None` where no entry has that byte first.
pub fn entry_len(version: u8, first: u8) -> Option<u32>
    requires { version ≡ 1 }
    ensures { result ≡ entry_len_of first }
{
    let _ = version;
    if 0 < first && first <= 32 {
        Some(u32::from(first) + 5)
    } else {
        None
    }
}

/// Reads one whole entry, or answers `None` where the bytes aren't one.
pub fn read_entry(version: u8, bytes: &[u8]) -> Option<Entry>
    requires { version ≡ 1 }
    ensures { result ≡ entry_of bytes.now }
{
    let _ = version;
    if bytes.is_empty() {
        return None;
    }
    entry_behind(bytes[0], &bytes[1..])
}

/// Reads the entry whose name has `first` bytes, behind that byte.
fn entry_behind(first: u8, rest: &[u8]) -> Option<Entry>
    ensures { result ≡ entry_of (first ∷ rest.now) }
{
    let len = usize::from(first);
    if rest.len() != len + 4 {
        return None;
    }
    let (text, count) = rest.split_at(len);
    let name = match Name::of(text) {
        Some(name) => name,
        None => return None,
    };
    let n = get_unsigned(count);
    if n > 1 << 20 {
        return None;
    }
    Some(Entry { name, n: n as u32 })
}
