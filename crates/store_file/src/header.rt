ghost use Rattle.std.specs.Prelude.{◌≡◌, ◌≤◌, ◌++◌, length, OnOk};
ghost use Rattle.store_file.specs.StoreValue.{entry_bytes, fixed_bytes};
ghost use Rattle.store_file.specs.Stored.{stored_entries};

use crate::Stored;
use crate::store::entry_at;
use expr::Name;
use indexmap::IndexMap;
use std::alloc::AllocError;
use tree_file::put_unsigned;

/// The version that is written.
pub(crate) const VERSION: u8 = 1;

/// The fixed part of a header.
#[derive(Clone, Copy, Debug)]
pub struct Fixed {
    pub version: u8,
    pub scale: u8,
    pub degree: u8,
    pub count: u8,
}

/// The entry of one series in a header.
#[derive(Clone, Copy, Debug)]
pub struct Entry {
    pub name: Name,
    /// How many readings it has.
    pub n: u32,
}

/// Appends the header of a store.
pub(crate) fn push_header(
    scale: u8,
    degree: u8,
    series: &IndexMap<Name, Stored>,
    into: &mut Vec<u8>,
) -> Result<(), AllocError>
    requires { length series.now.entries ≤ 16 }
    ensures { OnOk result (into.new.items
        ≡ into.old.items ++ (fixed_bytes scale degree (length series.now.entries)
        ++ stored_entries series.now.entries)) }
{
    let fixed = Fixed {
        version: VERSION,
        scale,
        degree,
        count: series.len() as u8,
    };
    push_fixed(fixed, into)?;
    push_entries(series, into)?;
    Ok(())
}

/// Appends the fixed part of a header.
fn push_fixed(fixed: Fixed, into: &mut Vec<u8>) -> Result<(), AllocError>
    requires { fixed.version ≡ 1 }
    ensures { OnOk result (into.new.items ≡ into.old.items ++ fixed_bytes fixed.scale fixed.degree fixed.count) }
{
    into.extend_from_slice(&[
        b'P',
        b'L',
        b'A',
        b'T',
        fixed.version,
        fixed.scale,
        fixed.degree,
        fixed.count,
    ])?;
    Ok(())
}

/// Appends the entries of all series.
fn push_entries(series: &IndexMap<Name, Stored>, into: &mut Vec<u8>) -> Result<(), AllocError>
    ensures { OnOk result (into.new.items ≡ into.old.items ++ stored_entries series.now.entries) }
{
    for i in 0..series.len() {
        let (name, stored) = entry_at(series, i);
        push_entry(
            Entry {
                name,
                n: stored.tree.n,
            },
            into,
        )?;
    }
    Ok(())
}

/// Appends the entry of a series.
fn push_entry(entry: Entry, into: &mut Vec<u8>) -> Result<(), AllocError>
    ensures { OnOk result (into.new.items ≡ into.old.items ++ entry_bytes entry.name entry.n) }
{
    let name = entry.name.bytes();
    let mut count = [0; 4];
    put_unsigned(u128::from(entry.n), &mut count);
    into.push(name.len() as u8)?;
    into.extend_from_slice(name)?;
    into.extend_from_slice(&count)?;
    Ok(())
}
