ghost use Rattle.std.specs.Prelude.{◌≡◌, ◌≢◌, ◌≤◌, length, Err, IfErr, IfOk, None, OnOk, Some};
ghost use Rattle.outside.specs.Parts.{RisesBy};
ghost use Rattle.semantics.specs.Files.{IfTold, with_file};
ghost use Rattle.query_cli.specs.Parted.{IsThere};
ghost use Rattle.query_cli.specs.Reading.{file_at, held, most_store};
ghost use Rattle.query_cli.specs.Shelf.{OnlyReads, Replaces};
ghost use Rattle.query_cli.specs.Stops.{IfStopped, IsUnread};

use crate::refusals::Refusal;
use crate::stop::{Fault, Halt, Stop, refuse};
use outside::{FetchErr, Fetched, ReplaceErr, Shelf};
use std::alloc::Global;

/// The most bytes of a CSV file.
pub(crate) const MOST_CSV: u64 = 1 << 26;

/// The most bytes of a certificate.
pub(crate) const MOST_CERT: u64 = 1 << 26;

/// The most bytes of a store.
pub(crate) const MOST_STORE: u64 = 1 << 28;

/// The most bytes of a script.
pub(crate) const MOST_SCRIPT: u64 = 1 << 24;

/// The bytes of a file, which are at most so many.
pub(crate) fn read_file<S: Shelf>(
    alloc: Global,
    shelf: &mut S,
    most: u64,
    name: &str,
) -> Result<Vec<u8>, Halt>
    ensures few { IfOk result (λ v. length v.items ≤ most) }
    ensures held { IfOk result (λ v. IfTold (S.files shelf.old) (λ m. file_at m most name.now ≡ held v.items)) }
    ensures unread { IfErr result (λ h. IfStopped h (IsUnread (S.files shelf.old) most name.now)) }
    ensures shelf { OnlyReads S.files S.read_faults S.replace_faults shelf.old shelf.new result }
    ensures fetches { RisesBy 1 (S.fetches shelf.old) (S.fetches shelf.new) }
{
    let mut bytes = Vec::new(alloc);
    match shelf.fetch(name, most, &mut bytes) {
        Ok(Fetched::Whole) => Ok(bytes),
        Ok(Fetched::Absent) => Err(Halt::Stopped(refuse(alloc, &Refusal::Absent(name)))),
        Ok(Fetched::OverLimit) => Err(Halt::Stopped(refuse(alloc, &Refusal::TooBig(name)))),
        Err(FetchErr::Failed) => Err(Halt::Faulted(Fault::Reading)),
        Err(FetchErr::Memory) => Err(Halt::Stopped(Stop::Memory)),
    }
}

/// Tests by its length that the file of a store is there and not too big.
pub(crate) fn find_store<S: Shelf>(alloc: Global, shelf: &mut S, name: &str) -> Result<(), Halt>
    ensures there { OnOk result (IfTold (S.files shelf.old) (λ m. IsThere m name.now)) }
    ensures unread { IfErr result (λ h. IfStopped h (IsUnread (S.files shelf.old) most_store name.now)) }
    ensures shelf { OnlyReads S.files S.read_faults S.replace_faults shelf.old shelf.new result }
    ensures handed { S.handed shelf.new ≡ S.handed shelf.old }
    ensures fetches { S.fetches shelf.new ≡ S.fetches shelf.old }
{
    match shelf.size(name) {
        Ok(Some(size)) => {
            if size > MOST_STORE {
                return Err(Halt::Stopped(refuse(alloc, &Refusal::TooBig(name))));
            }
            Ok(())
        }
        Ok(None) => Err(Halt::Stopped(refuse(alloc, &Refusal::Absent(name)))),
        Err(_) => Err(Halt::Faulted(Fault::Reading)),
    }
}

/// Writes a file anew, whatever stood there.
pub(crate) fn replace_file<S: Shelf>(shelf: &mut S, name: &str, bytes: &[u8]) -> Result<(), Halt>
    ensures replaced { IfTold (S.files shelf.old) (λ m.
        OnOk result (S.files shelf.new ≡ Some (with_file m name.now bytes.now))) }
    ensures unrefused { IfErr result (λ h. IfStopped h (λ r. ⊥)) }
    ensures shelf { Replaces S.files S.read_faults S.replace_faults shelf.old shelf.new result }
    ensures not_reading { result ≢ Err (Halt.Faulted Fault.Reading) }
    ensures reads_stay { S.read_faults shelf.new ≡ S.read_faults shelf.old }
    ensures fetches_stay { S.fetches shelf.new ≡ S.fetches shelf.old }
{
    match shelf.replace(name, bytes) {
        Ok(()) => Ok(()),
        Err(ReplaceErr::Failed) => Err(Halt::Faulted(Fault::Replacing)),
        Err(ReplaceErr::Memory) => Err(Halt::Stopped(Stop::Memory)),
    }
}
