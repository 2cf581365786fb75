// Readings that are put behind those of a series, while sessions are open.

ghost use Rattle.std.specs.Prelude.{◌≡◌, ◌+◌, ◌≤◌, ◌↔◌, IfOk, IsErr, OnErr};
ghost use Rattle.segment.specs.Measure.{AreReadings};
ghost use Rattle.seg_tree.specs.Linked.{used};
ghost use Rattle.sessions.specs.declared.events.Event.TheVariants.{Append};
ghost use Rattle.sessions.specs.Applied.{Does, IsRefused};
ghost use Rattle.sessions.specs.Hub.{appends, cause_of};
ghost use Rattle.sessions.specs.Kept.{is_full};
ghost use Rattle.sessions.specs.Places.{KeepsUsed};
ghost use Rattle.store_file.specs.Grown.{growth_refusal, made_in};
ghost use Rattle.store_file.specs.Stored.{store_value};

use crate::hub::Hub;
use crate::live::sweep;
use crate::{Cause, Reply};
use expr::Name;
use num_text::{Memory, Readings};
use store_file::SeriesErr;

/// What is said where no readings were added.
fn refusal(name: &Name, e: SeriesErr) -> Result<Reply, Memory>
    ensures said { IfOk result (λ r. r ≡ Reply.Refused (cause_of name.now e)) }
    ensures memory { IsErr result ↔ (e ≡ SeriesErr.Memory) }
{
    match e {
        SeriesErr::Memory => Err(Memory),
        SeriesErr::Unknown => Ok(Reply::Refused(Cause::Unknown(*name))),
        SeriesErr::TooLong => Ok(Reply::Refused(Cause::TooLong(*name))),
        _ => Ok(Reply::Refused(Cause::ArenaFull)),
    }
}

impl Hub {
    /// Puts readings behind those of a series. Open sessions keep the trees that they have.
    pub(crate) fn append(&mut self, name: &Name, xs: &Readings) -> Result<Reply, Memory>
        requires { AreReadings xs.now }
        ensures does { IfOk result (λ r. Does self.old self.new r (λ h. appends h
            (is_full self.old.store (Append name.now xs.now)) name.now xs.now
            (growth_refusal h.store name.now xs.now))) }
        ensures memory { OnErr result (self.new ≡ self.old) }
        ensures refused { IfOk result (λ r. IsRefused r → self.new ≡ self.old) }
        ensures places { KeepsUsed self.old.store.arena.nodes self.new.store.arena.nodes }
        ensures count { used self.new.store.arena.nodes
            ≤ used self.old.store.arena.nodes + made_in (store_value self.old.store) name.now xs.now }
        ensures limit { self.new.store.arena.limit ≡ self.old.store.arena.limit }
    {
        let total = match self.store.append_series(name, xs.as_slice()) {
            Ok(total) => total,
            Err(e) => return refusal(name, e),
        };
        let added = xs.as_slice().len() as u32;
        sweep(&mut self.store, &self.slots);
        Ok(Reply::Appended(*name, added, total))
    }
}
