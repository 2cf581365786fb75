// A hub: a store, and sessions over it.

ghost use Rattle.std.specs.Prelude.{◌≡◌, ◌+◌, ◌≤◌, Option, IfOk, IsOk, OnOk, OnErr, Ok, None, replicate, slice_index_or};
ghost use Rattle.expr.specs.Terms.{query_term_of};
ghost use Rattle.seg_tree.specs.Linked.{Places, used};
ghost use Rattle.semantics.specs.Admitted.{IsAdmitted};
ghost use Rattle.semantics.specs.Limits.{IsWithinLimits};
ghost use Rattle.semantics.specs.Plain.{IsPlain};
ghost use Rattle.sessions.specs.Applied.{Does, IsRefused, StepsSlot, TakesNoMemory, made_by, slot_reply};
ghost use Rattle.sessions.specs.Events.{IsEvent, last_slot};
ghost use Rattle.sessions.specs.Hub.{HubState, Session as SessionState, closes, happens, opens, opens_by, shows, slot_at, steps};
ghost use Rattle.sessions.specs.Kept.{IsLive, KeepsSlot, StandsFor, is_full, new_hub};
ghost use Rattle.sessions.specs.Places.{KeepsUsed};
ghost use Rattle.store_file.specs.Facts.{facts_in};
ghost use Rattle.store_file.specs.Stored.{store_value};

use crate::live::sweep;
use crate::queries::{QueryErr, plain_query};
use crate::session::Session;
use crate::{Event, Reply};
use expr::Query;
use num_text::{Memory, Text};
use std::alloc::Global;
use std::marker::Model;
use store_file::Store;

/// How many slots there are.
const SLOTS: usize = 16;

/// A store, and sessions over it in slots. A session keeps the store as it was when it began.
#[derive(Drop)]
pub struct Hub {
    pub(crate) alloc: Global,
    pub(crate) store: Store,
    pub(crate) slots: Vec<Option<Session>>,
}

impl Model for Hub {
    ghost use Rattle.sessions.specs.Kept.{HubView, IsHub};
    ghost use Rattle.sessions.specs.Places.{hub_view};

    ghost Value = { HubView };

    ghost view = { λ h. hub_view h.store h.slots.items };

    ghost invariant = { λ h. IsHub (hub_view h.store h.slots.items) };
}

fn free_slots(alloc: Global) -> Result<Vec<Option<Session>>, Memory>
    ensures { IfOk result (λ slots. slots.items ≡ replicate (last_slot + 1) None) }
{
    let mut slots = Vec::with_capacity(alloc, SLOTS)?;
    for _ in 0..SLOTS {
        slots.push(None)?;
    }
    Ok(slots)
}

/// What is said of the session in a slot.
fn reply_of(slot: u8, held: &Option<Session>) -> Reply
    ensures { (places : Places) (s : Option SessionState) → KeepsSlot places held.now s → result ≡ slot_reply slot s }
{
    match held {
        None => Reply::SlotFree(slot),
        Some(session) => session.reply(slot),
    }
}

/// One more step of the session in a slot, where there is one.
fn step_slot(held: &mut Option<Session>, store: &Store) -> Result<(), Memory>
    requires { (s : Option SessionState) × KeepsSlot store.now.arena.nodes held.old s }
    ensures step { OnOk result (StepsSlot store.now.arena.nodes held.old held.new) }
    ensures memory { OnErr result (held.new ≡ held.old) }
{
    match held {
        None => Ok(()),
        Some(session) => session.step(&store.arena),
    }
}

impl Hub {
    /// A hub over a store, in which all slots are free.
    pub fn new(alloc: Global, mut store: Store) -> Result<Hub, Memory>
        ensures stands { IfOk result (λ hub. StandsFor hub (new_hub (store_value store))) }
        ensures live { IfOk result IsLive }
        ensures places { IfOk result (λ hub. KeepsUsed store.arena.nodes hub.store.arena.nodes) }
        ensures count { IfOk result (λ hub. used hub.store.arena.nodes ≤ used store.arena.nodes) }
        ensures limit { IfOk result (λ hub. hub.store.arena.limit ≡ store.arena.limit) }
    {
        let slots = free_slots(alloc)?;
        sweep(&mut store, &slots);
        Ok(Hub {
            alloc,
            store,
            slots,
        })
    }

    /// The store as it is now.
    pub fn store(&self) -> &Store
        ensures value { result.now ≡ self.now.store }
        ensures live { IsLive self.now }
        ensures stands { (h : HubState) × StandsFor self.now h }
    {
        &self.store
    }

    /// What the hub says to an event. Where memory is missing, it is as before.
    pub fn apply(&mut self, event: Event) -> Result<Reply, Memory>
        requires { IsEvent event }
        ensures reply { IfOk result (λ r. (h : HubState) → StandsFor self.old h
            → r ≡ (happens h (is_full self.old.store event) event).reply) }
        ensures hub { OnOk result ((h : HubState) → StandsFor self.old h
            → StandsFor self.new (happens h (is_full self.old.store event) event).hub) }
        ensures memory { OnErr result (self.new ≡ self.old) }
        ensures always { TakesNoMemory event → IsOk result }
        ensures refused { IfOk result (λ r. IsRefused r → self.new ≡ self.old) }
        ensures places { KeepsUsed self.old.store.arena.nodes self.new.store.arena.nodes }
        ensures count { used self.new.store.arena.nodes
            ≤ used self.old.store.arena.nodes + made_by self.old.store event }
        ensures limit { self.new.store.arena.limit ≡ self.old.store.arena.limit }
    {
        match event {
            Event::OpenSlot {
                slot,
                budget,
                query,
            } => self.open(slot, budget, &query),
            Event::StepSlot(slot) => self.step(slot),
            Event::ShowSlot(slot) => Ok(self.show(slot)),
            Event::CloseSlot(slot) => Ok(self.close(slot)),
            Event::Append { name, xs } => self.append(&name, &xs),
            Event::Save => Ok(Reply::Saved),
        }
    }

    fn open(&mut self, slot: u8, budget: u128, text: &Text) -> Result<Reply, Memory>
        requires { slot ≤ last_slot }
        ensures does { IfOk result (λ r. Does self.old self.new r
            (λ h. opens h slot budget text.now (slot_at h slot))) }
        ensures memory { OnErr result (self.new ≡ self.old) }
        ensures refused { IfOk result (λ r. IsRefused r → self.new ≡ self.old) }
        ensures store { self.new.store ≡ self.old.store }
    {
        if self.slots[slot as usize].is_some() {
            return Ok(Reply::SlotBusy(slot));
        }
        match plain_query(self.alloc, &self.store, text.as_slice()) {
            Ok(query) => self.begin(slot, budget, query),
            Err(QueryErr::Refused(cause)) => Ok(Reply::Refused(cause)),
            Err(QueryErr::Memory) => Err(Memory),
        }
    }

    /// Begins a session for a plain query in a free slot.
    fn begin(&mut self, slot: u8, budget: u128, query: Query) -> Result<Reply, Memory>
        requires slot { slot ≤ last_slot }
        requires free { slice_index_or self.old.slots slot None ≡ None }
        requires plain { IsPlain (query_term_of query) }
        requires limits { IsWithinLimits (query_term_of query) }
        requires admitted { IsAdmitted (facts_in (store_value self.old.store)) (query_term_of query) }
        ensures does { IfOk result (λ r. Does self.old self.new r
            (λ h. opens_by h slot budget (Ok (query_term_of query)))) }
        ensures memory { OnErr result (self.new ≡ self.old) }
        ensures accepted { IfOk result (λ r. IsRefused r → ⊥) }
        ensures store { self.new.store ≡ self.old.store }
    {
        let session = Session::open(self.alloc, &self.store, query, budget)?;
        let reply = Reply::Opened(slot, session.interval());
        self.slots[slot as usize] = Some(session);
        Ok(reply)
    }

    fn step(&mut self, slot: u8) -> Result<Reply, Memory>
        requires { slot ≤ last_slot }
        ensures does { IfOk result (λ r. Does self.old self.new r (λ h. steps h slot (slot_at h slot))) }
        ensures memory { OnErr result (self.new ≡ self.old) }
        ensures refused { IfOk result (λ r. IsRefused r → self.new ≡ self.old) }
        ensures store { self.new.store ≡ self.old.store }
    {
        step_slot(&mut self.slots[slot as usize], &self.store)?;
        Ok(reply_of(slot, &self.slots[slot as usize]))
    }

    fn show(&self, slot: u8) -> Reply
        requires { slot ≤ last_slot }
        ensures { Does self.now self.now result (λ h. shows h slot (slot_at h slot)) }
    {
        reply_of(slot, &self.slots[slot as usize])
    }

    /// Ends the session in a slot. The places that it alone reached become vacant.
    fn close(&mut self, slot: u8) -> Reply
        requires { slot ≤ last_slot }
        ensures does { Does self.old self.new result (λ h. closes h slot (slot_at h slot)) }
        ensures refused { IsRefused result → self.new ≡ self.old }
        ensures places { KeepsUsed self.old.store.arena.nodes self.new.store.arena.nodes }
        ensures count { used self.new.store.arena.nodes ≤ used self.old.store.arena.nodes }
        ensures limit { self.new.store.arena.limit ≡ self.old.store.arena.limit }
    {
        if self.slots[slot as usize].is_none() {
            return Reply::SlotFree(slot);
        }
        self.slots[slot as usize] = None;
        sweep(&mut self.store, &self.slots);
        Reply::Closed(slot)
    }
}
