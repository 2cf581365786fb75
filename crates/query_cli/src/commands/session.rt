ghost use Rattle.std.specs.Io.KnownBytes.{Appends};
ghost use Rattle.std.specs.Prelude.{◌≡◌, ◌≢◌, ◌+◌, ◌≤◌, true, false, Some, None, Ok, IfOk, IfErr, IfSome, IfNone, OnOk, length, map, option_map, string_bytes};
ghost use Rattle.semantics.specs.Faults.{Rose};
ghost use Rattle.semantics.specs.Files.{IfTold};
ghost use Rattle.sessions.specs.Events.{AreEvents, IsEvent};
ghost use Rattle.sessions.specs.Script.{script_of};
ghost use Rattle.store_file.specs.Stored.{store_value};
ghost use Rattle.query_cli.specs.Commands.{command_in, is_at_once, session};
ghost use Rattle.query_cli.specs.Commands.Session.{files_behind, files_with, hub_with, is_save, line_at, lines_behind, made_by, saved_if, script_refusal, scripted_in, session_of, session_reads};
ghost use Rattle.query_cli.specs.Playing.{AtEach, Begins, BeginsOver, Breaks, ComesTo, IsAt, IsLast, IsUnsaved, MayFail, OnlySaves};
ghost use Rattle.query_cli.specs.Reading.{most_script, most_store, reading_in};
ghost use Rattle.query_cli.specs.Run.{Grew, IsRefused};
ghost use Rattle.query_cli.specs.Shelf.{OnlyReads, RoseAtMost};
ghost use Rattle.query_cli.specs.Steps.{refused_as};
ghost use Rattle.query_cli.specs.Stops.{IfRefused, IfStopped, IsStepRefusal};
ghost use Rattle.query_cli.specs.Views.{session_view};

use crate::refusals::Refusal;
use crate::status::Status;
use crate::steps::files::{MOST_SCRIPT, MOST_STORE, read_file};
use crate::steps::lines::{end_early, end_unsaved, put_reply};
use crate::steps::store::{bytes_of, store_of};
use crate::stop::{Halt, Stop, refuse};
use crate::words::{is_file_word, is_form, word_at};
use outside::{Out, ReplaceErr, Shelf};
use sessions::{Cause, Event, Hub, Reply, ScriptErr, read_script};
use std::alloc::Global;
use store_file::Store;

/// `session STORE SCRIPT`: the events of a script at a hub over a store, each of which is answered by a line.
#[derive(Drop)]
pub(crate) struct Session<'a> {
    pub(crate) store: &'a str,
    pub(crate) script: &'a str,
}

// A hub, and the events that are to happen at it.
#[derive(Drop)]
struct Begun {
    hub: Hub,
    events: Vec<Event>,
}

fn is_save(event: &Event) -> bool
    ensures { result ≡ is_save event.now }
{
    matches!(event, Event::Save)
}

// Whether an append found the arena full.
fn is_full(reply: &Reply) -> bool
    ensures full { result ≡ true → reply.now ≡ Reply.Refused Cause.ArenaFull }
    ensures roomy { result ≡ false → reply.now ≢ Reply.Refused Cause.ArenaFull }
{
    matches!(reply, Reply::Refused(Cause::ArenaFull))
}

// The events of a script.
fn events_of(alloc: Global, text: &[u8]) -> Result<Vec<Event>, Stop>
    requires { length text.now ≤ most_script }
    ensures ok { IfOk result (λ es. script_of text.now ≡ Ok es.items) }
    ensures possible { IfOk result (λ es. AreEvents es.items) }
    ensures refused { IfErr result (λ s.
        IfRefused s (IsStepRefusal (refused_as script_refusal (script_of text.now)))) }
{
    match read_script(alloc, text) {
        Ok(events) => Ok(events),
        Err(ScriptErr::Line(line)) => Err(refuse(alloc, &Refusal::BadScript(line))),
        Err(ScriptErr::Memory) => Err(Stop::Memory),
    }
}

// The hub and the events, by the bytes of the two files.
fn begin_with(alloc: Global, stored: &[u8], text: &[u8]) -> Result<Begun, Stop>
    requires stored { length stored.now ≤ most_store }
    requires text { length text.now ≤ most_script }
    ensures ok { IfOk result (λ b. Begins stored.now text.now b.hub b.events.items) }
    ensures refused { IfErr result (λ s. IfRefused s (IsStepRefusal (scripted_in stored.now text.now))) }
{
    let store = store_of(alloc, stored)?;
    let events = events_of(alloc, text)?;
    let hub = Hub::new(alloc, store)?;
    Ok(Begun { hub, events })
}

impl<'a> Session<'a> {
    // The words `STORE SCRIPT` behind the command's name.
    fn of(words: &'a [String]) -> Option<Session<'a>>
        requires { length words.now ≡ 3 }
        ensures { option_map session_view result ≡ session_of (map string_bytes words.now) }
    {
        if !is_file_word(word_at(words, 1)) {
            return None;
        }
        if !is_file_word(word_at(words, 2)) {
            return None;
        }
        Some(Session {
            store: word_at(words, 1),
            script: word_at(words, 2),
        })
    }

    /// The session that the words ask for.
    pub(crate) fn read(words: &'a [String]) -> Option<Session<'a>>
        ensures some { IfSome result (λ s. command_in words.now ≡ Some (session (session_view s))) }
        ensures none { IfNone result (is_at_once (command_in words.now) ≡ true) }
    {
        if is_form(words, "session", 3) {
            return Session::of(words);
        }
        None
    }

    // Reads both files.
    fn begin<S: Shelf>(&self, alloc: Global, shelf: &mut S) -> Result<Begun, Halt>
        ensures begins { IfOk result (λ b.
            BeginsOver (S.files shelf.old) (session_view self.now) b.hub b.events.items) }
        ensures refused { IfErr result (λ h.
            IfStopped h (IsRefused (S.files shelf.old) (Some (session (session_view self.now))))) }
        ensures shelf { OnlyReads S.files S.read_faults S.replace_faults shelf.old shelf.new result }
        ensures fetches { IfTold (S.files shelf.old) (λ m.
            RoseAtMost (session_reads (reading_in m) (session_view self.now))
            (S.fetches shelf.old) (S.fetches shelf.new)) }
    {
        let stored = read_file(alloc, shelf, MOST_STORE, self.store)?;
        let text = read_file(alloc, shelf, MOST_SCRIPT, self.script)?;
        let begun = begin_with(alloc, &stored, &text)?;
        Ok(begun)
    }

    // Writes the store anew where it is to be saved. Where that fails, its line is written, and the session ends.
    fn save_if<S: Shelf, O: Out>(
        &self,
        saves: bool,
        store: &Store,
        shelf: &mut S,
        out: &mut O,
    ) -> Result<(), Status>
        ensures saved { OnOk result (S.files shelf.new
            ≡ saved_if saves self.now.store.now (S.files shelf.old) (store_value store.now)) }
        ensures silent { OnOk result (O.written out.new ≡ O.written out.old) }
        ensures saves { IfErr result (λ s. saves ≡ true) }
        ensures kept { IfErr result (λ s. S.files shelf.new ≡ S.files shelf.old) }
        ensures unsaved { IfErr result (λ s. Grew (O.written out.old) (O.written out.new) (IsUnsaved s)) }
        ensures shelf { OnlySaves S.files S.read_faults S.replace_faults S.fetches shelf.old shelf.new result }
        ensures out { MayFail O.write_faults out.old out.new result }
    {
        if !saves {
            return Ok(());
        }
        let bytes = bytes_of(store)?;
        match shelf.replace(self.store, &bytes) {
            Ok(()) => Ok(()),
            Err(ReplaceErr::Failed) => Err(end_unsaved(out)),
            Err(ReplaceErr::Memory) => Err(Status::Memory),
        }
    }

    // Does one event, and writes its line.
    fn happen<S: Shelf, O: Out>(
        &self,
        alloc: Global,
        hub: &mut Hub,
        event: Event,
        shelf: &mut S,
        out: &mut O,
    ) -> Result<(), Status>
        requires { IsEvent event }
        ensures hub { OnOk result (AtEach hub.old (λ h made.
            IsAt hub.new (hub_with h event) (made + made_by h.store event))) }
        ensures line { OnOk result (AtEach hub.old (λ h made.
            Appends (O.written out.old) (O.written out.new) (line_at h event))) }
        ensures files { OnOk result (AtEach hub.old (λ h made.
            S.files shelf.new ≡ files_with self.now.store.now (S.files shelf.old) h event)) }
        ensures last { IfErr result (λ s. AtEach hub.old (λ h made. Grew (O.written out.old) (O.written out.new)
            (IsLast self.now.store.now (S.files shelf.old) (S.files shelf.new) h made event s))) }
        ensures shelf { OnlySaves S.files S.read_faults S.replace_faults S.fetches shelf.old shelf.new result }
        ensures out { MayFail O.write_faults out.old out.new result }
    {
        let saves = is_save(&event);
        let reply = hub.apply(event)?;
        self.save_if(saves, hub.store(), shelf, out)?;
        put_reply(alloc, &reply, out)?;
        if is_full(&reply) {
            return Err(Status::ArenaFull);
        }
        Ok(())
    }

    // Does the events one after the other.
    fn play<S: Shelf, O: Out>(
        &self,
        alloc: Global,
        begun: Begun,
        shelf: &mut S,
        out: &mut O,
    ) -> Result<(), Status>
        requires { AreEvents begun.events.items }
        ensures lines { OnOk result (AtEach begun.hub (λ h made.
            Appends (O.written out.old) (O.written out.new) (lines_behind h begun.events.items))) }
        ensures files { OnOk result (AtEach begun.hub (λ h made.
            S.files shelf.new ≡ files_behind self.now.store.now (S.files shelf.old) h begun.events.items)) }
        ensures breaks { IfErr result (λ s. AtEach begun.hub (λ h made. Grew (O.written out.old) (O.written out.new)
            (Breaks self.now.store.now (S.files shelf.old) (S.files shelf.new) h made begun.events.items s))) }
        ensures shelf { OnlySaves S.files S.read_faults S.replace_faults S.fetches shelf.old shelf.new result }
        ensures out { MayFail O.write_faults out.old out.new result }
    {
        let mut hub = begun.hub;
        for event in begun.events {
            self.happen(alloc, &mut hub, event, shelf, out)?;
        }
        Ok(())
    }

    /// Does the events of the script, and writes the line of each before the next one begins.
    pub(crate) fn run<S: Shelf, O: Out>(&self, alloc: Global, shelf: &mut S, out: &mut O) -> Status
        ensures comes { ComesTo (S.files shelf.old) (S.files shelf.new)
            (Rose (S.read_faults shelf.old) (S.read_faults shelf.new)) (session_view self.now) result
            (O.written out.old) (O.written out.new) }
        ensures replace_fault { result ≡ Status.ReplaceFault
            → Rose (S.replace_faults shelf.old) (S.replace_faults shelf.new) }
        ensures out_fault { result ≡ Status.OutFault → Rose (O.write_faults out.old) (O.write_faults out.new) }
        ensures read_faults_stay { S.read_faults shelf.old ≤ S.read_faults shelf.new }
        ensures replace_faults_stay { S.replace_faults shelf.old ≤ S.replace_faults shelf.new }
        ensures write_faults_stay { O.write_faults out.old ≤ O.write_faults out.new }
        ensures fetches { IfTold (S.files shelf.old) (λ m.
            RoseAtMost (session_reads (reading_in m) (session_view self.now))
            (S.fetches shelf.old) (S.fetches shelf.new)) }
        ensures untold { S.files shelf.old ≡ None → S.files shelf.new ≡ None }
    {
        let begun = match self.begin(alloc, shelf) {
            Ok(begun) => begun,
            Err(halt) => return end_early(alloc, halt, out),
        };
        match self.play(alloc, begun, shelf, out) {
            Ok(()) => Status::Ok,
            Err(status) => status,
        }
    }
}
