// The events of a script.

ghost use Rattle.std.specs.Prelude.{◌≡◌, ◌≤◌, ◌^◌, ◌⊎◌, ◌++◌, List, Ok, Err, IfOk, IfErr, OnOk, length};
ghost use Rattle.std.specs.List.{after_first, before_first, list_any, position_or_len};
ghost use Rattle.std.specs.Str.Lines.{strip_carriage_return};
ghost use Rattle.sessions.specs.declared.events.Event.{Event};
ghost use Rattle.sessions.specs.Events.{AreEvents};
ghost use Rattle.sessions.specs.Script.{events_in, is_line_feed, script_of};

use crate::events::Event;
use crate::lines::read_event;
use num_text::Memory;
use std::alloc::{AllocFailed, Global};

/// Why a text is no script.
#[derive(Clone, Copy, Debug, PartialEq, Eq)]
pub enum ScriptErr {
    /// The first line that is no event, from 1 on.
    Line(u32),
    Memory,
}

impl From<Memory> for ScriptErr {
    ghost use Rattle.sessions.specs.declared.scripts.ScriptErr.TheVariants.{Memory as no_memory};

    ghost from_gives = { λ _ e. e ≡ no_memory };

    fn from(_e: Memory) -> ScriptErr {
        ScriptErr::Memory
    }
}

impl<T: Drop> From<AllocFailed<T>> for ScriptErr {
    ghost use Rattle.sessions.specs.declared.scripts.ScriptErr.TheVariants.{Memory as no_memory};

    ghost from_gives = { λ _ e. e ≡ no_memory };

    fn from(_e: AllocFailed<T>) -> ScriptErr {
        ScriptErr::Memory
    }
}

/// The place of the first LF, or the length where there is none.
#[tactic(auto, using(crate::proofs::WordLaws::line_within))]
fn line_feed_in(text: &[u8]) -> usize
    ensures within { result ≤ length text.now }
    ensures value { result ≡ position_or_len is_line_feed text.now }
{
    text.iter().take_while(|byte| **byte != b'\n').count()
}

fn has_line_feed(text: &[u8]) -> bool
    ensures { result ≡ list_any is_line_feed text.now }
{
    text.iter().any(|byte| *byte == b'\n')
}

/// What stands before the first LF.
fn before_feed(text: &[u8]) -> &[u8]
    ensures { result.now ≡ before_first is_line_feed text.now }
{
    &text[..line_feed_in(text)]
}

/// What stands behind the first LF.
fn behind_feed(text: &[u8]) -> &[u8]
    ensures { result.now ≡ after_first is_line_feed text.now }
{
    let feed = line_feed_in(text);
    if feed < text.len() {
        &text[feed + 1..]
    } else {
        &[]
    }
}

/// A line that LF ended, without the CR before it.
fn without_return(line: &[u8]) -> &[u8]
    ensures { result.now ≡ strip_carriage_return line.now }
{
    match line {
        [front @ .., b'\r'] => front,
        _ => line,
    }
}

/// Puts the event of a line behind others, or none where the line is empty.
fn push_event(
    alloc: Global,
    events: &mut Vec<Event>,
    number: u32,
    line: &[u8],
) -> Result<(), ScriptErr>
    ensures pushed { OnOk result ((es : List Event) × (events_in number line.now ≡ Ok es)
        × (events.new.items ≡ events.old.items ++ es)) }
    ensures refused { IfErr result (λ e. (e ≡ ScriptErr.Memory) ⊎ (events_in number line.now ≡ Err e)) }
{
    if line.is_empty() {
        return Ok(());
    }
    match read_event(alloc, line)? {
        Some(event) => {
            events.push(event)?;
            Ok(())
        }
        None => Err(ScriptErr::Line(number)),
    }
}

/// The events of a script, line by line; an empty line is none, and counts as a line all the same.
pub fn read_script(alloc: Global, bytes: &[u8]) -> Result<Vec<Event>, ScriptErr>
    requires { length bytes.now ≤ 2 ^ 24 }
    ensures events { IfOk result (λ es. script_of bytes.now ≡ Ok es.items) }
    ensures refused { IfErr result (λ e. (e ≡ ScriptErr.Memory) ⊎ (script_of bytes.now ≡ Err e)) }
    ensures possible { IfOk result (λ es. AreEvents es.items) }
{
    let mut events = Vec::new(alloc);
    let mut rest = bytes;
    let mut number = 1;
    'lines: while has_line_feed(rest) {
        let line = without_return(before_feed(rest));
        push_event(alloc, &mut events, number, line)?;
        rest = behind_feed(rest);
        number += 1;
    }
    push_event(alloc, &mut events, number, rest)?;
    Ok(events)
}
