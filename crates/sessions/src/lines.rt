// The event of a line.

ghost use Rattle.std.specs.Prelude.{◌≡◌, Some, IfOk, option_map};
ghost use Rattle.sessions.specs.declared.events.Event.{Event};
ghost use Rattle.sessions.specs.declared.events.Event.TheVariants.{Append};
ghost use Rattle.sessions.specs.Script.{append_in, by_word, event_of, opening_in};

use crate::events::Event;
use crate::words::{behind_of, has_space, is_text, read_digits, read_readings, read_slot, word_of};
use expr::Name;
use num_text::{Memory, Text};
use std::alloc::Global;

/// The greatest budget.
const MOST_BUDGET: u128 = (1 << 127) - 1;

fn read_opening(alloc: Global, text: &[u8]) -> Result<Option<Event>, Memory>
    ensures { IfOk result (λ e. e ≡ opening_in text.now) }
{
    let behind = behind_of(text);
    if !has_space(behind) {
        return Ok(None);
    }
    let Some(slot) = read_slot(word_of(text)) else {
        return Ok(None);
    };
    let Some(budget) = read_digits(word_of(behind), MOST_BUDGET) else {
        return Ok(None);
    };
    let query = Vec::from_slice(alloc, behind_of(behind))?;
    Ok(Some(Event::OpenSlot {
        slot,
        budget,
        query: Text::of(query),
    }))
}

fn read_append(alloc: Global, text: &[u8]) -> Result<Option<Event>, Memory>
    ensures { IfOk result (λ e. e ≡ append_in text.now) }
{
    let Some(name) = Name::of(word_of(text)) else {
        return Ok(None);
    };
    if !has_space(text) {
        return Ok(None);
    }
    match read_readings(alloc, behind_of(text))? {
        Some(xs) => Ok(Some(Event::Append { name, xs })),
        None => Ok(None),
    }
}

fn by_word(alloc: Global, word: &[u8], text: &[u8]) -> Result<Option<Event>, Memory>
    ensures { IfOk result (λ e. e ≡ by_word word.now text.now) }
{
    if is_text(word, "open") {
        return read_opening(alloc, text);
    }
    if is_text(word, "step") {
        return Ok(read_slot(text).map(Event::StepSlot));
    }
    if is_text(word, "show") {
        return Ok(read_slot(text).map(Event::ShowSlot));
    }
    if is_text(word, "close") {
        return Ok(read_slot(text).map(Event::CloseSlot));
    }
    if is_text(word, "append") {
        return read_append(alloc, text);
    }
    Ok(None)
}

/// The event of a line, or none where it has none.
pub(crate) fn read_event(alloc: Global, line: &[u8]) -> Result<Option<Event>, Memory>
    ensures { IfOk result (λ e. e ≡ event_of line.now) }
{
    if is_text(line, "save") {
        return Ok(Some(Event::Save));
    }
    by_word(alloc, word_of(line), behind_of(line))
}
