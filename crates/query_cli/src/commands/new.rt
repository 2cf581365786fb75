ghost use Rattle.query_cli.specs.Commands.New.{new_of, new_line};
ghost use Rattle.query_cli.specs.Replay.{empty_store};
ghost use Rattle.query_cli.specs.Shelf.{Replaces};
ghost use Rattle.query_cli.specs.Stops.{IfStopped};
ghost use Rattle.std.specs.Prelude.{◌≡◌, ◌≢◌, ◌≤◌, length, IfOk, map, option_map, string_bytes, Some, None, Err, IfErr};
ghost use Rattle.store_file.specs.StoreValue.{store_image};

use crate::commands::Command;
use crate::steps::files::replace_file;
use crate::steps::store::{Written, bytes_of};
use crate::stop::{Fault, Halt};
use crate::words::{MOST_DEGREE, MOST_SCALE, is_file_word, read_digit, word_at};
use num_text::Memory;
use outside::Shelf;
use std::alloc::{AllocError, Global};
use store_file::Store;

/// `new STORE SCALE DEGREE`: an empty store in a file.
#[derive(Drop)]
pub(crate) struct New<'a> {
    pub(crate) store: &'a str,
    /// How many decimal places of a cell are kept.
    pub(crate) scale: u8,
    /// The degree up to which segments are fitted.
    pub(crate) degree: u8,
    ghost few_places: { scale ≤ 6 },
    ghost square: { degree ≤ 2 },
}

impl<'a> New<'a> {
    ghost use Rattle.query_cli.specs.Commands.{new_store};
    ghost use Rattle.query_cli.specs.Run.{IsDone, IsRefused};
    ghost use Rattle.query_cli.specs.Views.{command_view, new_view};

    pub(crate) fn read(words: &'a [String]) -> Option<Command<'a>>
        requires { length words.now ≡ 4 }
        ensures { option_map command_view result ≡ option_map new_store (new_of (map string_bytes words.now)) }
    {
        if !is_file_word(word_at(words, 1)) {
            return None;
        }
        let scale = read_digit(word_at(words, 2).as_bytes(), MOST_SCALE)?;
        let degree = read_digit(word_at(words, 3).as_bytes(), MOST_DEGREE)?;
        Some(Command::New(New {
            store: word_at(words, 1),
            scale,
            degree,
        }))
    }

    /// Writes an empty store, whatever stood there.
    pub(crate) fn answer<S: Shelf>(&self, alloc: Global, shelf: &mut S) -> Result<String, Halt>
        ensures done { IfOk result (λ t.
            IsDone (S.files shelf.old) (S.files shelf.new) (Some (new_store (new_view self.now))) (string_bytes t)) }
        ensures refused { IfErr result (λ h.
            IfStopped h (IsRefused (S.files shelf.old) (Some (new_store (new_view self.now))))) }
        ensures shelf { Replaces S.files S.read_faults S.replace_faults shelf.old shelf.new result }
        ensures not_reading { result ≢ Err (Halt.Faulted Fault.Reading) }
        ensures reads_stay { S.read_faults shelf.new ≡ S.read_faults shelf.old }
        ensures fetches_stay { S.fetches shelf.new ≡ S.fetches shelf.old }
    {
        let written = empty(alloc, self.scale, self.degree)?;
        replace_file(shelf, self.store, &written.bytes)?;
        Ok(written.line)
    }
}

// No node is ever made in it.
const LIMIT: u32 = 1;

// What is written: an empty store.
fn empty(alloc: Global, scale: u8, degree: u8) -> Result<Written, AllocError>
    requires scale { scale ≤ 6 }
    requires degree { degree ≤ 2 }
    ensures line { IfOk result (λ w. string_bytes w.line ≡ new_line) }
    ensures bytes { IfOk result (λ w. w.bytes.items ≡ store_image (empty_store scale degree)) }
{
    let line = String::from_str(alloc, "new\n")?;
    let store = match Store::new(alloc, scale, degree, LIMIT) {
        Ok(store) => store,
        Err(Memory) => return Err(AllocError),
    };
    let bytes = bytes_of(&store)?;
    Ok(Written { line, bytes })
}
