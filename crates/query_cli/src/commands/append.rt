ghost use Rattle.std.specs.Prelude.{◌≡◌, ◌≤◌, length, map, option_map, string_bytes, Some, Ok, Err, IfOk, IfErr};
ghost use Rattle.semantics.specs.Files.{IfTold};
ghost use Rattle.query_cli.specs.Commands.{append};
ghost use Rattle.query_cli.specs.Commands.Column.{Brings, column_reads, column_words};
ghost use Rattle.query_cli.specs.Commands.Append.{append_by, appended_in, appended_line};
ghost use Rattle.query_cli.specs.Reading.{most_csv, most_store, reading_in};
ghost use Rattle.query_cli.specs.Run.{Accepts, IsDone, IsRefused};
ghost use Rattle.query_cli.specs.Shelf.{Replaces, RoseAtMost};
ghost use Rattle.query_cli.specs.Stops.{IfRefused, IfStopped, IsStepRefusal};
ghost use Rattle.query_cli.specs.Views.{command_view, append_view};

use crate::commands::Command;
use crate::steps::column::{Column, readings_of};
use crate::steps::files::{MOST_CSV, MOST_STORE, read_file, replace_file};
use crate::steps::store::{Written, bytes_of, grow, last_of, scale_of, store_of};
use crate::stop::{Fault, Halt, Stop};
use crate::words::name_text;
use expr::Name;
use outside::Shelf;
use std::alloc::{AllocError, Global};

/// `append STORE NAME CSV COLUMN`: a column behind the readings of a series of a store.
#[derive(Drop)]
pub(crate) struct Append<'a>(Column<'a>);

impl<'a> Append<'a> {
    pub(crate) fn read(words: &'a [String]) -> Option<Command<'a>>
        requires { length words.now ≡ 5 }
        ensures { option_map command_view result ≡ option_map append (column_words (map string_bytes words.now)) }
    {
        match Column::read(words) {
            Some(column) => Some(Command::Append(Append(column))),
            None => None,
        }
    }

    // What is written, by the bytes of the two files.
    fn appended(&self, alloc: Global, stored: &[u8], text: &[u8]) -> Result<Written, Stop>
        requires stored { length stored.now ≤ most_store }
        requires text { length text.now ≤ most_csv }
        ensures ok { IfOk result (λ w.
            Brings (append_view self.now) (append_by (append_view self.now)) stored.now text.now
            (string_bytes w.line) w.bytes.items) }
        ensures refused { IfErr result (λ s.
            IfRefused s (IsStepRefusal (appended_in (append_view self.now) stored.now text.now))) }
    {
        let mut store = store_of(alloc, stored)?;
        let last = last_of(alloc, &store, self.0.name)?;
        let xs = readings_of(alloc, text, self.0.column, scale_of(&store), last)?;
        let total = grow(alloc, &mut store, self.0.name, &xs)?;
        let line = line_of(alloc, &self.0.name, xs.len(), total)?;
        let bytes = bytes_of(&store)?;
        Ok(Written { line, bytes })
    }

    /// Puts a column behind the readings of a series.
    pub(crate) fn answer<S: Shelf>(&self, alloc: Global, shelf: &mut S) -> Result<String, Halt>
        ensures done { IfOk result (λ t.
            IsDone (S.files shelf.old) (S.files shelf.new) (Some (append (append_view self.now))) (string_bytes t)) }
        ensures refused { IfErr result (λ h.
            IfStopped h (IsRefused (S.files shelf.old) (Some (append (append_view self.now))))) }
        ensures shelf { Replaces S.files S.read_faults S.replace_faults shelf.old shelf.new result }
        ensures replacing { result ≡ Err (Halt.Faulted Fault.Replacing)
            → IfTold (S.files shelf.old) (λ m. Accepts m (Some (append (append_view self.now)))) }
        ensures fetches { IfTold (S.files shelf.old) (λ m.
            RoseAtMost (column_reads (reading_in m) (append_view self.now))
            (S.fetches shelf.old) (S.fetches shelf.new)) }
    {
        let stored = read_file(alloc, shelf, MOST_STORE, self.0.store)?;
        let text = read_file(alloc, shelf, MOST_CSV, self.0.csv)?;
        let written = self.appended(alloc, &stored, &text)?;
        replace_file(shelf, self.0.store, &written.bytes)?;
        Ok(written.line)
    }
}

fn line_of(alloc: Global, name: &Name, added: usize, total: u32) -> Result<String, AllocError>
    ensures { IfOk result (λ t. string_bytes t ≡ appended_line name.now added total) }
{
    let name = name_text(name);
    let line = format!(in alloc; "appended {name} {added} {total}\n")?;
    Ok(line)
}
