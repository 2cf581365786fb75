ghost use Rattle.std.specs.Prelude.{◌≡◌, ◌≤◌, length, map, option_map, string_bytes, Some, Ok, Err, OnOk, IfOk, IfErr};
ghost use Rattle.segment.specs.Measure.{AreReadings};
ghost use Rattle.semantics.specs.Files.{IfTold};
ghost use Rattle.semantics.specs.Most.{most_readings};
ghost use Rattle.store_file.specs.Added.{HasRoom, IsAddable, with_series};
ghost use Rattle.store_file.specs.StoreValue.{store_image};
ghost use Rattle.store_file.specs.Stored.{store_value};
ghost use Rattle.query_cli.specs.Commands.{load};
ghost use Rattle.query_cli.specs.Commands.Column.{Brings, column_reads, column_words};
ghost use Rattle.query_cli.specs.Commands.Load.{load_by, loaded_in, loaded_line};
ghost use Rattle.query_cli.specs.Reading.{most_csv, most_store, reading_in};
ghost use Rattle.query_cli.specs.Run.{Accepts, IsDone, IsRefused};
ghost use Rattle.query_cli.specs.Shelf.{Replaces, RoseAtMost};
ghost use Rattle.query_cli.specs.Steps.{room_in};
ghost use Rattle.query_cli.specs.Stops.{IfRefused, IfStopped, IsStepRefusal};
ghost use Rattle.query_cli.specs.Views.{command_view, load_view};

use crate::commands::Command;
use crate::steps::column::{Column, readings_of};
use crate::steps::files::{MOST_CSV, MOST_STORE, read_file, replace_file};
use crate::steps::store::{Written, add, bytes_of, find_room, scale_of, store_of};
use crate::stop::{Fault, Halt, Stop};
use crate::words::name_text;
use expr::Name;
use outside::Shelf;
use std::alloc::{AllocError, Global};
use store_file::Store;

/// `load STORE NAME CSV COLUMN`: a column as a new series of a store.
#[derive(Drop)]
pub(crate) struct Load<'a>(Column<'a>);

impl<'a> Load<'a> {
    pub(crate) fn read(words: &'a [String]) -> Option<Command<'a>>
        requires { length words.now ≡ 5 }
        ensures { option_map command_view result ≡ option_map load (column_words (map string_bytes words.now)) }
    {
        match Column::read(words) {
            Some(column) => Some(Command::Load(Load(column))),
            None => None,
        }
    }

    // What is written, by the bytes of the two files.
    fn loaded(&self, alloc: Global, stored: &[u8], text: &[u8]) -> Result<Written, Stop>
        requires stored { length stored.now ≤ most_store }
        requires text { length text.now ≤ most_csv }
        ensures ok { IfOk result (λ w.
            Brings (load_view self.now) (load_by (load_view self.now)) stored.now text.now
            (string_bytes w.line) w.bytes.items) }
        ensures refused { IfErr result (λ s.
            IfRefused s (IsStepRefusal (loaded_in (load_view self.now) stored.now text.now))) }
    {
        let mut store = store_of(alloc, stored)?;
        find_room(alloc, &store, self.0.name)?;
        let xs = readings_of(alloc, text, self.0.column, scale_of(&store), None)?;
        let written = added(alloc, &mut store, self.0.name, &xs)?;
        Ok(written)
    }

    /// Adds a column to a store as a new series.
    pub(crate) fn answer<S: Shelf>(&self, alloc: Global, shelf: &mut S) -> Result<String, Halt>
        ensures done { IfOk result (λ t.
            IsDone (S.files shelf.old) (S.files shelf.new) (Some (load (load_view self.now))) (string_bytes t)) }
        ensures refused { IfErr result (λ h.
            IfStopped h (IsRefused (S.files shelf.old) (Some (load (load_view self.now))))) }
        ensures shelf { Replaces S.files S.read_faults S.replace_faults shelf.old shelf.new result }
        ensures replacing { result ≡ Err (Halt.Faulted Fault.Replacing)
            → IfTold (S.files shelf.old) (λ m. Accepts m (Some (load (load_view self.now)))) }
        ensures fetches { IfTold (S.files shelf.old) (λ m.
            RoseAtMost (column_reads (reading_in m) (load_view self.now)) (S.fetches shelf.old) (S.fetches shelf.new)) }
    {
        let stored = read_file(alloc, shelf, MOST_STORE, self.0.store)?;
        let text = read_file(alloc, shelf, MOST_CSV, self.0.csv)?;
        let written = self.loaded(alloc, &stored, &text)?;
        replace_file(shelf, self.0.store, &written.bytes)?;
        Ok(written.line)
    }
}

fn line_of(alloc: Global, name: &Name, total: usize) -> Result<String, AllocError>
    ensures { IfOk result (λ t. string_bytes t ≡ loaded_line name.now total) }
{
    let name = name_text(name);
    let line = format!(in alloc; "loaded {name} {total}\n")?;
    Ok(line)
}

// What is written once the series is added, for which there is room.
fn added(alloc: Global, store: &mut Store, name: Name, xs: &[i32]) -> Result<Written, AllocError>
    requires room { room_in (store_value store.old) name ≡ Ok (store_value store.old) }
    requires few { length xs.now ≤ most_readings }
    requires small { AreReadings xs.now }
    requires nodes { HasRoom store.old }
    ensures line { IfOk result (λ w. string_bytes w.line ≡ loaded_line name (length xs.now)) }
    ensures bytes { IfOk result (λ w.
        w.bytes.items ≡ store_image (with_series (store_value store.old) name xs.now)) }
    ensures addable { OnOk result (IsAddable (store_value store.old) name xs.now) }
{
    let line = line_of(alloc, &name, xs.len())?;
    add(store, name, xs)?;
    let bytes = bytes_of(store)?;
    Ok(Written { line, bytes })
}
