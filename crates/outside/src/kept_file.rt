// A file that stays open while parts of it are read.

ghost use Rattle.std.specs.Prelude.{◌≡◌, ◌≤◌, ◌+◌, ◌<◌, ◌^◌, ◌↔◌, IfOk, IsTrue, Ok, false, length};

use crate::map_files::copy_part;
use crate::opening::found;
use crate::read_ahead::{AHEAD, Piece, ReadAhead};
use crate::shelves::Failed;
use std::alloc::Global;
use std::fs::{self, File, OpenFile};
use std::os::unix::fs::FileExt;
use std::rt::Files;

// So many bytes are read with the whole file in the time that one part takes.
const PART_COST: u64 = 2500;

// After so many parts the bytes behind the next ones are read with them.
const FEW: u64 = 16;

/// How the parts of a file are read.
#[derive(Drop)]
enum Reads {
    /// Each by itself.
    Alone,
    /// With the bytes behind it, which are kept for a part that they begin with.
    Ahead(ReadAhead),
    /// From the whole file, which was read.
    Whole(Vec<u8>),
}

/// An open file. After a few parts the bytes behind them are read with them, and after as many as a read of the whole
/// costs it is read whole, once.
#[derive(Drop)]
pub(crate) struct KeptFile {
    /// Not kept where there was no memory for it: then the next call opens the file again.
    name: Option<String>,
    file: File,
    /// Its length when it was opened.
    len: u64,
    /// How many parts were not in memory.
    parts: u64,
    reads: Reads,
}

impl KeptFile {
    /// Opens a file, or says `None` where there is none. A folder is no file, and to open it is a fault.
    pub(crate) fn open<R: Files<File = File>>(
        alloc: Global,
        rt: &R,
        name: &str,
    ) -> Result<Option<KeptFile>, Failed> {
        let Some(file) = found(fs::open(rt, name))? else {
            return Ok(None);
        };
        match file.metadata() {
            Ok(data) if !data.is_dir() => Ok(Some(KeptFile {
                name: String::from_str(alloc, name).ok(),
                file,
                len: data.len(),
                parts: 0,
                reads: Reads::Alone,
            })),
            _ => Err(Failed),
        }
    }

    /// Whether the file was opened by this name.
    pub(crate) fn is_of(&self, name: &str) -> bool {
        match &self.name {
            Some(kept) => kept.as_str() == name,
            None => false,
        }
    }

    pub(crate) fn len(&self) -> u64
        ensures { result ≡ self.now.len }
    {
        self.len
    }

    /// Fills `buf` with the bytes from `at` on, or says false where the file ends before.
    pub(crate) fn part(&mut self, alloc: Global, at: u64, buf: &mut [u8]) -> Result<bool, Failed>
        ensures found { IfOk result (λ found. IsTrue found ↔ (at + length buf.old ≤ self.old.len)) }
        ensures stays { result ≡ Ok false → buf.new ≡ buf.old }
        ensures len { self.new.len ≡ self.old.len }
    {
        if at > self.len || self.len - at < buf.len() as u64 {
            return Ok(false);
        }
        if !self.copy(at, buf) {
            self.choose(alloc)?;
            self.read(at, buf)?;
        }
        Ok(true)
    }

    // Fills `buf` with the bytes from `at` on where they are in memory, or says false.
    fn copy(&self, at: u64, buf: &mut [u8]) -> bool
        ensures { length buf.new ≡ length buf.old }
    {
        match &self.reads {
            Reads::Alone => false,
            Reads::Ahead(ahead) => ahead.copy(at, buf),
            Reads::Whole(bytes) => copy_part(bytes, at, buf),
        }
    }

    // Counts a part that is not in memory, and chooses how parts are read from it on. Where there is no memory for the
    // bytes to be kept, they are read as before.
    fn choose(&mut self, alloc: Global) -> Result<(), Failed>
        ensures { self.new.len ≡ self.old.len }
    {
        if self.parts == FEW
            && let Ok(ahead) = ReadAhead::new(alloc)
        {
            self.reads = Reads::Ahead(ahead);
        }
        if self.parts == self.len / PART_COST
            && let Some(bytes) = read_whole(alloc, &self.file, self.len)?
        {
            self.reads = Reads::Whole(bytes);
        }
        self.parts = self.parts.saturating_add(1);
        Ok(())
    }

    // Fills `buf` with the bytes from `at` on.
    fn read(&mut self, at: u64, buf: &mut [u8]) -> Result<(), Failed>
        requires { at + length buf.old ≤ self.old.len }
        ensures long { length buf.new ≡ length buf.old }
        ensures len { self.new.len ≡ self.old.len }
    {
        let left = self.len - at;
        match &mut self.reads {
            Reads::Whole(bytes) => part_of(bytes, at, buf),
            Reads::Ahead(ahead) if buf.len() <= AHEAD && left >= 2 * AHEAD as u64 => {
                read_more(&self.file, at, buf, ahead)
            }
            _ => read_part(&self.file, at, buf),
        }
    }
}

// Fills `buf` with the bytes of a file from `at` on, and keeps those behind them.
fn read_more<F: FileExt>(
    file: &F,
    at: u64,
    buf: &mut [u8],
    ahead: &mut ReadAhead,
) -> Result<(), Failed>
    requires room { at + 112 < 2 ^ 64 }
    requires short { length buf.old ≤ 56 }
    ensures { length buf.new ≡ length buf.old }
{
    let len = buf.len();
    let mut both = [0; 2 * AHEAD];
    read_part(file, at, &mut both[..len + AHEAD])?;
    buf.copy_from_slice(&both[..len]);
    let mut bytes = [0; AHEAD];
    bytes.copy_from_slice(&both[len..len + AHEAD]);
    ahead.keep(Piece {
        at: at + len as u64,
        bytes,
    });
    Ok(())
}

// All bytes of a file, or `None` where there is no memory for them.
fn read_whole(alloc: Global, file: &File, len: u64) -> Result<Option<Vec<u8>>, Failed> {
    let mut bytes = Vec::new(alloc);
    if bytes.resize(len as usize, 0).is_err() {
        return Ok(None);
    }
    read_part(file, 0, &mut bytes)?;
    Ok(Some(bytes))
}

// Fills `buf` with the bytes of a file from `at` on. A file that became shorter is a fault.
fn read_part<F: FileExt>(file: &F, at: u64, buf: &mut [u8]) -> Result<(), Failed>
    requires { at + length buf.old < 2 ^ 64 }
{
    let mut done = 0;
    while done < buf.len() {
        match file.read_at(&mut buf[done..], at + done as u64) {
            Ok(0) => return Err(Failed),
            Ok(count) => done += count,
            Err(_) => return Err(Failed),
        }
    }
    Ok(())
}

// Copies a part of bytes that hold it.
fn part_of(bytes: &[u8], at: u64, buf: &mut [u8]) -> Result<(), Failed> {
    if copy_part(bytes, at, buf) {
        Ok(())
    } else {
        Err(Failed)
    }
}
