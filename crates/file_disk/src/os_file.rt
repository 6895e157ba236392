ghost use Rattle.std.specs.Prelude.{◌≡◌, ◌<◌, ◌≤◌, length, take, IfOk, OnOk, OnErr, Ok, None};
ghost use Rattle.std.specs.Io.KnownBytes.{Appends, Consumes, IsAtEnd};
ghost use Rattle.rac_io.specs.Write.{AppendsPart};

use crate::disk_file::DiskFile;
use rac_disk::Failed;
use std::fs::{File, OpenFile, OpenOptions};
use std::io;
use std::io::{ErrorKind, Read, Seek, SeekFrom, Write};
use std::path::Path;
use std::rt::Files;

/// A file of the system, or none where it couldn't be opened. Each call without a file fails. The system
/// doesn't tell what was done to its file.
#[derive(Drop)]
pub struct OsFile<F> {
    file: Option<F>,
}

impl<F> OsFile<F> {
    /// Opens a file, or makes it, and makes it longer with zeros where it has fewer than `len` bytes. The
    /// file and its folder's list of names are synced.
    pub(crate) fn open<R: Files<File = F>>(
        rt: &R,
        folder: Path<'_>,
        file: Path<'_>,
        len: u64,
    ) -> OsFile<F> {
        OsFile {
            file: open(rt, folder, file, len).ok(),
        }
    }
}

impl<F: Read + Write + Seek + OpenFile> DiskFile for OsFile<F> {
    ghost calls = { λ _. None };

    ghost holds = { λ _. None };

    fn len(&mut self) -> Result<u64, Failed> {
        match &self.file {
            Some(file) => answer(len_of(file)),
            None => Err(Failed),
        }
    }

    fn read(&mut self, at: u64, out: &mut [u8]) -> Result<usize, Failed> {
        match &mut self.file {
            Some(file) => answer(read_at(file, at, out)),
            None => Err(Failed),
        }
    }

    fn write(&mut self, at: u64, bytes: &[u8]) -> Result<(), Failed> {
        match &mut self.file {
            Some(file) => answer(write_at(file, at, bytes)),
            None => Err(Failed),
        }
    }

    fn cut(&mut self, len: u64) -> Result<(), Failed> {
        match &self.file {
            Some(file) => answer(cut(file, len)),
            None => Err(Failed),
        }
    }

    fn sync(&mut self) -> Result<(), Failed> {
        match &mut self.file {
            Some(file) => answer(sync(file)),
            None => Err(Failed),
        }
    }
}

// What a call answers; of an error only that it is one.
fn answer<T>(done: io::Result<T>) -> Result<T, Failed>
    ensures { IfOk result (λ value. done ≡ Ok value) }
{
    match done {
        Ok(value) => Ok(value),
        Err(_) => Err(Failed),
    }
}

fn open<R: Files>(rt: &R, folder: Path<'_>, file: Path<'_>, len: u64) -> io::Result<R::File> {
    let mut options = OpenOptions::new();
    options.read(true).write(true).create(true);
    let file = options.open(rt, file)?;
    if file.metadata()?.len() < len {
        file.set_len(len)?;
    }
    file.sync_all()?;
    File::open(rt, folder)?.sync_all()?;
    Ok(file)
}

fn len_of<F: OpenFile>(file: &F) -> io::Result<u64> {
    Ok(file.metadata()?.len())
}

fn read_at<F: Read + Seek + OpenFile>(file: &mut F, at: u64, out: &mut [u8]) -> io::Result<usize>
    ensures { IfOk result (λ count. count ≤ length out.new) }
{
    // Some places are too far for a seek.
    if at >= file.metadata()?.len() {
        return Ok(0);
    }
    file.seek(SeekFrom::Start(at))?;
    read_on(file, out)
}

fn write_at<F: Write + Seek>(file: &mut F, at: u64, bytes: &[u8]) -> io::Result<()> {
    file.seek(SeekFrom::Start(at))?;
    write_on(file, bytes)
}

fn cut<F: OpenFile>(file: &F, len: u64) -> io::Result<()> {
    if len < file.metadata()?.len() {
        file.set_len(len)?;
    }
    Ok(())
}

fn sync<F: Write + OpenFile>(file: &mut F) -> io::Result<()> {
    file.flush()?;
    file.sync_data()
}

// Reads until `out` is full or the reader ends.
fn read_on<F: Read>(file: &mut F, out: &mut [u8]) -> io::Result<usize>
    ensures bound { IfOk result (λ count. count ≤ length out.new) }
    ensures bytes { IfOk result (λ count. Consumes (F.remaining file.old) (F.remaining file.new) (take count out.new)) }
    ensures end { IfOk result (λ count. count < length out.new → IsAtEnd (F.remaining file.new)) }
{
    let mut count = 0;
    while count < out.len() {
        let more = file.read(&mut out[count..])?;
        if more == 0 {
            break;
        }
        count += more;
    }
    Ok(count)
}

// Writes all the bytes. An error leaves some first part of them written.
fn write_on<F: Write>(file: &mut F, bytes: &[u8]) -> io::Result<()>
    ensures ok { OnOk result (Appends (F.contents file.old) (F.contents file.new) bytes.now) }
    ensures err { OnErr result (AppendsPart (F.contents file.old) (F.contents file.new) bytes.now) }
{
    let mut count = 0;
    while count < bytes.len() {
        let more = file.write(&bytes[count..])?;
        if more == 0 {
            return Err(ErrorKind::WriteZero.into());
        }
        count += more;
    }
    Ok(())
}
