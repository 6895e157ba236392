ghost use Rattle.std.specs.Prelude.{◌≡◌, ◌≢◌, ℕ, ◌*◌, ◌+◌, ◌<◌, ◌≤◌, false, length, map, slice_index_or, vec_len, true, MatchResult, IfSome, Ok, IfOk, IsOk, IsErr, OnOk};
ghost use Rattle.rac_io.specs.Counts.{Rose};
ghost use Rattle.rac_disk.specs.Content.{IsDisk, log_at};
ghost use Rattle.rac_disk.specs.Calls.{ReadsBlock, WritesBlock, Appends, CutsLog, GivesLength, ReadsLog, ReadsControl, WritesControl};
ghost use Rattle.file_disk.specs.Opening.{HasBlocks, HasControls, HasEmptyLogs, HasLogs};
ghost use Rattle.file_disk.specs.Files.{Written, Cut, of_log, synced};

#[cfg(test)]
mod tests;

use crate::disk_file::DiskFile;
use crate::opening::{
    BLOCK_BYTES, BLOCKS, ENTRY_BYTES, THREADS, block_place, entry_place, read_blocks,
    read_controls, read_logs,
};
use crate::os_file::OsFile;
use crate::through::{
    append_through, cut_log_through, known_len, read_known, same_front, write_through,
};
use base_types::{BlockNo, InstNo, NoMemory};
use rac_disk::{Failed, MemContent, SharedDisk};
use std::alloc::Global;
use std::fs::OpenFile;
use std::io::{Read, Seek, Write};
use std::path::Path;
use std::rt::Files;

/// The bytes that each log has room for.
const LOG_BYTES: u64 = 8_388_608;

/// The names of their files.
const LOGS: [&str; 8] = [
    "log0", "log1", "log2", "log3", "log4", "log5", "log6", "log7",
];

/// A shared disk over the files `blocks`, `control` and `log0` to `log7` of a folder, each log with room for
/// 8,388,608 bytes.
///
/// It reads the files whole as it is opened, keeps beside what they hold, and tells that. A write, an append
/// and a cut are in the file and synced before they answer `Ok`. A read gives what the file holds, and fails
/// where that isn't what is kept. So what it tells is what the folder holds, if nobody else writes there
/// meanwhile and the system keeps what it acknowledged.
///
/// # Faults
///
/// Each error of a file is a fault: an interruption too, and a folder without room. Where the opening met one,
/// or a file of another size than a disk's, each call fails.
///
/// # What a failed call leaves
///
/// It tells what it then reads in the file, where that is the change made or some first bytes of an append,
/// and else that all is as it was. Where only the sync failed, the file reads as if the change were made, and
/// a crash may still lose it or a part of it, also after a later `Ok`.
#[derive(Drop)]
pub struct FileDisk<F> {
    blocks: F,
    control: F,
    logs: Vec<F>,
    kept: MemContent,
    /// Whether the folder was read whole.
    is_read: bool,
    faults: u64,
    full: u64,
    ghost threads: { vec_len logs ≡ 8 },
    ghost is_disk: { IsDisk kept },
}

impl<F: Read + Write + Seek + OpenFile + Drop> FileDisk<OsFile<F>> {
    /// Opens the files of a folder, which has to exist, or makes them; a file of blocks or of control entries
    /// that is too short is made longer with zeros. Each file and the folder's list of names are synced; the
    /// folder's own name isn't. `NoMemory` where memory is short.
    pub fn at<R: Files<File = F> + AllocGlobal>(
        rt: &R,
        folder: &str,
    ) -> Result<FileDisk<OsFile<F>>, NoMemory>
        ensures faults { IfOk result (λ it. (⟦<FileDisk<OsFile<F>> as SharedDisk>⟧.state it).faults ≡ 0) }
        ensures full { IfOk result (λ it. (⟦<FileDisk<OsFile<F>> as SharedDisk>⟧.state it).full ≡ 0) }
    {
        let folder = Path::new(folder);
        let blocks = open(rt, folder, "blocks", u64::from(BLOCKS) * BLOCK_BYTES)?;
        let control = open(rt, folder, "control", u64::from(THREADS) * ENTRY_BYTES)?;
        let logs = open_logs(rt, folder)?;
        FileDisk::over(rt.alloc(), LOG_BYTES, blocks, control, logs)
    }
}

impl<F: DiskFile + Drop> FileDisk<F> {
    /// A disk over these files, which it reads whole, each log with room for `log_bytes` bytes. `NoMemory`
    /// where memory is short.
    fn over(
        alloc: Global,
        log_bytes: u64,
        blocks: F,
        control: F,
        logs: Vec<F>,
    ) -> Result<FileDisk<F>, NoMemory>
        requires { vec_len logs ≡ 8 }
        ensures blocks { IfOk result (λ it. it.is_read ≡ true → IfSome (F.holds blocks) (λ bytes. HasBlocks 200 bytes it.kept.blocks)) }
        ensures controls { IfOk result (λ it. it.is_read ≡ true → IfSome (F.holds control) (λ bytes. HasControls 8 bytes it.kept.controls)) }
        ensures logs { IfOk result (λ it. it.is_read ≡ true → HasLogs 8 (map F.holds logs.items) it.kept) }
        ensures faults { IfOk result (λ it. it.faults ≡ 0) }
        ensures full { IfOk result (λ it. it.full ≡ 0) }
    {
        let mut disk = FileDisk {
            blocks,
            control,
            logs,
            kept: MemContent::new(alloc, BLOCKS, log_bytes)?,
            is_read: false,
            faults: 0,
            full: 0,
        };
        disk.is_read = disk.read_files().is_ok();
        Ok(disk)
    }

    fn read_files(&mut self) -> Result<(), Failed>
        requires { HasEmptyLogs 0 self.old.kept }
        ensures blocks { OnOk result (IfSome (F.holds self.old.blocks) (λ bytes. HasBlocks 200 bytes self.new.kept.blocks)) }
        ensures controls { OnOk result (IfSome (F.holds self.old.control) (λ bytes. HasControls 8 bytes self.new.kept.controls)) }
        ensures logs { OnOk result (HasLogs 8 (map F.holds self.old.logs.items) self.new.kept) }
        ensures faults { self.new.faults ≡ self.old.faults }
        ensures full { self.new.full ≡ self.old.full }
    {
        read_blocks(&mut self.blocks, &mut self.kept)?;
        read_controls(&mut self.control, &mut self.kept)?;
        read_logs(self.logs.as_mut_slice(), &mut self.kept)
    }
}

impl<F: DiskFile> SharedDisk for FileDisk<F> {
    ghost use Rattle.file_disk.specs.Told.{blocks_file, control_file, is_read_whole, kept_of, log_files, state_of};

    ghost state = { state_of };

    fn read_block(&mut self, b: BlockNo, out: &mut [u8; 512]) -> Result<(), Failed>
        requires { b < 200 }
        ensures disk { ReadsBlock b out.new result (state_of self.old) (state_of self.new) }
        ensures unread { is_read_whole self.old ≡ false → IsErr result }
    {
        if !self.is_read {
            return fault(&mut self.faults);
        }
        let known = self.kept.block(b);
        let done = read_known(&mut self.blocks, block_place(b), out, known);
        counted(&mut self.faults, done)?;
        Ok(())
    }

    fn write_block(&mut self, b: BlockNo, bytes: &[u8; 512]) -> Result<(), Failed>
        requires { b < 200 }
        ensures disk { WritesBlock b bytes.now result (state_of self.old) (state_of self.new) }
        ensures unread { is_read_whole self.old ≡ false → IsErr result }
        ensures file { OnOk result (F.calls (blocks_file self.new) ≡ synced (Written (b * 512) bytes.now) (F.calls (blocks_file self.old))) }
        ensures others { (control_file self.new ≡ control_file self.old) × (log_files self.new ≡ log_files self.old) }
    {
        if !self.is_read {
            return fault(&mut self.faults);
        }
        let at = block_place(b);
        let done = write_through(&mut self.blocks, at, bytes);
        if done.is_ok() || same_front(&mut self.blocks, at, bytes) == 512 {
            self.kept.write_block(b, bytes);
        }
        counted(&mut self.faults, done)
    }

    fn append(&mut self, t: InstNo, bytes: &[u8]) -> Result<(), Failed>
        requires { t < 8 }
        ensures disk { Appends t bytes.now result (state_of self.old) (state_of self.new) }
        ensures unread { is_read_whole self.old ≡ false → IsErr result }
        ensures file { OnOk result (of_log F.calls (log_files self.new) t ≡ synced (Written (length (log_at (kept_of self.old) t)) bytes.now) (of_log F.calls (log_files self.old) t)) }
        ensures other_logs { (k : ℕ) → k ≢ t → of_log F.calls (log_files self.new) k ≡ of_log F.calls (log_files self.old) k }
        ensures others { (blocks_file self.new ≡ blocks_file self.old) × (control_file self.new ≡ control_file self.old) }
    {
        if !self.is_read {
            return fault(&mut self.faults);
        }
        if self.kept.free(t) < bytes.len() {
            self.full = self.full.saturating_add(1);
            return Err(Failed);
        }
        let at = self.kept.log(t).len() as u64;
        let done = append_through(self.logs.as_mut_slice(), t, at, bytes);
        let count = match done {
            Ok(()) => bytes.len(),
            Err(count) => count,
        };
        let _whole = self.kept.append(t, &bytes[..count]);
        counted(&mut self.faults, done)
    }

    fn cut_log(&mut self, t: InstNo, len: u64) -> Result<(), Failed>
        requires { t < 8 }
        ensures disk { CutsLog t len result (state_of self.old) (state_of self.new) }
        ensures unread { is_read_whole self.old ≡ false → IsErr result }
        ensures file { OnOk result (of_log F.calls (log_files self.new) t ≡ synced (Cut len) (of_log F.calls (log_files self.old) t)) }
        ensures other_logs { (k : ℕ) → k ≢ t → of_log F.calls (log_files self.new) k ≡ of_log F.calls (log_files self.old) k }
        ensures others { (blocks_file self.new ≡ blocks_file self.old) × (control_file self.new ≡ control_file self.old) }
    {
        if !self.is_read {
            return fault(&mut self.faults);
        }
        let done = cut_log_through(self.logs.as_mut_slice(), t, len);
        if done != Err(false) {
            self.kept.cut(t, len);
        }
        counted(&mut self.faults, done)
    }

    fn log_len(&mut self, t: InstNo) -> Result<u64, Failed>
        requires { t < 8 }
        ensures disk { GivesLength t result (state_of self.old) (state_of self.new) }
        ensures unread { is_read_whole self.old ≡ false → IsErr result }
    {
        if !self.is_read {
            return fault(&mut self.faults);
        }
        let known = self.kept.log(t).len() as u64;
        let done = known_len(&mut self.logs[usize::from(t.0)], known);
        counted(&mut self.faults, done)
    }

    fn read_log(&mut self, t: InstNo, at: u64, out: &mut [u8]) -> Result<usize, Failed>
        requires { t < 8 }
        ensures disk { ReadsLog t at out.new result (state_of self.old) (state_of self.new) }
        ensures unread { is_read_whole self.old ≡ false → IsErr result }
    {
        if !self.is_read {
            return fault(&mut self.faults);
        }
        let log = self.kept.log(t);
        let known = &log[log.len().min(at as usize)..];
        let done = read_known(&mut self.logs[usize::from(t.0)], at, out, known);
        counted(&mut self.faults, done)
    }

    fn read_control(&mut self, t: InstNo, out: &mut [u8; 32]) -> Result<(), Failed>
        requires { t < 8 }
        ensures disk { ReadsControl t out.new result (state_of self.old) (state_of self.new) }
        ensures unread { is_read_whole self.old ≡ false → IsErr result }
    {
        if !self.is_read {
            return fault(&mut self.faults);
        }
        let known = self.kept.control(t);
        let done = read_known(&mut self.control, entry_place(t), out, known);
        counted(&mut self.faults, done)?;
        Ok(())
    }

    fn write_control(&mut self, t: InstNo, bytes: &[u8; 32]) -> Result<(), Failed>
        requires { t < 8 }
        ensures disk { WritesControl t bytes.now result (state_of self.old) (state_of self.new) }
        ensures unread { is_read_whole self.old ≡ false → IsErr result }
        ensures file { OnOk result (F.calls (control_file self.new) ≡ synced (Written (t * 32) bytes.now) (F.calls (control_file self.old))) }
        ensures others { (blocks_file self.new ≡ blocks_file self.old) × (log_files self.new ≡ log_files self.old) }
    {
        if !self.is_read {
            return fault(&mut self.faults);
        }
        let at = entry_place(t);
        let done = write_through(&mut self.control, at, bytes);
        if done.is_ok() || same_front(&mut self.control, at, bytes) == 32 {
            self.kept.write_control(t, bytes);
        }
        counted(&mut self.faults, done)
    }

    fn full(&self) -> u64 {
        self.full
    }

    fn faults(&self) -> u64 {
        self.faults
    }
}

fn open<R: Files + AllocGlobal>(
    rt: &R,
    folder: Path<'_>,
    name: &str,
    len: u64,
) -> Result<OsFile<R::File>, NoMemory> {
    let file = folder.join(rt.alloc(), name)?;
    Ok(OsFile::open(rt, folder, file.as_path(), len))
}

fn open_logs<R: Files + AllocGlobal>(
    rt: &R,
    folder: Path<'_>,
) -> Result<Vec<OsFile<R::File>>, NoMemory>
    ensures { IfOk result (λ logs. vec_len logs ≡ 8) }
{
    let mut logs = Vec::with_capacity(rt.alloc(), LOGS.len())?;
    for name in LOGS {
        logs.push(open(rt, folder, name, 0)?)?;
    }
    Ok(logs)
}

// A failure, which is counted.
fn fault<T>(faults: &mut u64) -> Result<T, Failed>
    ensures err { IsErr result }
    ensures later { faults.old ≤ faults.new }
    ensures rose { Rose faults.old faults.new }
{
    *faults = faults.saturating_add(1);
    Err(Failed)
}

// What a call answers. A failure is counted.
fn counted<T, E: Drop>(faults: &mut u64, done: Result<T, E>) -> Result<T, Failed>
    ensures same { MatchResult done (λ value. result ≡ Ok value) (λ _. IsErr result) }
    ensures ok { IsOk result → faults.new ≡ faults.old }
    ensures later { faults.old ≤ faults.new }
    ensures rose { IsErr result → Rose faults.old faults.new }
{
    match done {
        Ok(value) => Ok(value),
        Err(_) => fault(faults),
    }
}
