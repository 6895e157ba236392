ghost use Rattle.std.specs.Prelude.{◌≡◌, vec_len, IfOk};

use super::*;
use std::fs;
use std::process::Abort;
use std::test::Fail;

const BLOCK: BlockNo = BlockNo(199);

const THREAD: InstNo = InstNo(7);

/// What goes wrong in a file.
#[derive(Clone, Copy, Debug, PartialEq, Eq)]
enum Fault {
    Never,
    /// Each write fails, and has written so many first bytes.
    Write(usize),
    /// Each sync fails.
    Sync,
    /// Each cut fails, and changes nothing.
    Cut,
    /// Each cut is made, and fails.
    CutLate,
}

/// A file in memory that counts its syncs.
#[derive(Drop)]
struct WatchedFile {
    bytes: Vec<u8>,
    fault: Fault,
    /// Whether each read fails, and each asking for the length.
    unread: bool,
    syncs: u64,
    unsynced: bool,
}

impl WatchedFile {
    fn put(&mut self, at: u64, bytes: &[u8]) -> Result<(), Failed> {
        let start = self.bytes.len().min(at as usize);
        let end = self.bytes.len().min(start.saturating_add(bytes.len()));
        let over = end - start;
        self.bytes.as_mut_slice()[start..end].copy_from_slice(&bytes[..over]);
        self.bytes
            .extend_from_slice(&bytes[over..])
            .map_err(|_| Failed)
    }
}

impl DiskFile for WatchedFile {
    ghost use Rattle.std.specs.Prelude.{None, Some};

    ghost calls = { λ _. None };

    ghost holds = { λ it. Some it.bytes.items };

    fn len(&mut self) -> Result<u64, Failed> {
        if self.unread {
            return Err(Failed);
        }
        Ok(self.bytes.len() as u64)
    }

    fn read(&mut self, at: u64, out: &mut [u8]) -> Result<usize, Failed> {
        if self.unread {
            return Err(Failed);
        }
        let start = self.bytes.len().min(at as usize);
        let left = &self.bytes.as_slice()[start..];
        let count = left.len().min(out.len());
        out[..count].copy_from_slice(&left[..count]);
        Ok(count)
    }

    fn write(&mut self, at: u64, bytes: &[u8]) -> Result<(), Failed> {
        self.unsynced = true;
        match self.fault {
            Fault::Write(keep) => {
                self.put(at, &bytes[..bytes.len().min(keep)])?;
                Err(Failed)
            }
            _ => self.put(at, bytes),
        }
    }

    fn cut(&mut self, len: u64) -> Result<(), Failed> {
        if self.fault == Fault::Cut {
            return Err(Failed);
        }
        self.unsynced = true;
        self.bytes.truncate(len as usize);
        match self.fault {
            Fault::CutLate => Err(Failed),
            _ => Ok(()),
        }
    }

    fn sync(&mut self) -> Result<(), Failed> {
        if self.fault == Fault::Sync {
            return Err(Failed);
        }
        self.unsynced = false;
        self.syncs = self.syncs.saturating_add(1);
        Ok(())
    }
}

fn watched(alloc: Global, len: usize) -> Result<WatchedFile, NoMemory> {
    Ok(WatchedFile {
        bytes: vec![in alloc; 0; len]?,
        fault: Fault::Never,
        unread: false,
        syncs: 0,
        unsynced: false,
    })
}

fn watched_logs(alloc: Global) -> Result<Vec<WatchedFile>, NoMemory>
    ensures { IfOk result (λ logs. vec_len logs ≡ 8) }
{
    let mut logs = Vec::with_capacity(alloc, 8)?;
    for _thread in 0..8u8 {
        logs.push(watched(alloc, 0)?)?;
    }
    Ok(logs)
}

/// A disk over watched files, with logs that have room for 8 bytes.
fn watched_disk(alloc: Global) -> Result<FileDisk<WatchedFile>, NoMemory> {
    let blocks = watched(alloc, 102_400)?;
    let control = watched(alloc, 256)?;
    FileDisk::over(alloc, 8, blocks, control, watched_logs(alloc)?)
}

/// How often the file of blocks, that of control entries and that of the log were synced, or `None` where
/// something isn't.
fn syncs(disk: &FileDisk<WatchedFile>) -> Option<(u64, u64, u64)> {
    let log = disk.logs.get(usize::from(THREAD.0))?;
    if disk.blocks.unsynced || disk.control.unsynced || log.unsynced {
        return None;
    }
    Some((disk.blocks.syncs, disk.control.syncs, log.syncs))
}

#[test]
fn each_change_is_synced_before_it_is_answered(rt: HostRuntime) -> Result<(), Fail> {
    let mut disk = watched_disk(rt.alloc())?;
    disk.write_block(BLOCK, &[1; 512])?;
    assert_eq!(rt; syncs(&disk), Some((1, 0, 0)));
    disk.write_control(THREAD, &[1; 32])?;
    assert_eq!(rt; syncs(&disk), Some((1, 1, 0)));
    disk.append(THREAD, b"abc")?;
    assert_eq!(rt; syncs(&disk), Some((1, 1, 1)));
    disk.cut_log(THREAD, 2)?;
    assert_eq!(rt; syncs(&disk), Some((1, 1, 2)));
    // Nothing is left to cut.
    disk.cut_log(THREAD, 2)?;
    assert_eq!(rt; syncs(&disk), Some((1, 1, 3)));
    Ok(())
}

/// What a call of the log left: whether it was done, the log's length as it is told then, and whether the file
/// has that length.
type Left = (bool, u64, bool);

/// What goes wrong with the log of "ab", whether what a failed call left can't be read either, and what an
/// append of "cde" and then a cut to one byte leave.
const FAULTS: [(Fault, bool, Left, Left); 11] = [
    (Fault::Never, false, (true, 5, true), (true, 1, true)),
    (Fault::Write(0), false, (false, 2, true), (true, 1, true)),
    (Fault::Write(2), false, (false, 4, true), (true, 1, true)),
    (Fault::Sync, false, (false, 5, true), (false, 1, true)),
    (Fault::Cut, false, (true, 5, true), (false, 5, true)),
    (Fault::CutLate, false, (true, 5, true), (false, 1, true)),
    (Fault::Write(0), true, (false, 2, true), (true, 1, true)),
    (Fault::Write(2), true, (false, 2, false), (true, 1, true)),
    (Fault::Sync, true, (false, 2, false), (false, 2, false)),
    (Fault::Cut, true, (true, 5, true), (false, 5, true)),
    (Fault::CutLate, true, (true, 5, true), (false, 5, false)),
];

fn break_log(disk: &mut FileDisk<WatchedFile>, fault: Fault, unread: bool) {
    if let Some(log) = disk.logs.get_mut(usize::from(THREAD.0)) {
        log.fault = fault;
        log.unread = unread;
    }
}

/// What a call that was done or failed left, in a file that can be read again.
fn left(disk: &mut FileDisk<WatchedFile>, done: bool) -> Left {
    break_log(disk, Fault::Never, false);
    let told = disk.kept.log(THREAD).len() as u64;
    (done, told, disk.log_len(THREAD) == Ok(told))
}

#[test]
fn what_a_failed_call_left_is_told(rt: HostRuntime) -> Result<(), Fail> {
    for (fault, unread, appended, cut) in FAULTS {
        let mut disk = watched_disk(rt.alloc())?;
        disk.append(THREAD, b"ab")?;
        break_log(&mut disk, fault, unread);
        let done = disk.append(THREAD, b"cde").is_ok();
        assert_eq!(rt; left(&mut disk, done), appended);
        break_log(&mut disk, fault, unread);
        let done = disk.cut_log(THREAD, 1).is_ok();
        assert_eq!(rt; left(&mut disk, done), cut);
    }
    Ok(())
}

#[test]
fn a_log_without_room_is_full(rt: HostRuntime) -> Result<(), Fail> {
    let mut disk = watched_disk(rt.alloc())?;
    disk.append(THREAD, b"abcdefg")?;
    assert_eq!(rt; disk.append(THREAD, b"hi"), Err(Failed));
    assert_eq!(rt;
        (disk.faults(), disk.full(), disk.log_len(THREAD)?),
        (0, 1, 7)
    );
    disk.append(THREAD, b"h")?;
    assert_eq!(rt;
        (disk.faults(), disk.full(), disk.log_len(THREAD)?),
        (0, 1, 8)
    );
    Ok(())
}

/// Whether each call on a block and a thread fails.
fn failures<D: SharedDisk>(disk: &mut D) -> [bool; 8] {
    [
        disk.read_block(BLOCK, &mut [0; 512]).is_err(),
        disk.write_block(BLOCK, &[1; 512]).is_err(),
        disk.append(THREAD, b"ab").is_err(),
        disk.cut_log(THREAD, 1).is_err(),
        disk.log_len(THREAD).is_err(),
        disk.read_log(THREAD, 0, &mut [0; 4]).is_err(),
        disk.read_control(THREAD, &mut [0; 32]).is_err(),
        disk.write_control(THREAD, &[1; 32]).is_err(),
    ]
}

/// Which calls fail on a disk over a folder, and then the counts of faults and of full logs.
fn failures_at(rt: &HostRuntime, folder: &str) -> Result<([bool; 8], u64, u64), Fail> {
    let mut disk = FileDisk::at(rt, folder)?;
    let failed = failures(&mut disk);
    Ok((failed, disk.faults(), disk.full()))
}

/// Makes an empty folder.
fn make_folder(rt: &HostRuntime, folder: &str) -> Result<(), Fail> {
    let _ = fs::remove_dir_all(rt, folder);
    fs::create_dir(rt, folder)?;
    Ok(())
}

#[test]
fn a_folder_that_is_no_disk_fails_each_call(rt: HostRuntime) -> Result<(), Fail> {
    const FOLDER: &str = "file_disk_test_failing";
    let _ = fs::remove_dir_all(&rt, FOLDER);
    assert_eq!(rt; failures_at(&rt, FOLDER)?, ([true; 8], 8, 0));
    // A folder in the place of a log.
    make_folder(&rt, FOLDER)?;
    fs::create_dir(&rt, "file_disk_test_failing/log7")?;
    assert_eq!(rt; failures_at(&rt, FOLDER)?, ([true; 8], 8, 0));
    // More control entries than there are threads.
    make_folder(&rt, FOLDER)?;
    fs::write(&rt, "file_disk_test_failing/control", &[0u8; 257])?;
    assert_eq!(rt; failures_at(&rt, FOLDER)?, ([true; 8], 8, 0));
    make_folder(&rt, FOLDER)?;
    assert_eq!(rt; failures_at(&rt, FOLDER)?, ([false; 8], 0, 0));
    fs::remove_dir_all(&rt, FOLDER)?;
    Ok(())
}

/// Writes a block, a control entry and a log for each of the threads, which tell them by their number.
fn write_each<D: SharedDisk>(disk: &mut D) -> Result<(), Failed> {
    for number in 0..8u8 {
        disk.write_block(BlockNo(u16::from(number)), &[number; 512])?;
        disk.write_control(InstNo(number), &[number; 32])?;
        disk.append(InstNo(number), &[number; 9])?;
        disk.cut_log(InstNo(number), 5)?;
        disk.append(InstNo(number), &[number; 1])?;
    }
    Ok(())
}

/// Wants what `write_each` wrote.
fn see_each<D: SharedDisk>(rt: &impl Abort, disk: &mut D) -> Result<(), Failed> {
    for number in 0..8u8 {
        let mut block = [9; 512];
        disk.read_block(BlockNo(u16::from(number)), &mut block)?;
        assert_eq!(rt; (block[0], block[511]), (number, number));
        let mut entry = [9; 32];
        disk.read_control(InstNo(number), &mut entry)?;
        assert_eq!(rt; (entry[0], entry[31]), (number, number));
        let mut log = [9; 8];
        assert_eq!(rt; disk.read_log(InstNo(number), 0, &mut log)?, 6);
        assert_eq!(rt; (log[0], log[5], log[6]), (number, number, 9));
        assert_eq!(rt; disk.read_log(InstNo(number), u64::MAX, &mut log)?, 0);
        assert_eq!(rt; disk.log_len(InstNo(number))?, 6);
    }
    Ok(())
}

#[test]
fn a_folder_keeps_what_was_written(rt: HostRuntime) -> Result<(), Fail> {
    const FOLDER: &str = "file_disk_test_kept";
    make_folder(&rt, FOLDER)?;
    let mut disk = FileDisk::at(&rt, FOLDER)?;
    write_each(&mut disk)?;
    see_each(&rt, &mut disk)?;
    let mut again = FileDisk::at(&rt, FOLDER)?;
    see_each(&rt, &mut again)?;
    assert_eq!(rt; (again.faults(), again.full()), (0, 0));
    fs::remove_dir_all(&rt, FOLDER)?;
    Ok(())
}

#[test]
fn what_others_write_is_a_fault(rt: HostRuntime) -> Result<(), Fail> {
    const FOLDER: &str = "file_disk_test_changed";
    make_folder(&rt, FOLDER)?;
    let mut disk = FileDisk::at(&rt, FOLDER)?;
    write_each(&mut disk)?;
    // Another disk over the same folder changes block 3 and the log of thread 2.
    let mut other = FileDisk::at(&rt, FOLDER)?;
    other.write_block(BlockNo(3), &[7; 512])?;
    other.append(InstNo(2), b"x")?;
    let mut block = [9; 512];
    assert_eq!(rt; disk.read_block(BlockNo(3), &mut block), Err(Failed));
    assert_eq!(rt; disk.read_block(BlockNo(2), &mut block), Ok(()));
    assert_eq!(rt; disk.log_len(InstNo(2)), Err(Failed));
    assert_eq!(rt; disk.read_log(InstNo(2), 0, &mut block), Err(Failed));
    assert_eq!(rt; disk.read_log(InstNo(3), 0, &mut block), Ok(6));
    assert_eq!(rt; (disk.faults(), disk.full()), (3, 0));
    fs::remove_dir_all(&rt, FOLDER)?;
    Ok(())
}
