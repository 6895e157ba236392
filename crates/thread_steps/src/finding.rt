//! A dead thread is looked for on the disk.

ghost use Rattle.std.specs.Prelude.{◌≡◌, ◌<◌, ◌+◌, ◌^◌, fold, length, IfOk};
ghost use Rattle.redo_record.specs.Front.{log_bytes};
ghost use Rattle.thread_steps.specs.Entries.{scns_of};
ghost use Rattle.thread_steps.specs.Found.{FindsThread, FoundFor, HoldsRecords, RunsAs, VersionsAs, fails, found_log, is_end, with_redo};
ghost use Rattle.thread_steps.specs.Observes.{Observes};

use crate::entries::{read_entry, scns_of};
use crate::found::{Found, FoundLog};
use crate::logs::read_log;
use crate::read_error::ReadError;
use crate::records::{Records, have_small_scns, records_in};
use crate::versions::{named_blocks, read_versions};
use base_types::{InstNo, Layout, NoMemory};
use control_image::{ControlEntry, ThreadStatus};
use inst_state::ReadThread;
use rac_disk::SharedDisk;
use redo_types::{Redo, RedoKind};
use scn_clock::Clock;
use std::alloc::Global;

fn is_end(kind: RedoKind) -> bool
    ensures { result ≡ is_end kind }
{
    matches!(kind, RedoKind::Commit | RedoKind::RollbackEnd)
}

fn note_redo(scns: &mut Clock, redo: &Redo)
    ensures { scns.new ≡ with_redo scns.old redo.now }
{
    if is_end(redo.kind) {
        scns.learn(redo.scn);
    } else {
        scns.raise(redo.scn);
    }
}

// The highest SCNs of these and of those of records.
fn scns_with(before: Clock, records: &[Redo]) -> Clock
    ensures { result ≡ fold with_redo before records.now }
{
    let mut scns = before;
    for redo in records {
        note_redo(&mut scns, redo);
    }
    scns
}

fn found_log(thread: InstNo, entry: &ControlEntry, log: Records) -> FoundLog
    requires place { entry.now.position + log.len < 2 ^ 64 }
    requires len { log.len ≡ length (log_bytes log.records) }
    ensures { result ≡ found_log thread entry.now log.records }
{
    let position = entry.position.get();
    let behind = position + log.len as u64;
    let scns = scns_with(scns_of(entry), log.records.as_slice());
    FoundLog {
        position,
        read: ReadThread {
            thread,
            records: log.records,
            behind,
            scns,
        },
    }
}

// Reads the versions of the blocks that records name.
fn find_versions<D: SharedDisk>(
    alloc: Global,
    layout: &Layout,
    log: FoundLog,
    disk: &mut D,
) -> Result<Found, NoMemory>
    ensures { IfOk result (λ found. Observes (fails found) (VersionsAs layout.now log found) (D.state disk.old) (D.state disk.new)) }
{
    let blocks = named_blocks(alloc, log.read.records.as_slice())?;
    match read_versions(alloc, layout, blocks.as_slice(), disk) {
        Ok(versions) => Ok(Found::Whole { log, versions }),
        Err(ReadError::Failed) => Ok(Found::Stopped { log, bad: false }),
        Err(ReadError::Bad) => Ok(Found::Stopped { log, bad: true }),
        Err(ReadError::NoMemory) => Err(NoMemory),
    }
}

// Takes the records from a log's bytes, and reads the versions of the blocks that they name.
fn find_records<D: SharedDisk>(
    alloc: Global,
    layout: &Layout,
    thread: InstNo,
    entry: &ControlEntry,
    bytes: &[u8],
    disk: &mut D,
) -> Result<Found, NoMemory>
    requires { entry.now.position < 2 ^ 62 }
    ensures { IfOk result (λ found. Observes (fails found) (HoldsRecords layout.now thread entry.now bytes.now found) (D.state disk.old) (D.state disk.new)) }
{
    let records = records_in(alloc, bytes)?;
    let bad = records.bad || !have_small_scns(records.records.as_slice());
    let log = found_log(thread, entry, records);
    if bad {
        return Ok(Found::Stopped { log, bad: true });
    }
    find_versions(alloc, layout, log, disk)
}

// Nothing of a log was read.
fn unread(why: ReadError) -> Result<Found, NoMemory>
    ensures { IfOk result (FoundFor why) }
{
    match why {
        ReadError::Failed => Ok(Found::Unread { bad: false }),
        ReadError::Bad => Ok(Found::Unread { bad: true }),
        ReadError::NoMemory => Err(NoMemory),
    }
}

// Reads the log of a thread that is running, by its control entry.
fn find_running<D: SharedDisk>(
    alloc: Global,
    layout: &Layout,
    thread: InstNo,
    entry: &ControlEntry,
    disk: &mut D,
) -> Result<Found, NoMemory>
    requires thread { thread < 8 }
    requires position { entry.now.position < 2 ^ 62 }
    ensures { IfOk result (λ found. Observes (fails found) (RunsAs layout.now thread entry.now found) (D.state disk.old) (D.state disk.new)) }
{
    match read_log(alloc, thread, entry.position.get(), disk) {
        Ok(bytes) => find_records(alloc, layout, thread, entry, bytes.as_slice(), disk),
        Err(why) => unread(why),
    }
}

/// Reads a dead thread: its control entry, and where that says that the thread is running, its whole records and the
/// versions on the disk of the blocks that they name.
pub(crate) fn find_thread<D: SharedDisk>(
    alloc: Global,
    layout: &Layout,
    thread: InstNo,
    disk: &mut D,
) -> Result<Found, NoMemory>
    requires { thread < 8 }
    ensures { IfOk result (λ found. FindsThread layout.now thread found (D.state disk.old) (D.state disk.new)) }
{
    match read_entry(thread, disk) {
        Ok(entry) => match entry.status {
            ThreadStatus::Closed => Ok(Found::Closed(scns_of(&entry))),
            ThreadStatus::Running => find_running(alloc, layout, thread, &entry, disk),
        },
        Err(why) => unread(why),
    }
}
