//! A dead thread is closed once all is rebuilt.

ghost use Rattle.std.specs.Prelude.{◌≡◌, ◌<◌, true, IfOk, OnOk, find};
ghost use Rattle.std.specs.Option.{option_copied};
ghost use Rattle.thread_steps.specs.Close.{ClosesLogAs, closed_core_as, closed_entry, is_all_rebuilt, is_of_thread, may_close, read_of, thread_closed, thread_closed_core, with_closing};

use base_types::{InstNo, NoMemory, RedoAt, Scn};
use control_image::{ControlEntry, ThreadStatus};
use disk_calls::{Written, cut_log, write_control};
use inst_loss::{Loss, lose};
use inst_state::{Core, Inst, ReadThread};
use rac_disk::SharedDisk;
use report_steps::{are_read, are_rebuilt, is_dead, leads_recovery};
use scn_clock::Clock;
use std::alloc::Global;

/// How a thread's closing went on the disk.
#[derive(Clone, Copy, Debug, PartialEq, Eq)]
pub enum Closing {
    /// Its log wasn't cut: the call failed.
    Uncut,
    /// Its log was cut, and its control entry wasn't written: the call failed.
    Unwritten,
    /// Its log was cut behind its last whole record, and its control entry says that it is closed.
    Done,
}

// Whether each dead thread is read and all blocks that are to be rebuilt are.
fn is_all_rebuilt(inst: &Inst, core: &Core) -> bool
    ensures { result ≡ is_all_rebuilt inst.now core.now }
{
    are_read(inst, core) && are_rebuilt(inst, core)
}

/// Whether the leader of a recovery may close a thread: each dead thread is read, all blocks are rebuilt, and it is dead.
pub fn may_close(inst: &Inst, core: &Core, thread: InstNo) -> bool
    ensures { result ≡ may_close inst.now core.now thread }
{
    thread.get() < 8
        && leads_recovery(inst, core)
        && is_dead(core, thread)
        && is_all_rebuilt(inst, core)
}

fn find_read(threads: &[ReadThread], thread: InstNo) -> Option<&ReadThread>
    ensures { option_copied result ≡ find (is_of_thread thread) threads.now }
{
    threads.iter().find(|read| read.thread == thread)
}

// The closed control entry of a thread that was read.
fn closed_entry(inst: &Inst, thread: InstNo) -> ControlEntry
    ensures { result ≡ closed_entry (read_of inst.now thread) }
{
    match find_read(inst.leading.recovering.threads.as_slice(), thread) {
        Some(read) => ControlEntry {
            status: ThreadStatus::Closed,
            position: RedoAt(read.behind),
            highest_scn: read.scns.scn,
            highest_end_scn: read.scns.known,
        },
        None => ControlEntry {
            status: ThreadStatus::Closed,
            position: RedoAt(0),
            highest_scn: Scn(0),
            highest_end_scn: Scn(0),
        },
    }
}

// Cuts a thread's log at the position of its closed entry, and writes that.
fn close_log<D: SharedDisk>(thread: InstNo, entry: &ControlEntry, disk: &mut D) -> Closing
    requires { thread < 8 }
    ensures { ClosesLogAs thread entry.now result (D.state disk.old) (D.state disk.new) }
{
    match cut_log(disk, thread, entry.position.get()) {
        Written::Failed => Closing::Uncut,
        Written::Done => match write_control(disk, thread, &entry.write()) {
            Written::Failed => Closing::Unwritten,
            Written::Done => Closing::Done,
        },
    }
}

fn note_closing(core: &mut Core, thread: InstNo, entry: &ControlEntry)
    ensures { core.new ≡ with_closing core.old thread entry.now }
{
    core.set_closed(
        thread,
        Some(Clock {
            scn: entry.highest_scn,
            known: entry.highest_end_scn,
        }),
    );
    core.recovery.closed_since.insert(thread);
}

// The thread is known to be closed, or the leader ends.
fn take_closing(
    alloc: Global,
    inst: &mut Inst,
    core: &mut Core,
    thread: InstNo,
    entry: &ControlEntry,
    how: Closing,
) -> Result<(), NoMemory>
    ensures part { OnOk result (inst.new ≡ thread_closed inst.old how) }
    ensures core { OnOk result (core.new ≡ closed_core_as inst.old core.old thread entry.now how) }
{
    match how {
        Closing::Done => {
            note_closing(core, thread, entry);
            Ok(())
        }
        _ => lose(alloc, inst, core, Loss::Ended { bad: false }, Some(0)),
    }
}

/// The leader closes a dead thread: its log is cut behind its last whole record, and its control entry is written as closed,
/// with the SCNs of the thread. Where a call failed, the leader ends.
///
/// # Errors
///
/// There is no memory for the journal's entries.
pub fn close_thread<D: SharedDisk>(
    alloc: Global,
    inst: &mut Inst,
    core: &mut Core,
    disk: &mut D,
    thread: InstNo,
) -> Result<Closing, NoMemory>
    requires { may_close inst.old core.old thread ≡ true }
    ensures part { IfOk result (λ how. inst.new ≡ thread_closed inst.old how) }
    ensures core { IfOk result (λ how. core.new ≡ thread_closed_core inst.old core.old thread how) }
    ensures disk { IfOk result (λ how. ClosesLogAs thread (closed_entry (read_of inst.old thread)) how (D.state disk.old) (D.state disk.new)) }
{
    let entry = closed_entry(inst, thread);
    let how = close_log(thread, &entry, disk);
    take_closing(alloc, inst, core, thread, &entry, how)?;
    Ok(how)
}
