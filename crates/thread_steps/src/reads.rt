//! The leader of a recovery reads a dead thread.

ghost use Rattle.std.specs.Prelude.{◌≡◌, true, IfOk};
ghost use Rattle.thread_steps.specs.Found.{FindsThread};
ghost use Rattle.thread_steps.specs.Read.{may_read, thread_read, thread_read_core};

use crate::finding::find_thread;
use crate::found::Found;
use crate::taking::take_found;
use base_types::{InstNo, NoMemory};
use inst_state::{Core, Inst};
use rac_disk::SharedDisk;
use report_steps::{is_dead, is_read, leads_recovery};
use std::alloc::Global;
use std::snapshot::Snapshot;

/// Whether the leader of a recovery may read a thread: it is dead, and wasn't read since the last change of membership.
pub fn may_read(inst: &Inst, core: &Core, thread: InstNo) -> bool
    ensures { result ≡ may_read inst.now core.now thread }
{
    thread.get() < 8
        && leads_recovery(inst, core)
        && is_dead(core, thread)
        && !is_read(inst, core, thread)
}

/// The leader reads a dead thread: its control entry, and where that says that the thread is running, its whole records
/// from the position on and the versions on the disk of the blocks that they name. The Committed of each of its commit
/// records enters that hasn't. Where the entry says that it is closed, the thread is known to be. Where a call failed or what
/// was read is no content that a run leaves, the leader ends.
///
/// # Errors
///
/// There is no memory for what is read or for the journal's entries.
pub fn read_thread<D: SharedDisk>(
    alloc: Global,
    inst: &mut Inst,
    core: &mut Core,
    disk: &mut D,
    thread: InstNo,
) -> Result<Snapshot<Found>, NoMemory>
    requires { may_read inst.old core.old thread ≡ true }
    ensures part { IfOk result (λ how. inst.new ≡ thread_read inst.old core.old how.value) }
    ensures core { IfOk result (λ how. core.new ≡ thread_read_core inst.old core.old thread how.value) }
    ensures disk { IfOk result (λ how. FindsThread core.old.layout thread how.value (D.state disk.old) (D.state disk.new)) }
{
    let found = find_thread(alloc, &core.layout, thread, disk)?;
    let how = Snapshot::of(&found);
    take_found(alloc, inst, core, thread, found)?;
    Ok(how)
}
