//! The Committed of the commit records of a dead thread enter.

ghost use Rattle.std.specs.Prelude.{◌≡◌, OnOk};
ghost use Rattle.log_history.specs.LogHistory.{is_commit};
ghost use Rattle.redo_record.specs.Redo.{length_of};
ghost use Rattle.thread_steps.specs.Read.{is_news, record_entered, records_entered};

use base_types::{InstNo, NoMemory};
use inst_state::Core;
use journal::Entry;
use redo_types::{Redo, RedoKind};

fn is_commit(kind: RedoKind) -> bool
    ensures { result ≡ is_commit kind }
{
    matches!(kind, RedoKind::Commit)
}

fn length_of(kind: RedoKind) -> u64
    ensures { result ≡ length_of kind }
{
    match kind {
        RedoKind::Change | RedoKind::Lock => 236,
        RedoKind::StepBack => 128,
        RedoKind::Commit | RedoKind::RollbackEnd => 88,
    }
}

// Whether a record of a thread is a commit whose Committed hasn't entered; it ends at this place.
fn is_news(core: &Core, thread: InstNo, behind: u64, redo: &Redo) -> bool
    ensures { result ≡ is_news core.now thread behind redo.now }
{
    core.counted_of(thread) < behind && is_commit(redo.kind)
}

fn enter_record(core: &mut Core, thread: InstNo, behind: u64, redo: &Redo) -> Result<(), NoMemory>
    ensures { OnOk result (core.new ≡ record_entered thread behind redo.now core.old) }
{
    if is_news(core, thread, behind, redo) {
        core.tell(Entry::Committed {
            xid: redo.xid,
            commit_scn: redo.scn,
            inst: thread,
        })?;
    }
    core.count_to(thread, behind);
    Ok(())
}

/// Enters the Committed of each of a thread's commit records whose Committed hasn't entered. The records stand from this
/// place on.
pub(crate) fn enter_records(
    core: &mut Core,
    thread: InstNo,
    position: u64,
    records: &[Redo],
) -> Result<(), NoMemory>
    ensures { OnOk result (core.new ≡ records_entered thread position records.now core.old) }
{
    let mut at = position;
    for redo in records {
        // A place past the last u64 is one for whose bytes there was no memory.
        let Some(behind) = at.checked_add(length_of(redo.kind)) else {
            return Err(NoMemory);
        };
        enter_record(core, thread, behind, redo)?;
        at = behind;
    }
    Ok(())
}
