//! An instance's thread is running again, from the end of its log.

ghost use Rattle.std.specs.Prelude.{◌≡◌, ◌<◌, OnOk};
ghost use Rattle.rebuild_steps.specs.Open.{OpensAs, learnt_of, opened, opened_core, running_bytes, running_entry, scns_of, is_open};

use base_types::{InstNo, NoMemory, RedoAt};
use control_image::{ControlEntry, ThreadStatus};
use disk_calls::{Written, log_len, write_control};
use inst_state::{Core, Inst};
use rac_disk::SharedDisk;
use redo_thread::RedoThread;
use scn_clock::Clock;
use std::alloc::Global;

/// How the opening of an instance's thread went.
#[derive(Clone, Copy, Debug, PartialEq, Eq)]
pub enum Opened {
    /// Its log has this length, and its control entry says that it runs from there.
    Running(u64),
    /// Its log has this length, and the write of its control entry failed.
    Unwritten(u64),
    /// The length of its log wasn't told.
    Untold,
}

// The control entry of a thread that runs from a place on.
fn running_entry(length: u64, scns: &Clock) -> ControlEntry
    ensures { result ≡ running_entry length scns.now }
{
    ControlEntry {
        status: ThreadStatus::Running,
        position: RedoAt(length),
        highest_scn: scns.scn,
        highest_end_scn: scns.known,
    }
}

#[tactic(auto, unfolding(crate::specs::Open::running_bytes))]
fn running_bytes(length: u64, scns: &Clock) -> [u8; 32]
    ensures { result ≡ running_bytes length scns.now }
{
    running_entry(length, scns).write()
}

// Asks for the length of an instance's log and writes its control entry: its thread runs from there.
pub(crate) fn open<D: SharedDisk>(disk: &mut D, me: InstNo, scns: &Clock) -> Opened
    requires { me < 8 }
    ensures { OpensAs me scns.now result (D.state disk.old) (D.state disk.new) }
{
    match log_len(disk, me) {
        Some(length) => match write_control(disk, me, &running_bytes(length, scns)) {
            Written::Done => Opened::Running(length),
            Written::Failed => Opened::Unwritten(length),
        },
        None => Opened::Untold,
    }
}

// The SCNs of the control entry that an instance's thread gets: those of its closed entry, where it is known to be closed,
// else those of the entry that it had.
pub(crate) fn scns_of(inst: &Inst, core: &Core) -> Clock
    ensures { result ≡ scns_of inst.now core.now }
{
    core.closed_of(inst.plan.me).unwrap_or(inst.entry_scns)
}

// A clock that learns of another one.
pub(crate) fn learn(clock: &mut Clock, of: &Clock)
    ensures { clock.new ≡ learnt_of clock.old of.now }
{
    clock.raise(of.scn);
    clock.learn(of.known);
}

// What the opening of an instance's thread leaves of the instance.
pub(crate) fn settle_open(
    alloc: Global,
    inst: &mut Inst,
    scns: &Clock,
    how: &Opened,
) -> Result<(), NoMemory>
    ensures { OnOk result (inst.new ≡ opened inst.old scns.now how.now) }
{
    match how {
        Opened::Running(length) => {
            inst.thread = RedoThread::new(alloc, inst.plan.me, RedoAt(*length))?;
            inst.newest = [0; 64];
            inst.entry_scns = *scns;
            learn(&mut inst.clock, scns);
            Ok(())
        }
        _ => Ok(()),
    }
}

// What the opening of an instance's thread leaves of what the instances share.
pub(crate) fn settle_open_core(core: &mut Core, me: InstNo, how: &Opened)
    ensures { core.new ≡ opened_core core.old me how.now }
{
    match how {
        Opened::Untold => {}
        _ => core.set_closed(me, None),
    }
}

// Whether a thread runs after its opening.
pub(crate) fn is_open(how: &Opened) -> bool
    ensures { result ≡ is_open how.now }
{
    matches!(how, Opened::Running(_))
}
