//! An instance ends.

ghost use Rattle.std.specs.Prelude.{◌≡◌, OnOk};
ghost use Rattle.inst_loss.specs.Lost.{lost};
ghost use Rattle.inst_loss.specs.LostCore.{forgotten, left_core, lost_core};

use crate::ends::{Loss, tell_kept, tell_loss};
use crate::parts::{lose_mastering, lose_sessions, lose_wave, no_leading};
use crate::refusals::tell_refusals;
use base_types::{InstNo, NoMemory};
use buffer_cache::BufferCache;
use inst_state::{Core, Inst, Life, Recovery};
use redo_thread::RedoThread;
use std::alloc::Global;

// What it had in memory is lost.
fn clear(alloc: Global, inst: &mut Inst) -> Result<(), NoMemory>
    ensures { OnOk result (inst.new ≡ lost inst.old) }
{
    let cache = BufferCache::new(alloc, inst.plan.frames, inst.plan.blocks)?;
    let thread = RedoThread::new(alloc, inst.plan.me, inst.thread.durable())?;
    inst.life = Life::Down;
    inst.paused = false;
    inst.made.clear();
    inst.ends.clear();
    inst.thread = thread;
    inst.segment.forget_dirty();
    inst.cache = cache;
    lose_mastering(&mut inst.mastering);
    lose_sessions(alloc, &mut inst.sessions);
    lose_wave(&mut inst.wave);
    inst.leading = no_leading(alloc);
    Ok(())
}

fn forget(recovery: &mut Recovery, me: InstNo)
    ensures { recovery.new ≡ forgotten me recovery.old }
{
    recovery.reports.clear();
    recovery.given.clear();
    recovery.rebuilt.clear();
    recovery.former.remove(me);
}

// The membership changes as an instance isn't live any more.
fn leave(core: &mut Core, me: InstNo)
    ensures { core.new ≡ left_core me core.old }
{
    core.net.links.clear();
    core.members.leave(me);
    core.paused.remove(me);
    forget(&mut core.recovery, me);
}

/// An instance ends, and what it had in memory is lost. `kept` is the length of its log where that is told: of what waits,
/// the records up to there are on the disk, and their commits are told.
///
/// # Errors
///
/// There is no memory for the empty cache or for the journal's entries.
pub fn lose(
    alloc: Global,
    inst: &mut Inst,
    core: &mut Core,
    how: Loss,
    kept: Option<u64>,
) -> Result<(), NoMemory>
    ensures part { OnOk result (inst.new ≡ lost inst.old) }
    ensures core { OnOk result (core.new ≡ lost_core inst.old core.old how kept) }
{
    tell_kept(inst, core, kept)?;
    tell_loss(inst, core, how)?;
    tell_refusals(inst, core)?;
    leave(core, inst.plan.me);
    clear(alloc, inst)
}
