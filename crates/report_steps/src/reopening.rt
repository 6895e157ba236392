//! The cluster runs again, and each instance goes on.

ghost use Rattle.std.specs.Prelude.{◌≡◌, ◌≤◌, if◌then◌else◌, OnOk, [], find, length, position, slice_index_or, unwrap_or};
ghost use Rattle.std.specs.List.{list_all};
ghost use Rattle.report_steps.specs.Reopen.{bits_of, is_done, is_of, is_ready_but_forced, joined_by, may_reopen, may_resume, recovery_told, reopened, reopened_core, resumed, resumed_core, risen, up_by, up_told};

use crate::taking::take_over;
use base_types::{InstNo, NoMemory};
use inst_set::InstSet;
use inst_state::{Core, Inst, Life, Table};
use journal::Entry;
use recovery::Phase;
use std::alloc::Global;
use undo_segment::Segment;

fn is_done(segment: &Segment) -> bool
    ensures { result ≡ is_done segment.now }
{
    segment.active() == 0 && segment.first_dirty().is_none()
}

fn are_done(segments: &[Segment]) -> bool
    ensures { result ≡ list_all is_done segments.now }
{
    segments.iter().all(|segment| is_done(segment))
}

/// Whether an instance may reopen but for redo that waits: it leads, the phase is Thawed, and of the segments that it has
/// adopted no transaction is active and no block is dirty.
pub fn is_ready_but_forced(inst: &Inst, core: &Core) -> bool
    ensures { result ≡ is_ready_but_forced inst.now core.now }
{
    core.is_thawed() && core.is_led_by(inst.plan.me) && are_done(inst.leading.adopted.as_slice())
}

/// Whether an instance may reopen: nothing is left to do, and no redo waits.
pub fn may_reopen(inst: &Inst, core: &Core) -> bool
    ensures { result ≡ may_reopen inst.now core.now }
{
    is_ready_but_forced(inst, core) && inst.is_forced()
}

fn place_of(inst: InstNo, segments: &[Segment]) -> Option<usize>
    ensures { result ≡ position (is_of inst) segments.now }
{
    segments
        .iter()
        .position(|segment| segment.header().seg() == inst)
}

// Puts the adopted segment at a place in the place of the own one.
fn take_at(segment: &mut Segment, adopted: &mut Table<Segment>, place: usize)
    ensures { segment.new ≡ slice_index_or adopted.old place segment.old }
{
    if let Some(own) = adopted.get_mut(place) {
        std::mem::swap(segment, own);
    }
}

// Gives back what was adopted; the own segment, if it is among it, stays.
#[tactic(auto, using(crate::proofs::Found::found_there, crate::proofs::Found::none_found))]
fn take_own(me: InstNo, segment: &mut Segment, adopted: &mut Table<Segment>)
    ensures own { segment.new ≡ unwrap_or (find (is_of me) adopted.old) segment.old }
    ensures none { adopted.new ≡ [] }
{
    if let Some(place) = place_of(me, adopted.as_slice()) {
        take_at(segment, adopted, place);
    }
    adopted.clear();
}

fn bit_if(is_in: bool, bit: u8) -> u8
    ensures value { result ≡ (if is_in then bit else 0) }
    ensures few { result ≤ bit }
{
    if is_in { bit } else { 0 }
}

// A set as a number, a bit for each instance.
fn bits_of(set: &InstSet) -> u8
    ensures { result ≡ bits_of set.now }
{
    bit_if(set.has(InstNo(0)), 1)
        + bit_if(set.has(InstNo(1)), 2)
        + bit_if(set.has(InstNo(2)), 4)
        + bit_if(set.has(InstNo(3)), 8)
        + bit_if(set.has(InstNo(4)), 16)
        + bit_if(set.has(InstNo(5)), 32)
        + bit_if(set.has(InstNo(6)), 64)
        + bit_if(set.has(InstNo(7)), 128)
}

// Tells of which instances the threads were closed, where there are some.
fn tell_recovery(closed: &InstSet, core: &mut Core) -> Result<(), NoMemory>
    ensures { OnOk result (core.new ≡ record core.old { journal = recovery_told closed.now core.old.journal }) }
{
    if closed.is_empty() {
        return Ok(());
    }
    core.tell(Entry::Recovered {
        insts: bits_of(closed),
    })
}

/// The cluster runs again: the leader gives back what it has adopted, and the journal tells whose threads were closed.
///
/// # Errors
///
/// There is no memory for the journal's entry.
pub fn reopen(inst: &mut Inst, core: &mut Core) -> Result<(), NoMemory>
    ensures part { OnOk result (inst.new ≡ reopened inst.old) }
    ensures core { OnOk result (core.new ≡ reopened_core core.old) }
{
    take_own(inst.plan.me, &mut inst.segment, &mut inst.leading.adopted);
    let closed = core.recovery.closed_since;
    core.members.phase = Phase::Running;
    core.recovery.closed_since = InstSet::new();
    tell_recovery(&closed, core)
}

/// Whether an instance may resume: it is live and paused, and the cluster runs.
pub fn may_resume(inst: &Inst, core: &Core) -> bool
    ensures { result ≡ may_resume inst.now core.now }
{
    core.is_live(inst.plan.me) && core.is_running() && inst.paused
}

fn up_by(life: Life) -> Life
    ensures { result ≡ up_by life }
{
    match life {
        Life::Joining(_) => Life::Up,
        life => life,
    }
}

// Answers the start line by which an instance has joined, and tells that it is up.
fn tell_up(me: InstNo, life: Life, core: &mut Core) -> Result<(), NoMemory>
    ensures { OnOk result (core.new ≡ record core.old { waves = joined_by life core.old.waves; journal = up_told me life core.old.journal }) }
{
    match life {
        Life::Joining(line) => {
            core.answer_control(line);
            core.tell(Entry::Up { line, inst: me })
        }
        _ => Ok(()),
    }
}

/// An instance goes on: it takes over what the Thaw has made where it hasn't, its clock is raised, and where it has joined it
/// is up.
///
/// # Errors
///
/// There is no memory for the directory or for the journal's entry.
pub fn resume(alloc: Global, inst: &mut Inst, core: &mut Core) -> Result<(), NoMemory>
    ensures part { OnOk result (inst.new ≡ resumed inst.old core.old) }
    ensures core { OnOk result (core.new ≡ resumed_core inst.old core.old) }
{
    let me = inst.plan.me;
    let life = inst.life;
    take_over(alloc, inst, core)?;
    inst.clock.raise(core.recovery.bound.scn);
    inst.clock.learn(core.recovery.bound.known);
    inst.paused = false;
    inst.life = up_by(life);
    core.paused.remove(me);
    tell_up(me, life, core)
}
