//! An instance joins.

ghost use Rattle.std.specs.Prelude.{◌≡◌, ◌<◌, true, false, Err, IfErr, IfOk, OnOk};
ghost use Rattle.inst_state.specs.Shared.{is_dark};
ghost use Rattle.base_types.specs.Layout.{IsLayout};
ghost use Rattle.rebuild_steps.specs.Join.{JoinsAs, LoadsOwn, OpensAfter, asks_start, came_in, came_in_core, dark_core, entered_core, forgotten, is_open_to_joins, is_start_of, joined, joined_core, joining, line_number, may_join, read_in, read_in_core};

use crate::ends::end;
use crate::opens::{Opened, is_open, open, scns_of, settle_open, settle_open_core};
use base_types::{InstNo, Layout, NoMemory, Scn};
use inst_state::{Control, Core, Inst, Life, Recovery, Wanted};
use rac_disk::SharedDisk;
use scn_clock::Clock;
use std::alloc::Global;
use std::snapshot::Snapshot;
use undo_segment::{LoadError, Segment};

/// How a Join went.
#[derive(Drop)]
pub enum Joined {
    /// Nobody was live: only the membership has changed.
    Dark,
    /// Its segment stood so on the disk, and the opening of its thread went so.
    Read(Snapshot<Segment>, Opened),
    /// A block of its segment isn't what a run leaves there.
    Bad,
    /// A read of its segment failed.
    Unread,
}

fn is_start_of(me: InstNo, wanted: Wanted) -> bool
    ensures { result ≡ is_start_of me wanted }
{
    match wanted {
        Wanted::Start { inst } => inst == me,
        _ => false,
    }
}

fn asks_start(me: InstNo, control: Option<Control>) -> bool
    ensures { result ≡ asks_start me control }
{
    match control {
        Some(control) => is_start_of(me, control.wanted),
        None => false,
    }
}

// Whether instances may join: the cluster runs and nobody is paused, or nobody is live.
fn is_open_to_joins(core: &Core) -> bool
    ensures { result ≡ is_open_to_joins core.now }
{
    core.is_running() && core.paused.is_empty() || core.is_dark()
}

/// Whether an instance may join: an open line asks for its start, it isn't live, and the cluster runs with nobody paused, or
/// nobody is live.
pub fn may_join(inst: &Inst, core: &Core, line: u64) -> bool
    ensures { result ≡ may_join inst.now core.now line }
{
    let me = inst.plan.me;
    asks_start(me, core.open_control(line)) && !core.is_live(me) && is_open_to_joins(core)
}

fn line_number(control: Option<Control>) -> u32
    ensures { result ≡ line_number control }
{
    match control {
        Some(control) => control.line,
        None => 0,
    }
}

// An instance is on its way up by a start line.
fn begin(inst: &mut Inst, line: u32)
    ensures { inst.new ≡ joining inst.old line }
{
    inst.life = Life::Joining(line);
    inst.clock = Clock {
        scn: Scn(0),
        known: Scn(0),
    };
}

fn forget(recovery: &mut Recovery)
    ensures { recovery.new ≡ forgotten recovery.old }
{
    recovery.reports.clear();
    recovery.given.clear();
    recovery.rebuilt.clear();
}

// The membership changes as an instance is live.
fn enter(core: &mut Core, me: InstNo)
    ensures { core.new ≡ entered_core core.old me }
{
    core.net.links.clear();
    core.members.enter(me);
    forget(&mut core.recovery);
}

// With nobody live, only the membership changes.
fn enter_dark(core: &mut Core, me: InstNo)
    ensures { core.new ≡ dark_core core.old me }
{
    core.recovery.former.insert(me);
    enter(core, me);
}

// Reads the segment of an instance, and opens its thread.
fn read_own<D: SharedDisk>(
    alloc: Global,
    layout: &Layout,
    me: InstNo,
    scns: &Clock,
    disk: &mut D,
) -> Result<(Segment, Opened), LoadError>
    requires layout { IsLayout layout.now }
    requires in_range { me < layout.now.instances }
    ensures ok { IfOk result (λ it. OpensAfter layout.now me scns.now it.0 it.1 (D.state disk.old) (D.state disk.new)) }
    ensures err { IfErr result (λ why. LoadsOwn layout.now me (Err why) (D.state disk.old) (D.state disk.new)) }
{
    let segment = Segment::load(alloc, layout, me, disk)?;
    let opened = open(disk, me, scns);
    Ok((segment, opened))
}

// What the read of an instance's segment and the opening of its thread leave in memory.
fn settle(
    alloc: Global,
    inst: &mut Inst,
    core: &mut Core,
    segment: Segment,
    scns: &Clock,
    how: &Opened,
) -> Result<(), NoMemory>
    ensures part { OnOk result (inst.new ≡ read_in inst.old segment scns.now how.now) }
    ensures core { OnOk result (core.new ≡ read_in_core inst.old core.old segment scns.now how.now) }
{
    let me = inst.plan.me;
    inst.segment = segment;
    settle_open(alloc, inst, scns, how)?;
    settle_open_core(core, me, how);
    if is_open(how) {
        enter(core, me);
        Ok(())
    } else {
        end(alloc, inst, core, false)
    }
}

// An instance comes in where others are live.
fn come_in<D: SharedDisk>(
    alloc: Global,
    inst: &mut Inst,
    core: &mut Core,
    disk: &mut D,
) -> Result<Joined, NoMemory>
    requires { is_dark core.old.members.phase ≡ false }
    ensures part { IfOk result (λ how. inst.new ≡ came_in inst.old core.old how) }
    ensures core { IfOk result (λ how. core.new ≡ came_in_core inst.old core.old how) }
    ensures disk { IfOk result (λ how. JoinsAs inst.old core.old how (D.state disk.old) (D.state disk.new)) }
{
    let scns = scns_of(inst, core);
    match read_own(alloc, &inst.plan.layout, inst.plan.me, &scns, disk) {
        Ok((segment, opened)) => {
            let read = Snapshot::of(&segment);
            settle(alloc, inst, core, segment, &scns, &opened)?;
            Ok(Joined::Read(read, opened))
        }
        Err(LoadError::Failed) => {
            end(alloc, inst, core, false)?;
            Ok(Joined::Unread)
        }
        Err(LoadError::Bad { .. }) => {
            end(alloc, inst, core, true)?;
            Ok(Joined::Bad)
        }
        Err(LoadError::NoMemory) => Err(NoMemory),
    }
}

/// An instance joins. With nobody live only the membership changes: its segment is read and its thread opened as the cluster
/// thaws, since its former thread is to be closed first. Else it reads its segment and opens its thread, and then the
/// membership changes; where a call of the disk failed, or what stands there is such that no run leaves it, it ends.
///
/// # Errors
///
/// There is no memory for its segment, for its thread, or for its loss.
pub fn join<D: SharedDisk>(
    alloc: Global,
    inst: &mut Inst,
    core: &mut Core,
    disk: &mut D,
    line: u64,
) -> Result<Joined, NoMemory>
    requires { may_join inst.old core.old line ≡ true }
    ensures part { IfOk result (λ how. inst.new ≡ joined inst.old core.old line how) }
    ensures core { IfOk result (λ how. core.new ≡ joined_core inst.old core.old line how) }
    ensures disk { IfOk result (λ how. JoinsAs inst.old core.old how (D.state disk.old) (D.state disk.new)) }
{
    begin(inst, line_number(core.open_control(line)));
    if core.is_dark() {
        enter_dark(core, inst.plan.me);
        return Ok(Joined::Dark);
    }
    come_in(alloc, inst, core, disk)
}
