//! The leader deals the blocks' masters anew and adopts the segments of instances that aren't there.

ghost use Rattle.std.specs.Prelude.{◌≡◌, true, IfOk, OnOk};
ghost use Rattle.inst_loss.specs.Lost.{lost};
ghost use Rattle.rebuild_steps.specs.Ends.{ended};
ghost use Rattle.rebuild_steps.specs.Thaw.{OpensIf, ThawsAs, bounded, dealt_core, is_restored, led, may_thaw, opened_core_if, opened_if, opens_own, runs, thaw_core, thaw_part, thawed, thawed_core, with_adopted};

use crate::adopts::{adopt, read_segments, to_adopt};
use crate::bounds::bound_of;
use crate::ends::end;
use crate::opens::{Opened, is_open, learn, open, scns_of, settle_open, settle_open_core};
use base_types::{InstNo, NoMemory};
use inst_state::{Core, Inst};
use rac_disk::SharedDisk;
use recovery::Phase;
use report_steps::{all_closed, are_rebuilt, leads_recovery, take_over};
use scn_clock::Clock;
use std::alloc::Global;
use std::snapshot::Snapshot;
use undo_segment::{LoadError, Segment};
use wire_net::Masters;

/// How a Thaw went; with each, how the opening of the leader's thread went, if it was to be opened.
#[derive(Drop)]
pub enum Thawed {
    /// The segments that the leader has adopted stood so on the disk.
    Done(Option<Opened>, Snapshot<Vec<Segment>>),
    /// Its thread wasn't opened.
    Unopened(Option<Opened>),
    /// A block of a segment isn't what a run leaves there.
    Bad(Option<Opened>),
    /// A read of a segment failed.
    Unread(Option<Opened>),
}

// Whether each dead thread is closed, and each block rebuilt that is to be.
fn is_restored(inst: &Inst, core: &Core) -> bool
    ensures { result ≡ is_restored inst.now core.now }
{
    all_closed(core) && are_rebuilt(inst, core)
}

/// Whether the leader may thaw the cluster: each dead thread is closed, and each block rebuilt that is to be.
pub fn may_thaw(inst: &Inst, core: &Core) -> bool
    ensures { result ≡ may_thaw inst.now core.now }
{
    leads_recovery(inst, core) && is_restored(inst, core)
}

// Opens the leader's thread, if it is to be opened.
fn open_own<D: SharedDisk>(disk: &mut D, inst: &Inst, core: &Core, scns: &Clock) -> Option<Opened>
    ensures { OpensIf (opens_own inst.now core.now) inst.now.plan.me scns.now result (D.state disk.old) (D.state disk.new) }
{
    let me = inst.plan.me;
    if core.recovery.former.has(me) {
        Some(open(disk, me, scns))
    } else {
        None
    }
}

fn runs(opening: &Option<Opened>) -> bool
    ensures { result ≡ runs opening.now }
{
    match opening {
        Some(how) => is_open(how),
        None => true,
    }
}

// What the opening of the leader's thread leaves in memory, if it was to be opened.
fn settle_open_if(
    alloc: Global,
    inst: &mut Inst,
    core: &mut Core,
    scns: &Clock,
    opening: &Option<Opened>,
) -> Result<(), NoMemory>
    ensures part { OnOk result (inst.new ≡ opened_if inst.old scns.now opening.now) }
    ensures core { OnOk result (core.new ≡ opened_core_if core.old inst.old.plan.me opening.now) }
{
    match opening {
        Some(how) => {
            settle_open_core(core, inst.plan.me, how);
            settle_open(alloc, inst, scns, how)
        }
        None => Ok(()),
    }
}

// What a Thaw that failed leaves in memory.
fn settle_loss(
    alloc: Global,
    inst: &mut Inst,
    core: &mut Core,
    scns: &Clock,
    opening: &Option<Opened>,
    bad: bool,
) -> Result<(), NoMemory>
    ensures part { OnOk result (inst.new ≡ lost (opened_if inst.old scns.now opening.now)) }
    ensures core { OnOk result (core.new ≡ ended (opened_if inst.old scns.now opening.now) (opened_core_if core.old inst.old.plan.me opening.now) bad) }
{
    settle_open_if(alloc, inst, core, scns, opening)?;
    end(alloc, inst, core, bad)
}

// The masters are dealt to the live instances, and the clocks after recovery are known.
#[tactic(auto, unfolding(crate::specs::Thaw::dealt_core))]
fn deal(core: &mut Core, me: InstNo, bound: &Clock)
    ensures { core.new ≡ dealt_core core.old me bound.now }
{
    core.recovery.bound = *bound;
    core.recovery.former.remove(me);
    core.members.phase = Phase::Thawed;
    core.net.masters = Masters::dealt(&core.members.live);
}

// The leader adopts segments that were read.
fn adopt_read(alloc: Global, inst: &mut Inst, read: Vec<Segment>) -> Result<(), NoMemory>
    ensures { OnOk result (inst.new ≡ with_adopted inst.old read.items) }
{
    adopt(alloc, &mut inst.leading.adopted, read)?;
    inst.leading.leads = true;
    Ok(())
}

// The leader adopts segments that were read, and takes over what its Thaw has made.
fn lead(alloc: Global, inst: &mut Inst, core: &Core, read: Vec<Segment>) -> Result<(), NoMemory>
    ensures { OnOk result (inst.new ≡ led inst.old core.now read.items) }
{
    adopt_read(alloc, inst, read)?;
    take_over(alloc, inst, core)?;
    Ok(())
}

fn raise_clock(inst: &mut Inst, bound: &Clock)
    ensures { inst.new ≡ bounded inst.old bound.now }
{
    learn(&mut inst.clock, bound);
}

// The leader deals the masters anew, adopts segments that were read, and takes over what that makes.
fn thaw_in(
    alloc: Global,
    inst: &mut Inst,
    core: &mut Core,
    read: Vec<Segment>,
) -> Result<(), NoMemory>
    ensures part { OnOk result (inst.new ≡ thaw_part inst.old core.old read.items) }
    ensures core { OnOk result (core.new ≡ thaw_core inst.old core.old) }
{
    let bound = bound_of(inst, core);
    deal(core, inst.plan.me, &bound);
    lead(alloc, inst, core, read)?;
    raise_clock(inst, &bound);
    Ok(())
}

// What a Thaw leaves in memory whose calls were done.
fn settle(
    alloc: Global,
    inst: &mut Inst,
    core: &mut Core,
    scns: &Clock,
    opening: &Option<Opened>,
    read: Vec<Segment>,
) -> Result<(), NoMemory>
    ensures part { OnOk result (inst.new ≡ thaw_part (opened_if inst.old scns.now opening.now) (opened_core_if core.old inst.old.plan.me opening.now) read.items) }
    ensures core { OnOk result (core.new ≡ thaw_core (opened_if inst.old scns.now opening.now) (opened_core_if core.old inst.old.plan.me opening.now)) }
{
    settle_open_if(alloc, inst, core, scns, opening)?;
    thaw_in(alloc, inst, core, read)
}

/// The leader thaws the cluster. Where it has come in with nobody live it opens its thread first. It reads and adopts the
/// segments of instances that aren't there and that it hasn't adopted yet, its own one among them where its thread was
/// opened; the masters are dealt to the live instances, and it takes over what that makes. Where a call of the disk failed,
/// or what stands there is such that no run leaves it, it ends.
///
/// # Errors
///
/// There is no memory for the segments, for its thread, for what it takes over, or for its loss.
#[tactic(auto, using(crate::proofs::Layouts::to_adopt_in_range))]
pub fn thaw<D: SharedDisk>(
    alloc: Global,
    inst: &mut Inst,
    core: &mut Core,
    disk: &mut D,
) -> Result<Thawed, NoMemory>
    requires { may_thaw inst.old core.old ≡ true }
    ensures part { IfOk result (λ how. inst.new ≡ thawed inst.old core.old how) }
    ensures core { IfOk result (λ how. core.new ≡ thawed_core inst.old core.old how) }
    ensures disk { IfOk result (λ how. ThawsAs inst.old core.old how (D.state disk.old) (D.state disk.new)) }
{
    let scns = scns_of(inst, core);
    let segs = to_adopt(alloc, inst, core)?;
    let opening = open_own(disk, inst, core, &scns);
    if !runs(&opening) {
        settle_loss(alloc, inst, core, &scns, &opening, false)?;
        return Ok(Thawed::Unopened(opening));
    }
    match read_segments(alloc, &inst.plan.layout, segs.as_slice(), disk) {
        Ok(read) => {
            let owns = Snapshot::of(&read);
            settle(alloc, inst, core, &scns, &opening, read)?;
            Ok(Thawed::Done(opening, owns))
        }
        Err(LoadError::Failed) => {
            settle_loss(alloc, inst, core, &scns, &opening, false)?;
            Ok(Thawed::Unread(opening))
        }
        Err(LoadError::Bad { .. }) => {
            settle_loss(alloc, inst, core, &scns, &opening, true)?;
            Ok(Thawed::Bad(opening))
        }
        Err(LoadError::NoMemory) => Err(NoMemory),
    }
}
