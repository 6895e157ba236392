//! An instance takes over what a Thaw has made of the reports: its directory, its grants and the roles of its images.

ghost use Rattle.std.specs.Prelude.{◌≡◌, ◌++◌, IfOk, OnOk, filter_map, length, map};
ghost use Rattle.std.specs.List.{range_with_len};
ghost use Rattle.std.specs.Option.{option_copied, option_to_list};
ghost use Rattle.buffer_cache.specs.Cache.{at_place};
ghost use Rattle.report_steps.specs.TakeOver.{all_told, grant_by, grant_in, role_by, taken_over, thawed, thawed_by, thawed_cache, thawed_mastering, told_by, without_rebuilt};

use base_types::{BlockNo, InstNo, NoMemory, Sequence};
use buffer_cache::BufferCache;
use inst_set::ALL_INSTS;
use inst_state::{BucketsSent, Core, Inst, Mastering, Table};
use recovery::Reports;
use resource_dir::{rebuild, rebuilt};
use std::alloc::Global;
use wire_net::{Entry, Frame, Holder, Report, Role};

fn frames_copy(alloc: Global, frames: &[Frame]) -> Result<Sequence<Frame>, NoMemory>
    ensures { IfOk result (λ copy. copy ≡ frames.now) }
{
    let mut copy = Vec::new(alloc);
    copy.extend_from_slice(frames)?;
    Ok(Sequence::from_vec(copy))
}

fn report_copy(alloc: Global, report: &Report) -> Result<Report, NoMemory>
    ensures { IfOk result (λ copy. copy ≡ report.now) }
{
    Ok(Report {
        scn: report.scn,
        known: report.known,
        frames: frames_copy(alloc, report.frames.as_slice())?,
    })
}

// Adds what an instance reported, if it did.
fn add_told(
    alloc: Global,
    reports: &Reports,
    inst: InstNo,
    told: &mut Table<(InstNo, Report)>,
) -> Result<(), NoMemory>
    ensures { OnOk result (told.new ≡ told.old ++ option_to_list (told_by reports.now inst)) }
{
    match reports.get(inst) {
        Some(report) => told.push((inst, report_copy(alloc, report)?)),
        None => Ok(()),
    }
}

fn add_each(
    insts: &[InstNo],
    alloc: Global,
    reports: &Reports,
    told: &mut Table<(InstNo, Report)>,
) -> Result<(), NoMemory>
    ensures { OnOk result (told.new ≡ told.old ++ filter_map (told_by reports.now) insts.now) }
{
    for inst in insts {
        add_told(alloc, reports, *inst, told)?;
    }
    Ok(())
}

// What was reported, in the order of the instances.
fn all_told(alloc: Global, reports: &Reports) -> Result<Table<(InstNo, Report)>, NoMemory>
    ensures { IfOk result (λ told. told ≡ all_told reports.now) }
{
    let mut told = Table::new(alloc);
    add_each(&ALL_INSTS, alloc, reports, &mut told)?;
    Ok(told)
}

fn grant_by(inst: InstNo, x: &Option<Holder>, shared: Option<u64>) -> Option<u64>
    ensures { result ≡ grant_by inst x.now shared }
{
    match x {
        Some(holder) if holder.inst == inst => Some(holder.grant),
        _ => shared,
    }
}

// The grant that an entry names for an instance; 0 for one that holds nothing.
fn grant_in(entry: &Entry, inst: InstNo) -> u64
    ensures { result ≡ grant_in entry.now inst }
{
    grant_by(inst, &entry.x, entry.shared.get(inst)).unwrap_or(0)
}

fn role_by(reports: &Reports, block: BlockNo) -> Role
    ensures { result ≡ role_by reports.now block }
{
    if reports.has_past(block) {
        Role::Global
    } else {
        Role::Local
    }
}

fn drop_rebuilt(cache: &mut BufferCache, block: BlockNo, version: Option<u64>)
    ensures { cache.new ≡ at_place (without_rebuilt version) cache.old block }
{
    if let Some(version) = version {
        cache.drop_past(block, version);
    }
}

fn change_place(
    cache: &mut BufferCache,
    block: BlockNo,
    version: Option<u64>,
    grant: u64,
    role: Role,
)
    ensures { cache.new ≡ at_place (thawed_by grant role version) cache.old block }
{
    drop_rebuilt(cache, block, version);
    cache.regrant(block, grant, role);
}

// Takes over what the reports tell of a block.
fn thaw_place(
    alloc: Global,
    me: InstNo,
    core: &Core,
    told: &[(InstNo, Report)],
    block: BlockNo,
    cache: &mut BufferCache,
)
    requires { told.now ≡ all_told core.now.recovery.reports }
    ensures { cache.new ≡ at_place (thawed me core.now block) cache.old block }
{
    let grant = grant_in(&rebuilt(alloc, block, told), me);
    let role = role_by(&core.recovery.reports, block);
    change_place(cache, block, core.rebuilt_of(block), grant, role);
}

fn thaw_cache(
    alloc: Global,
    me: InstNo,
    core: &Core,
    told: &[(InstNo, Report)],
    cache: &mut BufferCache,
)
    requires { told.now ≡ all_told core.now.recovery.reports }
    ensures { cache.new ≡ thawed_cache me core.now cache.old }
{
    for block in 0..cache.blocks() {
        thaw_place(alloc, me, core, told, BlockNo(block), cache);
    }
}

fn thawed_mastering(
    alloc: Global,
    me: InstNo,
    core: &Core,
    told: &[(InstNo, Report)],
) -> Result<Mastering, NoMemory>
    requires { told.now ≡ all_told core.now.recovery.reports }
    ensures { IfOk result (λ it. it ≡ thawed_mastering me core.now) }
{
    Ok(Mastering {
        directory: rebuild(alloc, me, &core.net.masters, told)?,
        sent: BucketsSent {
            by_bucket: [None; 16],
        },
        taken: core.members.epoch,
    })
}

/// An instance takes over what the last Thaw has made, unless it has already: the directory of the buckets that it masters
/// now, the new grants and roles of its images; and past images go that aren't newer than what recovery wrote.
///
/// # Errors
///
/// There is no memory for the directory.
pub fn take_over(alloc: Global, inst: &mut Inst, core: &Core) -> Result<(), NoMemory>
    ensures { OnOk result (inst.new ≡ taken_over inst.old core.now) }
{
    if inst.mastering.taken == core.members.epoch {
        return Ok(());
    }
    let me = inst.plan.me;
    let told = all_told(alloc, &core.recovery.reports)?;
    inst.mastering = thawed_mastering(alloc, me, core, told.as_slice())?;
    thaw_cache(alloc, me, core, told.as_slice(), &mut inst.cache);
    Ok(())
}
