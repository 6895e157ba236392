//! The leader rebuilds a block.

ghost use Rattle.std.specs.Prelude.{◌≡◌, ◌<◌, true, IfOk, OnOk};
ghost use Rattle.std.specs.Option.{option_copied};
ghost use Rattle.rebuild_steps.specs.Recover.{RebuildsAs, RecoversAs, WritesAs, noted, noted_core, is_given, is_on_disk, may_recover, recovered, recovered_core, redo_read};

use crate::ends::end;
use crate::epochs::{begin_epoch, merged_redo, threads_in};
use crate::images::{Image, load_image};
use base_types::{BlockNo, Layout, NoMemory, Sequence};
use block_image::DataBlock;
use disk_calls::{Written, write_block};
use inst_state::{Core, Inst, Rebuilt};
use rac_disk::SharedDisk;
use redo_merge::Tagged;
use report_steps::{are_read, is_rebuilt, is_to_rebuild, leads_recovery};
use std::alloc::Global;
use std::snapshot::Snapshot;
use undo_segment::LoadError;

/// How the rebuild of a block went.
#[derive(Drop)]
pub enum Recovered {
    /// The block stood so on the disk, and what the redo makes of it, with this version, was written.
    Done(Snapshot<Image>, u64),
    /// The block stood so on the disk, and the write of what the redo makes of it failed.
    Unwritten(Snapshot<Image>),
    /// The block stood so on the disk, and the redo doesn't fit it.
    Unrolled(Snapshot<Image>),
    /// What stood on the disk is no block that a run leaves there.
    Bad,
    /// The read failed.
    Unread,
}

// Whether the disk has a block with this number.
fn is_on_disk(block: BlockNo) -> bool
    ensures { result ≡ is_on_disk block }
{
    block.get() < 200
}

// Whether the newest past image of a block was handed to the leader, where one was reported.
fn is_given(core: &Core, block: BlockNo) -> bool
    ensures { result ≡ is_given core.now block }
{
    !(block.get() < core.layout.blocks && core.recovery.reports.has_past(block))
        || core.given_of(block).is_some()
}

/// Whether the leader may rebuild a block: it is to be rebuilt and isn't yet, each dead thread was read, and the newest past
/// image of the block was handed to the leader.
pub fn may_recover(inst: &Inst, core: &Core, block: BlockNo) -> bool
    ensures { result ≡ may_recover inst.now core.now block }
{
    is_on_disk(block)
        && leads_recovery(inst, core)
        && are_read(inst, core)
        && is_to_rebuild(inst, core, block)
        && !is_rebuilt(inst, core, block)
        && is_given(core, block)
}

// What redo makes of the image of a block that stands on the disk is written, where it makes something.
fn write_made<D: SharedDisk>(
    disk: &mut D,
    block: BlockNo,
    stood: Snapshot<Image>,
    made: Option<Image>,
) -> Recovered
    requires { block < 200 }
    ensures { WritesAs block made stood.value result (D.state disk.old) (D.state disk.new) }
{
    match made {
        Some(image) => match write_block(disk, block, &image.bytes()) {
            Written::Done => Recovered::Done(stood, image.version()),
            Written::Failed => Recovered::Unwritten(stood),
        },
        None => Recovered::Unrolled(stood),
    }
}

// Reads a block and writes what redo makes of it.
fn rebuild<D: SharedDisk>(
    layout: &Layout,
    block: BlockNo,
    past: Option<&DataBlock>,
    redo: &[Tagged],
    disk: &mut D,
) -> Result<Recovered, NoMemory>
    requires { block < 200 }
    ensures { IfOk result (λ how. RebuildsAs layout.now block redo.now (option_copied past.entry) how (D.state disk.old) (D.state disk.new)) }
{
    match load_image(layout, block, disk) {
        Ok(image) => {
            let stood = Snapshot::of(&image);
            Ok(write_made(disk, block, stood, image.rebuilt(past, redo)))
        }
        Err(LoadError::Failed) => Ok(Recovered::Unread),
        Err(LoadError::Bad { .. }) => Ok(Recovered::Bad),
        Err(LoadError::NoMemory) => Err(NoMemory),
    }
}

// The records that the leader has read since the last change of membership, in the order in which they were made.
fn redo_read(alloc: Global, inst: &Inst, core: &Core) -> Result<Sequence<Tagged>, NoMemory>
    ensures { IfOk result (λ redo. redo ≡ redo_read inst.now core.now) }
{
    merged_redo(
        alloc,
        threads_in(&inst.leading.recovering, core.members.epoch),
    )
}

fn note(
    alloc: Global,
    inst: &mut Inst,
    core: &mut Core,
    block: BlockNo,
    version: u64,
) -> Result<(), NoMemory>
    ensures part { OnOk result (inst.new ≡ noted inst.old core.old block) }
    ensures core { OnOk result (core.new ≡ noted_core core.old block version) }
{
    begin_epoch(alloc, &mut inst.leading.recovering, core.members.epoch)?;
    inst.leading.recovering.rebuilt.push(block)?;
    core.recovery.rebuilt.push(Rebuilt { block, version })
}

// What the rebuild of a block leaves in memory.
fn settle(
    alloc: Global,
    inst: &mut Inst,
    core: &mut Core,
    block: BlockNo,
    how: &Recovered,
) -> Result<(), NoMemory>
    ensures part { OnOk result (inst.new ≡ recovered inst.old core.old block how.now) }
    ensures core { OnOk result (core.new ≡ recovered_core inst.old core.old block how.now) }
{
    match how {
        Recovered::Done(_, version) => note(alloc, inst, core, block, *version),
        Recovered::Unwritten(_) => end(alloc, inst, core, false),
        Recovered::Unrolled(_) => end(alloc, inst, core, true),
        Recovered::Bad => end(alloc, inst, core, true),
        Recovered::Unread => end(alloc, inst, core, false),
    }
}

/// The leader rebuilds a block: of the disk's image and the past image that was handed to it the newer one is rolled forward
/// by the records that it has read, and written. Where a call of the disk failed, or what stands there is such that no run
/// leaves it, the instance ends.
///
/// # Errors
///
/// There is no memory for the records, for what is noted of them, or for the loss of the instance.
pub fn recover_block<D: SharedDisk>(
    alloc: Global,
    inst: &mut Inst,
    core: &mut Core,
    disk: &mut D,
    block: BlockNo,
) -> Result<Recovered, NoMemory>
    requires { may_recover inst.old core.old block ≡ true }
    ensures part { IfOk result (λ how. inst.new ≡ recovered inst.old core.old block how) }
    ensures core { IfOk result (λ how. core.new ≡ recovered_core inst.old core.old block how) }
    ensures disk { IfOk result (λ how. RecoversAs inst.old core.old block how (D.state disk.old) (D.state disk.new)) }
{
    let redo = redo_read(alloc, inst, core)?;
    let how = rebuild(
        &core.layout,
        block,
        core.given_of(block),
        redo.as_slice(),
        disk,
    )?;
    settle(alloc, inst, core, block, &how)?;
    Ok(how)
}
