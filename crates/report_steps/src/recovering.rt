//! How far a recovery has come: which threads are dead, which of them were read, and which blocks are to be rebuilt.

ghost use Rattle.std.specs.Prelude.{◌≡◌, ◌==◌};
ghost use Rattle.std.specs.List.{list_any};
ghost use Rattle.inst_state.specs.declared.inst.ReadThread.{ReadThread};
ghost use Rattle.recovery.specs.RecoverySet.{changes_data, changes_segment, is_segment_to_recover, some_changes_data};
ghost use Rattle.report_steps.specs.Recovering.{all_closed, are_read, are_rebuilt, is_dead, is_of_epoch, is_read, is_rebuilt, is_to_rebuild, leads_recovery, lost_records, version_read};

use base_types::{BlockNo, InstNo};
use inst_set::ALL_INSTS;
use inst_state::{Core, Inst, ReadThread, Table};
use redo_types::Redo;

/// Whether an instance leads a recovery to which each live instance has reported.
pub fn leads_recovery(inst: &Inst, core: &Core) -> bool
    ensures { result ≡ leads_recovery inst.now core.now }
{
    core.is_frozen() && core.is_led_by(inst.plan.me) && core.members.all_reported()
}

/// Whether a thread isn't known to be closed, and its instance isn't there or has come back since.
pub fn is_dead(core: &Core, thread: InstNo) -> bool
    ensures { result ≡ is_dead core.now thread }
{
    thread.get() < core.layout.instances
        && core.closed_of(thread).is_none()
        && (!core.is_live(thread) || core.recovery.former.has(thread))
}

/// Whether each dead thread is known to be closed.
pub fn all_closed(core: &Core) -> bool
    ensures { result ≡ all_closed core.now }
{
    ALL_INSTS.iter().all(|thread| !is_dead(core, *thread))
}

// Whether what was read and rebuilt belongs to the last change of membership.
fn is_of_epoch(inst: &Inst, core: &Core) -> bool
    ensures { result ≡ is_of_epoch inst.now core.now }
{
    inst.leading.recovering.epoch == core.members.epoch
}

fn has_thread(threads: &[ReadThread], thread: InstNo) -> bool
    ensures { result ≡ list_any (λ (read : ReadThread). read.thread == thread) threads.now }
{
    threads.iter().any(|read| read.thread == thread)
}

/// Whether a thread was read since the last change of membership.
pub fn is_read(inst: &Inst, core: &Core, thread: InstNo) -> bool
    ensures { result ≡ is_read inst.now core.now thread }
{
    is_of_epoch(inst, core) && has_thread(inst.leading.recovering.threads.as_slice(), thread)
}

/// Whether each dead thread was read.
pub fn are_read(inst: &Inst, core: &Core) -> bool
    ensures { result ≡ are_read inst.now core.now }
{
    ALL_INSTS.iter().all(|thread| !is_dead(core, *thread) || is_read(inst, core, *thread))
}

// Whether a record makes a version of a data block that is later than this one.
fn changes_data(redo: &Redo, block: BlockNo, disk: u64) -> bool
    ensures { result ≡ changes_data redo.now block disk }
{
    match &redo.row {
        Some(change) => change.block == block && disk < change.version,
        None => false,
    }
}

// Whether a record makes a version of a header or undo block that is later than this one.
fn changes_segment(redo: &Redo, block: BlockNo, disk: u64) -> bool
    ensures { result ≡ changes_segment redo.now block disk }
{
    let of_undo = match &redo.undo {
        Some(change) => change.block == block && disk < change.version,
        None => false,
    };
    redo.head.block == block && disk < redo.head.version || of_undo
}

fn any_changes_data(records: &[Redo], block: BlockNo, disk: u64) -> bool
    ensures { result ≡ list_any (λ redo. changes_data redo block disk) records.now }
{
    records.iter().any(|redo| changes_data(redo, block, disk))
}

fn any_changes_segment(records: &[Redo], block: BlockNo, disk: u64) -> bool
    ensures { result ≡ list_any (λ redo. changes_segment redo block disk) records.now }
{
    records
        .iter()
        .any(|redo| changes_segment(redo, block, disk))
}

fn some_changes_data(threads: &Table<ReadThread>, block: BlockNo, disk: u64) -> bool
    ensures { result ≡ list_any (λ (read : ReadThread). list_any (λ redo. changes_data redo block disk) read.records) threads.now }
{
    threads.as_slice().iter().any(|read| any_changes_data(read.records.as_slice(), block, disk))
}

fn some_changes_segment(threads: &Table<ReadThread>, block: BlockNo, disk: u64) -> bool
    ensures { result ≡ list_any (λ (read : ReadThread). list_any (λ redo. changes_segment redo block disk) read.records) threads.now }
{
    threads.as_slice().iter().any(|read| any_changes_segment(read.records.as_slice(), block, disk))
}

#[tactic(auto, using(inst_state::proofs::Mapped::none_is_default))]
fn version_read(inst: &Inst, block: BlockNo) -> u64
    ensures { result ≡ version_read inst.now block }
{
    match inst
        .leading
        .recovering
        .versions
        .get(usize::from(block.get()))
    {
        Some(version) => version.unwrap_or(0),
        None => 0,
    }
}

// Whether a record that was read makes a version of a data block that is later than the disk's.
fn has_later_data(inst: &Inst, core: &Core, block: BlockNo) -> bool
    ensures { result ≡ some_changes_data (lost_records inst.now core.now) block (version_read inst.now block) }
{
    is_of_epoch(inst, core)
        && some_changes_data(
            &inst.leading.recovering.threads,
            block,
            version_read(inst, block),
        )
}

// Whether a record that was read makes a version of a header or undo block that is later than the disk's.
fn has_later_segment(inst: &Inst, core: &Core, block: BlockNo) -> bool
    ensures { result ≡ is_segment_to_recover (lost_records inst.now core.now) block (version_read inst.now block) }
{
    is_of_epoch(inst, core)
        && some_changes_segment(
            &inst.leading.recovering.threads,
            block,
            version_read(inst, block),
        )
}

/// Whether a block is to be rebuilt, by what was reported and by the records that were read.
pub fn is_to_rebuild(inst: &Inst, core: &Core, block: BlockNo) -> bool
    ensures { result ≡ is_to_rebuild inst.now core.now block }
{
    if block.get() < core.layout.blocks {
        !core.recovery.reports.is_held(block)
            && (core.recovery.reports.has_past(block) || has_later_data(inst, core, block))
    } else {
        has_later_segment(inst, core, block)
    }
}

fn has_block(blocks: &[BlockNo], block: BlockNo) -> bool
    ensures { result ≡ list_any (λ other. other == block) blocks.now }
{
    blocks.iter().any(|other| *other == block)
}

/// Whether a block was rebuilt since the last change of membership.
pub fn is_rebuilt(inst: &Inst, core: &Core, block: BlockNo) -> bool
    ensures { result ≡ is_rebuilt inst.now core.now block }
{
    is_of_epoch(inst, core) && has_block(inst.leading.recovering.rebuilt.as_slice(), block)
}

/// Whether each block that is to be rebuilt is. No disk has more than 200 blocks.
pub fn are_rebuilt(inst: &Inst, core: &Core) -> bool
    ensures { result ≡ are_rebuilt inst.now core.now }
{
    (0..200u16).all(|block| !is_to_rebuild(inst, core, BlockNo(block))
        || is_rebuilt(inst, core, BlockNo(block)))
}
