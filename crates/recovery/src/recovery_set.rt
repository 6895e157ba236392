ghost use Rattle.std.specs.Prelude.{◌≡◌, IfOk};
ghost use Rattle.base_types.specs.Layout.{IsLayout};
ghost use Rattle.recovery.specs.RecoverySet.{blocks_to_recover, changes_data, changes_data_by, changes_segment, changes_segment_by, is_data_to_recover, is_segment_to_recover, is_to_recover, some_changes_data, version_at};

use crate::reports::Reports;
use base_types::{BlockNo, Layout, NoMemory, Sequence};
use redo_merge::Tagged;
use redo_types::{DataChange, Redo, UndoChange};
use std::alloc::Global;

/// The blocks that are to be rebuilt, ascending, by the version of each block's image on the disk. Where no record of a
/// lost instance names a block, any version serves, also none.
pub fn blocks_to_recover(
    alloc: Global,
    layout: &Layout,
    reports: &Reports,
    lost: &[Tagged],
    disk: &[u64],
) -> Result<Sequence<BlockNo>, NoMemory>
    requires { IsLayout layout.now }
    ensures { IfOk result (λ blocks. blocks ≡ blocks_to_recover layout.now reports.now lost.now disk.now) }
{
    let mut blocks = Sequence::new(alloc);
    for number in 0..layout.total() {
        let block = BlockNo(number);
        if is_to_recover(layout, reports, lost, block, version_at(disk, block)) {
            blocks.push(block)?;
        }
    }
    Ok(blocks)
}

/// Whether a block is to be rebuilt, by the version of its image on the disk and by the records of lost instances. A data
/// block is where nobody reported a current image, and somebody reported a past one or a record has a later version; a
/// block of an undo segment is where a record has a later version.
pub fn is_to_recover(
    layout: &Layout,
    reports: &Reports,
    lost: &[Tagged],
    block: BlockNo,
    disk: u64,
) -> bool
    ensures { result ≡ is_to_recover layout.now reports.now lost.now block disk }
{
    if block.get() < layout.blocks {
        is_data_to_recover(reports, lost, block, disk)
    } else {
        is_segment_to_recover(lost, block, disk)
    }
}

fn is_data_to_recover(reports: &Reports, lost: &[Tagged], block: BlockNo, disk: u64) -> bool
    ensures { result ≡ is_data_to_recover reports.now lost.now block disk }
{
    !reports.is_held(block) && (reports.has_past(block) || some_changes_data(lost, block, disk))
}

// Whether one of these records changes a data block to a later version than this.
fn some_changes_data(lost: &[Tagged], block: BlockNo, disk: u64) -> bool
    ensures { result ≡ some_changes_data lost.now block disk }
{
    lost.iter().any(|it| changes_data(&it.redo, block, disk))
}

fn is_segment_to_recover(lost: &[Tagged], block: BlockNo, disk: u64) -> bool
    ensures { result ≡ is_segment_to_recover lost.now block disk }
{
    lost.iter().any(|it| changes_segment(&it.redo, block, disk))
}

// Whether a record changes a data block to a later version than this.
fn changes_data(redo: &Redo, block: BlockNo, disk: u64) -> bool
    ensures { result ≡ changes_data redo.now block disk }
{
    changes_data_by(&redo.row, block, disk)
}

fn changes_data_by(change: &Option<DataChange>, block: BlockNo, disk: u64) -> bool
    ensures { result ≡ changes_data_by change.now block disk }
{
    match change {
        None => false,
        Some(change) => change.block.get() == block.get() && disk < change.version,
    }
}

// Whether a record changes a block of an undo segment to a later version than this.
fn changes_segment(redo: &Redo, block: BlockNo, disk: u64) -> bool
    ensures { result ≡ changes_segment redo.now block disk }
{
    redo.head.block.get() == block.get() && disk < redo.head.version
        || changes_segment_by(&redo.undo, block, disk)
}

fn changes_segment_by(change: &Option<UndoChange>, block: BlockNo, disk: u64) -> bool
    ensures { result ≡ changes_segment_by change.now block disk }
{
    match change {
        None => false,
        Some(change) => change.block.get() == block.get() && disk < change.version,
    }
}

fn version_at(disk: &[u64], block: BlockNo) -> u64
    ensures { result ≡ version_at disk.now block }
{
    disk.get(usize::from(block.get())).copied().unwrap_or(0)
}
