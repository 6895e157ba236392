ghost use Rattle.std.specs.Prelude.{◌≡◌};
ghost use Rattle.recovery.specs.Roll.{block_changed, block_rolled_by, header_changed, header_rolled_by, is_next, rolled, undo_changed, undo_rolled_by};

use crate::fitting::can_change;
use crate::parts::{is_txn_slot, is_undo_record};
use base_types::Scn;
use block_image::DataBlock;
use redo_merge::Tagged;
use redo_types::{DataChange, HeadChange, Redo, UndoChange};
use undo_image::{UndoBlock, UndoHeader};

// The first version that no block has.
const VERSIONS: u64 = 1 << 62;

/// A data block after the changes of it by these records that it doesn't have yet. `None`, which comes of no run, where
/// a version is missing between, or where a change leaves no block.
pub fn roll_block(base: DataBlock, merged: &[Tagged]) -> Option<DataBlock>
    ensures { result ≡ rolled block_rolled_by merged.now base }
{
    let mut block = base;
    for it in merged {
        block = roll_block_by(block, &it.redo)?;
    }
    Some(block)
}

fn roll_block_by(block: DataBlock, redo: &Redo) -> Option<DataBlock>
    ensures { result ≡ block_rolled_by redo.now block }
{
    match &redo.row {
        Some(change) if change.block.get() == block.number().get() => {
            change_block(block, change, redo.scn)
        }
        _ => Some(block),
    }
}

fn change_block(mut block: DataBlock, change: &DataChange, scn: Scn) -> Option<DataBlock>
    ensures { result ≡ block_changed change.now scn block }
{
    if change.version <= block.version() {
        return Some(block);
    }
    if is_next(block.version(), change.version) && can_change(&block, &change.to, scn) {
        block.apply(&change.to, scn);
        Some(block)
    } else {
        None
    }
}

/// A header of an undo segment after the changes of it by these records that it doesn't have yet. `None`, which comes of
/// no run, where a version is missing between, or where a change leaves no header.
pub fn roll_header(base: UndoHeader, merged: &[Tagged]) -> Option<UndoHeader>
    ensures { result ≡ rolled header_rolled_by merged.now base }
{
    let mut head = base;
    for it in merged {
        head = roll_header_by(head, &it.redo)?;
    }
    Some(head)
}

fn roll_header_by(head: UndoHeader, redo: &Redo) -> Option<UndoHeader>
    ensures { result ≡ header_rolled_by redo.now head }
{
    if redo.head.block.get() == head.number().get() {
        change_header(head, &redo.head, redo.scn)
    } else {
        Some(head)
    }
}

fn change_header(mut head: UndoHeader, change: &HeadChange, scn: Scn) -> Option<UndoHeader>
    ensures { result ≡ header_changed change.now scn head }
{
    if change.version <= head.version() {
        return Some(head);
    }
    if is_next(head.version(), change.version)
        && change.slot < 8
        && change.next >= 1
        && scn.get() >= 1
        && is_txn_slot(&change.to)
    {
        head.set(change.slot, &change.to, change.next, scn);
        Some(head)
    } else {
        None
    }
}

/// An undo block after the changes of it by these records that it doesn't have yet. `None`, which comes of no run, where
/// a version is missing between, or where a change leaves no undo block.
pub fn roll_undo_block(base: UndoBlock, merged: &[Tagged]) -> Option<UndoBlock>
    ensures { result ≡ rolled undo_rolled_by merged.now base }
{
    let mut block = base;
    for it in merged {
        block = roll_undo_block_by(block, &it.redo)?;
    }
    Some(block)
}

fn roll_undo_block_by(block: UndoBlock, redo: &Redo) -> Option<UndoBlock>
    ensures { result ≡ undo_rolled_by redo.now block }
{
    match &redo.undo {
        Some(change) if change.block.get() == block.number().get() => {
            change_undo_block(block, change, redo.scn)
        }
        _ => Some(block),
    }
}

fn change_undo_block(mut block: UndoBlock, change: &UndoChange, scn: Scn) -> Option<UndoBlock>
    ensures { result ≡ undo_changed change.now scn block }
{
    if change.version <= block.version() {
        return Some(block);
    }
    if is_next(block.version(), change.version)
        && change.place < 4
        && scn.get() >= 1
        && is_undo_record(&change.to)
    {
        block.set(change.place, &change.to, scn);
        Some(block)
    } else {
        None
    }
}

// Whether a version comes next after another.
fn is_next(version: u64, next: u64) -> bool
    ensures { result ≡ is_next version next }
{
    version < VERSIONS && next == version + 1 && next < VERSIONS
}
