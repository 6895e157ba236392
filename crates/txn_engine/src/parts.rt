ghost use Rattle.std.specs.Prelude.{◌≡◌, ◌≤◌, ◌<◌, ◌+◌, ◌^◌, IfSome};
ghost use Rattle.block_image.specs.Block.{IsBlock};
ghost use Rattle.part_image.specs.Undo.{IsUndoRecord};
ghost use Rattle.undo_image.specs.UndoBlock.{IsUndoBlock};
ghost use Rattle.txn_engine.specs.Parts.{data_change, head_change, undo_at, undo_block_at};

use block_image::DataBlock;
use redo_types::{DataChange, HeadChange, RowChange, TxnSlot, UndoRecord};
use undo_image::{UndoBlock, UndoHeader};
use undo_segment::Segment;

/// What a record does to a header: it has one version more, this next sequence number, and this slot.
#[tactic(auto, unfolding(crate::specs::Parts::head_change))]
pub(crate) fn head_change(head: &UndoHeader, slot: u8, next: u64, to: TxnSlot) -> HeadChange
    requires { head.now.front.version < 2 ^ 63 }
    ensures { result ≡ head_change head.now slot next to }
{
    HeadChange {
        block: head.number(),
        version: head.version() + 1,
        slot,
        next,
        to,
    }
}

/// What a record does to a data block: a row is changed, and the block has one version more.
#[tactic(auto, unfolding(crate::specs::Parts::data_change))]
pub(crate) fn data_change(image: &DataBlock, change: &RowChange) -> DataChange
    requires { image.now.front.version < 2 ^ 63 }
    ensures { result ≡ data_change image.now change.now }
{
    DataChange {
        block: image.number(),
        version: image.version() + 1,
        to: *change,
    }
}

/// The undo block that has the place of a sequence number, from 1, in the ring.
pub(crate) fn undo_block_at(segment: &Segment, seq: u64) -> &UndoBlock
    requires { 1 ≤ seq }
    ensures value { result.now ≡ undo_block_at segment.now seq }
    ensures is { IsUndoBlock result.now }
{
    segment.always_is_segment();
    let place = (seq - 1) % u64::from(segment.undo_len());
    let block = segment.block((place / 4) as u8);
    block.always_is_undo_block();
    block
}

/// The undo record in the place of a sequence number, from 1, in the ring.
pub(crate) fn undo_at(segment: &Segment, seq: u64) -> Option<UndoRecord>
    requires { 1 ≤ seq }
    ensures value { result ≡ undo_at segment.now seq }
    ensures is { IfSome result IsUndoRecord }
{
    undo_block_at(segment, seq).at(((seq - 1) % 4) as u8)
}

/// A law: a data block always is one.
pub(crate) fn always_is_block(image: &DataBlock)
    ensures { IsBlock image.now }
{
    let _same = image.copy();
}
