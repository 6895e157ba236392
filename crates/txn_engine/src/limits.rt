ghost use Rattle.std.specs.Prelude.{◌≡◌, ◌<◌, ◌==◌, ◌&&◌};
ghost use Rattle.undo_image.specs.Header.{slot_at};
ghost use Rattle.undo_segment.specs.Look.{is_active};
ghost use Rattle.txn_engine.specs.Limits.{began_before, has_row, is_data_block, is_under_way, may_go_on, may_rise};

use base_types::{RowNo, Xid};
use block_image::DataBlock;
use undo_image::{TxnState, UndoHeader};

const LIMIT: u64 = 1 << 63;

/// Whether a number has room to rise, as each does in a run.
pub(crate) fn may_rise(number: u64) -> bool
    ensures { result ≡ may_rise number }
{
    number < LIMIT
}

/// Whether a transaction is active in its slot of this header.
pub(crate) fn is_under_way(head: &UndoHeader, xid: &Xid) -> bool
    ensures { result ≡ is_under_way head.now xid.now }
{
    xid.seg.get() == head.seg().get() && xid.slot < 8 && is_active_slot(head, xid)
}

fn is_active_slot(head: &UndoHeader, xid: &Xid) -> bool
    requires { xid.now.slot < 8 }
    ensures { result ≡ ((slot_at head.now xid.now.slot).wrap == xid.now.wrap && is_active (slot_at head.now xid.now.slot).state) }
{
    let slot = head.slot(xid.slot);
    slot.wrap == xid.wrap && is_active(slot.state)
}

fn is_active(state: TxnState) -> bool
    ensures { result ≡ is_active state }
{
    match state {
        TxnState::Active => true,
        TxnState::Never | TxnState::Committed | TxnState::RolledBack => false,
    }
}

/// Whether an image is of one of the 64 data blocks.
pub(crate) fn is_data_block(image: &DataBlock) -> bool
    ensures { result ≡ is_data_block image.now }
{
    image.number().get() < 64
}

/// Whether an image is of the block of a row.
pub(crate) fn has_row(image: &DataBlock, row: RowNo) -> bool
    ensures { result ≡ has_row image.now row }
{
    is_data_block(image) && image.number().get() == row.get() / 8
}

/// Whether the transaction that a change goes on with is under way, if there is one.
pub(crate) fn may_go_on(head: &UndoHeader, own: &Option<Xid>) -> bool
    ensures { result ≡ may_go_on head.now own.now }
{
    match own {
        None => true,
        Some(xid) => is_under_way(head, xid) && head.slot(xid.slot).first <= head.next(),
    }
}
