ghost use Rattle.std.specs.Prelude.{◌≡◌, ◌<◌, ◌^◌, true};
ghost use Rattle.part_image.specs.Slots.{IsItl, IsValue};
ghost use Rattle.part_image.specs.Cells.{AllFit};
ghost use Rattle.part_image.specs.Undo.{HasRanges, IsTxnSlot, IsUndoRecord, txn_slot_cells, undo_record_cells};
ghost use Rattle.recovery.specs.Parts.{has_ranges, has_state, is_itl, is_txn_slot, is_undo_record, names_end_before};

use base_types::Value;
use redo_types::{ItlSlot, TxnSlot, TxnState, UndoRecord};

// Whether this is an ITL slot: one that was never used, or that of a transaction.
pub(crate) fn is_itl(slot: &ItlSlot) -> bool
    ensures test { result ≡ is_itl slot.now }
    ensures sound { result ≡ true → IsItl slot.now }
{
    let xid = &slot.xid;
    if xid.wrap == 0 {
        xid.seg.get() == 0 && xid.slot == 0 && slot.seq == 0
    } else {
        xid.seg.get() < 8 && xid.slot < 8 && slot.seq >= 1
    }
}

// What a row holds is always a value.
pub(crate) fn always_is_value(value: Value)
    ensures { IsValue value }
{}

// Whether this is a slot of the transaction table.
pub(crate) fn is_txn_slot(slot: &TxnSlot) -> bool
    ensures test { result ≡ is_txn_slot slot.now }
    ensures sound { result ≡ true → IsTxnSlot slot.now }
{
    always_fits(slot);
    has_state(slot) && names_end_before(slot)
}

// The numbers of a slot always have room in its bytes.
fn always_fits(slot: &TxnSlot)
    ensures { AllFit (txn_slot_cells slot.now) }
{
    let _wrap = slot.wrap;
    let _first = slot.first;
    let _last = slot.last;
    let _scn = slot.scn.get();
    let _prev = slot.prev.get();
}

fn has_state(slot: &TxnSlot) -> bool
    ensures { result ≡ has_state slot.now.state slot.now }
{
    match slot.state {
        TxnState::Never => {
            slot.wrap == 0 && slot.first == 0 && slot.last == 0 && slot.scn.get() == 0
        }
        TxnState::Active => {
            slot.wrap >= 1
                && slot.first >= 1
                && (slot.last == 0 || slot.first <= slot.last)
                && slot.scn.get() == 0
        }
        TxnState::Committed | TxnState::RolledBack => {
            slot.wrap >= 1 && slot.first == 0 && slot.last == 0 && slot.scn.get() >= 1
        }
    }
}

fn names_end_before(slot: &TxnSlot) -> bool
    ensures { result ≡ names_end_before slot.now }
{
    if slot.wrap <= 1 {
        slot.prev.get() == 0
    } else {
        slot.prev.get() >= 1
    }
}

// Whether this is an undo record that was written.
pub(crate) fn is_undo_record(undo: &UndoRecord) -> bool
    ensures test { result ≡ is_undo_record undo.now }
    ensures sound { result ≡ true → IsUndoRecord undo.now }
{
    numbers_fit(undo);
    always_is_value(undo.old);
    has_ranges(undo) && is_itl(&undo.old_itl)
}

// The numbers of an undo record always have room in its bytes.
fn numbers_fit(undo: &UndoRecord)
    ensures seq { undo.now.seq < 2 ^ 64 }
    ensures wrap { undo.now.wrap < 2 ^ 32 }
    ensures block { undo.now.block < 2 ^ 16 }
    ensures version { undo.now.version < 2 ^ 64 }
    ensures prev { undo.now.prev < 2 ^ 64 }
{
    let _seq = undo.seq;
    let _wrap = undo.wrap;
    let _block = undo.block.get();
    let _version = undo.version;
    let _prev = undo.prev;
}

fn has_ranges(undo: &UndoRecord) -> bool
    ensures test { result ≡ has_ranges undo.now }
    ensures sound { result ≡ true → HasRanges undo.now }
{
    undo.seq >= 1
        && undo.slot < 8
        && undo.itl >= 1
        && undo.itl <= 4
        && undo.row < 8
        && undo.wrap >= 1
        && undo.version >= 1
}
