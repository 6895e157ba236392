ghost use Rattle.std.specs.Prelude.{◌≡◌, ◌≤◌, ◌+◌, ◌↔◌, true, drop, length};
ghost use Rattle.base_types.specs.Bytes.{Puts};
ghost use Rattle.part_image.specs.Cells.{Reads};
ghost use Rattle.part_image.specs.Undo.{HasState, IsReadState, IsTxnSlot, NamesEndBefore, state_number, txn_slot_bytes, txn_slot_cells};

use crate::bytes::{are_zeros, put_u8, put_zeros};
use base_types::{Scn, get_u32, get_u64, put_u32, put_u64};
use redo_types::{TxnSlot, TxnState};

/// The slot of a transaction table in the 40 bytes from a place on; `None` where they are none.
pub fn read_txn_slot(bytes: &[u8], at: usize) -> Option<TxnSlot>
    requires { at + 40 ≤ length bytes.now }
    ensures { Reads IsTxnSlot txn_slot_cells (drop at bytes.now) result }
{
    first_txn_slot(&bytes[at..])
}

fn first_txn_slot(bytes: &[u8]) -> Option<TxnSlot>
    requires { 40 ≤ length bytes.now }
    ensures { Reads IsTxnSlot txn_slot_cells bytes.now result }
{
    let Some(state) = state_of(bytes[4]) else {
        return None;
    };
    let slot = TxnSlot {
        wrap: get_u32(bytes, 0),
        state,
        first: get_u64(bytes, 8),
        last: get_u64(bytes, 16),
        scn: Scn(get_u64(bytes, 24)),
        prev: Scn(get_u64(bytes, 32)),
    };
    if are_zeros(bytes, 5, 3) && has_state(&slot) && names_end_before(&slot) {
        Some(slot)
    } else {
        None
    }
}

/// Writes a slot of a transaction table, which takes 40 bytes, at a place.
pub fn put_txn_slot(out: &mut [u8], at: usize, slot: TxnSlot)
    requires { at + 40 ≤ length out.old }
    ensures { Puts out.old out.new at (txn_slot_bytes slot) }
{
    put_u32(out, at, slot.wrap);
    put_u8(out, at + 4, number_of(slot.state));
    put_zeros(out, at + 5, 3);
    put_u64(out, at + 8, slot.first);
    put_u64(out, at + 16, slot.last);
    put_u64(out, at + 24, slot.scn.get());
    put_u64(out, at + 32, slot.prev.get());
}

// Whether a slot has what its state asks.
fn has_state(slot: &TxnSlot) -> bool
    ensures { (result ≡ true) ↔ HasState slot.now.state slot.now }
{
    match slot.state {
        TxnState::Never => {
            slot.wrap == 0 && slot.first == 0 && slot.last == 0 && slot.scn.get() == 0
        }
        TxnState::Active => {
            slot.wrap >= 1
                && slot.first >= 1
                && (slot.last == 0 || slot.first <= slot.last)
                && slot.scn.get() == 0
        }
        TxnState::Committed | TxnState::RolledBack => {
            slot.wrap >= 1 && slot.first == 0 && slot.last == 0 && slot.scn.get() >= 1
        }
    }
}

// Whether a slot names the end of a transaction before exactly where there was one.
fn names_end_before(slot: &TxnSlot) -> bool
    ensures { (result ≡ true) ↔ NamesEndBefore slot.now }
{
    (slot.wrap <= 1) == (slot.prev.get() == 0)
}

fn state_of(number: u8) -> Option<TxnState>
    ensures { IsReadState number result }
{
    match number {
        0 => Some(TxnState::Never),
        1 => Some(TxnState::Active),
        2 => Some(TxnState::Committed),
        3 => Some(TxnState::RolledBack),
        _ => None,
    }
}

fn number_of(state: TxnState) -> u8
    ensures { result ≡ state_number state }
{
    match state {
        TxnState::Never => 0,
        TxnState::Active => 1,
        TxnState::Committed => 2,
        TxnState::RolledBack => 3,
    }
}
