ghost use Rattle.std.specs.Prelude.{◌≡◌, ◌≤◌, ◌+◌, ◌↔◌, ◌⊎◌, true, drop, length};
ghost use Rattle.base_types.specs.Bytes.{Puts};
ghost use Rattle.part_image.specs.Cells.{Reads};
ghost use Rattle.part_image.specs.Slots.{IsItl, IsUsedItl, itl_bytes, itl_cells, unused_itl};

use crate::bytes::are_zeros;
use base_types::{get_u64, get_xid, put_u64, put_xid};
use redo_types::ItlSlot;

/// The ITL slot in the 16 bytes from a place on; `None` where they are none.
pub fn read_itl(bytes: &[u8], at: usize) -> Option<ItlSlot>
    requires { at + 16 ≤ length bytes.now }
    ensures { Reads IsItl itl_cells (drop at bytes.now) result }
{
    first_itl(&bytes[at..])
}

fn first_itl(bytes: &[u8]) -> Option<ItlSlot>
    requires { 16 ≤ length bytes.now }
    ensures { Reads IsItl itl_cells bytes.now result }
{
    let slot = ItlSlot {
        xid: get_xid(bytes, 0),
        seq: get_u64(bytes, 8),
    };
    if are_zeros(bytes, 2, 2) && is_slot(&slot) {
        Some(slot)
    } else {
        None
    }
}

/// Writes an ITL slot, which takes 16 bytes, at a place.
pub fn put_itl(out: &mut [u8], at: usize, slot: ItlSlot)
    requires { at + 16 ≤ length out.old }
    ensures { Puts out.old out.new at (itl_bytes slot) }
{
    put_xid(out, at, slot.xid);
    put_u64(out, at + 8, slot.seq);
}

// Whether what was read is a slot never used or a used one.
fn is_slot(slot: &ItlSlot) -> bool
    ensures { (result ≡ true) ↔ ((slot.now ≡ unused_itl) ⊎ IsUsedItl slot.now) }
{
    if slot.xid.wrap == 0 {
        slot.xid.seg.get() == 0 && slot.xid.slot == 0 && slot.seq == 0
    } else {
        slot.xid.seg.get() < 8 && slot.xid.slot < 8 && slot.seq >= 1
    }
}
