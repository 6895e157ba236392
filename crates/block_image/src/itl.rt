ghost use Rattle.std.specs.Prelude.{◌≤◌, ◌+◌, ◌*◌, drop, length};
ghost use Rattle.base_types.specs.Bytes.{Puts};
ghost use Rattle.part_image.specs.Cells.{Reads, spelled};
ghost use Rattle.block_image.specs.Parts.{AreSlots, slots_cells};

use part_image::{put_itl, read_itl};
use redo_types::ItlSlot;

/// The four ITL slots in the bytes 32 to 95 of a block; `None` where they are none.
pub(crate) fn read_slots(bytes: &[u8]) -> Option<[ItlSlot; 4]>
    requires { 96 ≤ length bytes.now }
    ensures { Reads AreSlots slots_cells (drop 32 bytes.now) result }
{
    Some([
        read_itl(bytes, 32)?,
        read_itl(bytes, 48)?,
        read_itl(bytes, 64)?,
        read_itl(bytes, 80)?,
    ])
}

/// Writes ITL slots, each of which takes 16 bytes, from a place on.
pub(crate) fn put_slots(out: &mut [u8], at: usize, slots: &[ItlSlot])
    requires { at + 16 * length slots.now ≤ length out.old }
    ensures { Puts out.old out.new at (spelled (slots_cells slots.now)) }
{
    for (k, slot) in slots.iter().enumerate() {
        put_itl(out, at + 16 * k, *slot);
    }
}
