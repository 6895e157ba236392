ghost use Rattle.std.specs.Prelude.{◌≡◌, ◌≤◌, ◌+◌, ◌↔◌, true, drop, length};
ghost use Rattle.base_types.specs.Bytes.{Puts};
ghost use Rattle.part_image.specs.Cells.{Reads, spelled};
ghost use Rattle.redo_record.specs.Parts.{HasHeadRanges};
ghost use Rattle.redo_record.specs.Redo.{IsHeadChange, head_cells};

use base_types::{BlockNo, get_u16, get_u64, put_u16, put_u64};
use part_image::{put_txn_slot, put_u8, read_txn_slot};
use redo_types::HeadChange;

/// The change of a header in the 60 bytes from a place on; `None` where they are none.
pub fn read_head(bytes: &[u8], at: usize) -> Option<HeadChange>
    requires { at + 60 ≤ length bytes.now }
    ensures { Reads IsHeadChange head_cells (drop at bytes.now) result }
{
    first_head(&bytes[at..])
}

fn first_head(bytes: &[u8]) -> Option<HeadChange>
    requires { 60 ≤ length bytes.now }
    ensures { Reads IsHeadChange head_cells bytes.now result }
{
    let Some(to) = read_txn_slot(bytes, 20) else {
        return None;
    };
    let change = HeadChange {
        block: BlockNo(get_u16(bytes, 1)),
        version: get_u64(bytes, 3),
        slot: bytes[11],
        next: get_u64(bytes, 12),
        to,
    };
    if has_ranges(bytes, &change) {
        Some(change)
    } else {
        None
    }
}

/// Writes the change of a header, which takes 60 bytes, at a place.
pub fn put_head(out: &mut [u8], at: usize, change: &HeadChange)
    requires { at + 60 ≤ length out.old }
    ensures { Puts out.old out.new at (spelled (head_cells change.now)) }
{
    put_u8(out, at, 1);
    put_u16(out, at + 1, change.block.get());
    put_u64(out, at + 3, change.version);
    put_u8(out, at + 11, change.slot);
    put_u64(out, at + 12, change.next);
    put_txn_slot(out, at + 20, change.to);
}

// Whether the bytes have the letter of a change of a header, and its numbers are in their ranges.
fn has_ranges(bytes: &[u8], change: &HeadChange) -> bool
    requires { 60 ≤ length bytes.now }
    ensures { (result ≡ true) ↔ HasHeadRanges bytes.now change.now }
{
    bytes[0] == 1 && change.version >= 1 && change.slot < 8 && change.next >= 1
}
