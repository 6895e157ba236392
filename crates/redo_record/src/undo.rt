ghost use Rattle.std.specs.Prelude.{◌≡◌, ◌≤◌, ◌+◌, ◌↔◌, true, drop, length};
ghost use Rattle.base_types.specs.Bytes.{Puts};
ghost use Rattle.part_image.specs.Cells.{Reads, spelled};
ghost use Rattle.redo_record.specs.Parts.{HasUndoRanges};
ghost use Rattle.redo_record.specs.Redo.{IsUndoChange, cells_of, undo_cells};

use base_types::{BlockNo, get_u16, get_u64, put_u16, put_u64};
use part_image::{put_u8, put_undo_record, read_undo_record};
use redo_types::UndoChange;

/// The change of an undo block in the 108 bytes from a place on; `None` where they are none.
pub fn read_undo(bytes: &[u8], at: usize) -> Option<UndoChange>
    requires { at + 108 ≤ length bytes.now }
    ensures { Reads IsUndoChange undo_cells (drop at bytes.now) result }
{
    first_undo(&bytes[at..])
}

fn first_undo(bytes: &[u8]) -> Option<UndoChange>
    requires { 108 ≤ length bytes.now }
    ensures { Reads IsUndoChange undo_cells bytes.now result }
{
    let Some(to) = read_undo_record(bytes, 12) else {
        return None;
    };
    let change = UndoChange {
        block: BlockNo(get_u16(bytes, 1)),
        version: get_u64(bytes, 3),
        place: bytes[11],
        to,
    };
    if has_ranges(bytes, &change) {
        Some(change)
    } else {
        None
    }
}

/// Writes the change of an undo block, which takes 108 bytes, at a place, or nothing where there is
/// none; the place behind it.
pub fn put_undo(out: &mut [u8], at: usize, change: &Option<UndoChange>) -> usize
    requires { at + 108 ≤ length out.old }
    ensures puts { Puts out.old out.new at (spelled (cells_of undo_cells change.now)) }
    ensures next { result ≡ at + length (spelled (cells_of undo_cells change.now)) }
{
    match change {
        Some(change) => {
            put_some_undo(out, at, change);
            at + 108
        }
        None => at,
    }
}

fn put_some_undo(out: &mut [u8], at: usize, change: &UndoChange)
    requires { at + 108 ≤ length out.old }
    ensures { Puts out.old out.new at (spelled (undo_cells change.now)) }
{
    put_u8(out, at, 2);
    put_u16(out, at + 1, change.block.get());
    put_u64(out, at + 3, change.version);
    put_u8(out, at + 11, change.place);
    put_undo_record(out, at + 12, &change.to);
}

// Whether the bytes have the letter of a change of an undo block, and its numbers are in their ranges.
fn has_ranges(bytes: &[u8], change: &UndoChange) -> bool
    requires { 108 ≤ length bytes.now }
    ensures { (result ≡ true) ↔ HasUndoRanges bytes.now change.now }
{
    bytes[0] == 2 && change.version >= 1 && change.place < 4
}
