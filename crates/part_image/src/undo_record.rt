ghost use Rattle.std.specs.Prelude.{◌≡◌, ◌≤◌, ◌<◌, ◌+◌, ◌↔◌, true, drop, length};
ghost use Rattle.base_types.specs.Bytes.{Puts};
ghost use Rattle.part_image.specs.Cells.{Reads, spelled};
ghost use Rattle.part_image.specs.Undo.{IsUndoPlace, IsUndoRecord, HasRanges, HasClearSpaces, undo_place_cells, undo_record_bytes, undo_record_cells};

use crate::bit::{bit_of, fact_of};
use crate::bytes::{are_zeros, put_u8, put_zeros};
use crate::itl::{put_itl, read_itl};
use crate::value::{bits_of, flag_of, value_of};
use base_types::{BlockNo, get_u16, get_u32, get_u64, put_u16, put_u32, put_u64};
use redo_types::UndoRecord;

/// The undo record in the 96 bytes from a place on; `None` where they are none.
pub fn read_undo_record(bytes: &[u8], at: usize) -> Option<UndoRecord>
    requires { at + 96 ≤ length bytes.now }
    ensures { Reads IsUndoRecord undo_record_cells (drop at bytes.now) result }
{
    first_undo_record(&bytes[at..])
}

fn first_undo_record(bytes: &[u8]) -> Option<UndoRecord>
    requires { 96 ≤ length bytes.now }
    ensures { Reads IsUndoRecord undo_record_cells bytes.now result }
{
    let Some(mine) = fact_of(bytes[11]) else {
        return None;
    };
    let Some(old_itl) = read_itl(bytes, 40) else {
        return None;
    };
    let Some(old) = value_of(bytes[56], get_u64(bytes, 64)) else {
        return None;
    };
    let record = UndoRecord {
        seq: get_u64(bytes, 0),
        slot: bytes[8],
        itl: bytes[9],
        row: bytes[10],
        mine,
        wrap: get_u32(bytes, 12),
        block: BlockNo(get_u16(bytes, 16)),
        version: get_u64(bytes, 24),
        prev: get_u64(bytes, 32),
        old_itl,
        old,
    };
    if has_clear_spaces(bytes) && has_ranges(&record) {
        Some(record)
    } else {
        None
    }
}

/// What stands in the 96 bytes from a place on that an undo record has: a record, or none where they
/// are zero; `None` where they are neither.
pub fn read_undo_place(bytes: &[u8], at: usize) -> Option<Option<UndoRecord>>
    requires { at + 96 ≤ length bytes.now }
    ensures { Reads IsUndoPlace undo_place_cells (drop at bytes.now) result }
{
    if are_zeros(bytes, at, 96) {
        return Some(None);
    }
    match read_undo_record(bytes, at) {
        Some(record) => Some(Some(record)),
        None => None,
    }
}

/// Writes an undo record, which takes 96 bytes, at a place.
pub fn put_undo_record(out: &mut [u8], at: usize, undo: &UndoRecord)
    requires { at + 96 ≤ length out.old }
    ensures { Puts out.old out.new at (undo_record_bytes undo.now) }
{
    put_u64(out, at, undo.seq);
    put_u8(out, at + 8, undo.slot);
    put_u8(out, at + 9, undo.itl);
    put_u8(out, at + 10, undo.row);
    put_u8(out, at + 11, bit_of(undo.mine));
    put_u32(out, at + 12, undo.wrap);
    put_u16(out, at + 16, undo.block.get());
    put_zeros(out, at + 18, 6);
    put_u64(out, at + 24, undo.version);
    put_u64(out, at + 32, undo.prev);
    put_itl(out, at + 40, undo.old_itl);
    put_u8(out, at + 56, flag_of(undo.old));
    put_zeros(out, at + 57, 7);
    put_u64(out, at + 64, bits_of(undo.old));
    put_zeros(out, at + 72, 24);
}

/// Writes what stands at the place of an undo record, which takes 96 bytes.
pub fn put_undo_place(out: &mut [u8], at: usize, place: &Option<UndoRecord>)
    requires { at + 96 ≤ length out.old }
    ensures { Puts out.old out.new at (spelled (undo_place_cells place.now)) }
{
    match place {
        Some(record) => put_undo_record(out, at, record),
        None => put_zeros(out, at, 96),
    }
}

// Whether the bytes that no number has are zero.
fn has_clear_spaces(bytes: &[u8]) -> bool
    requires { 96 ≤ length bytes.now }
    ensures { (result ≡ true) ↔ HasClearSpaces bytes.now }
{
    are_zeros(bytes, 18, 6) && are_zeros(bytes, 57, 7) && are_zeros(bytes, 72, 24)
}

// Whether the numbers of an undo record are in their ranges.
fn has_ranges(undo: &UndoRecord) -> bool
    ensures { (result ≡ true) ↔ HasRanges undo.now }
{
    undo.seq >= 1
        && undo.slot < 8
        && undo.itl >= 1
        && undo.itl <= 4
        && undo.row < 8
        && undo.wrap >= 1
        && undo.version >= 1
}
