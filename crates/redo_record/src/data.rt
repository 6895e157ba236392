ghost use Rattle.std.specs.Prelude.{◌≡◌, ◌≤◌, ◌+◌, ◌↔◌, true, drop, length};
ghost use Rattle.base_types.specs.Bytes.{Puts};
ghost use Rattle.part_image.specs.Cells.{Reads, spelled};
ghost use Rattle.redo_record.specs.Parts.{HasDataRanges};
ghost use Rattle.redo_record.specs.Redo.{IsDataChange, cells_of, data_cells};

use base_types::{BlockNo, get_u16, get_u64, put_u16, put_u64};
use part_image::{bit_of, bits_of, fact_of, flag_of, put_itl, put_u8, read_itl, value_of};
use redo_types::{DataChange, RowChange};

/// The change of a data block in the 40 bytes from a place on; `None` where they are none.
pub fn read_data(bytes: &[u8], at: usize) -> Option<DataChange>
    requires { at + 40 ≤ length bytes.now }
    ensures { Reads IsDataChange data_cells (drop at bytes.now) result }
{
    first_data(&bytes[at..])
}

fn first_data(bytes: &[u8]) -> Option<DataChange>
    requires { 40 ≤ length bytes.now }
    ensures { Reads IsDataChange data_cells bytes.now result }
{
    let Some(fresh) = fact_of(bytes[14]) else {
        return None;
    };
    let Some(slot) = read_itl(bytes, 15) else {
        return None;
    };
    let Some(value) = value_of(bytes[31], get_u64(bytes, 32)) else {
        return None;
    };
    let change = DataChange {
        block: BlockNo(get_u16(bytes, 1)),
        version: get_u64(bytes, 3),
        to: RowChange {
            row: bytes[11],
            lock: bytes[12],
            itl: bytes[13],
            fresh,
            slot,
            value,
        },
    };
    if has_ranges(bytes, &change) {
        Some(change)
    } else {
        None
    }
}

/// Writes the change of a data block, which takes 40 bytes, at a place, or nothing where there is none.
pub fn put_data(out: &mut [u8], at: usize, change: &Option<DataChange>)
    requires { at + 40 ≤ length out.old }
    ensures { Puts out.old out.new at (spelled (cells_of data_cells change.now)) }
{
    if let Some(change) = change {
        put_some_data(out, at, change);
    }
}

fn put_some_data(out: &mut [u8], at: usize, change: &DataChange)
    requires { at + 40 ≤ length out.old }
    ensures { Puts out.old out.new at (spelled (data_cells change.now)) }
{
    put_u8(out, at, 3);
    put_u16(out, at + 1, change.block.get());
    put_u64(out, at + 3, change.version);
    put_u8(out, at + 11, change.to.row);
    put_u8(out, at + 12, change.to.lock);
    put_u8(out, at + 13, change.to.itl);
    put_u8(out, at + 14, bit_of(change.to.fresh));
    put_itl(out, at + 15, change.to.slot);
    put_u8(out, at + 31, flag_of(change.to.value));
    put_u64(out, at + 32, bits_of(change.to.value));
}

// Whether the bytes have the letter of a change of a data block, and its numbers are in their ranges.
fn has_ranges(bytes: &[u8], change: &DataChange) -> bool
    requires { 40 ≤ length bytes.now }
    ensures { (result ≡ true) ↔ HasDataRanges bytes.now change.now }
{
    bytes[0] == 3
        && change.version >= 1
        && change.block.get() < 64
        && change.to.row < 8
        && change.to.lock <= 4
        && change.to.itl >= 1
        && change.to.itl <= 4
}
