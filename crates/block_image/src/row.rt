ghost use Rattle.std.specs.Prelude.{◌≡◌, ◌≤◌, ◌+◌, ◌*◌, ◌↔◌, true, drop, length, map};
ghost use Rattle.base_types.specs.Bytes.{Puts};
ghost use Rattle.part_image.specs.Cells.{Reads, spelled};
ghost use Rattle.block_image.specs.Block.{NamesSlot, row_cells};
ghost use Rattle.block_image.specs.Changes.{let_go, unlocked};
ghost use Rattle.block_image.specs.Parts.{AreRows, IsRowOf, rows_cells};

use base_types::{Value, get_u64, put_u64};
use part_image::{are_zeros, bits_of, flag_of, put_u8, put_zeros, value_of};
use redo_types::ItlSlot;

/// A row of a data block.
#[derive(Clone, Copy, Debug, PartialEq, Eq)]
pub struct Row {
    /// What it holds.
    pub value: Value,
    /// Its lock byte: 0, or the number of the ITL slot that has it, 1 to 4.
    pub lock: u8,
}

/// The eight rows in the bytes 96 to 223 of a block with these ITL slots; `None` where they are none.
pub(crate) fn read_rows(bytes: &[u8], itl: &[ItlSlot; 4]) -> Option<[Row; 8]>
    requires { 224 ≤ length bytes.now }
    ensures { Reads (AreRows itl.now) rows_cells (drop 96 bytes.now) result }
{
    Some([
        read_row(bytes, 96, itl)?,
        read_row(bytes, 112, itl)?,
        read_row(bytes, 128, itl)?,
        read_row(bytes, 144, itl)?,
        read_row(bytes, 160, itl)?,
        read_row(bytes, 176, itl)?,
        read_row(bytes, 192, itl)?,
        read_row(bytes, 208, itl)?,
    ])
}

fn read_row(bytes: &[u8], at: usize, itl: &[ItlSlot; 4]) -> Option<Row>
    requires { at + 16 ≤ length bytes.now }
    ensures { Reads (IsRowOf itl.now) row_cells (drop at bytes.now) result }
{
    first_row(&bytes[at..], itl)
}

fn first_row(bytes: &[u8], itl: &[ItlSlot; 4]) -> Option<Row>
    requires { 16 ≤ length bytes.now }
    ensures { Reads (IsRowOf itl.now) row_cells bytes.now result }
{
    let value = value_of(bytes[0], get_u64(bytes, 8))?;
    let lock = bytes[1];
    if are_zeros(bytes, 2, 6) && names_slot(itl, lock) {
        Some(Row { value, lock })
    } else {
        None
    }
}

// Whether a lock byte is 0 or names a used ITL slot.
fn names_slot(itl: &[ItlSlot; 4], lock: u8) -> bool
    ensures { (result ≡ true) ↔ NamesSlot itl.now lock }
{
    lock == 0 || lock <= 4 && itl[usize::from(lock) - 1].xid.wrap >= 1
}

/// Writes rows, each of which takes 16 bytes, from a place on.
pub(crate) fn put_rows(out: &mut [u8], at: usize, rows: &[Row])
    requires { at + 16 * length rows.now ≤ length out.old }
    ensures { Puts out.old out.new at (spelled (rows_cells rows.now)) }
{
    for (k, row) in rows.iter().enumerate() {
        put_row(out, at + 16 * k, *row);
    }
}

fn put_row(out: &mut [u8], at: usize, row: Row)
    requires { at + 16 ≤ length out.old }
    ensures { Puts out.old out.new at (spelled (row_cells row)) }
{
    put_u8(out, at, flag_of(row.value));
    put_u8(out, at + 1, row.lock);
    put_zeros(out, at + 2, 6);
    put_u64(out, at + 8, bits_of(row.value));
}

/// Where the ITL slot with this number is let go, takes the locks that name it from the rows.
pub(crate) fn unlock(rows: &mut [Row], free: bool, itl: u8)
    ensures { rows.new ≡ let_go free itl rows.old }
{
    if free {
        unlock_all(rows, itl);
    }
}

fn unlock_all(rows: &mut [Row], itl: u8)
    ensures { rows.new ≡ map (unlocked itl) rows.old }
{
    for row in rows.iter_mut() {
        *row = without_lock(*row, itl);
    }
}

fn without_lock(row: Row, itl: u8) -> Row
    ensures { result ≡ unlocked itl row }
{
    if row.lock == itl {
        Row { lock: 0, ..row }
    } else {
        row
    }
}
