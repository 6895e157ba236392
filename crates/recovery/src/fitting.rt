ghost use Rattle.std.specs.Prelude.{◌≡◌, ◌<◌, ◌≤◌, ◌^◌, true, map};
ghost use Rattle.block_image.specs.Block.{IsBlock, row_at};
ghost use Rattle.block_image.specs.Changes.{applied, let_go, unlocked};
ghost use Rattle.recovery.specs.Roll.{can_change, is_in_range, locks_name_slots, names_slot};

use crate::parts::{always_is_value, is_itl};
use base_types::Scn;
use block_image::{DataBlock, Row};
use redo_types::{ItlSlot, RowChange};

// Whether a change of a row by a record with this SCN leaves a block.
pub(crate) fn can_change(block: &DataBlock, change: &RowChange, scn: Scn) -> bool
    ensures test { result ≡ can_change block.now change.now scn }
    ensures sound { result ≡ true → block.now.front.version < 2 ^ 62 → IsBlock (applied block.now change.now scn) }
{
    always_is_block(block);
    always_is_value(change.value);
    if !is_in_range(change, scn) {
        return false;
    }
    is_itl(&change.slot) && locks_name_slots(block, change)
}

fn is_in_range(change: &RowChange, scn: Scn) -> bool
    ensures test { result ≡ is_in_range change.now scn }
    ensures row { result ≡ true → change.now.row < 8 }
    ensures some_itl { result ≡ true → 1 ≤ change.now.itl }
    ensures itl { result ≡ true → change.now.itl ≤ 4 }
    ensures some_scn { result ≡ true → 1 ≤ scn }
    ensures scn { scn < 2 ^ 64 }
{
    let some_scn = scn.get() >= 1;
    some_scn && change.row < 8 && change.itl >= 1 && change.itl <= 4
}

// Whether each lock byte after a change of a row is 0 or names a used ITL slot.
fn locks_name_slots(block: &DataBlock, change: &RowChange) -> bool
    requires row { change.now.row < 8 }
    requires some_itl { 1 ≤ change.now.itl }
    requires itl { change.now.itl ≤ 4 }
    ensures { result ≡ locks_name_slots block.now change.now }
{
    let mut slots = slots_of(block);
    slots[usize::from(change.itl) - 1] = change.slot;
    let mut rows = rows_of(block);
    let_go(&mut rows, change.fresh, change.itl);
    rows[usize::from(change.row)] = Row {
        value: change.value,
        lock: change.lock,
    };
    rows.iter().all(|row| names_slot(&slots, row.lock))
}

// A data block always is one.
fn always_is_block(block: &DataBlock)
    ensures { IsBlock block.now }
{
    let _copy = block.copy();
}

fn slots_of(block: &DataBlock) -> [ItlSlot; 4]
    ensures { result ≡ block.now.itl }
{
    always_is_block(block);
    [block.itl(1), block.itl(2), block.itl(3), block.itl(4)]
}

fn rows_of(block: &DataBlock) -> [Row; 8]
    ensures { result ≡ block.now.rows }
{
    always_is_block(block);
    [
        row_in(block, 0),
        row_in(block, 1),
        row_in(block, 2),
        row_in(block, 3),
        row_in(block, 4),
        row_in(block, 5),
        row_in(block, 6),
        row_in(block, 7),
    ]
}

fn row_in(block: &DataBlock, row: u8) -> Row
    requires { row < 8 }
    ensures { result ≡ row_at block.now.rows row }
{
    Row {
        value: block.row(row),
        lock: block.lock(row),
    }
}

// Where the ITL slot with this number is taken anew, takes the locks that name it from the rows.
fn let_go(rows: &mut [Row], fresh: bool, itl: u8)
    ensures { rows.new ≡ let_go fresh itl rows.old }
{
    if fresh {
        unlock_all(rows, itl);
    }
}

fn unlock_all(rows: &mut [Row], itl: u8)
    ensures { rows.new ≡ map (unlocked itl) rows.old }
{
    for row in rows.iter_mut() {
        *row = without_lock(*row, itl);
    }
}

fn without_lock(row: Row, itl: u8) -> Row
    ensures { result ≡ unlocked itl row }
{
    if row.lock == itl {
        Row { lock: 0, ..row }
    } else {
        row
    }
}

// Whether a lock byte is 0 or names a used ITL slot.
fn names_slot(slots: &[ItlSlot; 4], lock: u8) -> bool
    ensures { result ≡ names_slot slots.now lock }
{
    lock == 0 || lock <= 4 && slots[usize::from(lock) - 1].xid.wrap >= 1
}
