ghost use Rattle.std.specs.Prelude.{◌≡◌, ◌≤◌, ◌<◌, ◌+◌, ◌-◌, ◌^◌, Ok, length, IfErr, IfOk};
ghost use Rattle.part_image.specs.Cells.{IsFirstWrong};
ghost use Rattle.part_image.specs.Slots.{IsItl, IsValue};
ghost use Rattle.block_image.specs.Block.{BlockContent, IsBlock, block_bytes, data_fields, row_at, slot_at};
ghost use Rattle.block_image.specs.Changes.{applied, empty_block, restored, taken_back, values_of};

use crate::itl::{put_slots, read_slots};
use crate::row::{Row, put_rows, read_rows, unlock};
use base_types::{BlockNo, InstNo, Scn, Value, Xid};
use part_image::{BlockFront, BlockKind, are_zeros, put_front, put_zeros, read_front};
use redo_types::{BadBlock, ItlSlot, RowChange};
use std::marker::Model;

const UNUSED: ItlSlot = ItlSlot {
    xid: Xid {
        seg: InstNo(0),
        slot: 0,
        wrap: 0,
    },
    seq: 0,
};

const CLEAR: Row = Row {
    value: Value::Absent,
    lock: 0,
};

/// A block of eight rows, with the ITL slots of the transactions that changed or locked them.
#[derive(Debug, Drop)]
pub struct DataBlock {
    front: BlockFront,
    itl: [ItlSlot; 4],
    rows: [Row; 8],
}

impl Model for DataBlock {
    ghost use Rattle.block_image.specs.Block.{BlockContent, IsBlock};

    ghost Value = { BlockContent };

    ghost view = { λ b. record { front = b.front; itl = b.itl; rows = b.rows } };

    ghost invariant = { λ b. IsBlock (record { front = b.front; itl = b.itl; rows = b.rows }) };
}

impl DataBlock {
    /// The block with a number that no record touched: its rows are absent.
    pub fn empty(number: BlockNo) -> DataBlock
        ensures { result ≡ empty_block number }
    {
        DataBlock {
            front: BlockFront {
                number,
                seg: InstNo(0),
                version: 0,
                scn: Scn(0),
                next: 0,
            },
            itl: [UNUSED; 4],
            rows: [CLEAR; 8],
        }
    }

    /// The block whose bytes these are. An `Err` has the first of the fields 1 to 10 that is wrong.
    pub fn read(bytes: &[u8; 512]) -> Result<DataBlock, BadBlock>
        ensures ok { IfOk result (λ b. IsBlock b × (bytes.now ≡ block_bytes b)) }
        ensures only { (b : BlockContent) → IsBlock b → bytes.now ≡ block_bytes b → result ≡ Ok b }
        ensures err { IfErr result (λ e. IsFirstWrong IsBlock data_fields bytes.now e.field) }
    {
        let front = read_front(BlockKind::Data, bytes)?;
        let Some(itl) = read_slots(bytes) else {
            return Err(BadBlock { field: 8 });
        };
        let Some(rows) = read_rows(bytes, &itl) else {
            return Err(BadBlock { field: 9 });
        };
        if !are_zeros(bytes, 224, 288) {
            return Err(BadBlock { field: 10 });
        }
        Ok(DataBlock { front, itl, rows })
    }

    /// Writes the bytes of the block.
    pub fn write(&self, out: &mut [u8; 512])
        ensures { out.new ≡ block_bytes self.now }
    {
        put_front(out, BlockKind::Data, &self.front);
        put_slots(out, 32, &self.itl);
        put_rows(out, 96, &self.rows);
        put_zeros(out, 224, 288);
    }

    /// Makes a change of a row, by the redo record with this SCN. The version goes up by one.
    pub fn apply(&mut self, change: &RowChange, scn: Scn)
        requires row { change.now.row < 8 }
        requires some_itl { 1 ≤ change.now.itl }
        requires itl { change.now.itl ≤ 4 }
        requires version { self.old.front.version < 2 ^ 64 - 1 }
        requires scn { 1 ≤ scn }
        requires block { IsBlock (applied self.old change.now scn) }
        ensures { self.new ≡ applied self.old change.now scn }
    {
        self.front.version += 1;
        self.front.scn = scn;
        self.itl[usize::from(change.itl) - 1] = change.slot;
        unlock(&mut self.rows, change.fresh, change.itl);
        self.rows[usize::from(change.row)] = Row {
            value: change.value,
            lock: change.lock,
        };
    }

    /// Gives an ITL slot and a row's value back what they were before a change. The row keeps its lock,
    /// unless the slot was unused: then no row keeps a lock that names it.
    pub fn restore(&mut self, itl: u8, slot: ItlSlot, row: u8, value: Value)
        requires row { row < 8 }
        requires some_itl { 1 ≤ itl }
        requires itl { itl ≤ 4 }
        requires slot { IsItl slot }
        requires value { IsValue value }
        ensures { self.new ≡ restored self.old itl slot row value }
    {
        let is_unused = slot.xid.wrap == 0;
        self.itl[usize::from(itl) - 1] = slot;
        self.rows[usize::from(row)].value = value;
        unlock(&mut self.rows, is_unused, itl);
    }

    /// The number of the block.
    pub fn number(&self) -> BlockNo
        ensures { result ≡ self.now.front.number }
    {
        self.front.number
    }

    /// How many redo records touched it.
    pub fn version(&self) -> u64
        ensures { result ≡ self.now.front.version }
    {
        self.front.version
    }

    /// The SCN of the last redo record that touched it, 0 where none did.
    pub fn scn(&self) -> Scn
        ensures { result ≡ self.now.front.scn }
    {
        self.front.scn
    }

    /// What a row holds, by its number in the block, 0 to 7.
    pub fn row(&self, r: u8) -> Value
        requires { r < 8 }
        ensures { result ≡ (row_at self.now.rows r).value }
    {
        self.rows[usize::from(r)].value
    }

    /// The lock byte of a row, by its number in the block, 0 to 7: 0, or the number of an ITL slot.
    pub fn lock(&self, r: u8) -> u8
        requires { r < 8 }
        ensures { result ≡ (row_at self.now.rows r).lock }
    {
        self.rows[usize::from(r)].lock
    }

    /// An ITL slot by its number, 1 to 4.
    pub fn itl(&self, k: u8) -> ItlSlot
        requires some { 1 ≤ k }
        requires few { k ≤ 4 }
        ensures { result ≡ slot_at self.now.itl k }
    {
        self.itl[usize::from(k) - 1]
    }

    /// A block with the same content.
    pub fn copy(&self) -> DataBlock
        ensures equal { result ≡ self.now }
        ensures block { IsBlock self.now }
    {
        let front = &self.front;
        let [first, second, third, fourth] = &self.itl;
        DataBlock {
            front: *front,
            itl: [*first, *second, *third, *fourth],
            rows: self.rows,
        }
    }
}

/// A law: a change that was made is taken back by giving its ITL slot and its row back what they were.
pub fn a_change_is_taken_back(change: &RowChange, scn: Scn)
    requires row { change.now.row < 8 }
    requires some_itl { 1 ≤ change.now.itl }
    requires last_itl { change.now.itl ≤ 4 }
    ensures itl { (b : BlockContent) → length b.itl ≡ 4 → length b.rows ≡ 8 → (taken_back b change.now scn).itl ≡ b.itl }
    ensures values { (b : BlockContent) → length b.itl ≡ 4 → length b.rows ≡ 8 → values_of (taken_back b change.now scn).rows ≡ values_of b.rows }
{}
