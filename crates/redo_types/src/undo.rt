use crate::blocks::ItlSlot;
use base_types::{BlockNo, Scn, Value};

/// What became of the transaction that took a slot last.
#[derive(Clone, Copy, Debug, PartialEq, Eq)]
pub enum TxnState {
    /// No transaction ever took the slot.
    Never,
    Active,
    Committed,
    RolledBack,
}

/// A slot of the transaction table in the header of an undo segment.
#[derive(Clone, Copy, Debug, PartialEq, Eq)]
pub struct TxnSlot {
    /// How often the slot was taken.
    pub wrap: u32,
    pub state: TxnState,
    /// The sequence number of the transaction's first undo record while it is active, else 0.
    pub first: u64,
    /// The sequence number of its last undo record that stands, 0 for none.
    pub last: u64,
    /// The SCN of its end, 0 while it is active.
    pub scn: Scn,
    /// The SCN of the end of the transaction that had the slot before it, 0 for none.
    pub prev: Scn,
}

/// What was before a change or a lock of a row.
#[derive(Clone, Copy, Debug, PartialEq, Eq)]
pub struct UndoRecord {
    /// Its sequence number in its segment, from 1.
    pub seq: u64,
    /// The slot of its transaction, 0 to 7.
    pub slot: u8,
    /// The number of the ITL slot that its transaction has in the block, 1 to 4.
    pub itl: u8,
    /// The row in the block, 0 to 7.
    pub row: u8,
    /// Whether its transaction held the row before.
    pub mine: bool,
    /// The wrap of its transaction, at least 1.
    pub wrap: u32,
    pub block: BlockNo,
    /// The block's version after the change, at least 1.
    pub version: u64,
    /// The sequence number of its transaction's undo record that stood before it, 0 for none.
    pub prev: u64,
    /// The ITL slot as it was before.
    pub old_itl: ItlSlot,
    /// What the row held before.
    pub old: Value,
}
