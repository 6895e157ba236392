use base_types::{Value, Xid};

/// A slot of a data block's list of interested transactions (its ITL). A slot that was never used
/// is all zero; in a used one the wrap of the transaction and the sequence number are 1 or more.
#[derive(Clone, Copy, Debug, PartialEq, Eq)]
pub struct ItlSlot {
    /// The transaction that has the slot.
    pub xid: Xid,
    /// The sequence number of its newest undo record of this block.
    pub seq: u64,
}

/// What a redo record does to a row of a data block.
#[derive(Clone, Copy, Debug, PartialEq, Eq)]
pub struct RowChange {
    /// The row in the block, 0 to 7.
    pub row: u8,
    /// The row's lock byte afterwards: 0, or the number of the ITL slot that has it, 1 to 4.
    pub lock: u8,
    /// The number of the ITL slot, 1 to 4.
    pub itl: u8,
    /// Whether the ITL slot is taken anew: then no row keeps a lock byte that names it.
    pub fresh: bool,
    /// The ITL slot afterwards.
    pub slot: ItlSlot,
    /// What the row holds afterwards.
    pub value: Value,
}

/// Bytes that are no block.
#[derive(Clone, Copy, Debug, PartialEq, Eq)]
pub struct BadBlock {
    /// The number of the first field that is wrong, from 1.
    pub field: u8,
}
