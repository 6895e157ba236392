use crate::blocks::RowChange;
use crate::undo::{TxnSlot, UndoRecord};
use base_types::{BlockNo, Scn, Xid};

/// What a redo record is of.
#[derive(Clone, Copy, Debug, PartialEq, Eq)]
pub enum RedoKind {
    /// A row got a new value.
    Change,
    /// A row was locked.
    Lock,
    /// A change or a lock was taken back for good.
    StepBack,
    Commit,
    /// A whole rollback ended.
    RollbackEnd,
}

/// What a redo record does to a slot in the header of an undo segment.
#[derive(Clone, Copy, Debug, PartialEq, Eq)]
pub struct HeadChange {
    pub block: BlockNo,
    /// The block's version afterwards, at least 1.
    pub version: u64,
    /// The slot, 0 to 7.
    pub slot: u8,
    /// The next sequence number of the segment afterwards, at least 1.
    pub next: u64,
    /// The slot afterwards.
    pub to: TxnSlot,
}

/// An undo record that a redo record writes into an undo block.
#[derive(Clone, Copy, Debug, PartialEq, Eq)]
pub struct UndoChange {
    pub block: BlockNo,
    /// The block's version afterwards, at least 1.
    pub version: u64,
    /// The place in the undo block, 0 to 3.
    pub place: u8,
    pub to: UndoRecord,
}

/// What a redo record does to a data block.
#[derive(Clone, Copy, Debug, PartialEq, Eq)]
pub struct DataChange {
    /// The block, 0 to 63.
    pub block: BlockNo,
    /// The block's version afterwards, at least 1.
    pub version: u64,
    pub to: RowChange,
}

/// A redo record. A Change and a Lock have all three changes, a StepBack those of the header and of
/// the data block, a Commit and a RollbackEnd that of the header.
#[derive(Clone, Copy, Debug, PartialEq, Eq)]
pub struct Redo {
    pub kind: RedoKind,
    /// Its transaction.
    pub xid: Xid,
    /// Its own SCN, which becomes that of each block that it touches; at least 1.
    pub scn: Scn,
    /// The sequence number of the undo record that it makes or takes back, at least 1; 0 for an end.
    pub seq: u64,
    pub head: HeadChange,
    pub undo: Option<UndoChange>,
    pub row: Option<DataChange>,
}
