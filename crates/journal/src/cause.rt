use base_types::{BlockNo, InstNo, Xid};

/// Why a statement was refused.
#[derive(Clone, Copy, Debug, PartialEq, Eq)]
pub enum Cause {
    /// ORA-00054: another open transaction holds the row.
    Busy { xid: Xid },
    /// ORA-01555: the place of a wanted undo record holds a later one.
    OldUndo { xid: Xid, wanted: u64, found: u64 },
    /// ORA-01555: the slot of a transaction was used again at least twice.
    OldSlot { xid: Xid, found: u32 },
    /// ORA-30036: the undo segment is full, from its first needed record to its next one.
    NoUndo { first: u64, next: u64 },
    /// RAC-002: eight transactions of the instance are open.
    NoTxnSlot { inst: InstNo },
    /// RAC-001: four other open transactions have the slots of the block.
    NoItl { block: BlockNo, holders: [Xid; 4] },
    /// ORA-01426: the sum is outside 64 bits.
    Overflow { found: i64, by: i64 },
    /// ORA-01086: the session has no such savepoint.
    NoSavepoint,
    /// ORA-03113: the instance crashed or ended while the statement was under way.
    Lost,
    /// ORA-03114: the session's instance was down, or is no longer the one that it was opened on.
    NotConnected,
}
