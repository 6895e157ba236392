use base_types::{RowNo, Scn, Value, Xid};
use journal::Cause;
use redo_types::Redo;
use txn_slots::Wanted;

/// What a statement wishes of a row.
#[derive(Clone, Copy, Debug, PartialEq, Eq)]
pub enum Wish {
    Put(Value),
    /// Adds a number, to 0 where the row is absent.
    Add(i64),
    Del,
    Lock,
}

/// A change or a lock of a row that a statement asks for.
#[derive(Clone, Copy, Debug, PartialEq, Eq)]
pub struct ChangeAsk {
    pub wish: Wish,
    pub row: RowNo,
    /// The SCN of the statement's last start.
    pub snapshot: Scn,
    /// The transaction of its session, if that has one.
    pub own: Option<Xid>,
}

/// What is decided of a change or a lock.
#[derive(Clone, Copy, Debug, PartialEq, Eq)]
pub enum Decision {
    /// It can't be told before this is at hand.
    Need(Wanted),
    /// The redo is forced first: an end that the row waited for may not be on the disk.
    ForceFirst,
    /// The statement starts again with this SCN or a later one.
    Restart(Scn),
    Refuse(Cause),
    /// A lock of a row that the transaction holds.
    AlreadyMine,
    /// This record is made.
    Do(Redo),
    /// What is at hand is such that no run leaves it.
    Bad,
}
