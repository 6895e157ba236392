use base_types::{InstNo, RowNo, Scn, Sequence, Value, Xid};

/// What the start of a statement says: its session, and the SCN up to which it sees commits.
#[derive(Clone, Copy, Debug, PartialEq, Eq)]
pub struct Start {
    pub session: u16,
    pub snapshot: Scn,
}

/// A change of a row: what was found there, and what was put.
#[derive(Clone, Copy, Debug, PartialEq, Eq)]
pub struct Change {
    pub row: RowNo,
    pub found: Value,
    pub new: Value,
}

/// What a statement did to a row: it changed it, or locked it.
#[derive(Clone, Copy, Debug, PartialEq, Eq)]
pub enum Deed {
    Changes(Change),
    Locks(RowNo),
}

/// A commit: its SCN, the instance that made it, its transaction, and the changes that it made, the newest first.
#[derive(Debug, Drop)]
pub struct Commit {
    pub commit_scn: Scn,
    pub inst: InstNo,
    pub xid: Xid,
    pub changes: Sequence<Change>,
}
