use base_types::{InstNo, Scn, Xid};
use journal::RowList;

/// A committed transaction, as the redo logs tell it.
#[derive(Debug, Drop)]
pub struct HistoryLine {
    /// The SCN of its commit.
    pub commit_scn: Scn,
    /// The thread that its Commit record stands in.
    pub inst: InstNo,
    pub xid: Xid,
    /// What its changes put into rows, in the order in which it made them.
    pub changes: RowList,
}
