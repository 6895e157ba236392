use base_types::Scn;

/// What the header of its undo segment tells of a transaction.
#[derive(Clone, Copy, Debug, PartialEq, Eq)]
pub enum Status {
    Active,
    /// It ended, committed or rolled back, at this SCN.
    Ended(Scn),
    /// Its slot was taken twice or more since: it ended before the end at this SCN.
    ReusedBelow(Scn),
}
