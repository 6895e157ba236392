use base_types::{InstNo, UndoAt};

/// What an answer waits for, since it isn't at hand.
#[derive(Clone, Copy, Debug, PartialEq, Eq)]
pub enum Wanted {
    /// The header of the undo segment of this instance.
    Head(InstNo),
    /// The undo block that has the place of this undo record.
    Undo(UndoAt),
}
