use base_types::{InstNo, Sequence};
use redo_types::Redo;

/// A redo record with the thread that it stands in.
#[derive(Clone, Copy, Debug, PartialEq, Eq)]
pub struct Tagged {
    pub thread: InstNo,
    pub redo: Redo,
}

/// The whole records that were read of a redo thread, in the order in which they stand there.
#[derive(Debug, Drop)]
pub struct ThreadRedo {
    pub thread: InstNo,
    pub records: Sequence<Redo>,
}
