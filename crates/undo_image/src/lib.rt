//! The header of an undo segment and its undo blocks, as 512 bytes and as values.
#![tactic(auto)]

mod header;
mod status;
#[cfg(test)]
mod tests;
mod undo_block;

pub use header::UndoHeader;
pub use redo_types::{BadBlock, TxnSlot, TxnState, UndoRecord};
pub use status::Status;
pub use undo_block::UndoBlock;
