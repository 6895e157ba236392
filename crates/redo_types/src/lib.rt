//! The structs of redo and undo: what a redo record does to the slot of a transaction, to the undo and to a row.
#![tactic(auto)]

mod blocks;
mod redo;
mod undo;

pub use blocks::{BadBlock, ItlSlot, RowChange};
pub use redo::{DataChange, HeadChange, Redo, RedoKind, UndoChange};
pub use undo::{TxnSlot, TxnState, UndoRecord};
