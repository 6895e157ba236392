//! Data blocks: their 512 bytes, and what redo and undo do to them.
#![tactic(auto)]

mod block;
mod itl;
mod row;
#[cfg(test)]
mod tests;

pub use block::{DataBlock, a_change_is_taken_back};
pub use redo_types::{BadBlock, ItlSlot, RowChange};
pub use row::Row;
