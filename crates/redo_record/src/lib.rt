//! Redo records as bytes, and what stands at the front of a redo log.
#![tactic(auto)]

mod data;
mod front;
mod head;
mod kind;
mod laws;
mod record;
mod start;
#[cfg(test)]
mod tests;
mod undo;

pub use front::{Front, read_front};
pub use laws::a_cut_log_reads_back;
pub use record::write;
pub use redo_types::{DataChange, HeadChange, Redo, RedoKind, UndoChange};
