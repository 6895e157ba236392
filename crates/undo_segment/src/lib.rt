//! The undo segment of an instance, whole in memory: its transaction table and the ring of its undo records, what both
//! tell of transactions, and what redo does to them.
#![tactic(auto)]

mod error;
mod faults;
mod fetch;
mod handed;
mod load;
mod look;
mod segment;
mod table;
#[cfg(test)]
mod tests;

pub use error::LoadError;
pub use fetch::Fetch;
pub use handed::Handed;
pub use look::Look;
pub use segment::{Segment, UndoFull};
