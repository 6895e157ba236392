//! The journal of a run, and what it says: what transactions have done, the history of commits, and what a session
//! sees. (A run's journal is its trace; the log of changes on the disk is its redo.)
#![tactic(auto)]

mod cause;
mod deeds;
mod entry;
mod laws;

pub use cause::Cause;
pub use deeds::{Change, Commit, Deed, Start};
pub use entry::{Entry, Journal, RowList};
pub use laws::clauses_hold_at_each_place;
