//! The history of a database, read from its redo logs.
#![tactic(auto)]

mod changes;
mod error;
mod history;
mod laws;
mod line;
mod reading;

pub use error::LogError;
pub use history::history_of;
pub use laws::a_log_reads_one_way;
pub use line::HistoryLine;

#[cfg(test)]
mod tests;
