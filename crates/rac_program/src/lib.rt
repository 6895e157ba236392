//! All of the program but its real words and streams: which disk the words name, what is done over it, and what
//! standard error is told of the end.
#![tactic(auto)]

mod notes;
mod over_disk;

pub use notes::note_line;
pub use over_disk::program;
