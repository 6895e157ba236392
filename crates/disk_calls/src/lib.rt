//! The disk's calls as the steps of instances make them: how each went is a value that the step's definition goes by.
#![tactic(auto)]

mod appends;
mod images;
mod writes;

pub use appends::{Appended, append};
pub use images::{ReadData, ReadUndo, load_data, load_head, load_undo};
pub use writes::{Written, cut_log, log_len, write_block, write_control};
