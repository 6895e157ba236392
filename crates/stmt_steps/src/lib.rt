//! The steps of statements: a line starts, reads a block, changes a row, comes to its transaction's end, takes a change back
//! or is answered without a block. Each needs the instance's own part alone, and tells the journal.
//!
//! Each step has a test, `may_..`, and a function that makes it where the test holds.
#![tactic(auto)]

mod answers;
mod backs;
mod changes;
mod marks;
mod starts;
mod visits;

pub use answers::{Answer, end, may_end};
pub use backs::{
    back_decided, dead_back_decided, may_step_back, may_step_back_dead, step_back, step_back_dead,
};
pub use changes::{change, change_decided, may_change};
pub use marks::{dead_job, is_job, mark, mark_dead, may_mark, may_mark_dead};
pub use starts::{may_start, start};
pub use visits::{may_visit, read_made, refuse, visit};
