//! The leader of a recovery reads a dead thread, and closes it once all is rebuilt.
#![tactic(auto)]

mod closes;
mod entering;
mod entries;
mod finding;
mod found;
mod kinds;
mod laws;
mod logs;
mod read_error;
mod reads;
mod records;
mod taking;
mod versions;

pub use closes::{Closing, close_thread, may_close};
pub use found::{BlockVersion, Found, FoundLog};
pub use laws::a_committed_enters_once;
pub use reads::{may_read, read_thread};
