//! The steps by which a leader rebuilds lost blocks and thaws the cluster, and by which an instance joins.
//!
//! Each step has a test, `may_..`, and a function that makes it where the test holds. The function tells how the step's calls
//! of the disk went, by which its contract says what was left on the disk and in memory; where a call failed, or what was read
//! is such that no run leaves it, the instance has ended.
#![tactic(auto)]

mod adopts;
mod bounds;
mod ends;
mod epochs;
mod images;
mod joins;
mod opens;
mod recovers;
mod thaws;

pub use images::Image;
pub use joins::{Joined, join, may_join};
pub use opens::Opened;
pub use recovers::{Recovered, may_recover, recover_block};
pub use thaws::{Thawed, may_thaw, thaw};
