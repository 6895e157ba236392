//! What a change of membership asks of memory alone: how far a recovery has come, what an instance reports and hands to the
//! leader, what it takes over of the new directories, and how the cluster runs again.
//!
//! Each step has a test, `may_..`, and a function that makes it where the test holds.
#![tactic(auto)]

mod laws;
mod recovering;
mod reopening;
mod reporting;
mod taking;

pub use laws::{
    a_recovery_is_seen_whole, a_report_tells_each_image, a_take_over_keeps_images,
    a_take_over_meets_each_block,
};
pub use recovering::{
    all_closed, are_read, are_rebuilt, is_dead, is_read, is_rebuilt, is_to_rebuild, leads_recovery,
};
pub use reopening::{is_ready_but_forced, may_reopen, may_resume, reopen, resume};
pub use reporting::{give, may_give, may_report, report};
pub use taking::take_over;
