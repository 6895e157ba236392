//! The steps of waves and what goes with them: an instance enters a wave and leaves it, a control line finds nothing to do, the
//! next wave rises; the end of a transaction is told, heard and answered; a bucket moves to another master.
//!
//! Each step has a test, `may_..`, and a function that makes it where the test holds.
#![tactic(auto)]

mod answers;
mod begins;
mod buckets;
mod news;
mod openings;
mod wave_ends;

pub use answers::{ack, may_ack};
pub use buckets::{
    BucketMove, keep_bucket, may_keep_bucket, may_send_bucket, may_take_bucket, send_bucket,
    take_bucket,
};
pub use news::{broadcast, hear, may_broadcast, may_hear};
pub use openings::{enter, may_enter};
pub use wave_ends::{leave, may_leave, may_rise, may_skip, rise, skip};
