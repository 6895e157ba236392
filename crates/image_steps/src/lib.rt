//! The steps by which images of blocks and undo move from instance to instance: a block is asked for, shipped, copied and
//! given up, and a past image of it goes. Each needs the instance's own part and what the instances share.
//!
//! Each step has a test, `may_..`, and a function that makes it.
#![tactic(auto)]

mod asking;
mod coming;
mod copying;
mod evicting;
mod frames;
mod hearing;
mod invalidating;
mod mastering;
mod pasts;
mod plea;
mod sends;
mod shipping;
mod undo_serving;

pub use asking::{ask, lacked, may_ask, needs_frame};
pub use coming::{drop_came, hand_in, may_take_copy, take_copy};
pub use copying::{may_serve_copy, serve_copy};
pub use evicting::{can_evict, evict, may_evict};
pub use frames::{has_idle_dirty, left_frame};
pub use hearing::{first_message, hear};
pub use invalidating::{invalidate, may_invalidate};
pub use mastering::{master_block, may_take_at_master, take_at_master};
pub use pasts::{drop_past, may_drop_past};
pub use plea::{ask_write, may_ask_write};
pub use sends::{send, send_to_master};
pub use shipping::{may_ship, ship};
pub use undo_serving::{may_serve_undo, place_in, serve_undo};
