//! Who looks on at a run to draw a picture of it.
#![tactic(auto)]

mod signs;
mod watcher;

pub use signs::sign_of;
pub use watcher::Watcher;
