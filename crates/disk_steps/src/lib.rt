//! The steps that call the disk while the cluster runs: redo is forced, a block is written or read, a checkpoint ends, an
//! instance crashes. How the calls went is returned, and the step's definition goes by it; where one failed, the instance
//! ends.
#![tactic(auto)]

mod crashes;
mod forces;
mod installs;
mod positions;
mod ready;
mod undo_asks;
mod writing;

pub use crashes::{Kept, crash};
pub use forces::{force, may_force};
pub use installs::{Installed, install, may_install};
pub use positions::{end_checkpoint, may_end_checkpoint, with_made};
pub use undo_asks::{AskedUndo, Lacking, ask_undo, ask_undo_dead, may_ask_undo, may_ask_undo_dead};
pub use writing::{Target, is_due, may_write_block, redo_is_durable, write_due};
