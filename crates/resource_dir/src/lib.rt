//! The directory: what the master of a block does with the messages on it, and the buckets of blocks that an instance
//! masters.
#![tactic(auto)]

mod asks;
mod directory;
mod ends;
mod holders;
mod laws;
mod pasts;
mod reported;
mod takes;
#[cfg(test)]
mod tests;

use base_types::InstNo;
pub use directory::{Directory, a_bucket_moves_whole};
pub use laws::a_new_entry_has_no_operation;
pub use reported::{rebuild, rebuilt};
pub use takes::{an_operation_is_held_up, messages_wait_for_an_operation, take};
use wire_net::{Fifo, Message};

/// The messages that a master sends, each with the instance to which it goes, in their order.
pub type Outbox = Fifo<(InstNo, Message)>;
