//! That what an instance does with the images of a block is what the protocol of one block says: each message to a holder,
//! to an asker or to a reader, and each step that an instance makes of its own, is a step of the protocol.
//!
//! A crate of laws: each function has an empty body, and its clauses are theorems.
#![tactic(auto)]

mod holders;

pub use holders::{
    a_block_stays_shown, a_copy_is_served_and_taken, a_run_of_a_holder_is_one_of_turns,
    an_image_is_installed, an_instance_acts_on_its_image, an_invalidate_is_obeyed,
    an_order_is_followed, past_images_and_pleas_are_taken,
};
