//! The redo of several threads as one list, in the order in which its records were made.
#![tactic(auto)]

mod laws;
mod merging;
mod tagged;
#[cfg(test)]
mod tests;

pub use laws::{
    a_merge_has_each_record_once, a_merge_is_in_order, a_merge_keeps_the_order_of_a_thread,
};
pub use merging::merge;
pub use tagged::{Tagged, ThreadRedo};
