//! Laws of what is decided of transactions: what holds of one decision after another.
#![tactic(auto)]

mod taken_back;

pub use taken_back::a_decided_change_is_taken_back;
