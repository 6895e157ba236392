//! Sets of instances.
#![tactic(auto)]

mod set;

pub use set::{ALL_INSTS, InstSet};
