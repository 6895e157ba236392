//! The plan of a disk in memory that fails, as a text.
#![tactic(auto)]

mod plan;

pub use plan::{Plan, plan_in};
