//! The control entry of a redo thread, as bytes.
#![tactic(auto)]

mod entry;
#[cfg(test)]
mod tests;

pub use entry::{ControlEntry, ThreadStatus};
