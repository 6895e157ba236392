//! An audit of the redo logs of a disk: what they say was committed, as text.
#![tactic(auto)]

mod call;
mod error;
mod reading;
#[cfg(test)]
mod tests;
mod text;

pub use call::audit;
pub use error::AuditError;
