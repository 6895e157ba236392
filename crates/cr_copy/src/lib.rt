//! Consistent copies: the rows of a data block as they stood at an SCN, with the reader's own changes.
#![tactic(auto)]

mod back;
mod copy;
mod made;
#[cfg(test)]
mod tests;

pub use back::goes_back;
pub use copy::{Pick, Work, make};
pub use made::{Halt, Made};
