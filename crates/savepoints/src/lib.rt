//! The savepoints of a session.
#![tactic(auto)]

mod marks;
#[cfg(test)]
mod tests;

pub use marks::Marks;
