//! An instance ends: what it had in memory is lost, and what the instances share forgets what was under way.
#![tactic(auto)]

mod ends;
mod losing;
mod parts;
mod refusals;

pub use ends::Loss;
pub use losing::lose;
