//! What a transaction does next, decided on what is at hand: the redo record of a change, of an end or of a step back.
#![tactic(auto)]

mod ask;
mod back;
mod change;
mod end;
mod laws;
mod limits;
mod made;
mod parts;
#[cfg(test)]
mod tests;

pub use ask::{ChangeAsk, Decision, Wish};
pub use back::{BackTo, NextBack, block_to_take_back, decide_back, next_back};
pub use change::decide_change;
pub use end::{EndKind, decide_end};
pub use laws::an_end_is_told;
