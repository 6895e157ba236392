//! Turns between threads: one book of steps for any machine of actors that share one value.
#![tactic(auto)]

mod answer;
mod board;
mod book;
mod machine;
mod plays;
mod seat;

pub use answer::Turn;
pub use book::{Book, Closed};
pub use machine::Machine;
pub use seat::Seat;
