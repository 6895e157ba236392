//! The clock of an instance, and the news of a transaction's end on its way to the other instances.
#![tactic(auto)]

mod broadcast;
mod clock;
#[cfg(test)]
mod tests;

pub use broadcast::Broadcast;
pub use clock::Clock;
