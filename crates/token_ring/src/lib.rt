//! A small machine for tests: actors that count for themselves and hand a token on.
#![tactic(auto)]

mod machine;
mod ring;
#[cfg(test)]
mod tests;

pub use machine::Ring;
pub use ring::{Counter, Step, Token};
