//! The words of the command line, as `clap` reads them.
#![tactic(auto)]

mod command;
mod error;
mod folder;
mod laws;
mod numbers;
mod order;
mod reading;
#[cfg(test)]
mod tests;

pub use error::WordsError;
pub use folder::Folder;
pub use laws::{known_words_give_an_order, usual_words_are_read};
pub use order::{Order, RunOptions};
pub use reading::read_words;
