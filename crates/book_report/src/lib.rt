//! The steps of a run as text.
#![tactic(auto)]

mod names;
mod step_lines;

pub use step_lines::book_text;

#[cfg(test)]
mod tests;
