//! Whether a journal is good as far as no script is needed.
#![tactic(auto)]

mod checks;
mod commits;
mod deeds;
mod past;
mod place;
mod sight;
mod stood;

pub use checks::check;
