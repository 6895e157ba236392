//! The script of a load: transfers between rows, made from a seed.
#![tactic(auto)]

mod laws;
mod scripts;
mod transfers;

pub use laws::sessions_have_rows_of_their_own;
pub use scripts::load_script;

#[cfg(test)]
mod tests;
