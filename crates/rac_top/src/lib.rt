//! The top call: it does all that the program does, over a source, a sink and a disk that are handed in.
#![tactic(auto)]

mod audit_command;
mod exit;
mod failures;
mod reading;
mod run_command;
mod run_end;
mod run_text;
#[cfg(test)]
mod tests;
mod top;
mod writing;

pub use audit_command::audit;
pub use exit::{End, Exit};
pub use run_command::run;
pub use top::rac;
pub use writing::write_told;
