//! A script's text from the script: what is printed reads back as the script that it was.
#![tactic(auto)]

mod laws;

pub use laws::a_printed_script_reads_back;
