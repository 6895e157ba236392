//! That the directory's code does what the protocol of one block says: what a master does with a message is a run of the
//! protocol's steps, and the entry that it makes of the reports is the protocol's.
//!
//! A crate of laws: each function has an empty body, and its clauses are theorems. The program's entries and messages
//! become the protocol's in `specs/Entries.antt` and `specs/Messages.antt`.
#![tactic(auto)]

mod samples;
mod ties;

pub use samples::sample_states;
pub use ties::{
    a_cache_follows, a_directory_is_made_by_entries, a_directory_takes_at_one_entry,
    a_master_takes_from_the_links, a_message_goes_on, a_message_is_a_run,
    a_message_is_taken_among_all_blocks, a_run_of_the_master_is_one_of_turns, an_entry_moves,
    the_links_bear_the_bag, the_reports_make_the_entry,
};
