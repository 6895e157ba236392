//! What a run of a script promises of its journal: each line is answered as it asks and in its turn.
#![tactic(auto)]

mod examples;
mod laws;
mod whole;

pub use examples::{
    all_lines_are_answered, controls_are_asked, holds_are_kept, lines_have_their_turns,
    refusals_have_causes, wrong_rows_and_answers_are_refused,
};
pub use laws::{
    only_a_crash_or_a_start_moves_a_wave, only_a_new_number_moves_a_wave,
    open_transactions_are_named, tests_pass_at_each_place,
};
pub use whole::whole_runs_are_good;
