//! What follows from the definitions of the machine for each of its runs.
#![tactic(auto)]

mod laws;

pub use laws::{
    a_calm_run_ends_nobody, a_run_changes_no_plan, a_run_only_adds_entries,
    a_step_adds_what_it_tells, an_end_is_counted, ends_are_counted, sessions_are_of_the_script,
};
