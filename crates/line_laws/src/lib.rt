//! What a run of the cluster does with the statement lines of its script: each starts in its wave and is answered once, in the
//! order of its session, and all are once the last wave is over.
#![tactic(auto)]

mod laws;

pub use laws::{
    a_run_that_is_over_answered_all, a_wave_rises_once_the_earlier_are_answered,
    each_line_is_answered_once, lines_are_answered_in_order, what_starts_is_asked_for,
};
