//! What a run of the cluster does with the control lines of its script.
#![tactic(auto)]

mod laws;

pub use laws::{
    a_run_that_is_over_is_whole, each_control_line_has_its_turn,
    each_control_line_is_answered_once, each_line_has_its_turn,
};
