//! What follows from the definitions of undo segments.
#![tactic(auto)]

mod laws;

pub use laws::room_is_refused_to_save_open_undo;
