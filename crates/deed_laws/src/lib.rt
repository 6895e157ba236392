//! What the engine decides of a change is what the rules of slots let it do.
#![tactic(auto)]

mod laws;

pub use laws::{
    decided_records_are_deeds, decided_records_take_turns, decided_records_write_their_undo,
    decided_steps_back_are_made_by_the_rules, own_segments_are_at_hand,
};
