//! That the machine plays the protocol of each block, step by step. `Plays` says of instances, links and masters that they show a
//! state of the protocol of each block which a run of it leads to; the laws say of kinds of steps that they keep it.
//!
//! A crate of laws: each function has an empty body, and its clauses are theorems. It is not whole yet: docs/BLOCK_PROTOCOL.md tells
//! which kinds of steps are there.
#![tactic(auto)]

mod steps;

pub use steps::{
    a_master_plays, a_master_stays_sane, quiet_steps_play, steps_with_blocks_play,
    steps_with_images_play, steps_with_redo_play, the_first_world_plays,
};
