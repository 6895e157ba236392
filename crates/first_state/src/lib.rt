//! The state before the first step, as a script sets it, and the database made anew.
#![tactic(auto)]

mod asking;
mod controls;
mod cores;
mod creation;
mod insts;
mod laws;
mod plans;
mod turns;

pub use cores::first_core;
pub use creation::{Created, create};
pub use insts::first_inst;
pub use laws::a_new_database_holds_the_segments;
pub use plans::{first_plan, layout_of};
