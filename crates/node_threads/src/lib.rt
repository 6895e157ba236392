//! Threads for the actors of any machine: each works, asks a gate and takes its turns until the run has
//! ended.
#![tactic(auto)]

mod actor;
mod choice;
mod end;
mod gate;
mod run;
mod threads;

pub use end::WhyStopped;
pub use gate::{FreeGate, FreeNo, Gate};
pub use run::{ActorsError, run_actors};
